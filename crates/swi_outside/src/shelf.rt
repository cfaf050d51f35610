ghost use Rattle.swi_outside.specs.Shelf.{ShelfState, WasGot, WasPut};

use std::alloc::Global;

/// What a shelf answers in place of a content.
#[derive(Clone, Copy, Debug, PartialEq, Eq)]
pub enum ShelfError {
    /// The shelf could not do it, as for a name that is not there.
    Failed,
    /// The content has more bytes than the limit.
    Long,
    /// There was no memory for the call.
    Memory,
}

/// Contents under names, as files in a folder.
pub trait Shelf {
    /// What stands under each name, where the shelf tells it, what it gave and stored, how often it was asked, and its
    /// failed calls.
    ghost state: { Self → ShelfState };

    /// The whole content under `name`, of at most `limit` bytes. It changes no content.
    ///
    /// `Long` comes only where the content has more than `limit` bytes. Where it has, and where the name
    /// is not there, no `Ok` comes.
    fn get(&mut self, alloc: Global, name: &str, limit: u32) -> Result<Vec<u8>, ShelfError>
        ensures got { WasGot (state self.old) (state self.new) name.now limit result };

    /// Sets the content under `name`, and leaves all others. It never answers `Long`.
    ///
    /// After `Failed` nothing is known of that name alone, and after `Memory` every content is as it
    /// was.
    fn put(&mut self, alloc: Global, name: &str, bytes: &[u8]) -> Result<(), ShelfError>
        ensures put { WasPut (state self.old) (state self.new) name.now bytes.now result };
}
