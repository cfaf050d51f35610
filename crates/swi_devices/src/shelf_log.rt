ghost use Rattle.std.specs.Prelude.{◌≡◌, ◌++◌, ◌∷◌, [], string_bytes};
ghost use Rattle.swi_devices.specs.ByteLog.{bytes_in};
ghost use Rattle.swi_devices.specs.ShelfLog.{passed_in};
ghost use Rattle.swi_outside.specs.Shelf.{got_after};

use crate::byte_log::ByteLog;
use std::snapshot::Snapshot;
use swi_outside::ShelfError;

/// The names and the contents that a shelf gave, or those that it stored, the last one first: what a shelf keeps of them,
/// a snapshot, takes no bytes when it runs.
#[derive(Drop)]
pub enum ShelfLog {
    None,
    /// A content in memory.
    Held(Snapshot<Snapshot<ShelfLog>>, Snapshot<String>, Snapshot<Vec<u8>>),
    /// A content as its file took it, piece by piece.
    Taken(Snapshot<Snapshot<ShelfLog>>, Snapshot<String>, Snapshot<ByteLog>),
}

/// Notes what a get of a name answered. It takes no time when it runs.
pub fn note_got(log: &mut Snapshot<ShelfLog>, name: &String, answer: &Result<Vec<u8>, ShelfError>)
    ensures { passed_in log.new.value ≡ got_after (passed_in log.old.value) (string_bytes name.now) answer.now }
{
    if let Ok(bytes) = answer {
        *log = Snapshot::of(&ShelfLog::Held(
            Snapshot::of(log),
            Snapshot::of(name),
            Snapshot::of(bytes),
        ));
    }
}

/// Notes what the file of a name took. It takes no time when it runs.
pub fn note_taken(log: &mut Snapshot<ShelfLog>, name: &String, took: Snapshot<ByteLog>)
    ensures { passed_in log.new.value
        ≡ passed_in log.old.value ++ (string_bytes name.now, bytes_in took.value) ∷ [] }
{
    *log = Snapshot::of(&ShelfLog::Taken(Snapshot::of(log), Snapshot::of(name), took));
}
