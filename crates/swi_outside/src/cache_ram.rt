ghost use Rattle.std.specs.Prelude.{◌≡◌, ◌+◌, ◌<◌, ◌≤◌, length, OnErr, OnOk};
ghost use Rattle.swi_outside.specs.CacheRam.{RamState, Fetched, WordSet, WordsSet, WordsBroke};

use crate::{Failed, Words};

/// The small memory of 32-bit words that cached code is run from.
pub trait CacheRam {
    /// Its words, and what was done to it.
    ghost state: { Self → RamState };

    /// The number of words.
    fn words(&self) -> u32
        ensures { result ≡ length (state self.now).words };

    /// The word at index `i`, which is below `words()`. A fetch, failed or not, changes no word.
    ///
    /// `Failed` comes only where the count of faults rose; it raises `reach` all the same.
    fn fetch(&mut self, i: u32) -> Result<u32, Failed>
        requires { i < length (state self.old).words }
        ensures fetched { Fetched (state self.old) i result (state self.new) };

    /// Puts `w` at index `i`, which is below `words()`.
    ///
    /// `Failed` leaves that word old or new, and every other as it was. It comes only where the count of
    /// faults rose; it raises `reach` all the same.
    fn set(&mut self, i: u32, w: u32) -> Result<(), Failed>
        requires { i < length (state self.old).words }
        ensures set { WordSet (state self.old) i w result (state self.new) };

    /// Puts words one behind the other from index `first` on, as `set` does each.
    ///
    /// `Failed` comes only where the count of faults rose; words beside theirs are as they were then too.
    fn set_all<W: Words>(&mut self, first: u32, words: &W) -> Result<(), Failed>
        requires { first + length (W.items words.now) ≤ length (state self.old).words }
        ensures set { OnOk result (WordsSet first (W.items words.now) (state self.old) (state self.new)) }
        ensures failed { OnErr result (WordsBroke first (length (W.items words.now)) (state self.old) (state self.new)) }
    {
        // Their count has 32 bits, so each index below has.
        let _words = self.words();
        for k in 0..words.count() {
            self.set(first + k, words.word(k))?;
        }
        Ok(())
    }
}
