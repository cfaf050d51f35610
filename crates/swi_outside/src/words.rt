ghost use Rattle.std.specs.Prelude.{◌≡◌, ◌<◌, ℕ, List, length, slice_index};

/// Words that stand one behind the other.
pub trait Words {
    ghost items: { Self → List ℕ };

    /// How many.
    fn count(&self) -> u32
        ensures { result ≡ length (items self.now) };

    /// The word with this number, from 0.
    fn word(&self, k: u32) -> u32
        requires { k < length (items self.now) }
        ensures { result ≡ slice_index (items self.now) k };
}
