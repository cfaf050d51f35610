//! Rams that tell whether they can fail.
#![tactic(auto)]

ghost use Rattle.std.specs.Prelude.{◌≡◌, Bool, true};

use crate::cache_ram::CacheRam;

/// A cache ram that tells whether it is steady: whether no call of it ever fails. So who steps through many words has to
/// look for no failure between two of them.
pub trait SteadyRam: CacheRam {
    /// Whether no call of a ram of this type ever fails.
    ghost steady: { Bool };

    /// Whether no call of it ever fails: a steady ram has counted no fault, and counts none.
    fn is_steady(&self) -> bool
        ensures value { result ≡ steady }
        ensures faultless { steady ≡ true → (Self.state self.now).faults ≡ 0 };
}
