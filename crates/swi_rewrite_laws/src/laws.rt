//! Laws of what commands write and run, which follow from what `top` answers.
#![tactic(auto)]

ghost use Rattle.swi_rewrite_laws.specs.Ran.{NoCacheMatters};
ghost use Rattle.swi_rewrite_laws.specs.Written.{WritesOriginals};

/// Two laws of the answers of [`top`](swi_top::top), for who reads them; it does nothing.
///
/// Two runs of a file end alike, whatever cache, ring or rate each is given. And so do a run of a file and one of what
/// `rewrite` or `upgrade` has made of it, which passes all checks.
pub fn laws_of_rewriting()
    ensures results { NoCacheMatters }
    ensures originals { WritesOriginals }
{}
