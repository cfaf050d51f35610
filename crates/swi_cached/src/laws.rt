//! Laws of runs out of a cache, whatever their programs are.
#![tactic(auto)]

ghost use Rattle.swi_cached.specs.Cached.{AreCounted, CachedRun, IsFlatRun, StopsBeforeStore};

/// Three laws of what a run is, for who reads what `run_cached` says; it does nothing.
///
/// However many steps are made: where none of them would store into the text, the program's run is the flat machine's;
/// where one would, it ends before the first that does; and it fetches as many words as are counted.
pub fn laws_of_cached_runs()
    ensures flat { (c : CachedRun) → IsFlatRun c }
    ensures stops { (c : CachedRun) → StopsBeforeStore c }
    ensures words { (c : CachedRun) → AreCounted c }
{}
