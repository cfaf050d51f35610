//! Laws of runs, which follow from what the board's functions answer.
#![tactic(auto)]

ghost use Rattle.swi_run_laws.specs.Runs.{BreaksSo, FetchesWithin, GoesOnMidway, RunsInSteps};

use swi_rom::CacheRom;

/// Two laws of what [`Board::run`](swi_board::Board::run) answers, for who reads it; it does nothing.
///
/// A run that came to its end has made the flat machine's steps: its record, its machine instructions and the words that
/// it fetched are those of their transfers and of their cost. And what stands where a device broke a run off is said by
/// the moment before.
pub fn laws_of_runs<S: CacheRom>()
    ensures steps { RunsInSteps S.service }
    ensures broke { BreaksSo S.service }
{}

/// Two laws of machine instructions told forwards: from midway in an instruction, and of the words that were fetched on
/// the way.
pub fn laws_of_moments()
    ensures midway { GoesOnMidway }
    ensures within { FetchesWithin }
{}
