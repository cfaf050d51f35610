//! What is told of a board when its run is over.
#![tactic(auto)]

ghost use Rattle.std.specs.Prelude.{◌≡◌, OnErr, Some, []};
ghost use Rattle.swi_outside.specs.Causes.{HasCause};
ghost use Rattle.swi_outside.specs.Sink.{WritesPiece};
ghost use Rattle.swi_task.specs.Runs.{report};
ghost use Rattle.swi_cached_task.specs.Caching.{board_work};

use swi_board::Board;
use swi_cached_task::{board_work, final_state};
use swi_command::Reports;
use swi_outside::{Failed, Sink};
use swi_rom::CacheRom;
use swi_task::write_report;

/// Writes what is asked for of a board's end.
pub(crate) fn report_board<O: Sink, S: CacheRom>(
    reports: &Reports,
    board: &Board<S>,
    out: &mut O,
) -> Result<(), Failed>
    ensures bytes { WritesPiece (O.state out.old).held (O.state out.new).held result (report reports.now board.now.hart.machine
        (Some (board_work board.now.hart.count board.now.hart.machine.ending (S.service.kept board.now.rom)))) }
    ensures cause { HasCause (O.state out.old).faults (O.state out.new).faults result }
    ensures asked { OnErr result (report reports.now board.now.hart.machine
        (Some (board_work board.now.hart.count board.now.hart.machine.ending (S.service.kept board.now.rom))) ≡ [] → ⊥) }
{
    let work = board_work(board);
    write_report(reports, &final_state(board), Some(&work), out)
}
