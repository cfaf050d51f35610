//! What is told of a board whose run is over.
#![tactic(auto)]

ghost use Rattle.std.specs.Prelude.{◌≡◌};
ghost use Rattle.swi_cached_task.specs.Caching.{board_work};

use swi_board::Board;
use swi_calls::End;
use swi_exec::FaultKind;
use swi_report::{FinalState, Work};
use swi_rom::CacheRom;

/// How a board stands.
pub fn final_state<S: CacheRom>(board: &Board<S>) -> FinalState<'_>
    ensures pc { result.pc ≡ board.now.hart.machine.pc }
    ensures regs { result.regs.now ≡ board.now.hart.machine.regs }
    ensures bus { result.bus.now ≡ board.now.hart.machine.bus }
    ensures heap { result.heap ≡ board.now.hart.machine.heap }
    ensures steps { result.steps ≡ board.now.hart.machine.steps }
{
    FinalState {
        pc: board.origin_pc(),
        regs: board.regs(),
        bus: board.bus(),
        heap: board.heap(),
        steps: board.steps(),
    }
}

/// What a board has done besides the steps of its program.
pub fn board_work<S: CacheRom>(board: &Board<S>) -> Work
    ensures { result ≡ board_work board.now.hart.count board.now.hart.machine.ending (S.service.kept board.now.rom) }
{
    let counts = board.rom().counts();
    let unfetched = match board.ending() {
        Some(End::Faulted(FaultKind::FetchAccess, _)) => 1,
        _ => 0,
    };
    Work {
        machine: board.machine_steps(),
        fetches: board
            .machine_steps()
            .saturating_sub(1)
            .saturating_sub(unfetched),
        writes: counts.writes(),
        counts,
    }
}
