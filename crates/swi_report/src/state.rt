//! The state after a run.

ghost use Rattle.std.specs.Prelude.{◌≡◌, ◌<◌};
ghost use Rattle.std.specs.List.{flat_map};
ghost use Rattle.swi_outside.specs.Sink.{WasWritten};
ghost use Rattle.swi_report.specs.State.{numbers, pc_line, register_line, break_line, state_text_of};

use crate::memory::write_memory;
use swi_calls::Heap;
use swi_exec::Regs;
use swi_isa::Reg;
use swi_line::Line;
use swi_memory::Bus;
use swi_outside::{Failed, Sink};

/// What is told of a machine when its run is over.
#[derive(Clone, Copy)]
pub struct FinalState<'a> {
    /// The address of the next instruction, or of the one that ended the run.
    pub pc: u32,
    pub regs: &'a Regs,
    pub bus: &'a Bus,
    pub heap: Heap,
    /// The number of steps made, the one that ended the run included.
    pub steps: u64,
}

fn pc_line(pc: u32) -> Line
    ensures { result ≡ pc_line pc }
{
    let mut line = Line::new();
    line.push_text("pc ");
    line.push_hex_word(pc);
    line.push_text("\n");
    line
}

fn register_line(regs: &Regs, number: u32) -> Line
    requires { number < 32 }
    ensures { result ≡ register_line regs.now number }
{
    let mut line = Line::new();
    line.push_text("x");
    line.push_decimal(u64::from(number));
    line.push_text(" ");
    line.push_hex_word(regs.get(Reg::of(number)));
    line.push_text("\n");
    line
}

fn break_line(now: u32) -> Line
    ensures { result ≡ break_line now }
{
    let mut line = Line::new();
    line.push_text("break ");
    line.push_hex_word(now);
    line.push_text("\n");
    line
}

/// Writes the lines of the 32 registers.
fn write_registers<S: Sink>(regs: &Regs, sink: &mut S) -> Result<(), Failed>
    ensures { WasWritten (S.state sink.old) (S.state sink.new) result
        (flat_map (register_line regs.now) (numbers 0 32)) }
{
    for number in 0..32 {
        sink.write(register_line(regs, number).as_bytes())?;
    }
    Ok(())
}

/// Writes the state after a run to the sink: the pc, the registers and the break, a line each, then
/// the memory that can be written, in order of address, sixteen bytes a line. A line has its address,
/// a multiple of 16, and a byte outside the segment or region is `--` there; sixteen bytes that are
/// all zero or outside have no line.
///
/// Failed only where the sink's count of faults rose; it then holds a front of the text.
pub fn state_text<S: Sink>(state: &FinalState<'_>, sink: &mut S) -> Result<(), Failed>
    ensures { WasWritten (S.state sink.old) (S.state sink.new) result
        (state_text_of state.now.pc state.now.regs.now state.now.bus.now state.now.heap.now) }
{
    sink.write(pc_line(state.pc).as_bytes())?;
    write_registers(state.regs, sink)?;
    sink.write(break_line(state.heap.now).as_bytes())?;
    write_memory(state.bus, sink)
}
