//! Instructions that would store into the text.
#![tactic(auto)]

ghost use Rattle.std.specs.Prelude.{◌≡◌};
ghost use Rattle.swi_calls.specs.StoresText.{read_into_text, text_store_of};

use crate::request::Request;
use crate::system_call::READ;
use swi_exec::{Regs, store_into_text};
use swi_isa::Instr;
use swi_memory::Bus;

/// The address of the buffer of a system call that would read into the text.
#[cold]
#[inline(never)]
fn read_store(regs: &Regs, bus: &Bus) -> Option<u32>
    ensures { result ≡ read_into_text regs.now bus.now }
{
    let request = Request::of(regs);
    if request.number == READ && request.first == 0 {
        store_into_text(bus, request.second, request.third)
    } else {
        None
    }
}

/// The address at which the instruction would store into the text: the first of its access or of its buffer, of which
/// a later byte may be the first that is a text word's. None where it would not. It changes nothing.
///
/// A store does where it succeeds and one of its bytes is a text word's, an AMO where it doesn't fault, and SC.W
/// where it succeeds. A system call does where it reads from descriptor 0 into a buffer that can be written and of
/// which a byte is a text word's, also where the input is at its end. A program's text is fixed for the cached
/// machine.
#[inline(always)]
pub fn text_store(i: &Instr, regs: &Regs, bus: &Bus) -> Option<u32>
    ensures { result ≡ text_store_of i.now regs.now bus.now }
{
    match *i {
        Instr::Ecall => read_store(regs, bus),
        _ => swi_exec::text_access(i, regs, bus),
    }
}
