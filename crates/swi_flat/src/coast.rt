//! Steps that ask for no device and leave the text as it is, as far as gates let them go.
#![tactic(auto)]

ghost use Rattle.std.specs.Prelude.{◌≡◌, ◌<◌, ◌≤◌, ◌+◌, ◌-◌, ◌*◌, ◌%◌, ◌^◌, ℕ, Some, None, IfSome, length};
ghost use Rattle.swi_flat.specs.Coasted.{Closes, Coasts, HasCoasted, StepsAt, is_open, is_taken_branch, is_taken_by, toll_by};
ghost use Rattle.swi_memory.specs.Bus.{fetched};
ghost use Rattle.swi_micro.specs.Decoded.{AreDecoded};
ghost use Rattle.swi_micro.specs.MicroOp.{address_at};
ghost use Rattle.swi_micro.specs.Ran.{ran_as};

use swi_calls::Machine;
use swi_exec::Regs;
use swi_isa::{BranchOp, Instr, decode};
use swi_memory::{Bus, WordRange};
use swi_micro::{Class, Decoded, MicroOp, address, goes, index_of, micro_op, step_as};

/// What a text word lets go on: steps from it to the next word, and jumps.
#[derive(Clone, Copy, Debug, PartialEq, Eq)]
pub struct Gate {
    /// Whether it stops each step.
    pub stops: bool,
    /// Whether it stops a branch that is not taken.
    pub ends: bool,
    /// The number of the mask that has to be the one that passes, for a jump. Where there is none with it no jump goes on.
    pub exit: u32,
}

/// Where steps have come.
#[derive(Clone, Copy, Debug, PartialEq, Eq)]
pub struct Coasted {
    /// The index of the text word behind those that were let go on, or one behind the last word.
    pub at: u32,
    /// How many were.
    pub steps: u64,
    /// What they paid: 1 for a branch that is taken, 2 for a jump that keeps its return address, else nothing.
    pub paid: u64,
    /// One more that was made then, if there is one: whether it is a branch that is taken.
    pub last: Option<bool>,
}

/// Whether a jump is let go on.
#[inline(always)]
fn is_open(exit: u32, masks: &[u64], pass: u64) -> bool
    ensures { result ≡ is_open masks.now pass exit }
{
    (exit as usize) < masks.len() && masks[exit as usize] == pass
}

/// What a step by a micro-op of a class pays, where its word's gate lets it go on.
#[inline(always)]
fn toll(
    class: Class,
    m: &MicroOp,
    regs: &Regs,
    gate: &Gate,
    masks: &[u64],
    pass: u64,
) -> Option<u64>
    ensures value { result ≡ toll_by class gate.now.ends (is_open masks.now pass gate.now.exit) m.now regs.now }
    ensures few { IfSome result (λ n. n ≤ 2) }
{
    let taken = match class {
        Class::Equal => goes(BranchOp::Beq, m, regs),
        Class::Less => goes(BranchOp::Blt, m, regs),
        Class::Below => goes(BranchOp::Bltu, m, regs),
        Class::Jal => {
            let much = if m.writes_x0() { 0 } else { 2 };
            return if is_open(gate.exit, masks, pass) {
                Some(much)
            } else {
                None
            };
        }
        Class::Jalr | Class::Stop => return None,
        _ => return Some(0),
    };
    if taken {
        if is_open(gate.exit, masks, pass) {
            Some(1)
        } else {
            None
        }
    } else if gate.ends {
        None
    } else {
        Some(0)
    }
}

/// Whether a micro-op of the class is that of a branch that is taken.
#[inline(always)]
fn is_taken(class: Class, m: &MicroOp, regs: &Regs) -> bool
    ensures { result ≡ is_taken_by class m.now regs.now }
{
    match class {
        Class::Equal => goes(BranchOp::Beq, m, regs),
        Class::Less => goes(BranchOp::Blt, m, regs),
        Class::Below => goes(BranchOp::Bltu, m, regs),
        _ => false,
    }
}

/// Makes the micro-op of the word with index `k` of the range, where none is kept.
// Not inlined: each word is decoded once.
#[inline(never)]
fn learn(ops: &mut [MicroOp], range: &WordRange, k: u32, bus: &Bus)
    requires { AreDecoded (fetched bus.now) range.now ops.old }
    ensures { AreDecoded (fetched bus.now) range.now ops.new }
{
    if k >= range.words || !ops[k as usize].stops() {
        return;
    }
    let Some(word) = bus.fetch(address(range, k)) else {
        return;
    };
    if let Some(instr) = decode(word) {
        ops[k as usize] = micro_op(&instr, range, k);
    }
}

/// A jump or a branch, by a micro-op of a class, where the gate of its word lets it go on: the index of the next word, and what
/// it pays. None, and nothing changed, where it doesn't, or where the micro-op leaves its word.
// For a class that is known where this is inlined: so the registers are compared once.
#[inline(always)]
fn jump(
    class: Class,
    m: &MicroOp,
    gate: &Gate,
    masks: &[u64],
    pass: u64,
    range: &WordRange,
    k: u64,
    regs: &mut Regs,
    bus: &mut Bus,
) -> Option<(u64, u64)>
    requires { k < 2 ^ 31 }
    ensures pays { IfSome result (λ r. toll_by class gate.now.ends (is_open masks.now pass gate.now.exit) m.now regs.old ≡ Some r.1) }
    ensures few { IfSome result (λ r. r.1 ≤ 2) }
    ensures next { IfSome result (λ r. (ran_as class range.now m.now k regs.old bus.old).next ≡ Some r.0) }
    ensures regs { IfSome result (λ r. regs.new ≡ (ran_as class range.now m.now k regs.old bus.old).regs) }
    ensures bus { IfSome result (λ r. bus.new ≡ (ran_as class range.now m.now k regs.old bus.old).bus) }
    ensures same_regs { result ≡ None → regs.new ≡ regs.old }
    ensures same_bus { result ≡ None → bus.new ≡ bus.old }
    ensures text { (a : ℕ) → fetched bus.new a ≡ fetched bus.old a }
{
    let paid = toll(class, m, regs, gate, masks, pass)?;
    let next = step_as(class, m, range, k, regs, bus)?;
    Some((next, paid))
}

/// Steps up to `limit` from the word with index `first` on, as far as the gates let them go on: the index of the word behind
/// them, and what they paid.
#[inline(always)]
fn glide(
    machine: &mut Machine,
    ops: &[MicroOp],
    range: &WordRange,
    first: u64,
    limit: u64,
    gates: &Vec<Gate>,
    masks: &[u64],
    pass: u64,
) -> (u64, u64)
    requires at { machine.old.pc ≡ address_at range.now first }
    requires within { machine.old.steps ≤ limit }
    requires few { limit ≤ 2 ^ 48 }
    requires first { first ≤ range.now.words }
    requires decoded { AreDecoded (fetched machine.old.bus) range.now ops.now }
    requires long { length gates.now.items ≡ range.now.words + 1 }
    ensures run { Coasts (record { base = range.now.from; words = gates.now.items; masks = masks.now; pass = pass }) first machine.old (machine.new.steps - machine.old.steps) result.0 machine.new result.1 }
    ensures at { machine.new.pc ≡ address_at range.now result.0 }
    ensures within { machine.new.steps ≤ limit }
    ensures no_fewer { machine.old.steps ≤ machine.new.steps }
    ensures index { result.0 ≤ range.now.words }
    ensures few { result.1 ≤ 2 * (machine.new.steps - machine.old.steps) }
    ensures decoded { AreDecoded (fetched machine.new.bus) range.now ops.now }
{
    let mut k = first;
    let mut left = limit - machine.steps;
    let mut paid = 0;
    while left > 0 {
        let gate = &gates[k as usize];
        if gate.stops {
            break;
        }
        let m = &ops[k as usize];
        macro_rules! jump {
            ($class:ident) => {{ jump(Class::$class, m, gate, masks, pass, range, k, &mut machine.regs, &mut machine.bus) }};
        }
        let gone = match m.class() {
            Class::Equal => jump!(Equal),
            Class::Less => jump!(Less),
            Class::Below => jump!(Below),
            Class::Jal => jump!(Jal),
            Class::Jalr | Class::Stop => break,
            // To the next word: nothing is paid, and no mask is asked.
            straight => {
                let Some(next) = step_as(straight, m, range, k, &mut machine.regs, &mut machine.bus)
                else {
                    break;
                };
                k = next;
                left -= 1;
                continue;
            }
        };
        let Some((next, more)) = gone else { break };
        paid += more;
        k = next;
        left -= 1;
    }
    machine.pc = address(range, k as u32);
    machine.steps = limit - left;
    (k, paid)
}

/// A step at the word with index `k` of the range, by its micro-op: the index of the next one, and whether it is a branch
/// that is taken. None, and neither registers nor memory changed, where its micro-op leaves it, or there is none yet, which
/// is made then.
#[inline(always)]
fn step_on(
    ops: &mut [MicroOp],
    range: &WordRange,
    k: u64,
    regs: &mut Regs,
    bus: &mut Bus,
) -> Option<(u64, bool)>
    requires within { k ≤ range.now.words }
    requires decoded { AreDecoded (fetched bus.old) range.now ops.old }
    ensures step { IfSome result (λ s. (i : Instr) × StepsAt range.now k i regs.old bus.old s.0 regs.new bus.new × (s.1 ≡ is_taken_branch i regs.old)) }
    ensures decoded { AreDecoded (fetched bus.new) range.now ops.new }
    ensures same_regs { result ≡ None → regs.new ≡ regs.old }
    ensures same_bus { result ≡ None → bus.new ≡ bus.old }
{
    let m = &ops[k as usize];
    let class = m.class();
    let taken = is_taken(class, m, regs);
    match step_as(class, m, range, k, regs, bus) {
        Some(next) => Some((next, taken)),
        None => {
            learn(ops, range, k as u32, bus);
            None
        }
    }
}

/// One step more, whatever its gate says, at the word with index `k` of the range: whether it is a branch that is taken. None, and
/// nothing has changed, where its micro-op leaves it, or there is none yet, which is made then.
#[inline(always)]
fn close(machine: &mut Machine, ops: &mut [MicroOp], range: &WordRange, k: u64) -> Option<bool>
    requires at { machine.old.pc ≡ address_at range.now k }
    requires within { k ≤ range.now.words }
    requires few { machine.old.steps < 2 ^ 48 }
    requires decoded { AreDecoded (fetched machine.old.bus) range.now ops.old }
    ensures closes { Closes result machine.old machine.new }
    ensures steps { machine.new.steps ≤ machine.old.steps + 1 }
    ensures aligned { machine.old.pc % 4 ≡ 0 → machine.new.pc % 4 ≡ 0 }
    ensures decoded { AreDecoded (fetched machine.new.bus) range.now ops.new }
{
    let (next, taken) = step_on(ops, range, k, &mut machine.regs, &mut machine.bus)?;
    machine.pc = address(range, next as u32);
    machine.steps += 1;
    Some(taken)
}

/// Steps up to `limit`, as far as the gates let them go on, and one more. None, and nothing has changed, where the gates are
/// not those of the text's words, from `base` on, and one behind them, or no text word stands at the pc. A step is not made
/// that asks for a device, ends the run, stores into the text or leads out of it.
#[inline(never)]
pub fn coast(
    machine: &mut Machine,
    decoded: &mut Decoded,
    limit: u64,
    base: u32,
    gates: &Vec<Gate>,
    masks: &[u64],
    pass: u64,
) -> Option<Coasted>
    requires aligned { machine.old.pc % 4 ≡ 0 }
    requires within { machine.old.steps ≤ limit }
    requires few { limit ≤ 2 ^ 48 }
    requires decoded { AreDecoded (fetched machine.old.bus) decoded.old.range decoded.old.ops.items }
    ensures none { result ≡ None → machine.new ≡ machine.old }
    ensures run { IfSome result (λ c. HasCoasted (record { base = base; words = gates.now.items; masks = masks.now; pass = pass }) machine.old machine.new c) }
    ensures few { IfSome result (λ c. c.paid ≤ 2 * c.steps) }
    ensures aligned { machine.new.pc % 4 ≡ 0 }
    ensures within { machine.new.steps ≤ limit }
    ensures decoded { AreDecoded (fetched machine.new.bus) decoded.new.range decoded.new.ops.items }
{
    let range = decoded.range;
    let ops = decoded.ops.as_mut_slice();
    if range.from != base || gates.len() != ops.len() {
        return None;
    }
    let first = index_of(&range, machine.pc)? as u64;
    let begun = machine.steps;
    let (k, paid) = glide(machine, ops, &range, first, limit, gates, masks, pass);
    let steps = machine.steps - begun;
    let last = if machine.steps < limit {
        close(machine, ops, &range, k)
    } else {
        None
    };
    Some(Coasted {
        at: k as u32,
        steps,
        paid,
        last,
    })
}
