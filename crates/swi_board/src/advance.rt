//! Steps out of a ram that never fails, that ask no device.
#![tactic(auto)]

ghost use Rattle.std.specs.Prelude.{◌≡◌, ◌==◌, ◌+◌, ◌-◌, ◌^◌, ◌<◌, ◌≤◌, if◌then◌else◌, ℕ, IfSome, None, Some, false, length, true};
ghost use Rattle.swi_exec.specs.Arithmetic.{sum_of};
ghost use Rattle.swi_image.specs.Place.{length_at};
ghost use Rattle.swi_image.specs.Row.{row_length};
ghost use Rattle.swi_image_ops.specs.ImageOp.{AreImageOps, row_of};
ghost use Rattle.swi_memory.specs.Bus.{fetched};
ghost use Rattle.swi_micro.specs.declared.class.Class.TheVariants.{Below, Equal, Jal, Jalr, Less, Lui};
ghost use Rattle.swi_micro.specs.Classes.{class_of, code_of, is_straight};
ghost use Rattle.swi_micro.specs.Ran.{is_gone};
ghost use Rattle.swi_rom.specs.Record.{Record};
ghost use Rattle.swi_hart.specs.Matching.{Fits};
ghost use Rattle.swi_board.specs.Advancing.{Onward, ServiceStays, StandsInRow, Underway};
ghost use Rattle.swi_board.specs.Targets.{AreFound};
ghost use Rattle.swi_board.specs.Turning.{Begins, Going, IsComparison, IsOpInRow, Origin, Turned, TurnsTo, fewer, turn};

use crate::targets::Targets;
use crate::ways::{Ways, fetch, jump, leave};
use swi_calls::Machine;
use swi_exec::Regs;
use swi_hart::{Control, Hart, Stage, register_target};
use swi_image::ImageView;
use swi_image_ops::{ImageOps, is_exit, is_marked, place_in_row};
use swi_isa::BranchOp;
use swi_memory::WordRange;
use swi_micro::{Class, MicroOp, goes, step_as};
use swi_outside::SteadyRam;
use swi_rom::CacheRom;

/// Where steps have come between two instructions: the index in the image's row of the word under control, and how far
/// its block's words are from there in the ram, modulo 2^32; how many original steps are left; and how many machine
/// instructions there would be were each of these one.
#[derive(Clone, Copy)]
pub struct Cursor {
    row: u64,
    delta: u32,
    left: u64,
    total: u64,
}

/// The index in the ram of the word with an index in the row.
#[inline(always)]
fn index(row: u64, delta: u32) -> u32
    requires { row < 2 ^ 32 }
    ensures { result ≡ sum_of row delta }
{
    (row as u32).wrapping_add(delta)
}

/// How far a block's words are in the ram from the row, by the index of one of them here and there.
#[inline(always)]
fn distance(index: u32, row: u32) -> u32
    ensures { sum_of row result ≡ index }
{
    index.wrapping_sub(row)
}

/// The original address at which control stands at a word: that of the text word there, or else that to which the exit
/// leads behind the block's last text word.
fn address_at(image: &ImageView<'_>, block: u32, offset: u32) -> u32
    requires block { block < length image.now.starts }
    requires offset { offset < length_at image.now block }
    requires stands { Origin image.now block offset }
    ensures { (a : Origin image.now block offset) → result ≡ a.pc }
{
    let (a, _) = image.origin(block, offset);
    if image.place(a) == Some((block, offset)) {
        a
    } else {
        image.word(block, offset + 1)
    }
}

/// Whether a branch of the class goes to its target.
#[inline(always)]
fn goes_by(class: Class, m: &MicroOp, regs: &Regs) -> bool
    ensures equal { class ≡ Equal → result ≡ is_gone BranchOp.Beq m.now regs.now }
    ensures less { class ≡ Less → result ≡ is_gone BranchOp.Blt m.now regs.now }
    ensures below { class ≡ Below → result ≡ is_gone BranchOp.Bltu m.now regs.now }
{
    match class {
        Class::Equal => goes(BranchOp::Beq, m, regs),
        Class::Less => goes(BranchOp::Blt, m, regs),
        _ => goes(BranchOp::Bltu, m, regs),
    }
}

/// A step at a branch, whose class is `class`: over the exit behind it where it is taken, and else past that.
#[inline(always)]
fn branch_step<R: CacheRom, M: SteadyRam>(
    m: &MicroOp,
    class: Class,
    machine: &Machine,
    rom: &mut R,
    image: &ImageView<'_>,
    ram: &mut M,
    ways: &mut Ways,
    at: &mut Cursor,
)
    requires steady { M.steady ≡ true }
    requires small { row_length image.now < 2 ^ 30 }
    requires going { Going R.service image.now
        (turn machine.now rom.old (M.state ram.old) at.old) }
    requires op { IsOpInRow (fetched machine.now.bus) image.now at.old.row m.now }
    requires class { class ≡ class_of m.now.code }
    requires compares { IsComparison class }
    requires found { AreFound image.now (R.service.kept rom.old) ways.old.targets }
    ensures turns { TurnsTo R.service image.now
        (turn machine.now rom.old (M.state ram.old) at.old)
        (turn machine.now rom.new (M.state ram.new) (fewer at.new)) }
    ensures left { at.new.left ≡ at.old.left }
    ensures found { AreFound image.now (R.service.kept rom.new) ways.new.targets }
{
    fetch(ram, index(at.row, at.delta));
    if !goes_by(class, m, &machine.regs) {
        at.row += 3;
        return;
    }
    let exit = at.row + 1;
    let there = leave(rom, image, ram, ways, exit, index(exit, at.delta));
    at.row = u64::from(m.target());
    at.delta = distance(there, m.target());
    at.total += 1;
}

/// Goes over an exit: the step of a jump that keeps no return address, or none where the exit stands behind a block's last
/// text word.
#[inline(always)]
fn exit_step<R: CacheRom, M: SteadyRam>(
    m: &MicroOp,
    machine: &Machine,
    rom: &mut R,
    image: &ImageView<'_>,
    ram: &mut M,
    ways: &mut Ways,
    at: &mut Cursor,
)
    requires steady { M.steady ≡ true }
    requires small { row_length image.now < 2 ^ 30 }
    requires going { Going R.service image.now
        (turn machine.now rom.old (M.state ram.old) at.old) }
    requires op { IsOpInRow (fetched machine.now.bus) image.now at.old.row m.now }
    requires class { class_of m.now.code ≡ Jal }
    requires exit { m.now.rd ≡ 0 }
    requires found { AreFound image.now (R.service.kept rom.old) ways.old.targets }
    ensures turns { TurnsTo R.service image.now
        (turn machine.now rom.old (M.state ram.old) at.old)
        (turn machine.now rom.new (M.state ram.new) (fewer at.new)) }
    ensures left { at.new.left ≡ (if m.now.rs1 == 1 then at.old.left + 1 else at.old.left) }
    ensures lands { (a : ℕ) × row_of image.now a ≡ Some at.new.row }
    ensures found { AreFound image.now (R.service.kept rom.new) ways.new.targets }
{
    let there = leave(rom, image, ram, ways, at.row, index(at.row, at.delta));
    at.row = u64::from(m.target());
    at.delta = distance(there, m.target());
    if is_marked(m) {
        at.total += 1;
        at.left += 1;
    }
}

/// A step at a jump that keeps its return address, over the exit two words on.
#[inline(always)]
fn call_step<R: CacheRom, M: SteadyRam>(
    m: &MicroOp,
    exit: &MicroOp,
    machine: &mut Machine,
    rom: &mut R,
    image: &ImageView<'_>,
    ram: &mut M,
    ways: &mut Ways,
    at: &mut Cursor,
)
    requires steady { M.steady ≡ true }
    requires small { row_length image.now < 2 ^ 30 }
    requires going { Going R.service image.now
        (turn machine.old rom.old (M.state ram.old) at.old) }
    requires op { IsOpInRow (fetched machine.old.bus) image.now at.old.row m.now }
    requires class { class_of m.now.code ≡ Jal }
    requires keeps { m.now.rd ≡ 0 → ⊥ }
    requires exit { IsOpInRow (fetched machine.old.bus) image.now (at.old.row + 2) exit.now }
    requires leaves { (exit.now.code ≡ code_of Jal) × (exit.now.rd ≡ 0) }
    requires found { AreFound image.now (R.service.kept rom.old) ways.old.targets }
    ensures turns { TurnsTo R.service image.now
        (turn machine.old rom.old (M.state ram.old) at.old)
        (turn machine.new rom.new (M.state ram.new) (fewer at.new)) }
    ensures bus { machine.new.bus ≡ machine.old.bus }
    ensures left { at.new.left ≡ at.old.left }
    ensures found { AreFound image.now (R.service.kept rom.new) ways.new.targets }
{
    machine.regs.put(m.rd(), m.target());
    fetch(ram, index(at.row, at.delta));
    fetch(ram, index(at.row + 1, at.delta));
    let last = at.row + 2;
    let there = leave(rom, image, ram, ways, last, index(last, at.delta));
    at.row = u64::from(exit.target());
    at.delta = distance(there, exit.target());
    at.total += 2;
}

/// A step at a jump over a register. False, and nothing has changed, where no text word stands at its target.
#[inline(always)]
fn jalr_step<R: CacheRom, M: SteadyRam>(
    m: &MicroOp,
    machine: &mut Machine,
    rom: &mut R,
    image: &ImageView<'_>,
    ram: &mut M,
    targets: &mut Targets,
    at: &mut Cursor,
) -> bool
    requires steady { M.steady ≡ true }
    requires small { row_length image.now < 2 ^ 30 }
    requires going { Going R.service image.now
        (turn machine.old rom.old (M.state ram.old) at.old) }
    requires op { IsOpInRow (fetched machine.old.bus) image.now at.old.row m.now }
    requires class { class_of m.now.code ≡ Jalr }
    requires found { AreFound image.now (R.service.kept rom.old) targets.old }
    ensures turns { result ≡ true → TurnsTo R.service image.now
        (turn machine.old rom.old (M.state ram.old) at.old)
        (turn machine.new rom.new (M.state ram.new) (fewer at.new)) }
    ensures stays { result ≡ false → turn machine.new rom.new (M.state ram.new) at.new ≡ turn machine.old rom.old (M.state ram.old) at.old }
    ensures bus { machine.new.bus ≡ machine.old.bus }
    ensures left { at.new.left ≡ at.old.left }
    ensures found { AreFound image.now (R.service.kept rom.new) targets.new }
{
    let target = register_target(machine.regs.get(m.rs1()), m.target());
    let Some(found) = jump(rom, image, ram, targets, index(at.row, at.delta), target) else {
        return false;
    };
    if !m.writes_x0() {
        machine
            .regs
            .put(m.rd(), image.word_in_row(at.row as u32 + 2));
    }
    at.row = u64::from(found.row);
    at.delta = distance(found.index, found.row);
    true
}

/// A step at a LUI, and at the ADDI behind it where both stand for one instruction. The service and the image are read for
/// the contract alone.
#[inline(always)]
fn upper_step<R: CacheRom, M: SteadyRam>(
    m: &MicroOp,
    machine: &mut Machine,
    rom: &R,
    image: &ImageView<'_>,
    ram: &mut M,
    at: &mut Cursor,
)
    requires steady { M.steady ≡ true }
    requires small { row_length image.now < 2 ^ 30 }
    requires going { Going R.service image.now
        (turn machine.old rom.now (M.state ram.old) at.old) }
    requires op { IsOpInRow (fetched machine.old.bus) image.now at.old.row m.now }
    requires class { class_of m.now.code ≡ Lui }
    ensures turns { TurnsTo R.service image.now
        (turn machine.old rom.now (M.state ram.old) at.old)
        (turn machine.new rom.now (M.state ram.new) (fewer at.new)) }
    ensures bus { machine.new.bus ≡ machine.old.bus }
    ensures left { at.new.left ≡ at.old.left }
{
    machine.regs.put(m.rd(), m.target());
    fetch(ram, index(at.row, at.delta));
    at.row += 1;
    if is_marked(m) {
        fetch(ram, index(at.row, at.delta));
        at.row += 1;
        at.total += 1;
    }
}

/// A step at a word that goes on at the next, as its micro-op does. False, and nothing has changed, where it is left to the
/// machine step. The service and the image are read for the contract alone.
#[inline(always)]
fn straight_step<R: CacheRom, M: SteadyRam>(
    m: &MicroOp,
    class: Class,
    machine: &mut Machine,
    rom: &R,
    image: &ImageView<'_>,
    ram: &mut M,
    at: &mut Cursor,
) -> bool
    requires steady { M.steady ≡ true }
    requires small { row_length image.now < 2 ^ 30 }
    requires going { Going R.service image.now
        (turn machine.old rom.now (M.state ram.old) at.old) }
    requires op { IsOpInRow (fetched machine.old.bus) image.now at.old.row m.now }
    requires class { class ≡ class_of m.now.code }
    requires straight { is_straight class ≡ true }
    requires other { class ≡ Lui → ⊥ }
    ensures turns { result ≡ true → TurnsTo R.service image.now
        (turn machine.old rom.now (M.state ram.old) at.old)
        (turn machine.new rom.now (M.state ram.new) (fewer at.new)) }
    ensures stays { result ≡ false → turn machine.new rom.now (M.state ram.new) at.new ≡ turn machine.old rom.now (M.state ram.old) at.old }
    ensures text { (a : ℕ) → fetched machine.new.bus a ≡ fetched machine.old.bus a }
    ensures left { at.new.left ≡ at.old.left }
{
    let range = WordRange { from: 0, words: 0 };
    let Some(next) = step_as(
        class,
        m,
        &range,
        at.row,
        &mut machine.regs,
        &mut machine.bus,
    ) else {
        return false;
    };
    fetch(ram, index(at.row, at.delta));
    at.row = next;
    true
}

/// Steps up to the last that is left, or to the first that is left to the machine step.
#[inline(never)]
fn step_through<R: CacheRom, M: SteadyRam>(
    machine: &mut Machine,
    rom: &mut R,
    image: &ImageView<'_>,
    ram: &mut M,
    ops: &[MicroOp],
    ways: &mut Ways,
    cursor: &mut Cursor,
)
    requires steady { M.steady ≡ true }
    requires begins { (limit : ℕ) × Begins R.service image.now limit
        (record { machine = machine.old; rom = rom.old; ram = M.state ram.old; cursor = cursor.old }) }
    requires ops { AreImageOps (fetched machine.old.bus) image.now ops.now }
    requires found { AreFound image.now (R.service.kept rom.old) ways.old.targets }
    ensures turned { (limit : ℕ) (b : Begins R.service image.now limit
        (record { machine = machine.old; rom = rom.old; ram = M.state ram.old; cursor = cursor.old })) →
        Turned R.service image.now limit
        (record { machine = machine.old; rom = rom.old; ram = M.state ram.old; cursor = cursor.old }) b.at
        (record { machine = machine.new; rom = rom.new; ram = M.state ram.new; cursor = cursor.new }) }
    ensures text { (a : ℕ) → fetched machine.new.bus a ≡ fetched machine.old.bus a }
{
    // Read for the proof alone: that an index in the row has 32 bits.
    let _words = image.words();
    let mut at = *cursor;
    while at.left > 0 {
        let m = &ops[at.row as usize];
        let class = m.class();
        match class {
            Class::Equal | Class::Less | Class::Below => {
                branch_step(m, class, machine, rom, image, ram, ways, &mut at);
            }
            Class::Lui => upper_step(m, machine, rom, image, ram, &mut at),
            Class::Jal => {
                if m.writes_x0() {
                    exit_step(m, machine, rom, image, ram, ways, &mut at);
                } else {
                    let exit = &ops[at.row as usize + 2];
                    if !is_exit(exit) {
                        break;
                    }
                    call_step(m, exit, machine, rom, image, ram, ways, &mut at);
                }
            }
            Class::Jalr => {
                if !jalr_step(m, machine, rom, image, ram, &mut ways.targets, &mut at) {
                    break;
                }
            }
            Class::Stop => break,
            _ => {
                if !straight_step(m, class, machine, rom, image, ram, &mut at) {
                    break;
                }
            }
        }
        at.left -= 1;
    }
    *cursor = at;
}

/// Where the hart is between two instructions at a word of a block: its index in the row, and how far that is from the
/// index in the ram.
pub(crate) fn start(hart: &Hart, image: &ImageView<'_>) -> Option<(u32, u32)>
    requires going { hart.now.machine.ending ≡ None }
    requires fits { (r : Record) × Fits image.now r hart.now }
    ensures { IfSome result (λ at. StandsInRow image.now hart.now at.0 at.1) }
{
    // Read for the proof alone: that it has 32 bits.
    let _pc = hart.origin_pc();
    match hart.control.control() {
        Control::At(i, block, offset, Stage::Start) => {
            let row = image.begin(block) + offset;
            Some((row, distance(i, row)))
        }
        _ => None,
    }
}

/// Steps up to `limit`, or to the first that is left to the machine step: the block that the hart is in then.
pub(crate) fn advance<R: CacheRom, M: SteadyRam>(
    hart: &mut Hart,
    rom: &mut R,
    image: &ImageView<'_>,
    ram: &mut M,
    ops: &ImageOps,
    ways: &mut Ways,
    limit: u64,
    at: (u32, u32),
) -> u32
    requires steady { M.steady ≡ true }
    requires going { hart.old.machine.ending ≡ None }
    requires within { hart.old.machine.steps ≤ limit }
    requires small { limit ≤ 2 ^ 48 }
    requires underway { Underway R.service image.now limit (record { hart = hart.old; rom = rom.old; ram = M.state ram.old }) }
    requires sound { R.service.sound rom.old image.now (M.state ram.old).words }
    requires stands { StandsInRow image.now hart.old at.0 at.1 }
    requires ops { AreImageOps (fetched hart.old.machine.bus) image.now ops.now }
    requires found { AreFound image.now (R.service.kept rom.old) ways.old.targets }
    ensures onward { Onward R.service image.now limit (record { hart = hart.old; rom = rom.old; ram = M.state ram.old })
        (record { hart = hart.new; rom = rom.new; ram = M.state ram.new }) }
    ensures going { hart.new.machine.ending ≡ None }
    ensures stays { ServiceStays R.service image.now (record { rom = rom.old; ram = M.state ram.old })
        (record { rom = rom.new; ram = M.state ram.new }) }
    ensures block { result < length image.now.starts }
    ensures text { (a : ℕ) → fetched hart.new.machine.bus a ≡ fetched hart.old.machine.bus a }
{
    let left = limit - hart.machine.steps;
    let mut cursor = Cursor {
        row: u64::from(at.0),
        delta: at.1,
        left,
        total: hart.count + left,
    };
    step_through(
        &mut hart.machine,
        rom,
        image,
        ram,
        ops.ops(),
        ways,
        &mut cursor,
    );
    // Read for the proof alone, as there.
    let _words = image.words();
    let Cursor {
        row,
        delta,
        left,
        total,
    } = cursor;
    let (block, offset) = place_in_row(image, row as u32);
    hart.control.go(Control::At(index(row, delta), block, offset, Stage::Start));
    hart.machine.pc = address_at(image, block, offset);
    hart.machine.steps = limit - left;
    hart.count = total - left;
    block
}
