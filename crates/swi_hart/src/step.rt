//! One step of a hart out of the ram.
#![tactic(auto)]

ghost use Rattle.std.specs.Prelude.{◌≡◌, ◌+◌, ◌*◌, ◌/◌, ◌^◌, ◌%◌, ◌<◌, ℕ, List, length, slice_index, ◌==◌, if◌then◌else◌, OnOk, OnErr, Some, None};
ghost use Rattle.swi_isa.specs.declared.instr.Instr.TheVariants.{Jalr};
ghost use Rattle.swi_isa.specs.Decode.{decoded};
ghost use Rattle.swi_exec.specs.Arithmetic.{sum_of};
ghost use Rattle.swi_memory.specs.Bus.{fetched};
ghost use Rattle.swi_image.specs.Place.{word_at};
ghost use Rattle.swi_rom.specs.Record.{direct, indirect};
ghost use Rattle.swi_hart.specs.Matching.{ExitStep, Jumps, JumpsBy};
ghost use Rattle.swi_hart.specs.Leaving.{offset_of, fell, quick_role, upper_quick, ExitHome, PlacedAt, Counted, step_to, exit_transfer, jump_transfer};
ghost use Rattle.swi_hart.specs.Service.{TransferServed};
ghost use Rattle.swi_hart.specs.Hart.{exit_kind, instruction, original, trap_kind};

use crate::exit::{exit_kind, fell, is_back, jump, leave};
use crate::hart::{CodePlace, Control, ExitKind, Hart, Role, Stage};
use crate::word::end;
use swi_calls::End;
use swi_exec::FaultKind;
use swi_image::ImageView;
use swi_isa::{ImmOp, Instr, JalrFields, PcRelative, Reg, decode, jalr_fields, pc_relative};
use swi_memory::Bus;
use swi_outside::{CacheRam, Failed};
use swi_rom::CacheRom;

/// The instruction that stands at an original address. Where it is inlined, what nothing asks of it is not computed.
#[inline(always)]
fn original(bus: &Bus, pc: u32) -> Option<Instr>
    ensures { result ≡ instruction (fetched bus.now pc) }
{
    match bus.fetch(pc) {
        Some(word) => decode(word),
        None => None,
    }
}

/// The role of a LUI at this stage, by the instruction at the original address: it is asked of every LUI, so few tests
/// are made of that instruction's word.
#[inline(always)]
#[tactic(auto, using(crate::proofs::Roles::by_kind))]
fn upper_role(bus: &Bus, pc: u32, stage: Stage) -> Role
    ensures { result ≡ upper_quick stage (instruction (fetched bus.now pc)) }
{
    if stage != Stage::Start {
        return Role::Whole;
    }
    let Some(word) = bus.fetch(pc) else {
        return Role::Whole;
    };
    match pc_relative(word) {
        Some(PcRelative::Auipc) => Role::Lead(Stage::Low),
        Some(PcRelative::Jal) => Role::Lead(Stage::Return),
        Some(PcRelative::Branch) => Role::Over,
        None => Role::Whole,
    }
}

/// The role of a fetched word. What the word is decides first: each way out of the decoder then leads to its own case,
/// and no word but a LUI and an ADDI asks for the stage.
#[inline(always)]
pub(crate) fn role(hart: &Hart, stage: Stage, x: &Instr) -> Role
    ensures { result ≡ quick_role stage x.now (original hart.now.machine) }
{
    match *x {
        Instr::Lui { .. } => upper_role(&hart.machine.bus, hart.machine.pc, stage),
        Instr::Branch { .. } => Role::Over,
        Instr::Alu {
            op: ImmOp::Addi,
            ..
        } => match stage {
            Stage::Return => Role::Lead(Stage::Leave),
            Stage::Start | Stage::Low | Stage::Leave => Role::Whole,
        },
        _ => Role::Whole,
    }
}

/// The fault of a word that stops the run.
#[cold]
#[inline(never)]
fn trap(hart: &Hart) -> FaultKind
    ensures { result ≡ trap_kind (original hart.now.machine) }
{
    match original(&hart.machine.bus, hart.machine.pc) {
        Some(Instr::Ebreak) => FaultKind::Break,
        _ => FaultKind::Illegal,
    }
}

/// A step at a direct exit.
#[inline(always)]
fn direct_step<R: CacheRom, M: CacheRam>(
    hart: &mut Hart,
    rom: &mut R,
    image: &ImageView<'_>,
    ram: &mut M,
    got: u32,
    off: u32,
    at: CodePlace,
    target: u32,
) -> Result<(), Failed>
    requires few { hart.old.machine.steps < 2 ^ 48 }
    requires count { hart.old.count < 2 ^ 56 }
    requires sound { R.service.sound rom.old image.now (M.state ram.old).words }
    requires services { (R.service.kept rom.old).counts.services < 2 ^ 50 }
    requires home { ExitHome image.now hart.old.machine at.block at.offset at.stage }
    requires placed { PlacedAt (R.service.kept rom.old) at.index at.block at.offset }
    requires block { at.block < length image.now.starts }
    requires fetched { got ≡ slice_index (M.state ram.old).words at.index }
    requires offset { off ≡ offset_of (decoded got) }
    requires target { target ≡ word_at image.now at.block (at.offset + 1) }
    requires direct { target % 4 ≡ 0 }
    ensures step { OnOk result ((input : List ℕ) →
        ExitStep ExitKind.Direct image.now (R.service.kept rom.new) hart.old.machine
        (step_to hart.new input) input at.index at.block at.offset at.stage) }
    ensures counted { OnOk result (Counted hart.old hart.new) }
    ensures served { TransferServed R.service image.now (Some (direct at.block at.offset target))
        (record { rom = rom.old; ram = M.state ram.old })
        (record { rom = rom.new; ram = M.state ram.new }) result }
    ensures stays { OnErr result (hart.new ≡ hart.old) }
{
    let control = leave(rom, image, ram, got, off, at, target)?;
    let back = is_back(control, at.block, at.offset);
    if !fell(at.stage, hart.machine.pc, target, back) {
        hart.machine.pc = target;
        hart.machine.steps += 1;
    }
    hart.control.go(control);
    hart.count += 1;
    Ok(())
}

/// A step at the exit of a JALR.
fn jump_step<R: CacheRom, M: CacheRam>(
    hart: &mut Hart,
    rom: &mut R,
    image: &ImageView<'_>,
    ram: &mut M,
    at: CodePlace,
    rd: Reg,
    target: u32,
    link: u32,
) -> Result<(), Failed>
    requires few { hart.old.machine.steps < 2 ^ 48 }
    requires count { hart.old.count < 2 ^ 56 }
    requires control { hart.old.control ≡ Control.At at.index at.block at.offset at.stage }
    requires sound { R.service.sound rom.old image.now (M.state ram.old).words }
    requires services { (R.service.kept rom.old).counts.services < 2 ^ 50 }
    ensures step { OnOk result ((input : List ℕ) → Jumps (target % 4 == 0) image.now (R.service.kept rom.new)
        (step_to hart.new input) input
        (Control.At at.index at.block at.offset at.stage) hart.old.machine rd link target) }
    ensures counted { OnOk result (Counted hart.old hart.new) }
    ensures served { TransferServed R.service image.now (if target % 4 == 0 then Some (indirect target) else None)
        (record { rom = rom.old; ram = M.state ram.old })
        (record { rom = rom.new; ram = M.state ram.new }) result }
    ensures stays { OnErr result (hart.new ≡ hart.old) }
{
    if target % 4 != 0 {
        end(hart, End::Faulted(FaultKind::FetchMisaligned, target));
        return Ok(());
    }
    let control = jump(rom, image, ram, target)?;
    hart.machine.regs.set(rd, link);
    hart.control.go(control);
    hart.machine.pc = target;
    hart.machine.steps += 1;
    hart.count += 1;
    Ok(())
}

/// The target of a JALR, by its register's value and its immediate.
pub fn register_target(a: u32, imm: u32) -> u32
    ensures { result ≡ sum_of a imm / 2 * 2 }
{
    a.wrapping_add(imm) & !1
}

/// A step at the exit of the JALR with these fields.
fn jalr_step<R: CacheRom, M: CacheRam>(
    hart: &mut Hart,
    rom: &mut R,
    image: &ImageView<'_>,
    ram: &mut M,
    at: CodePlace,
    x: JalrFields,
    link: u32,
) -> Result<(), Failed>
    requires few { hart.old.machine.steps < 2 ^ 48 }
    requires count { hart.old.count < 2 ^ 56 }
    requires control { hart.old.control ≡ Control.At at.index at.block at.offset at.stage }
    requires sound { R.service.sound rom.old image.now (M.state ram.old).words }
    requires services { (R.service.kept rom.old).counts.services < 2 ^ 50 }
    ensures step { OnOk result ((input : List ℕ) → JumpsBy (Some (Jalr x.rd x.rs1 x.imm)) image.now (R.service.kept rom.new)
        (step_to hart.new input) input
        (Control.At at.index at.block at.offset at.stage) hart.old.machine link) }
    ensures counted { OnOk result (Counted hart.old hart.new) }
    ensures served { TransferServed R.service image.now (jump_transfer (Some (Jalr x.rd x.rs1 x.imm)) hart.old.machine)
        (record { rom = rom.old; ram = M.state ram.old })
        (record { rom = rom.new; ram = M.state ram.new }) result }
    ensures stays { OnErr result (hart.new ≡ hart.old) }
{
    let target = register_target(hart.machine.regs.get(x.rs1), x.imm);
    jump_step(hart, rom, image, ram, at, x.rd, target, link)
}

/// A step at an exit.
#[inline(always)]
pub(crate) fn exit_step<R: CacheRom, M: CacheRam>(
    hart: &mut Hart,
    rom: &mut R,
    image: &ImageView<'_>,
    ram: &mut M,
    got: u32,
    off: u32,
    at: CodePlace,
) -> Result<(), Failed>
    requires few { hart.old.machine.steps < 2 ^ 48 }
    requires count { hart.old.count < 2 ^ 56 }
    requires control { hart.old.control ≡ Control.At at.index at.block at.offset at.stage }
    requires sound { R.service.sound rom.old image.now (M.state ram.old).words }
    requires services { (R.service.kept rom.old).counts.services < 2 ^ 50 }
    requires home { ExitHome image.now hart.old.machine at.block at.offset at.stage }
    requires placed { PlacedAt (R.service.kept rom.old) at.index at.block at.offset }
    requires block { at.block < length image.now.starts }
    requires small { at.offset < 2 ^ 22 }
    requires fetched { got ≡ slice_index (M.state ram.old).words at.index }
    requires offset { off ≡ offset_of (decoded got) }
    ensures step { OnOk result ((input : List ℕ) →
        ExitStep (exit_kind (word_at image.now at.block (at.offset + 1))) image.now (R.service.kept rom.new) hart.old.machine
        (step_to hart.new input) input at.index at.block at.offset at.stage) }
    ensures counted { OnOk result (Counted hart.old hart.new) }
    ensures served { TransferServed R.service image.now (exit_transfer (exit_kind (word_at image.now at.block (at.offset + 1))) image.now hart.old.machine at.block at.offset)
        (record { rom = rom.old; ram = M.state ram.old })
        (record { rom = rom.new; ram = M.state ram.new }) result }
    ensures stays { OnErr result (hart.new ≡ hart.old) }
{
    let d = image.word(at.block, at.offset + 1);
    match exit_kind(d) {
        ExitKind::Direct => direct_step(hart, rom, image, ram, got, off, at, d),
        ExitKind::Misaligned => {
            end(hart, End::Faulted(FaultKind::FetchMisaligned, d));
            Ok(())
        }
        ExitKind::Trap => {
            let kind = trap(hart);
            let pc = hart.machine.pc;
            end(hart, End::Faulted(kind, pc));
            Ok(())
        }
        ExitKind::Indirect => {
            let Some(x) = jalr_fields(d) else {
                unreachable!()
            };
            let link = image.word(at.block, at.offset + 2);
            jalr_step(hart, rom, image, ram, at, x, link)
        }
    }
}
