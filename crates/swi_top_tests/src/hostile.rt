//! Whole tables: files that are cut off or damaged, devices of which each call fails in turn, and texts that a jump doesn't span.

use crate::devices::{
    ANY, QUIET, Row, Stands, Wanted, agrees, answer_to, devices_of, expect_wanted, holds, run,
};
use crate::texts::{
    COUNT, ECHO, FIRST, LONG_ECHO, NONE, PLAIN, SEVEN, TABLE, bytes_of, bytes_with, file_of,
    with_counts,
};
use std::alloc::Global;
use std::test::Fail;
use swi_check::Mismatch as Difference;
use swi_devices::{FaultRam, MemSource};
use swi_elf_read::ElfRefusal::*;
use swi_image::ImageRefusal;
use swi_top::Ending::{self, *};
use swi_top::Refusal::{self, *};

/// Fails where `cached` answers otherwise to a file.
fn expect_answer(
    alloc: Global,
    file: Vec<u8>,
    answer: Result<Ending, Refusal>,
) -> Result<(), Fail> {
    let wanted = Wanted {
        answer: Some(answer),
        ..ANY
    };
    expect_wanted(alloc, "cached A", &QUIET, file, &wanted)
}

#[test]
fn each_front_of_a_file_has_its_refusal(rt: HostRuntime) -> Result<(), Fail> {
    let alloc = rt.alloc();
    for size in 0..=200u32 {
        let answer = match size {
            0..52 => Err(Elf(Short(size))),
            52..116 => Err(Elf(Table(28))),
            116..128 => Err(Elf(Extent(0))),
            128..200 => Err(Elf(Extent(1))),
            _ => Ok(Exited(7, 3)),
        };
        let mut file = bytes_of(alloc, &FIRST)?;
        file.truncate(size as usize);
        expect_answer(alloc, file, answer)?;
    }
    Ok(())
}

/// What `cached` answers to `FIRST` where a word of its image, from the first on, is `NONE`. Behind these stand the block's words.
static DAMAGED: [Refusal; 10] = [
    Image(ImageRefusal::Magic(0)),
    Image(ImageRefusal::Version(1)),
    Image(ImageRefusal::BlockSize(2)),
    Image(ImageRefusal::Length(18)),
    Image(ImageRefusal::Length(18)),
    Mismatch(Difference::Cover { address: 0x10000 }),
    Image(ImageRefusal::Table(6)),
    Image(ImageRefusal::Offsets(7)),
    Image(ImageRefusal::Offsets(8)),
    Image(ImageRefusal::Offsets(9)),
];

#[test]
fn each_word_of_an_image_is_checked(rt: HostRuntime) -> Result<(), Fail> {
    let alloc = rt.alloc();
    for (at, required) in FIRST[32..].iter().enumerate() {
        let word = Mismatch(Difference::Word {
            block: 0,
            offset: u32::try_from(at).unwrap_or(0).wrapping_sub(10),
            held: NONE,
            required: *required,
        });
        let wanted = DAMAGED.get(at).copied().unwrap_or(word);
        let file = bytes_with(alloc, &FIRST, at.wrapping_add(32), NONE)?;
        expect_answer(alloc, file, Err(wanted))?;
    }
    Ok(())
}

/// The place of a word of `PLAIN` and what stands there instead; and then what `cached` answers.
static HEADERS: [(usize, u32, Result<Ending, Refusal>); 12] = [
    (5, 2, Err(Elf(Version(20)))),
    (10, 0x0038_0034, Err(Elf(HeaderSize(42)))),
    (11, 65, Err(Elf(Many(44)))),
    (11, 0, Err(Elf(NoText(0)))),
    (7, NONE, Err(Elf(Table(28)))),
    (13, 3, Err(Elf(Dynamic(0)))),
    (14, NONE, Err(Elf(Extent(0)))),
    (18, NONE, Err(Elf(Extent(0)))),
    (19, 4, Err(Elf(NoText(0)))),
    (17, 3, Err(Elf(NoText(0)))),
    (18, 33_554_433, Err(Elf(Large(0)))),
    (18, 33_554_432, Ok(Exited(7, 3))),
];

#[test]
fn each_field_of_a_header_is_checked(rt: HostRuntime) -> Result<(), Fail> {
    for &(at, word, answer) in HEADERS.iter() {
        let file = bytes_with(rt.alloc(), &PLAIN, at, word)?;
        expect_answer(rt.alloc(), file, answer)?;
    }
    Ok(())
}

/// What is handed in with a command.
#[derive(Clone, Copy)]
enum Device {
    Shelf,
    Input,
    Output,
    Errors,
    Ram,
}

impl Device {
    /// The answer where it fails, and its line.
    fn fault(self) -> (Refusal, &'static str) {
        match self {
            Device::Shelf => (ShelfFault, "shelf fault\n"),
            Device::Input => (SourceFault, "source fault\n"),
            Device::Output | Device::Errors => (SinkFault, "sink fault\n"),
            Device::Ram => (RamFault, "ram fault\n"),
        }
    }

    /// The row where this call of it fails.
    fn failing(self, row: &Row, call: u32) -> Row {
        let number = |it: bool| if it { call } else { 0 };
        Row {
            words: row.words,
            text: row.text,
            input: row.input,
            ram: row.ram,
            shelf_fails: number(matches!(self, Device::Shelf)),
            input_fails: number(matches!(self, Device::Input)),
            out_fails: number(matches!(self, Device::Output)),
            err_fails: number(matches!(self, Device::Errors)),
            ram_fails: number(matches!(self, Device::Ram)),
            ..QUIET
        }
    }
}

/// A command on a text, or without one on `TABLE`; the device of which each call fails in turn; and how many calls of it
/// the command makes, worked out by hand.
static FAILING: [(Row, Device, u32); 18] = [
    // ten words are set for the block and its link, and eleven are fetched
    (
        row!(words: "cached A --block 16 --cache 64 --stats", text: COUNT, ram: 16),
        Device::Ram,
        21,
    ),
    (
        row!(words: "cached A --block 16", text: ECHO, input: "abc"),
        Device::Ram,
        26,
    ),
    // a read of 16 bytes takes three, and then asks for the end
    (
        row!(words: "plain A", text: ECHO, input: "abc"),
        Device::Input,
        2,
    ),
    (
        row!(words: "cached A", text: ECHO, input: "abc"),
        Device::Input,
        2,
    ),
    (
        row!(words: "trace A", text: ECHO, input: "abc"),
        Device::Input,
        2,
    ),
    (
        row!(words: "survey A 256", text: ECHO, input: "abc"),
        Device::Input,
        2,
    ),
    (
        row!(words: "profile A", text: ECHO, input: "abc"),
        Device::Input,
        2,
    ),
    // what the program writes, and a line of each count
    (row!(words: "plain A --stats", text: &[]), Device::Output, 2),
    (
        row!(words: "cached A --stats", text: &[]),
        Device::Output,
        10,
    ),
    (
        row!(words: "cached A --state --stats", text: SEVEN),
        Device::Output,
        43,
    ),
    (
        row!(words: "list A --block 8", text: SEVEN),
        Device::Output,
        5,
    ),
    (row!(words: "measure 1 1"), Device::Output, 13),
    // a size, nine counts, and the line's end
    (
        row!(words: "survey A 256 --block 8", text: SEVEN),
        Device::Output,
        11,
    ),
    // a line of each word that was executed
    (row!(words: "profile A", text: SEVEN), Device::Output, 3),
    (
        row!(words: "cached A --calls", text: ECHO, input: "abc"),
        Device::Errors,
        3,
    ),
    (
        row!(words: "trace A --block 8", text: SEVEN),
        Device::Errors,
        3,
    ),
    (
        row!(words: "trace A --block 8 --last --steps 2", text: SEVEN),
        Device::Errors,
        3,
    ),
    (row!(words: "rewrite A B", text: SEVEN), Device::Shelf, 2),
];

/// Does a row's command on its text, or without one on `TABLE`.
fn done_of(alloc: Global, row: &Row) -> Result<Stands, Fail> {
    let file = match row.text {
        [] => bytes_of(alloc, &TABLE)?,
        text => file_of(alloc, text, 5, 0x10000)?,
    };
    run(alloc, row, file)
}

/// Whether both sinks hold a front of what they hold after the whole run, the errors with this line behind it, and the file
/// is as it was.
fn has_fronts(whole: &Stands, done: &Stands, line: &str) -> bool {
    let Some(front) = done.err.as_slice().strip_suffix(line.as_bytes()) else {
        return false;
    };
    whole.out.starts_with(&done.out)
        && whole.err.starts_with(front)
        && done.first.as_slice() == whole.first.as_slice()
}

/// Fails where the command does otherwise than break where one of these calls of a device fails, and than go whole where
/// the next would.
fn expect_breaks(alloc: Global, row: &Row, device: Device, calls: u32) -> Result<(), Fail> {
    let (refusal, line) = device.fault();
    let whole = done_of(alloc, row)?;
    for call in 1..=calls {
        let done = done_of(alloc, &device.failing(row, call))?;
        let fact = done.answer == Err(refusal) && has_fronts(&whole, &done, line);
        holds(row.words, fact)?;
    }
    let done = done_of(alloc, &device.failing(row, calls.saturating_add(1)))?;
    let wanted = Wanted {
        answer: Some(whole.answer),
        out: Some(&whole.out),
        err: Some(&whole.err),
        ..ANY
    };
    agrees(row.words, &done, &wanted)
}

#[test]
fn each_call_of_a_device_may_fail(rt: HostRuntime) -> Result<(), Fail> {
    for (row, device, calls) in FAILING.iter() {
        expect_breaks(rt.alloc(), row, *device, *calls)?;
    }
    Ok(())
}

/// The state before the first step of `COUNT`: all registers are 0 but sp.
const STATE_AT_0: &str =
    "pc 00010000\nx0 00000000\nx1 00000000\nx2 00121fc0\nx3 00000000\nx4 00000000\nx5 00000000\n\
    x6 00000000\nx7 00000000\nx8 00000000\nx9 00000000\nx10 00000000\nx11 00000000\n\
    x12 00000000\nx13 00000000\nx14 00000000\nx15 00000000\nx16 00000000\nx17 00000000\n\
    x18 00000000\nx19 00000000\nx20 00000000\nx21 00000000\nx22 00000000\nx23 00000000\n\
    x24 00000000\nx25 00000000\nx26 00000000\nx27 00000000\nx28 00000000\nx29 00000000\n\
    x30 00000000\nx31 00000000\nbreak 00010014\n";

/// A block of a first version's image is copied with the zeros that fill it; and the counts stand behind the state.
#[test]
fn a_report_has_the_state_and_then_the_counts(rt: HostRuntime) -> Result<(), Fail> {
    let alloc = rt.alloc();
    let lines = with_counts(alloc, "", &[3, 4, 0, 1, 0, 0, 0, 3, 8])?;
    let wanted = Wanted {
        out: Some(lines.as_bytes()),
        ..ANY
    };
    let file = bytes_of(alloc, &FIRST)?;
    expect_wanted(alloc, "cached A --stats", &QUIET, file, &wanted)?;
    let lines = with_counts(alloc, STATE_AT_0, &[0, 1, 0, 1, 0, 0, 0, 0, 9])?;
    let wanted = Wanted {
        out: Some(lines.as_bytes()),
        ..ANY
    };
    let words = "cached A --block 16 --cache 64 --steps 0 --stats --state";
    let file = file_of(alloc, COUNT, 5, 0x10000)?;
    expect_wanted(alloc, words, &QUIET, file, &wanted)
}

/// Fails where `LONG_ECHO` answers or writes otherwise over an input.
fn expect_echo(alloc: Global, command: &str, input: &[u8], echo: &[u8]) -> Result<(), Fail> {
    let row = row!(room: 2000);
    let mut devices = devices_of(alloc, &row, file_of(alloc, LONG_ECHO, 5, 0x10000)?)?;
    devices.input = MemSource::new(input.to_vec(alloc)?, Vec::new(alloc));
    let mut ram = FaultRam::new(alloc, 1024, Vec::new(alloc))?;
    let answer = answer_to(alloc, command, &mut devices, &mut ram)?;
    holds(
        command,
        answer == Ok(Exited(0, 12)) && devices.out.held() == echo,
    )
}

/// `LONG_ECHO` reads 1000 bytes at most, in pieces: of a longer input and of a shorter one.
#[test]
fn a_long_read_is_echoed(rt: HostRuntime) -> Result<(), Fail> {
    let mut given = Vec::new(rt.alloc());
    for _ in 0..6 {
        given.extend(0..251u8)?;
    }
    for command in ["plain A", "cached A"] {
        for size in [1500usize, 300] {
            let input = given.get(..size).unwrap_or(b"");
            let echo = given.get(..size.min(1000)).unwrap_or(b"");
            expect_echo(rt.alloc(), command, input, echo)?;
        }
    }
    Ok(())
}

/// A text: these words, so many times ADDI, and a jump; the command; and then the answer and the counts.
struct Far {
    first: &'static [u32],
    adds: u32,
    jump: u32,
    words: &'static str,
    answer: Ending,
    counts: [u64; 9],
}

/// Texts larger than a jump reaches, by a model of the rules in another language.
static FAR: [Far; 4] = [
    // a jump back over 1,052,920 bytes of the cache is served each time, one over 2^20 is linked, and one over 4 more isn't
    Far {
        first: &[],
        adds: 255_006,
        jump: 0xF890606F,
        words: "cached A --cache 2097152 --steps 510014 --stats",
        answer: Spent(510_014, 0x10000),
        counts: [510_014, 518_239, 4114, 4113, 0, 4112, 0, 518_238, 267_344],
    },
    Far {
        first: &[],
        adds: 253_953,
        jump: 0x8000806F,
        words: "cached A --cache 2097152 --steps 507907 --stats",
        answer: Spent(507_907, 0x10004),
        counts: [507_907, 516_100, 4097, 4097, 0, 4097, 0, 516_099, 266_244],
    },
    Far {
        first: &[],
        adds: 253_953,
        jump: 0xFFD0706F,
        words: "cached A --cache 2097152 --steps 507908 --stats",
        answer: Spent(507_908, 0x10000),
        counts: [507_908, 516_101, 4098, 4097, 0, 4096, 0, 516_100, 266_243],
    },
    // a jump forward over 2^20 - 4 bytes, which the second round takes, is linked
    Far {
        first: &[0x00028463, 0x7F9F706F, 0x00128293],
        adds: 253_949,
        jump: 0x8000806F,
        words: "cached A --cache 2097152 --steps 253958 --stats",
        answer: Spent(253_958, 0x107FFC),
        counts: [253_958, 258_056, 4100, 4097, 0, 4098, 0, 258_055, 266_247],
    },
];

/// The file of a text.
fn far_file(alloc: Global, far: &Far) -> Result<Vec<u8>, Fail> {
    let mut text = Vec::from_slice(alloc, far.first)?;
    text.extend((0..far.adds).map(|_| 0x00150513))?;
    text.push(far.jump)?;
    let size = u32::try_from(text.len()).unwrap_or(0).wrapping_mul(4);
    let segment = [0x10000, 0x10000, size, size, 5, 4];
    let words = [&PLAIN[..15], &segment, &text].concat(alloc)?;
    bytes_of(alloc, &words)
}

#[test]
fn texts_larger_than_a_jump_reaches_have_their_counts(rt: HostRuntime) -> Result<(), Fail> {
    let alloc = rt.alloc();
    for far in FAR.iter() {
        let row = row!(words: far.words, ram: 2_097_152);
        let lines = with_counts(alloc, "", &far.counts)?;
        let wanted = Wanted {
            answer: Some(Ok(far.answer)),
            out: Some(lines.as_bytes()),
            ..ANY
        };
        expect_wanted(alloc, far.words, &row, far_file(alloc, far)?, &wanted)?;
    }
    Ok(())
}
