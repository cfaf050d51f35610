//! Commands over devices in memory, what stands after one, and what is wanted of it.

use crate::texts::{SEVEN, file_of};
use std::alloc::Global;
use std::test::Fail;
use swi_devices::{FaultRam, MemShelf, MemSink, MemSource};
use swi_outside::{CacheRam, SteadyRam};
use swi_top::Ending::{self, *};
use swi_top::{Refusal, top};

/// A command and all that is handed in: its words, the file's text and rights, the input, the words of
/// the ram, the room of the output in bytes, and the failing calls of the devices: the number of one, 0
/// for none; and what then comes: the answer, the output and the errors.
#[derive(Clone, Copy)]
pub struct Row {
    pub words: &'static str,
    pub text: &'static [u32],
    pub rights: u32,
    pub input: &'static str,
    pub ram: u32,
    pub room: u32,
    pub shelf_fails: u32,
    pub input_fails: u32,
    pub out_fails: u32,
    pub err_fails: u32,
    pub ram_fails: u32,
    pub answer: Result<Ending, Refusal>,
    pub out: &'static str,
    pub err: &'static str,
}

/// What a row says where it says nothing else: no failing call, and nothing written.
pub const QUIET: Row = Row {
    words: "plain A",
    text: SEVEN,
    rights: 5,
    input: "",
    ram: 1024,
    room: 4096,
    shelf_fails: 0,
    input_fails: 0,
    out_fails: 0,
    err_fails: 0,
    ram_fails: 0,
    answer: Ok(Exited(7, 3)),
    out: "",
    err: "",
};

/// The devices of a command that are no ram.
#[derive(Drop)]
pub struct Devices {
    pub shelf: MemShelf,
    pub input: MemSource,
    pub out: MemSink,
    pub err: MemSink,
}

/// Does a command over these devices. All tests go through this one call of `top`: a function's proof grows with its steps
/// times its locals, so the tests' own bodies stay small.
pub fn answer_to<R: SteadyRam>(
    alloc: Global,
    command: &str,
    devices: &mut Devices,
    ram: &mut R,
) -> Result<Result<Ending, Refusal>, Fail> {
    let mut words = Vec::new(alloc);
    for word in command.split_whitespace() {
        words.push(String::from_str(alloc, word)?)?;
    }
    Ok(top(
        alloc,
        &words,
        &mut devices.shelf,
        &mut devices.input,
        &mut devices.out,
        &mut devices.err,
        ram,
    ))
}

/// What stands after a command: the answer, what the sinks hold, the files under `A` and `B`, and the ram's first words
/// and its counts.
#[derive(Drop)]
pub struct Stands {
    pub answer: Result<Ending, Refusal>,
    pub out: Vec<u8>,
    pub err: Vec<u8>,
    pub first: Vec<u8>,
    pub second: Vec<u8>,
    pub words: Vec<u32>,
    pub fetches: u64,
    pub sets: u64,
}

/// The first 48 words of a ram, or all.
pub fn front_of(alloc: Global, ram: &FaultRam) -> Result<Vec<u32>, Fail> {
    let mut words = Vec::new(alloc);
    for i in 0..48 {
        if i < ram.words() {
            words.push(ram.word(i))?;
        }
    }
    Ok(words)
}

/// The devices of a row, with this file under the name `A`.
pub fn devices_of(alloc: Global, row: &Row, file: Vec<u8>) -> Result<Devices, Fail> {
    let files = vec![in alloc; (String::from_str(alloc, "A")?, file)]?;
    let shelf = MemShelf::new(files, [row.shelf_fails].to_vec(alloc)?);
    let bytes = row.input.as_bytes().to_vec(alloc)?;
    let input = MemSource::new(bytes, [row.input_fails].to_vec(alloc)?);
    let out = MemSink::new(alloc, row.room, [row.out_fails].to_vec(alloc)?)?;
    let err = MemSink::new(alloc, 4096, [row.err_fails].to_vec(alloc)?)?;
    Ok(Devices {
        shelf,
        input,
        out,
        err,
    })
}

/// What stands in the devices after an answer.
pub fn stands_of(
    alloc: Global,
    answer: Result<Ending, Refusal>,
    devices: &Devices,
    ram: &FaultRam,
) -> Result<Stands, Fail> {
    let out = devices.out.held().to_vec(alloc)?;
    let err = devices.err.held().to_vec(alloc)?;
    let first = devices.shelf.held("A").unwrap_or(b"").to_vec(alloc)?;
    let second = devices.shelf.held("B").unwrap_or(b"").to_vec(alloc)?;
    let words = front_of(alloc, ram)?;
    Ok(Stands {
        answer,
        out,
        err,
        first,
        second,
        words,
        fetches: ram.fetches(),
        sets: ram.sets(),
    })
}

/// Does a command, with this file under the name `A` and the row's other devices.
pub fn run_words(alloc: Global, command: &str, row: &Row, file: Vec<u8>) -> Result<Stands, Fail> {
    let mut devices = devices_of(alloc, row, file)?;
    let mut ram = FaultRam::new(alloc, row.ram, [row.ram_fails].to_vec(alloc)?)?;
    let answer = answer_to(alloc, command, &mut devices, &mut ram)?;
    stands_of(alloc, answer, &devices, &ram)
}

/// The same of the row's own command.
pub fn run(alloc: Global, row: &Row, file: Vec<u8>) -> Result<Stands, Fail> {
    run_words(alloc, row.words, row, file)
}

/// What is wanted of a command: a part that is `None` may be anything.
#[derive(Clone, Copy)]
pub struct Wanted<'a> {
    pub answer: Option<Result<Ending, Refusal>>,
    pub out: Option<&'a [u8]>,
    pub err: Option<&'a [u8]>,
    pub first: Option<&'a [u8]>,
    pub second: Option<&'a [u8]>,
    pub fetches: Option<u64>,
    pub sets: Option<u64>,
}

/// What says nothing.
pub const ANY: Wanted<'static> = Wanted {
    answer: None,
    out: None,
    err: None,
    first: None,
    second: None,
    fetches: None,
    sets: None,
};

/// Whether other bytes are held than are wanted.
pub fn is_other(held: &[u8], wanted: Option<&[u8]>) -> bool {
    match wanted {
        Some(bytes) => held != bytes,
        None => false,
    }
}

/// Whether a number is another than is wanted.
pub fn is_miscounted(count: u64, wanted: Option<u64>) -> bool {
    match wanted {
        Some(number) => count != number,
        None => false,
    }
}

/// Whether a command answered otherwise than is wanted.
pub fn answers_otherwise(answer: &Result<Ending, Refusal>, wanted: &Wanted<'_>) -> bool {
    match &wanted.answer {
        Some(it) => *answer != *it,
        None => false,
    }
}

/// The first part that is other than is wanted.
pub fn difference(done: &Stands, wanted: &Wanted<'_>) -> Option<&'static str> {
    if answers_otherwise(&done.answer, wanted) {
        Some("the answer")
    } else if is_other(&done.out, wanted.out) {
        Some("the output")
    } else if is_other(&done.err, wanted.err) {
        Some("the errors")
    } else if is_other(&done.first, wanted.first) || is_other(&done.second, wanted.second) {
        Some("a file")
    } else if is_miscounted(done.fetches, wanted.fetches) || is_miscounted(done.sets, wanted.sets) {
        Some("a count of the ram")
    } else {
        None
    }
}

/// Fails where something else stands after a command than is wanted.
pub fn agrees(what: &str, done: &Stands, wanted: &Wanted<'_>) -> Result<(), Fail> {
    match difference(done, wanted) {
        None => Ok(()),
        Some(part) => {
            let answer = done.answer;
            Err(Fail::new(format_args!("{what}: {part} is other; {answer:?}")))
        }
    }
}

/// Fails where a fact does not hold.
pub fn holds(what: &str, fact: bool) -> Result<(), Fail> {
    if fact {
        Ok(())
    } else {
        Err(Fail::new(format_args!("{what}")))
    }
}

/// Does a command, with this file under the name `A` and the row's other devices; and fails where something else then
/// stands than is wanted.
pub fn expect_wanted(
    alloc: Global,
    command: &str,
    row: &Row,
    file: Vec<u8>,
    wanted: &Wanted<'_>,
) -> Result<(), Fail> {
    let done = run_words(alloc, command, row, file)?;
    agrees(command, &done, wanted)
}

/// The same where the answer and what is written are to be the row's.
pub fn expect_words(alloc: Global, command: &str, row: &Row, file: Vec<u8>) -> Result<(), Fail> {
    let wanted = Wanted {
        answer: Some(row.answer),
        out: Some(row.out.as_bytes()),
        err: Some(row.err.as_bytes()),
        ..ANY
    };
    expect_wanted(alloc, command, row, file, &wanted)
}

/// The same of the row's own command.
pub fn expect(alloc: Global, row: &Row, file: Vec<u8>) -> Result<(), Fail> {
    expect_words(alloc, row.words, row, file)
}

/// The same, each row over its own text.
pub fn expect_rows(alloc: Global, rows: &[Row]) -> Result<(), Fail> {
    for row in rows.iter() {
        expect(alloc, row, file_of(alloc, row.text, row.rights, 0x10000)?)?;
    }
    Ok(())
}
