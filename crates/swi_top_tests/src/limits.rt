//! Commands at the greatest sizes that the guide names, with ample memory.

use crate::devices::{Devices, answer_to, holds};
use crate::texts::{PLAIN, SEVEN, bytes_of};
use std::alloc::Global;
use std::test::Fail;
use swi_devices::{MemShelf, MemSink, MemSource, VecRam};
use swi_top::Ending::*;

/// As many program headers as a file may have.
const HEADERS: u32 = 64;

/// A file of `SEVEN` at 0x10000 and of 63 segments of data, each of a page of zeros, behind it.
fn file_of_many_segments(alloc: Global) -> Result<Vec<u8>, Fail> {
    let text_at = 52 + 32 * HEADERS;
    let mut words = Vec::from_slice(alloc, &PLAIN[..13])?;
    words[11] = HEADERS;
    words.extend_from_slice(&[1, text_at, 0x10000, 0x10000, 12, 12, 5, 4])?;
    for k in 1..HEADERS {
        let base = 0x10000 + (k << 12);
        words.extend_from_slice(&[1, text_at, base, base, 0, 4096, 6, 4])?;
    }
    words.extend_from_slice(SEVEN)?;
    bytes_of(alloc, &words)
}

#[test]
fn the_greatest_sizes_find_memory(rt: HostRuntime) -> Result<(), Fail> {
    let alloc = rt.alloc();
    let name = "n".repeat(alloc, 300)?;
    for (command, options) in [("plain ", ""), ("cached ", " --cache 8388608 --block 1024")] {
        let limits = " --steps 281474976710656 --heap 67108864 --stack 16777216";
        let line = format!(in alloc; "{command}{name}{limits}{options}")?;
        let file = (name.clone()?, file_of_many_segments(alloc)?);
        let mut devices = Devices {
            shelf: MemShelf::new(vec![in alloc; file]?, Vec::new(alloc)),
            input: MemSource::new(Vec::new(alloc), Vec::new(alloc)),
            out: MemSink::new(alloc, 64, Vec::new(alloc))?,
            err: MemSink::new(alloc, 64, Vec::new(alloc))?,
        };
        let mut ram = VecRam::new(alloc, 1 << 21)?;
        let answer = answer_to(alloc, &line, &mut devices, &mut ram)?;
        holds(
            command,
            answer == Ok(Exited(7, 3)) && devices.err.held().is_empty(),
        )?;
    }
    Ok(())
}
