//! The same runs by the calls of a board, over each of the two services.

ghost use Rattle.std.specs.Prelude.{◌≡◌, ◌≤◌, List, ℕ, length};
ghost use Rattle.swi_image.specs.Format.{ImageData};
ghost use Rattle.swi_image.specs.Sound.{IsImage};
ghost use Rattle.swi_program.specs.Layout.{IsLayoutOf};
ghost use Rattle.swi_program.specs.Text.{text_of};
ghost use Rattle.swi_render.specs.ImageOf.{IsImageOf};

use super::*;
use swi_board::{BoardFault, BootStop};
use swi_image::ImageView;
use swi_memory::Layout;
use swi_slots::ScanRom;

/// Adds 2 to the stack pointer, and loads from there with a reservation.
const ODD: &[u32] = &[0x00210293, 0x1002A52F];

/// Stores with a reservation that isn't held, and exits with what that gives.
const UNHELD: &[u32] = &[0x00000297, 0x18A2A52F, 0x05D00893, 0x00000073];

/// Further runs with known answers.
static MORE: [Row; 5] = [
    // a branch to an address that is no multiple of 4, not taken
    Row {
        run: Run {
            text: &[0x00001363, 0x05D00893, 0x00000073],
            ..PLAIN
        },
        ending: Some(Exited(0)),
        pc: 0x10008,
        counts: [3, 4, 0, 1, 0, 0, 0, 3, 7],
    },
    // a store into a text that isn't writable, and a swap
    Row {
        run: Run {
            text: STORE,
            ..PLAIN
        },
        ending: Some(Faulted(StoreAccess, 0x10000)),
        pc: 0x10004,
        counts: [2, 4, 0, 1, 0, 0, 0, 3, 7],
    },
    Row {
        run: Run {
            text: SWAP,
            ..PLAIN
        },
        ending: Some(Faulted(StoreAccess, 0x10000)),
        pc: 0x10004,
        counts: [2, 4, 0, 1, 0, 0, 0, 3, 5],
    },
    // sc.w without a reservation stores nothing, also into a text
    Row {
        run: Run {
            text: UNHELD,
            rights: 7,
            ..PLAIN
        },
        ending: Some(Exited(1)),
        pc: 0x1000C,
        counts: [4, 6, 0, 1, 0, 0, 0, 5, 7],
    },
    // lr.w at an address that is no multiple of 4
    Row {
        run: Run { text: ODD, ..PLAIN },
        ending: Some(Faulted(LoadAccess, 0x121FC2)),
        pc: 0x10004,
        counts: [2, 3, 0, 1, 0, 0, 0, 2, 4],
    },
];

/// What stands after a run by the calls of a board: whether the ram failed, the ending, the address and
/// the counts, the output, and the ram's first words.
#[derive(Drop)]
struct Came {
    failed: bool,
    ending: Option<End>,
    pc: u32,
    counts: [u64; 9],
    out: Vec<u8>,
    words: Vec<u32>,
}

/// What stands after a boot whose ram failed.
fn not_booted(alloc: Global) -> Result<Came, Fail> {
    Ok(Came {
        failed: true,
        ending: None,
        pc: 0,
        counts: [0; 9],
        out: Vec::new(alloc),
        words: Vec::new(alloc),
    })
}

/// Boots a board over a new service, and runs it.
fn run_by<R: CacheRom>(
    alloc: Global,
    rom: R,
    run: &Run,
    image: &ImageView<'_>,
    program: &Program<'_>,
    layout: &Layout,
    devices: &mut Devices,
) -> Result<Came, Fail>
    requires laid_out { IsLayoutOf program.now.segments layout.now }
    requires own { IsImageOf (text_of program.now.segments) image.now }
    requires sound { R.service.sound rom image.now devices.old.ram.ram.words }
{
    carry(image, program);
    if rom.counts().services > 0 {
        return Err(Fail::from("no new service"));
    }
    let Devices {
        input,
        out,
        err,
        ram,
    } = devices;
    let mut board = match Board::boot(alloc, image, program, layout, false, rom, ram) {
        Ok(board) => board,
        Err(BootStop::RamFault) => return not_booted(alloc),
        Err(BootStop::Memory) => return Err(Fail::from("no memory")),
    };
    if board.steps() > run.limit || run.limit > 1000 || board.rom().counts().services > 1 {
        return Err(Fail::from("no start"));
    }
    let failed = match board.run(image, ram, input, out, err, run.limit) {
        Ok(()) => false,
        Err(BoardFault::RamFault) => true,
        Err(_) => return Err(Fail::from("another device failed")),
    };
    Ok(Came {
        failed,
        ending: board.ending(),
        pc: board.origin_pc(),
        counts: counts_of(&board, ram),
        out: out.held().to_vec(alloc)?,
        words: front_of(alloc, ram)?,
    })
}

/// The same over devices of its own.
fn run_on<R: CacheRom>(
    alloc: Global,
    rom: R,
    run: &Run,
    image: &ImageView<'_>,
    program: &Program<'_>,
    layout: &Layout,
) -> Result<Came, Fail>
    requires laid_out { IsLayoutOf program.now.segments layout.now }
    requires own { IsImageOf (text_of program.now.segments) image.now }
    requires small { R.service.span (R.service.setting rom) ≤ 2048 }
    requires new { (v : ImageData) (words : List ℕ) → IsImage v → v.block_words ≤ image.now.block_words →
        R.service.span (R.service.setting rom) ≤ length words → R.service.sound rom v words }
{
    let _blocks = image.blocks();
    let mut devices = devices_of(alloc, run, 2048)?;
    run_by(alloc, rom, run, image, program, layout, &mut devices)
}

/// What stands after a run over the service that scans, and over that with chains.
fn both(alloc: Global, run: &Run) -> Result<[Came; 2], Fail> {
    let file = file_with(alloc, run.text, run.rights)?;
    let program = program_in(alloc, &file)?;
    let Ok(layout) = lay_out(&program, 1 << 20, 1 << 16) else {
        return Err(Fail::from("no room"));
    };
    both_of(alloc, run, &program, &layout)
}

/// The same of a program.
fn both_of(
    alloc: Global,
    run: &Run,
    program: &Program<'_>,
    layout: &Layout,
) -> Result<[Came; 2], Fail>
    requires laid_out { IsLayoutOf program.now.segments layout.now }
{
    if run.block_words < 2 || run.block_words > 1024 {
        return Err(Fail::from("no block"));
    }
    let Ok(image) = cut(alloc, program, run.block_words) else {
        return Err(Fail::from("no image"));
    };
    both_over(alloc, run, &image.view(), program, layout)
}

/// The same over an image of it.
fn both_over(
    alloc: Global,
    run: &Run,
    image: &ImageView<'_>,
    program: &Program<'_>,
    layout: &Layout,
) -> Result<[Came; 2], Fail>
    requires laid_out { IsLayoutOf program.now.segments layout.now }
    requires own { IsImageOf (text_of program.now.segments) image.now }
{
    let _blocks = image.blocks();
    if run.cache_bytes < 4 * image.block_words() || run.cache_bytes > 4096 {
        return Err(Fail::from("no cache"));
    }
    let scan = ScanRom::new(alloc, run.cache_bytes, image.block_words())?;
    let fifo = FifoRom::new(alloc, run.cache_bytes, image.block_words())?;
    Ok([
        run_on(alloc, scan, run, image, program, layout)?,
        run_on(alloc, fifo, run, image, program, layout)?,
    ])
}

#[test]
fn both_services_run_alike(rt: HostRuntime) -> Result<(), Fail> {
    for (k, row) in ROWS.iter().chain(MORE.iter()).enumerate() {
        for done in both(rt.alloc(), &row.run)?.iter() {
            let came = (done.failed, done.ending, done.pc);
            assert_eq!(rt; came, (false, row.ending, row.pc), "row {k}");
            assert_eq!(rt; done.counts, row.counts, "row {k}");
        }
    }
    Ok(())
}

#[test]
fn both_services_place_alike(rt: HostRuntime) -> Result<(), Fail> {
    for &(cache_bytes, words) in WORDS.iter() {
        let run = Run {
            text: COUNT,
            block_words: 5,
            cache_bytes,
            ..PLAIN
        };
        for done in both(rt.alloc(), &run)?.iter() {
            assert!(rt; done.words.starts_with(words), "{cache_bytes} bytes");
        }
    }
    Ok(())
}

#[test]
fn each_call_of_the_ram_fails_in_both(rt: HostRuntime) -> Result<(), Fail> {
    for &(text, whole, calls, bytes) in FAILING.iter() {
        for ram_fails in 1..=calls {
            let run = Run {
                text,
                cache_bytes: 64,
                ram_fails,
                ..PLAIN
            };
            for done in both(rt.alloc(), &run)?.iter() {
                assert_eq!(rt; done.failed, ram_fails < calls, "call {ram_fails}");
                let held: &[u8] = if ram_fails < whole { b"" } else { bytes };
                assert_eq!(rt; done.out.as_slice(), held, "call {ram_fails}");
            }
        }
    }
    Ok(())
}
