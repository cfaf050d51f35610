ghost use Rattle.swi_engine.specs.Sound.{EngineSound};

use self::Step::*;
use crate::transfers::Transfer::{self, *};
use crate::transfers::{E, LOOP_IN_THREE, bytes_of, counts_of, first_other, make, view_of};
use std::alloc::Global;
use std::process::Abort;
use std::test::Fail;
use swi_devices::VecRam;
use swi_engine::EngineRom;
use swi_image::ImageView;
use swi_outside::CacheRam;
use swi_rom::CacheRom;

/// A transfer, or an event of the engine, with control at an index, and its answer.
#[derive(Clone, Copy)]
enum Step {
    Serve(Transfer),
    Work(u32, bool),
}

/// What stands after some steps: the slots' words in the ram, the placed blocks with their first words, the oldest
/// first, the counts in the order of `Counts`, and what the engine has copied.
struct Row {
    cache_bytes: u32,
    image: &'static [u32],
    steps: &'static [Step],
    words: &'static [u32],
    placed: &'static [(u32, u32)],
    counts: [u64; 6],
    copied: (u64, u64),
}

/// Seven blocks of one text word each, with up to two exits; two have an exit to themselves, and one has one word.
const SEVEN: [u32; 49] = [
    0x3143_4953,
    2,
    4,
    7,
    7,
    0x0001_0000,
    0,
    1,
    2,
    3,
    4,
    5,
    6,
    4,
    8,
    9,
    0x0000_000C,
    0x0000_0010,
    0x0000_0012,
    0x0000_0016,
    0,
    0,
    0,
    0,
    0,
    0,
    0,
    E,
    0x0001_0004,
    E,
    0x0001_0008,
    E,
    0x0001_0004,
    E,
    0x0001_0000,
    0x0000_0073,
    0x0000_0013,
    E,
    0x0001_0010,
    E,
    0x0001_0010,
    E,
    0x0001_0004,
    0x0000_0013,
    0x0000_0073,
    E,
    0x0001_0000,
    E,
    0x0001_000C,
];

static ROWS: [Row; 8] = [
    // x5 = 3; subtract 1; branch back by 4 while x5 isn't 0; exit: the engine is always ahead.
    Row {
        cache_bytes: 60,
        image: &LOOP_IN_THREE,
        steps: &[
            Serve(Enter(0x10000, 0)),
            Work(0, true),
            Work(0, true),
            Work(0, true),
            Work(0, true),
            Work(0, true),
            Work(0, false),
            Serve(Cross(2, 5)),
            Work(5, true),
            Work(5, true),
            Work(5, true),
            Work(5, true),
            Work(5, false),
            Serve(Cross(6, 1)),
            Work(1, false),
            Serve(Cross(8, 10)),
            Work(10, false),
        ],
        words: &[
            0x0030_0293,
            0xFFF2_8293,
            0x00C0_006F,
            0x0001_0008,
            0,
            0x0002_8663,
            0xFEDF_F06F,
            0x0001_0004,
            0x0080_006F,
            0x0001_000C,
            0x05D0_0893,
            0x0000_0073,
            E,
            0x0001_0014,
            0,
        ],
        placed: &[(0, 0), (1, 5), (2, 10)],
        counts: [3, 1, 0, 3, 0, 4],
        copied: (9, 2),
    },
    // One event after each step of the hart: the miss of block 1 writes the three words that are missing.
    Row {
        cache_bytes: 60,
        image: &LOOP_IN_THREE,
        steps: &[
            Serve(Enter(0x10000, 0)),
            Work(0, true),
            Work(0, true),
            Serve(Cross(2, 5)),
            Work(5, true),
            Work(5, true),
            Serve(Cross(6, 1)),
            Work(1, true),
            Work(1, true),
            Work(1, false),
            Serve(Cross(8, 10)),
        ],
        words: &[
            0x0030_0293,
            0xFFF2_8293,
            0x00C0_006F,
            0x0001_0008,
            0,
            0x0002_8663,
            0xFEDF_F06F,
            0x0001_0004,
            0x0080_006F,
            0x0001_000C,
            0x05D0_0893,
            0x0000_0073,
            E,
            0x0001_0014,
            0,
        ],
        placed: &[(0, 0), (1, 5), (2, 10)],
        counts: [3, 2, 0, 3, 0, 7],
        copied: (6, 1),
    },
    // No event: as without an engine.
    Row {
        cache_bytes: 60,
        image: &LOOP_IN_THREE,
        steps: &[
            Serve(Enter(0x10000, 0)),
            Serve(Cross(2, 5)),
            Serve(Cross(6, 1)),
            Serve(Cross(8, 10)),
        ],
        words: &[
            0x0030_0293,
            0xFFF2_8293,
            0x00C0_006F,
            0x0001_0008,
            0,
            0x0002_8663,
            0xFEDF_F06F,
            0x0001_0004,
            0x0080_006F,
            0x0001_000C,
            0x05D0_0893,
            0x0000_0073,
            E,
            0x0001_0014,
            0,
        ],
        placed: &[(0, 0), (1, 5), (2, 10)],
        counts: [3, 3, 0, 3, 0, 13],
        copied: (0, 0),
    },
    // Two slots: the link into the oldest block but control's is undone, and then it leaves, with the link from it.
    Row {
        cache_bytes: 40,
        image: &LOOP_IN_THREE,
        steps: &[
            Serve(Enter(0x10000, 0)),
            Serve(Cross(2, 5)),
            Serve(Cross(6, 1)),
            Work(1, false),
            Work(5, true),
            Work(5, true),
            Work(5, true),
            Work(5, true),
            Work(5, true),
            Work(5, false),
            Serve(Cross(8, 0)),
        ],
        words: &[
            0x05D0_0893,
            0x0000_0073,
            E,
            0x0001_0014,
            0,
            0x0002_8663,
            E,
            0x0001_0004,
            0xFE1F_F06F,
            0x0001_000C,
        ],
        placed: &[(1, 5), (2, 0)],
        counts: [3, 2, 1, 3, 1, 9],
        copied: (4, 1),
    },
    // A copy is dropped by the miss of another block, which takes its slot.
    Row {
        cache_bytes: 40,
        image: &LOOP_IN_THREE,
        steps: &[
            Serve(Enter(0x10000, 0)),
            Serve(Cross(2, 5)),
            Work(5, true),
            Serve(Cross(6, 1)),
        ],
        words: &[
            0x0030_0293,
            0xFFF2_8293,
            E,
            0x0001_0008,
            0,
            0x0002_8663,
            0xFEDF_F06F,
            0x0001_0004,
            E,
            0x0001_000C,
        ],
        placed: &[(1, 5), (0, 0)],
        counts: [2, 3, 1, 2, 0, 13],
        copied: (1, 0),
    },
    // 60 transfers and events by the rules over lists, with 2 slots.
    Row {
        cache_bytes: 32,
        image: &SEVEN,
        steps: &[
            Serve(Enter(0x10000, 0)),
            Work(0, true),
            Work(0, true),
            Serve(Enter(0x1000C, 4)),
            Work(4, true),
            Work(4, true),
            Work(4, true),
            Work(4, true),
            Serve(Cross(5, 0)),
            Work(0, true),
            Work(0, true),
            Serve(Cross(2, 0)),
            Serve(Cross(0, 0)),
            Serve(Cross(2, 4)),
            Serve(Cross(4, 0)),
            Work(0, true),
            Work(0, true),
            Work(0, false),
            Serve(Enter(0x1000C, 0)),
            Work(0, true),
            Work(0, true),
            Work(0, true),
            Work(0, true),
            Serve(Cross(1, 4)),
            Serve(Cross(6, 0)),
            Work(0, true),
            Work(0, false),
            Serve(Cross(0, 0)),
            Serve(Cross(2, 0)),
            Work(0, true),
            Work(0, true),
            Serve(Cross(2, 4)),
            Work(4, true),
            Work(4, true),
            Serve(Enter(0x1000C, 0)),
            Work(0, true),
            Work(0, true),
            Work(0, true),
            Serve(Cross(1, 4)),
            Work(4, true),
            Work(4, true),
            Work(4, false),
            Work(4, false),
            Work(4, false),
            Serve(Cross(6, 4)),
            Work(4, true),
            Work(4, false),
            Work(4, false),
            Serve(Enter(0x10010, 4)),
            Serve(Cross(4, 4)),
            Work(4, true),
            Serve(Enter(0x10014, 0)),
            Work(0, true),
            Work(0, true),
            Work(0, true),
            Work(0, true),
            Serve(Enter(0x10018, 4)),
            Work(4, false),
            Work(4, false),
            Serve(Cross(4, 0)),
        ],
        words: &[
            E,
            0x0001_0004,
            E,
            0x0001_0008,
            0xFF1F_F06F,
            0x0001_0000,
            E,
            0x0001_000C,
        ],
        placed: &[(6, 4), (0, 0)],
        counts: [20, 14, 20, 11, 1, 42],
        copied: (29, 8),
    },
    // 60 transfers and events by the rules over lists, with 3 slots.
    Row {
        cache_bytes: 48,
        image: &SEVEN,
        steps: &[
            Serve(Enter(0x10000, 0)),
            Work(0, true),
            Work(0, true),
            Serve(Enter(0x1000C, 4)),
            Work(4, true),
            Work(4, true),
            Work(4, true),
            Work(4, true),
            Serve(Cross(5, 8)),
            Work(8, true),
            Work(8, true),
            Serve(Cross(10, 4)),
            Serve(Cross(4, 4)),
            Serve(Cross(6, 8)),
            Serve(Cross(8, 4)),
            Work(4, true),
            Work(4, false),
            Work(4, false),
            Serve(Enter(0x1000C, 4)),
            Work(4, true),
            Work(4, true),
            Work(4, true),
            Work(4, true),
            Serve(Cross(5, 8)),
            Serve(Cross(10, 0)),
            Work(0, true),
            Work(0, false),
            Serve(Cross(0, 0)),
            Serve(Cross(2, 8)),
            Work(8, false),
            Work(8, false),
            Serve(Cross(10, 4)),
            Work(4, true),
            Work(4, true),
            Serve(Enter(0x1000C, 0)),
            Work(0, true),
            Work(0, true),
            Work(0, true),
            Serve(Cross(1, 4)),
            Work(4, true),
            Work(4, true),
            Work(4, false),
            Work(4, false),
            Work(4, false),
            Serve(Cross(6, 0)),
            Work(0, true),
            Work(0, false),
            Work(0, false),
            Serve(Enter(0x10010, 8)),
            Serve(Cross(8, 8)),
            Work(8, true),
            Serve(Enter(0x10014, 0)),
            Work(0, true),
            Work(0, true),
            Work(0, true),
            Work(0, true),
            Serve(Enter(0x10018, 4)),
            Work(4, false),
            Work(4, false),
            Serve(Cross(4, 8)),
        ],
        words: &[
            0x0000_0013,
            0x0000_0073,
            E,
            0x0001_0000,
            0x0100_006F,
            0x0001_0000,
            E,
            0x0001_000C,
            E,
            0x0001_0004,
            E,
            0x0001_0008,
        ],
        placed: &[(5, 0), (6, 4), (0, 8)],
        counts: [20, 13, 18, 14, 2, 42],
        copied: (26, 8),
    },
    // 60 transfers and events by the rules over lists, with 4 slots.
    Row {
        cache_bytes: 64,
        image: &SEVEN,
        steps: &[
            Serve(Enter(0x10000, 0)),
            Serve(Cross(0, 4)),
            Work(4, true),
            Serve(Cross(6, 0)),
            Serve(Cross(2, 8)),
            Work(8, true),
            Work(8, true),
            Work(8, true),
            Serve(Enter(0x10008, 8)),
            Serve(Enter(0x10010, 0)),
            Work(0, true),
            Serve(Cross(0, 0)),
            Serve(Enter(0x10010, 0)),
            Work(0, true),
            Serve(Cross(2, 8)),
            Work(8, true),
            Serve(Cross(8, 8)),
            Serve(Cross(10, 0)),
            Serve(Cross(2, 12)),
            Work(12, true),
            Work(12, true),
            Work(12, true),
            Serve(Enter(0x10014, 8)),
            Work(8, true),
            Serve(Enter(0x10000, 0)),
            Work(0, true),
            Work(0, true),
            Work(0, true),
            Work(0, true),
            Work(0, false),
            Serve(Cross(0, 12)),
            Work(12, true),
            Serve(Cross(14, 4)),
            Work(4, false),
            Serve(Enter(0x10008, 0)),
            Work(0, true),
            Serve(Enter(0x10018, 8)),
            Work(8, false),
            Serve(Cross(8, 4)),
            Serve(Cross(4, 12)),
            Work(4, false),
            Serve(Cross(6, 0)),
            Work(0, true),
            Serve(Enter(0x1000C, 12)),
            Serve(Cross(13, 0)),
            Serve(Cross(0, 0)),
            Work(0, true),
            Work(0, true),
            Work(0, true),
            Work(0, false),
            Work(0, false),
            Work(0, false),
            Work(0, false),
            Work(0, false),
            Work(0, false),
            Serve(Cross(2, 8)),
            Work(8, true),
            Work(8, false),
            Work(8, false),
            Serve(Cross(10, 0)),
        ],
        words: &[
            E,
            0x0001_0004,
            E,
            0x0001_0008,
            0x0000_0013,
            0x0000_0073,
            E,
            0x0001_0008,
            E,
            0x0001_0004,
            0xFD9F_F06F,
            0x0001_0000,
            0x0000_0073,
            0xFCDF_F06F,
            0x0001_0010,
            0x0001_0000,
        ],
        placed: &[(5, 4), (1, 8), (2, 12), (0, 0)],
        counts: [25, 12, 17, 17, 5, 45],
        copied: (19, 9),
    },
];

/// The placed blocks with their first words, the oldest first.
fn placed_by(alloc: Global, rom: &EngineRom) -> Result<Vec<(u32, u32)>, Fail> {
    let mut placed = Vec::new(alloc);
    for k in 0..64 {
        if let Some(place) = rom.resident(k) {
            placed.push(place)?;
        }
    }
    Ok(placed)
}

/// Makes a row's steps, each with its answer, and looks at what stands then.
fn assert_stands(rt: &impl Abort, alloc: Global, row: &Row) -> Result<(), Fail> {
    let bytes = bytes_of(alloc, row.image)?;
    let image = view_of(rt, &bytes);
    let block_words = image.block_words();
    let blocks = image.blocks();
    let cache_bytes = row.cache_bytes;
    assert!(rt; 1 <= blocks && blocks <= 1 << 19);
    assert!(rt; 4 * block_words <= cache_bytes && cache_bytes <= 256);
    let mut ram = VecRam::new(alloc, 64)?;
    let rom = EngineRom::new(alloc, cache_bytes, blocks, block_words)?;
    let rom = after_all(rt, rom, &image, &mut ram, row.steps);
    let came = (first_other(&ram, row.words), counts_of(&rom), rom.copied());
    assert_eq!(rt; came, (None, row.counts, row.copied));
    assert_eq!(rt; placed_by(alloc, &rom)?.as_slice(), row.placed);
    Ok(())
}

fn after_all(
    rt: &impl Abort,
    mut rom: EngineRom,
    image: &ImageView<'_>,
    ram: &mut VecRam,
    steps: &[Step],
) -> EngineRom
    requires { EngineSound rom image.now ram.old.words }
{
    for step in steps {
        match *step {
            Serve(transfer) => make(rt, &mut rom, image, ram, transfer),
            Work(at, answer) => turn(rt, &mut rom, image, ram, at, answer),
        }
    }
    rom
}

fn turn(
    rt: &impl Abort,
    rom: &mut EngineRom,
    image: &ImageView<'_>,
    ram: &mut VecRam,
    at: u32,
    answer: bool,
)
    requires { EngineSound rom.old image.now ram.old.words }
    ensures { EngineSound rom.new image.now ram.new.words }
{
    let place = match rom.at(at) {
        Some(place) => place,
        None => panic!(rt; "no place"),
    };
    assert!(rt; rom.copied().0 < 1 << 60);
    match rom.work(image, ram, place.0) {
        Ok(wrote) => assert_eq!(rt; wrote, answer),
        Err(_) => panic!(rt; "not worked"),
    }
}

#[test]
fn engine_copies_the_next_block(rt: HostRuntime) -> Result<(), Fail> {
    for row in &ROWS {
        assert_stands(&rt, rt.alloc(), row)?;
    }
    Ok(())
}
