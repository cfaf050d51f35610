ghost use Rattle.std.specs.Prelude.{◌≡◌, ◌==◌, ◌≤◌, ℕ, List, length, if◌then◌else◌};
ghost use Rattle.swi_image.specs.Format.{ImageData};
ghost use Rattle.swi_image.specs.Sound.{IsImage};
ghost use Rattle.swi_slots.specs.Slots.{setting_of, span_of};
ghost use Rattle.swi_slots.specs.Sound.{SlotsServe};

use crate::transfers::{
    CIRCLE, E, INTO_A_BLOCK, LOOP_IN_ONE, LOOP_IN_THREE, Transfer, bytes_of, counts_of,
    first_other, make, view_of,
};
use std::alloc::Global;
use std::process::Abort;
use std::test::Fail;
use swi_devices::VecRam;
use swi_image::ImageView;
use swi_outside::CacheRam;
use swi_rom::CacheRom;
use swi_slots::{FifoRom, LinkTable, ScanRom, SlotRom, chains};

/// What stands after some transfers, each of one of so many programs, of which program 1 has the second image and the
/// others the first: the first words of the ram, the oldest block of the program that came last, with its first word, the
/// counts in the order of `Counts`, and the newest link into the first slot.
struct Row {
    programs: u32,
    block_words: u32,
    cache_bytes: u32,
    images: [&'static [u32]; 2],
    transfers: &'static [(u32, Transfer)],
    words: &'static [u32],
    oldest: (u32, u32),
    counts: [u64; 6],
    newest: Option<u32>,
}

static ROWS: [Row; 7] = [
    // A block that is linked to itself.
    Row {
        programs: 1,
        block_words: 16,
        cache_bytes: 64,
        images: [&LOOP_IN_ONE, &LOOP_IN_ONE],
        transfers: &[(0, Transfer::Enter(0x10000, 0)), (0, Transfer::Cross(3, 1))],
        words: &[
            0x0030_0293,
            0xFFF2_8293,
            0x0002_8663,
            0xFF9F_F06F,
            0x10004,
            0x05D0_0893,
            0x73,
            E,
            0x10014,
            0,
        ],
        oldest: (0, 0),
        counts: [1, 1, 0, 1, 0, 9],
        newest: Some(3),
    },
    // With one slot every exit's block is evicted by its target.
    Row {
        programs: 1,
        block_words: 5,
        cache_bytes: 20,
        images: [&LOOP_IN_THREE, &LOOP_IN_THREE],
        transfers: &[
            (0, Transfer::Enter(0x10000, 0)),
            (0, Transfer::Cross(2, 0)),
            (0, Transfer::Cross(1, 1)),
            (0, Transfer::Cross(2, 0)),
            (0, Transfer::Cross(1, 1)),
            (0, Transfer::Cross(2, 0)),
            (0, Transfer::Cross(3, 0)),
        ],
        words: &[0x05D0_0893, 0x73, E, 0x10014, 0x1000C, 0],
        oldest: (2, 0),
        counts: [6, 7, 6, 0, 0, 31],
        newest: None,
    },
    // With two, word 6 was linked and is an exit again.
    Row {
        programs: 1,
        block_words: 5,
        cache_bytes: 40,
        images: [&LOOP_IN_THREE, &LOOP_IN_THREE],
        transfers: &[
            (0, Transfer::Enter(0x10000, 0)),
            (0, Transfer::Cross(2, 5)),
            (0, Transfer::Cross(6, 1)),
            (0, Transfer::Cross(8, 0)),
        ],
        words: &[
            0x05D0_0893,
            0x73,
            E,
            0x10014,
            0,
            0x0002_8663,
            E,
            0x10004,
            0xFE1F_F06F,
            0x1000C,
        ],
        oldest: (1, 5),
        counts: [3, 3, 1, 3, 1, 13],
        newest: Some(8),
    },
    // First-in order at its worst.
    Row {
        programs: 1,
        block_words: 2,
        cache_bytes: 16,
        images: [&CIRCLE, &CIRCLE],
        transfers: &[
            (0, Transfer::Enter(0x10000, 0)),
            (0, Transfer::Cross(0, 2)),
            (0, Transfer::Cross(2, 0)),
            (0, Transfer::Cross(0, 2)),
            (0, Transfer::Cross(2, 0)),
            (0, Transfer::Cross(0, 2)),
            (0, Transfer::Cross(2, 0)),
        ],
        words: &[E, 0x10004, 0xFF9F_F06F, 0x10000],
        oldest: (2, 2),
        counts: [6, 7, 5, 6, 0, 14],
        newest: Some(2),
    },
    Row {
        programs: 1,
        block_words: 5,
        cache_bytes: 60,
        images: [&INTO_A_BLOCK, &INTO_A_BLOCK],
        transfers: &[
            (0, Transfer::Enter(0x10000, 0)),
            (0, Transfer::Enter(0x1000C, 7)),
            (0, Transfer::Cross(8, 10)),
        ],
        words: &[
            0x0001_00B7,
            0x8093,
            E,
            0x00C0_80E7,
            0x10008,
            E,
            0x10009,
            0x05D0_0893,
            0x0080_006F,
            0x10010,
            0x8513,
            0x73,
            E,
            0x10018,
        ],
        oldest: (0, 0),
        counts: [2, 3, 0, 1, 0, 14],
        newest: None,
    },
    // A block of each program makes room for the other's. Word 11 was linked by program 0 into a block that program 1
    // has evicted, and leads there again once it stands in another slot. Word 8 was a link of program 1, and is a word of
    // program 0 when the block to which it led is evicted.
    Row {
        programs: 2,
        block_words: 5,
        cache_bytes: 60,
        images: [&LOOP_IN_THREE, &INTO_A_BLOCK],
        transfers: &[
            (0, Transfer::Enter(0x10000, 0)),
            (1, Transfer::Enter(0x1000C, 7)),
            (0, Transfer::Cross(2, 10)),
            (0, Transfer::Cross(11, 1)),
            (1, Transfer::Cross(8, 0)),
            (0, Transfer::Cross(11, 6)),
            (0, Transfer::Cross(7, 10)),
            (1, Transfer::Enter(0x1000C, 12)),
            (1, Transfer::Cross(13, 0)),
            (0, Transfer::Cross(7, 0)),
        ],
        words: &[
            0x0002_8663,
            E,
            0x10004,
            E,
            0x1000C,
            0x0030_0293,
            0xFFF2_8293,
            0xFE5F_F06F,
            0x10008,
            0x10010,
            E,
            0x10009,
            0x05D0_0893,
            E,
            0x10010,
        ],
        oldest: (0, 5),
        counts: [9, 7, 4, 7, 3, 32],
        newest: Some(7),
    },
    // Three programs at one address: each has a block of its own there, and the oldest of all makes room.
    Row {
        programs: 3,
        block_words: 2,
        cache_bytes: 24,
        images: [&CIRCLE, &CIRCLE],
        transfers: &[
            (0, Transfer::Enter(0x10000, 0)),
            (1, Transfer::Enter(0x10000, 2)),
            (2, Transfer::Enter(0x10000, 4)),
            (1, Transfer::Enter(0x10000, 2)),
            (1, Transfer::Cross(2, 0)),
            (0, Transfer::Enter(0x10000, 2)),
            (2, Transfer::Enter(0x10000, 4)),
            (0, Transfer::Cross(2, 4)),
            (2, Transfer::Enter(0x10000, 0)),
            (1, Transfer::Enter(0x10004, 2)),
        ],
        words: &[E, 0x10004, E, 0x10008, E, 0x10008],
        oldest: (1, 2),
        counts: [9, 8, 5, 2, 0, 16],
        newest: None,
    },
];

/// Makes a row's transfers, each with its answer, and looks at what stands then.
fn assert_stands<T: LinkTable>(
    rt: &impl Abort,
    alloc: Global,
    rom: SlotRom<T>,
    row: &Row,
) -> Result<SlotRom<T>, Fail>
    requires programs { rom.programs ≡ row.now.programs }
    requires small { span_of (setting_of rom) ≤ 64 }
    requires new { (images : ℕ → ImageData) (words : List ℕ) → ((p : ℕ) → IsImage (images p)) →
        ((p : ℕ) → (images p).block_words ≤ row.now.block_words) → span_of (setting_of rom) ≤ length words →
        SlotsServe rom images words }
{
    let bytes = bytes_of(alloc, row.images[0])?;
    let other = bytes_of(alloc, row.images[1])?;
    let first = view_of(rt, &bytes);
    let second = view_of(rt, &other);
    assert_eq!(rt; first.block_words(), row.block_words);
    assert_eq!(rt; second.block_words(), row.block_words);
    let mut ram = VecRam::new(alloc, 64)?;
    let rom = after_all(rt, rom, &first, &second, &mut ram, row);
    let came = (
        first_other(&ram, row.words),
        rom.resident(0),
        counts_of(&rom),
    );
    assert_eq!(rt; came, (None, Some(row.oldest), row.counts));
    Ok(rom)
}

/// The image of a program.
fn image_in<'a>(
    first: &'a ImageView<'a>,
    second: &'a ImageView<'a>,
    program: u32,
) -> &'a ImageView<'a>
    ensures { result.now ≡ (if program == 1 then second.now else first.now) }
{
    if program == 1 { second } else { first }
}

fn after_all<'a, T: LinkTable>(
    rt: &impl Abort,
    mut rom: SlotRom<T>,
    first: &'a ImageView<'a>,
    second: &'a ImageView<'a>,
    ram: &mut VecRam,
    row: &Row,
) -> SlotRom<T>
    requires programs { rom.programs ≡ row.now.programs }
    requires serves { SlotsServe rom (λ (p : ℕ). if p == 1 then second.now else first.now) ram.old.words }
    ensures { length ram.new.words ≡ length ram.old.words }
{
    for (program, transfer) in row.transfers {
        assert!(rt; *program < row.programs);
        rom.turn_to(*program);
        let image = image_in(first, second, *program);
        make(rt, &mut rom, image, ram, *transfer);
    }
    rom
}

#[test]
fn both_services_link_and_evict_alike(rt: HostRuntime) -> Result<(), Fail> {
    for row in &ROWS {
        assert!(rt; 2 <= row.block_words && row.block_words <= 1024);
        assert!(rt; 4 * row.block_words <= row.cache_bytes && row.cache_bytes <= 64);
        assert!(rt; 1 <= row.programs && row.programs <= 8);
        let scan = ScanRom::shared(rt.alloc(), row.cache_bytes, row.block_words, row.programs)?;
        assert_stands(&rt, rt.alloc(), scan, row)?;
        let fifo = FifoRom::shared(rt.alloc(), row.cache_bytes, row.block_words, row.programs)?;
        let fifo = assert_stands(&rt, rt.alloc(), fifo, row)?;
        let lists = chains(&fifo);
        assert!(rt; lists.slots() > 0);
        assert_eq!(rt; lists.first_into(0), row.newest);
    }
    Ok(())
}
