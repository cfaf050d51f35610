ghost use Rattle.std.specs.Prelude.{◌≡◌, ◌≤◌, ℕ, List, length};
ghost use Rattle.swi_image.specs.Format.{ImageData};
ghost use Rattle.swi_image.specs.Sound.{IsImage};

use crate::transfers::{
    CIRCLE, E, INTO_A_BLOCK, LOOP_IN_ONE, LOOP_IN_THREE, Transfer, bytes_of, counts_of,
    first_other, make, view_of,
};
use std::alloc::Global;
use std::process::Abort;
use std::test::Fail;
use swi_devices::VecRam;
use swi_image::ImageView;
use swi_outside::CacheRam;
use swi_ring::{RingRom, chains};
use swi_rom::CacheRom;

/// What stands after some transfers: the first words of the ram, the oldest block with its first word, the counts
/// in the order of `Counts`, and the newest link into the youngest block.
struct Row {
    block_words: u32,
    blocks: u32,
    cache_bytes: u32,
    image: &'static [u32],
    transfers: &'static [Transfer],
    words: &'static [u32],
    oldest: (u32, u32),
    youngest: u32,
    newest: Option<u32>,
    counts: [u64; 6],
}

/// x5 = 3; subtract 1; branch back by 4 while x5 isn't 0; exit: the transfers in three blocks, of 4, 5 and 4 words, where
/// the third doesn't fit behind the second. Word 6 was linked into the first block, and is an exit again.
const UNTIL_THE_WRAP: [Transfer; 4] = [
    Transfer::Enter(0x10000, 0),
    Transfer::Cross(2, 4),
    Transfer::Cross(5, 1),
    Transfer::Cross(7, 0),
];

/// What stands then: the third block in the place of the first, to which word 7 leads back.
const WRAPPED: [u32; 16] = [
    0x05D0_0893,
    0x73,
    E,
    0x10014,
    0x0002_8663,
    E,
    0x10004,
    0xFE5F_F06F,
    0x1000C,
    0,
    0,
    0,
    0,
    0,
    0,
    0,
];

static ROWS: [Row; 7] = [
    Row {
        block_words: 5,
        blocks: 3,
        cache_bytes: 40,
        image: &LOOP_IN_THREE,
        transfers: &UNTIL_THE_WRAP,
        words: &WRAPPED,
        oldest: (1, 4),
        youngest: 2,
        newest: Some(7),
        counts: [3, 3, 1, 3, 1, 13],
    },
    // A word less is enough.
    Row {
        block_words: 5,
        blocks: 3,
        cache_bytes: 36,
        image: &LOOP_IN_THREE,
        transfers: &UNTIL_THE_WRAP,
        words: &WRAPPED,
        oldest: (1, 4),
        youngest: 2,
        newest: Some(7),
        counts: [3, 3, 1, 3, 1, 13],
    },
    // Eleven words and three bytes: no more than these words are used.
    Row {
        block_words: 5,
        blocks: 3,
        cache_bytes: 47,
        image: &LOOP_IN_THREE,
        transfers: &UNTIL_THE_WRAP,
        words: &WRAPPED,
        oldest: (1, 4),
        youngest: 2,
        newest: Some(7),
        counts: [3, 3, 1, 3, 1, 13],
    },
    // A block as long as the whole cache: each time the oldest leaves, and no exit is linked.
    Row {
        block_words: 5,
        blocks: 3,
        cache_bytes: 20,
        image: &LOOP_IN_THREE,
        transfers: &[
            Transfer::Enter(0x10000, 0),
            Transfer::Cross(2, 0),
            Transfer::Cross(1, 1),
            Transfer::Cross(2, 0),
            Transfer::Cross(1, 1),
            Transfer::Cross(2, 0),
            Transfer::Cross(3, 0),
        ],
        words: &[0x05D0_0893, 0x73, E, 0x10014, 0x1000C, 0],
        oldest: (2, 0),
        youngest: 2,
        newest: None,
        counts: [6, 7, 6, 0, 0, 31],
    },
    // Two blocks of two words in five: each second one wraps, and each link leads across.
    Row {
        block_words: 2,
        blocks: 3,
        cache_bytes: 20,
        image: &CIRCLE,
        transfers: &[
            Transfer::Enter(0x10000, 0),
            Transfer::Cross(0, 2),
            Transfer::Cross(2, 0),
            Transfer::Cross(0, 2),
            Transfer::Cross(2, 0),
            Transfer::Cross(0, 2),
            Transfer::Cross(2, 0),
        ],
        words: &[E, 0x10004, 0xFF9F_F06F, 0x10000, 0],
        oldest: (2, 2),
        youngest: 0,
        newest: Some(2),
        counts: [6, 7, 5, 6, 0, 14],
    },
    // Where the first block is placed again the second, which is older and not in the way, leaves with the third.
    Row {
        block_words: 5,
        blocks: 3,
        cache_bytes: 36,
        image: &INTO_A_BLOCK,
        transfers: &[
            Transfer::Enter(0x10000, 0),
            Transfer::Enter(0x10010, 5),
            Transfer::Enter(0x10008, 0),
            Transfer::Enter(0x10000, 0),
            Transfer::Enter(0x10010, 5),
        ],
        words: &[
            0x0001_00B7,
            0x8093,
            E,
            0x00C0_80E7,
            0x10008,
            0x8513,
            0x73,
            E,
            0x10018,
            0,
        ],
        oldest: (0, 0),
        youngest: 2,
        newest: None,
        counts: [4, 5, 3, 0, 0, 23],
    },
    // A block that is linked to itself.
    Row {
        block_words: 16,
        blocks: 1,
        cache_bytes: 64,
        image: &LOOP_IN_ONE,
        transfers: &[Transfer::Enter(0x10000, 0), Transfer::Cross(3, 1)],
        words: &[
            0x0030_0293,
            0xFFF2_8293,
            0x0002_8663,
            0xFF9F_F06F,
            0x10004,
            0x05D0_0893,
            0x73,
            E,
            0x10014,
            0,
        ],
        oldest: (0, 0),
        youngest: 0,
        newest: Some(3),
        counts: [1, 1, 0, 1, 0, 9],
    },
];

/// Makes a row's transfers, each with its answer, and looks at what stands then.
fn assert_stands<R: CacheRom>(rt: &impl Abort, alloc: Global, rom: R, row: &Row) -> Result<R, Fail>
    requires small { R.service.span (R.service.setting rom) ≤ 64 }
    requires new { (v : ImageData) (words : List ℕ) → IsImage v → length v.blocks ≤ row.now.blocks →
        v.block_words ≤ row.now.block_words → R.service.span (R.service.setting rom) ≤ length words → R.service.sound rom v words }
{
    let bytes = bytes_of(alloc, row.image)?;
    let image = view_of(rt, &bytes);
    assert_eq!(rt; image.block_words(), row.block_words);
    assert_eq!(rt; image.blocks(), row.blocks);
    let mut ram = VecRam::new(alloc, 64)?;
    let rom = after_all(rt, rom, &image, &mut ram, row.transfers);
    let came = (
        first_other(&ram, row.words),
        rom.resident(0),
        counts_of(&rom),
    );
    assert_eq!(rt; came, (None, Some(row.oldest), row.counts));
    Ok(rom)
}

fn after_all<R: CacheRom>(
    rt: &impl Abort,
    mut rom: R,
    image: &ImageView<'_>,
    ram: &mut VecRam,
    transfers: &[Transfer],
) -> R
    requires { R.service.sound rom image.now ram.old.words }
    ensures { length ram.new.words ≡ length ram.old.words }
{
    for transfer in transfers {
        make(rt, &mut rom, image, ram, *transfer);
    }
    rom
}

#[test]
fn blocks_stand_one_after_the_other(rt: HostRuntime) -> Result<(), Fail> {
    for row in &ROWS {
        assert!(rt; 1 <= row.blocks && row.blocks <= 1 << 19);
        assert!(rt; 2 <= row.block_words && row.block_words <= 1024);
        assert!(rt; 4 * row.block_words <= row.cache_bytes && row.cache_bytes <= 64);
        let ring = RingRom::new(rt.alloc(), row.cache_bytes, row.blocks, row.block_words)?;
        let ring = assert_stands(&rt, rt.alloc(), ring, row)?;
        let lists = chains(&ring);
        assert!(rt; row.youngest < lists.slots());
        assert_eq!(rt; lists.first_into(row.youngest), row.newest);
    }
    Ok(())
}
