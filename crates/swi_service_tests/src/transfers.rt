//! What the tests of the services share: images, transfers, and the counts that they leave.

ghost use Rattle.std.specs.Prelude.{◌≡◌, ◌<◌, ◌^◌, IfSome, length};
ghost use Rattle.swi_image.specs.Sound.{IsImage};
ghost use Rattle.swi_rom.specs.Coherent.{ExitAt};
ghost use Rattle.swi_rom.specs.Served.{Keeps};

use std::alloc::Global;
use std::process::Abort;
use std::test::Fail;
use swi_devices::VecRam;
use swi_image::{ImageView, read_image};
use swi_outside::CacheRam;
use swi_program::append_words;
use swi_rom::CacheRom;

pub const E: u32 = 0x0010_0073;

/// A transfer, and the index that answers it.
#[derive(Clone, Copy)]
pub enum Transfer {
    /// A jump to an address.
    Enter(u32, u32),
    /// The exit at an index, which isn't linked.
    Cross(u32, u32),
}

/// x5 = 3; subtract 1; branch back by 4 while x5 isn't 0; exit. In one block, and in three.
pub const LOOP_IN_ONE: [u32; 22] = [
    0x3143_4953,
    2,
    16,
    1,
    5,
    0x10000,
    0,
    9,
    0,
    1,
    2,
    5,
    6,
    0x0030_0293,
    0xFFF2_8293,
    0x0002_8663,
    E,
    0x10004,
    0x05D0_0893,
    0x73,
    E,
    0x10014,
];

pub const LOOP_IN_THREE: [u32; 30] = [
    0x3143_4953,
    2,
    5,
    3,
    5,
    0x10000,
    0,
    2,
    3,
    4,
    9,
    13,
    0,
    1,
    0,
    0,
    1,
    0x0030_0293,
    0xFFF2_8293,
    E,
    0x10008,
    0x0002_8663,
    E,
    0x10004,
    E,
    0x1000C,
    0x05D0_0893,
    0x73,
    E,
    0x10014,
];

/// Three jumps in a circle.
pub const CIRCLE: [u32; 21] = [
    0x3143_4953,
    2,
    2,
    3,
    3,
    0x10000,
    0,
    1,
    2,
    2,
    4,
    6,
    0,
    0,
    0,
    E,
    0x10004,
    E,
    0x10008,
    E,
    0x10000,
];

/// A jump by a register into the middle of a block.
pub const INTO_A_BLOCK: [u32; 32] = [
    0x3143_4953,
    2,
    5,
    3,
    6,
    0x10000,
    0,
    2,
    4,
    5,
    10,
    14,
    0,
    2,
    0,
    2,
    0,
    1,
    0x0001_00B7,
    0x8093,
    E,
    0x00C0_80E7,
    0x10008,
    E,
    0x10009,
    0x05D0_0893,
    E,
    0x10010,
    0x8513,
    0x73,
    E,
    0x10018,
];

/// The bytes of an image.
pub fn bytes_of(alloc: Global, words: &[u32]) -> Result<Vec<u8>, Fail> {
    let mut bytes = Vec::new(alloc);
    append_words(&mut bytes, words)?;
    Ok(bytes)
}

/// Reads an image.
pub fn view_of<'a>(rt: &impl Abort, bytes: &'a [u8]) -> ImageView<'a>
    ensures { IsImage result }
{
    assert!(rt; bytes.len() < 1 << 20);
    match read_image(bytes) {
        Ok(image) => image,
        Err(_) => panic!(rt; "no image"),
    }
}

/// The counts of a service, in the order of `Counts`.
pub fn counts_of<R: CacheRom>(rom: &R) -> [u64; 6] {
    let counts = rom.counts();
    [
        counts.services,
        counts.misses,
        counts.evictions,
        counts.links,
        counts.unlinks,
        counts.copied,
    ]
}

/// The first index at which a ram holds another word than these, and what it holds, or none.
pub fn first_other(ram: &VecRam, words: &[u32]) -> Option<(u32, Option<u32>)> {
    let mut at = 0;
    for word in words {
        if at >= ram.words() {
            return Some((at, None));
        }
        let held = ram.word(at);
        if held != *word {
            return Some((at, Some(held)));
        }
        at += 1;
    }
    None
}

/// Makes a transfer, which the index answers that stands with it.
pub fn make<R: CacheRom>(
    rt: &impl Abort,
    rom: &mut R,
    image: &ImageView<'_>,
    ram: &mut VecRam,
    transfer: Transfer,
)
    requires { R.service.sound rom.old image.now ram.old.words }
    ensures sound { R.service.sound rom.new image.now ram.new.words }
    ensures words { length ram.new.words ≡ length ram.old.words }
    ensures setting { R.service.setting rom.new ≡ R.service.setting rom.old }
    ensures keeps { Keeps R.service image.now rom.old rom.new ram.old.words ram.new.words }
{
    assert!(rt; rom.counts().services < 1 << 50);
    match transfer {
        Transfer::Enter(target, answer) => match rom.enter(image, ram, target) {
            Ok(index) => assert_eq!(rt; index, answer),
            Err(_) => panic!(rt; "not entered"),
        },
        Transfer::Cross(at, answer) => follow(rt, rom, image, ram, at, answer),
    }
}

/// The address to which the exit at an index leads; None where no exit stands there that isn't linked.
fn exit_at<R: CacheRom>(rom: &R, image: &ImageView<'_>, ram: &VecRam, at: u32) -> Option<u32>
    requires { R.service.sound rom.now image.now ram.now.words }
    ensures { IfSome result (λ t. ExitAt image.now (R.service.kept rom.now) at t) }
{
    let (block, offset) = match rom.at(at) {
        Some(place) => place,
        None => return None,
    };
    let length = image.length(block);
    if offset + 1 >= length {
        return None;
    }
    let word = image.word(block, offset);
    if word != E {
        return None;
    }
    let target = image.word(block, offset + 1);
    if target % 4 != 0 {
        return None;
    }
    let words = ram.words();
    if at >= words {
        return None;
    }
    let held = ram.word(at);
    if held != E {
        return None;
    }
    Some(target)
}

fn follow<R: CacheRom>(
    rt: &impl Abort,
    rom: &mut R,
    image: &ImageView<'_>,
    ram: &mut VecRam,
    at: u32,
    answer: u32,
)
    requires sound { R.service.sound rom.old image.now ram.old.words }
    requires services { (R.service.kept rom.old).counts.services < 2 ^ 50 }
    ensures sound { R.service.sound rom.new image.now ram.new.words }
    ensures words { length ram.new.words ≡ length ram.old.words }
    ensures setting { R.service.setting rom.new ≡ R.service.setting rom.old }
    ensures keeps { Keeps R.service image.now rom.old rom.new ram.old.words ram.new.words }
{
    let target = match exit_at(rom, image, ram, at) {
        Some(target) => target,
        None => panic!(rt; "no exit"),
    };
    match rom.cross(image, ram, at, target) {
        Ok(index) => assert_eq!(rt; index, answer),
        Err(_) => panic!(rt; "not crossed"),
    }
}
