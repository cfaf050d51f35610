//! The direct exits of an image, by the text words that a run leaves over them.
#![tactic(auto)]

ghost use Rattle.std.specs.Prelude.{◌≡◌, ◌+◌, ◌*◌, ◌<◌, ◌≤◌, ◌^◌, ◌++◌, [], ◌∷◌, Some, IfOk, length, map};
ghost use Rattle.swi_image.specs.Place.{place_of};
ghost use Rattle.swi_image.specs.Sound.{IsImage};
ghost use Rattle.swi_program.specs.Text.{IsSized};
ghost use Rattle.swi_render.specs.ImageOf.{IsImageOf, address_of};
ghost use Rattle.swi_tally.specs.Exits.{AreExits};
ghost use Rattle.swi_survey.specs.Ways.{AllBefore, AreAllWays, FitsIf, Joins, exit_behind, exit_to, gate_of, is_last, jump_of, number_if, own_exit, shut, with_if};

use crate::leaving::{Leaving, untaken_at};
use std::alloc::Global;
use swi_flat::Gate;
use swi_image::ImageView;
use swi_isa::{Instr, decode};
use swi_outside::Memory;
use swi_program::TextView;
use swi_render::{address_of, falls, sizes_of};
use swi_tally::{Exit, Exits};

/// Where a text word stands, and how a run leaves it directly: over which exits, by their numbers. None where there is no exit,
/// or no text word at its target.
#[derive(Clone, Copy, Debug, PartialEq, Eq)]
pub struct Ways {
    /// The block in which the word stands.
    pub block: u32,
    /// Over that of a JAL, or of a branch that is taken.
    pub own: Option<u32>,
    /// Over the one behind the word, the last of its block.
    pub behind: Option<u32>,
    /// Whether the next text word does not stand behind it.
    pub last: bool,
    /// How it is left otherwise than by a branch that is taken.
    pub left: Leaving,
}

/// The exits of an image, and of each text word its ways and its gate; behind the last word's gate stands one that stops.
#[derive(Drop)]
pub struct Map {
    pub exits: Exits,
    pub ways: Vec<Ways>,
    pub gates: Vec<Gate>,
}

/// The gate of a text word, of so many exits: it stops a step that leaves the block, or executes more than one word. That of a
/// JAL or branch lets a jump go on where its exit is a link in all caches.
fn gate_of(ways: &Ways, exits: u32) -> Gate
    ensures { result ≡ gate_of exits ways.now }
{
    let last = ways.last;
    match ways.own {
        Some(exit) => Gate {
            stops: false,
            ends: last,
            exit,
        },
        None => Gate {
            stops: last || ways.left.words != 1,
            ends: last,
            exit: exits,
        },
    }
}

/// How many words behind the first one of its rendering the exit of a JAL or branch at `a` stands, and its target.
fn jump_of(instr: &Instr, a: u32) -> Option<(u32, u32)>
    ensures { result ≡ jump_of (Some instr.now) a }
{
    match *instr {
        Instr::Jal { rd, off } => {
            let before = if rd.num() == 0 { 0 } else { 2 };
            Some((before, a.wrapping_add(off)))
        }
        Instr::Branch { off, .. } => Some((1, a.wrapping_add(off))),
        _ => None,
    }
}

/// The exit at an offset of a block that leads to the text word at an address, if one stands there.
fn exit_to(image: &ImageView<'_>, block: u32, offset: u32, a: u32) -> Option<Exit>
    ensures { result ≡ exit_to image.now (block, offset) a }
{
    let (into, at) = image.place_near(a, block)?;
    Some(Exit {
        block,
        offset,
        into,
        at,
    })
}

/// The exit of text word `k`, a JAL or a branch, which stands at a place, where a text word stands at its target.
fn own_exit(image: &ImageView<'_>, text: &TextView<'_>, k: u32, place: (u32, u32)) -> Option<Exit>
    requires word { k < length text.now.words }
    requires small { place.1 < 1024 }
    ensures { result ≡ own_exit text.now image.now k place }
{
    let instr = decode(text.word(k))?;
    let (before, target) = jump_of(&instr, address_of(text, k))?;
    exit_to(image, place.0, place.1 + before, target)
}

/// Whether the text word behind text word `k`, which stands at a place, does not stand behind its words.
fn is_last(image: &ImageView<'_>, text: &TextView<'_>, k: u32, place: (u32, u32)) -> bool
    requires word { k < length text.now.words }
    requires small { place.1 < 1024 }
    ensures { result ≡ is_last text.now image.now k place }
{
    let next = image.place_near(address_of(text, k).wrapping_add(4), place.0);
    match next {
        Some((block, offset)) => block != place.0 || offset != place.1 + sizes_of(text, k).len,
        None => true,
    }
}

/// The exit behind text word `k`, which stands at a place: where it falls, and the next one stands elsewhere.
fn exit_behind(
    image: &ImageView<'_>,
    text: &TextView<'_>,
    k: u32,
    place: (u32, u32),
) -> Option<Exit>
    requires word { k < length text.now.words }
    requires small { place.1 < 1024 }
    ensures { result ≡ exit_behind text.now image.now k place }
{
    if !is_last(image, text, k, place) {
        return None;
    }
    let a = address_of(text, k);
    if !falls(text.word(k), a) {
        return None;
    }
    let len = sizes_of(text, k).len;
    exit_to(image, place.0, place.1 + len, a.wrapping_add(4))
}

/// The exits with one more, if there is one, and its number. Memory is the only error.
fn with_some(exits: Exits, exit: Option<Exit>) -> Result<(Exits, Option<u32>), Memory>
    requires are { AreExits exits }
    requires few { length exits.from < 2 ^ 21 }
    requires fits { FitsIf exits exit }
    ensures are { IfOk result (λ r. AreExits r.0) }
    ensures exits { IfOk result (λ r. r.0 ≡ with_if exits exit) }
    ensures number { IfOk result (λ r. r.1 ≡ number_if exits exit) }
{
    let Some(exit) = exit else {
        return Ok((exits, None));
    };
    let number = exits.len();
    let exits = exits.with(exit)?;
    Ok((exits, Some(number)))
}

/// The exits with those of text word `k`, which stands at a place, and its ways. All others stand before that place. Memory is
/// the only error.
fn with_word(
    exits: Exits,
    image: &ImageView<'_>,
    text: &TextView<'_>,
    k: u32,
    place: (u32, u32),
) -> Result<(Exits, Ways), Memory>
    requires sized { IsSized text.now }
    requires image { IsImage image.now }
    requires are { AreExits exits }
    requires word { k < length text.now.words }
    requires few { length exits.from ≤ 2 * k }
    requires own { IsImageOf text.now image.now }
    requires here { place_of image.now (address_of text.now k) ≡ Some place }
    requires before { AllBefore exits place }
    requires blocks { exits.blocks ≡ length image.now.starts }
    ensures { IfOk result (λ r. Joins text.now image.now k exits r.0 r.1) }
{
    let own = own_exit(image, text, k, place);
    let behind = exit_behind(image, text, k, place);
    let last = is_last(image, text, k, place);
    let (exits, own) = with_some(exits, own)?;
    let (exits, behind) = with_some(exits, behind)?;
    let left = untaken_at(text.word(k), address_of(text, k));
    Ok((
        exits,
        Ways {
            block: place.0,
            own,
            behind,
            last,
            left,
        },
    ))
}

/// The gates of text words, of so many exits, and one behind them that no step passes. Memory is the only error.
fn gates_of(alloc: Global, ways: &[Ways], exits: u32) -> Result<Vec<Gate>, Memory>
    ensures { IfOk result (λ gs. gs.items ≡ map (gate_of exits) ways.now ++ shut exits ∷ []) }
{
    let mut gates = Vec::new(alloc);
    for way in ways {
        if gates.push(gate_of(way, exits)).is_err() {
            return Err(Memory);
        }
    }
    let shut = Gate {
        stops: true,
        ends: true,
        exit: exits,
    };
    if gates.push(shut).is_err() {
        return Err(Memory);
    }
    Ok(gates)
}

/// The map of an image of the text. Memory is the only error.
pub(crate) fn map_of(
    alloc: Global,
    image: &ImageView<'_>,
    text: &TextView<'_>,
) -> Result<Map, Memory>
    requires sized { IsSized text.now }
    requires image { IsImage image.now }
    requires own { IsImageOf text.now image.now }
    ensures ways { IfOk result (λ m. AreAllWays text.now image.now m.exits m.ways.items) }
    ensures long { IfOk result (λ m. length m.ways.items ≡ length text.now.words) }
    ensures exits { IfOk result (λ m. AreExits m.exits) }
    ensures gates { IfOk result (λ m. m.gates.items ≡ map (gate_of (length m.exits.from)) m.ways.items ++ shut (length m.exits.from) ∷ []) }
{
    let mut exits = Exits::new(alloc, image.blocks())?;
    let mut ways = Vec::new(alloc);
    let mut near = 0;
    for k in 0..text.len() {
        let Some(place) = image.place_near(address_of(text, k), near) else {
            unreachable!()
        };
        near = place.0;
        let word = with_word(exits, image, text, k, place)?;
        exits = word.0;
        if ways.push(word.1).is_err() {
            return Err(Memory);
        }
    }
    let gates = gates_of(alloc, &ways, exits.len())?;
    Ok(Map { exits, ways, gates })
}
