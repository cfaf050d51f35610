//! The listing of a block.
#![tactic(auto)]

ghost use Rattle.std.specs.Prelude.{◌≡◌, ◌+◌, ◌<◌, ◌≤◌, ◌++◌, length};
ghost use Rattle.swi_outside.specs.Sink.{WasWritten};
ghost use Rattle.swi_program.specs.Text.{text_of};
ghost use Rattle.swi_image.specs.Place.{block_at};
ghost use Rattle.swi_image.specs.Sound.{IsImage};
ghost use Rattle.swi_render.specs.ImageOf.{IsImageOf};
ghost use Rattle.swi_trace.specs.Block.{ListsTextWords, block_lines, list_line, origin_note, note, role};

use crate::buffer::{LINE_ROOM, LineBuffer};
use crate::text::{TEXT_ROOM, push_decimal, push_text_of};
use swi_image::ImageView;
use swi_outside::{Failed, Sink};
use swi_program::{Program, TextView};
use swi_render::{Part, needs, part};

/// Appends what a word is that stands so many words behind the first of the rendering of the text word
/// `w` at the address `a`.
fn push_role(line: &mut LineBuffer, w: u32, a: u32, behind: u32)
    requires { length line.old + TEXT_ROOM ≤ LINE_ROOM }
    ensures bytes { line.new ≡ line.old ++ role w a behind }
    ensures size { length line.new ≤ length line.old + TEXT_ROOM }
{
    if behind == 0 {
        push_text_of(line, w, a);
        return;
    }
    match part(w, a, behind) {
        Part::Fall => line.push_text("fall"),
        _ => line.push_text("."),
    }
}

/// The same behind its address; a word behind the rendering and the exit is of no text word.
fn push_note(line: &mut LineBuffer, w: u32, a: u32, behind: u32)
    requires { length line.old + 9 + TEXT_ROOM ≤ LINE_ROOM }
    ensures bytes { line.new ≡ line.old ++ note w a behind }
    ensures size { length line.new ≤ length line.old + 9 + TEXT_ROOM }
{
    if behind < needs(w, a) {
        line.push_hex_word(a);
        line.push_text(" ");
        push_role(line, w, a, behind);
    } else {
        line.push_text("-------- pad");
    }
}

/// Appends what the word at an offset of a block is: a part of the text word that begins last, at or
/// before it.
fn push_origin(
    line: &mut LineBuffer,
    text: &TextView<'_>,
    image: &ImageView<'_>,
    block: u32,
    offset: u32,
)
    requires room { length line.old + 9 + TEXT_ROOM ≤ LINE_ROOM }
    requires sound { IsImage image.now }
    requires base { image.now.base ≡ text.now.base }
    requires covered { length image.now.offsets ≡ length text.now.words }
    requires block { block < length image.now.starts }
    requires offset { offset < length (block_at image.now block) }
    ensures bytes { line.new ≡ line.old ++ origin_note text.now image.now block offset }
    ensures size { length line.new ≤ length line.old + 9 + TEXT_ROOM }
{
    let (a, behind) = image.origin(block, offset);
    let w = text.word((a - text.base()) / 4);
    push_note(line, w, a, behind);
}

/// The line of a word of a block.
fn list_line(text: &TextView<'_>, image: &ImageView<'_>, block: u32, offset: u32) -> LineBuffer
    requires sound { IsImage image.now }
    requires base { image.now.base ≡ text.now.base }
    requires covered { length image.now.offsets ≡ length text.now.words }
    requires block { block < length image.now.starts }
    requires offset { offset < length (block_at image.now block) }
    ensures { result ≡ list_line text.now image.now block offset }
{
    let mut line = LineBuffer::new();
    push_decimal(&mut line, block);
    line.push_text(" ");
    push_decimal(&mut line, offset);
    line.push_text(" ");
    line.push_hex_word(image.word(block, offset));
    line.push_text(" ");
    push_origin(&mut line, text, image, block, offset);
    line.push_text("\n");
    line
}

/// Writes the listing of a block to the sink, a line for each of its words and each line in one write: the
/// block and the offset in decimal, the word in hexadecimal, the address of the text word that it is rendered
/// from, and what it is there. That is the instruction's text for the first word of a rendering, `fall` for the
/// EBREAK of the exit behind the block's last text word, and `.` for all others. Behind that exit, in blocks of
/// version 1, an address is `--------`, and the word is a `pad`.
///
/// ```text
/// 0 0 05d00893 00010000 addi a7, zero, 93
/// 0 1 00000073 00010004 ecall
/// 0 2 00100073 00010004 fall
/// 0 3 00010008 00010004 .
/// ```
///
/// The image is one of the program, and the block one of its blocks, counted from 0. Failed only where the
/// sink's count of faults rose; it then holds a front of the listing.
pub fn list_block<S: Sink>(
    p: &Program<'_>,
    image: &ImageView<'_>,
    block: u32,
    sink: &mut S,
) -> Result<(), Failed>
    requires image { IsImageOf (text_of p.now.segments) image.now }
    requires block { block < length image.now.starts }
    ensures written { WasWritten (S.state sink.old) (S.state sink.new) result
        (block_lines (text_of p.now.segments) image.now block) }
    // which text word a line tells of, in terms of the renderings
    ensures words { ListsTextWords (text_of p.now.segments) image.now block }
{
    prove!(block < image.blocks());
    let text = p.text();
    for offset in 0..image.length(block) {
        sink.write(list_line(&text, image, block, offset).as_bytes())?;
    }
    Ok(())
}
