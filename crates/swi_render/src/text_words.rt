//! The text words of a program by their numbers.
#![tactic(auto)]

ghost use Rattle.std.specs.Prelude.{◌≡◌, ◌+◌, ◌*◌, ◌≤◌, ◌<◌, length, true, false, IfSome, IfNone};
ghost use Rattle.swi_render.specs.Rendering.{AreThe, fall_exit};
ghost use Rattle.swi_render.specs.ImageOf.{address_of, rendering_at, falls_at};
ghost use Rattle.swi_render.specs.Cut.{needs_of};

use crate::renderer::{falls, needs, render};
use arrayvec::ArrayVec;
use swi_isa::EBREAK;
use swi_program::TextView;

/// How many words a text word takes in a block.
#[derive(Clone, Copy, PartialEq, Eq, Debug)]
pub struct Sizes {
    /// Its rendering: 1 to 4.
    pub len: u32,
    /// Its rendering and, where it falls, the exit that it has as the last of its block: 2 to 5.
    pub needs: u32,
}

/// The address of text word `k`.
pub fn address_of(text: &TextView<'_>, k: u32) -> u32
    requires { k < length text.now.words }
    ensures { result ≡ address_of text.now k }
{
    text.base() + 4 * k
}

/// The sizes of text word `k`.
pub fn sizes_of(text: &TextView<'_>, k: u32) -> Sizes
    requires { k < length text.now.words }
    ensures len { result.len ≡ length (rendering_at text.now k) }
    ensures needs { result.needs ≡ needs_of text.now k }
    ensures less { result.len ≤ result.needs }
    ensures least { 2 ≤ result.needs }
    ensures most { result.needs ≤ 5 }
{
    let (w, a) = (text.word(k), address_of(text, k));
    let needs = needs(w, a);
    let len = if falls(w, a) { needs - 2 } else { needs };
    Sizes { len, needs }
}

/// The words that stand in a block for text word `k`.
pub fn render_word(text: &TextView<'_>, k: u32) -> ArrayVec<u32, 4>
    requires { k < length text.now.words }
    ensures words { AreThe (rendering_at text.now k) result.items }
{
    render(text.word(k), address_of(text, k))
}

/// The exit of a block whose last text word is `k`, where that one falls.
pub fn exit_behind(text: &TextView<'_>, k: u32) -> Option<[u32; 2]>
    requires { k < length text.now.words }
    ensures falls { IfSome result (λ exit. falls_at text.now k ≡ true) }
    ensures exit { IfSome result (λ exit. AreThe (fall_exit (address_of text.now k)) exit) }
    ensures stays { IfNone result (falls_at text.now k ≡ false) }
{
    let a = address_of(text, k);
    if falls(text.word(k), a) {
        Some([EBREAK, a.wrapping_add(4)])
    } else {
        None
    }
}
