//! What a service writes into the ram.
#![tactic(auto)]

ghost use Rattle.std.specs.Prelude.{◌≡◌, ◌+◌, ◌-◌, ◌*◌, ◌^◌, ◌<◌, ◌≤◌, length, OnOk, OnErr, IsTrue};
ghost use Rattle.swi_image.specs.Place.{word_at, length_at};
ghost use Rattle.swi_rom.specs.Record.{IsJump, reaches};
ghost use Rattle.swi_rom.specs.Writing.{Copied, FailedBelow};

use swi_encode::encode;
use swi_image::ImageView;
use swi_isa::{Instr, Reg};
use swi_outside::{CacheRam, Failed};

/// The number of x0, for a jump that keeps no return address.
const X0: u32 = 0;

/// How far back a JAL reaches, in bytes; ahead it is a word less.
const JAL_REACH: u32 = 1 << 20;

/// Copies a block's words to the ram's words from `first` on.
pub fn copy<M: CacheRam>(
    image: &ImageView<'_>,
    ram: &mut M,
    block: u32,
    first: u32,
    size: u32,
) -> Result<(), Failed>
    requires block { block < length image.now.starts }
    requires size { size ≡ length_at image.now block }
    requires small { first + size < 2 ^ 32 }
    requires fits { first + size ≤ length (M.state ram.old).words }
    ensures copied { OnOk result (Copied (word_at image.now block) first size (M.state ram.old) (M.state ram.new)) }
    ensures failed { OnErr result (FailedBelow (first + size) (M.state ram.old) (M.state ram.new)) }
{
    ram.set_all(first, &image.block(block))
}

/// Whether a JAL reaches from one word to another.
pub fn reach(from: u32, to: u32) -> bool
    requires from { from < 2 ^ 30 }
    requires to { to < 2 ^ 30 }
    ensures { result ≡ reaches from to }
{
    4 * to.saturating_sub(from) <= JAL_REACH - 4 && 4 * from.saturating_sub(to) <= JAL_REACH
}

/// The word that jumps from one word to another and writes no register.
#[tactic(auto, using(crate::proofs::Jumps::is_jump))]
pub fn jump(from: u32, to: u32) -> u32
    requires from { from < 2 ^ 30 }
    requires to { to < 2 ^ 30 }
    requires reaches { IsTrue (reaches from to) }
    ensures { IsJump from to result }
{
    encode(&Instr::Jal {
        rd: Reg::of(X0),
        off: (4 * to).wrapping_sub(4 * from),
    })
}
