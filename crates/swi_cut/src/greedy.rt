//! The longest block from a text word on.
#![tactic(auto)]

ghost use Rattle.std.specs.Prelude.{◌≡◌, ◌≤◌, ◌<◌, length, IfOk, IfErr};
ghost use Rattle.swi_render.specs.Cut.{needs_of};
ghost use Rattle.swi_cut.specs.Drafts.{IsRun, IsGreedy};

use swi_program::TextView;
use swi_render::sizes_of;

/// Where the longest block that begins at a text word ends, or what that word needs where it does not
/// fit.
pub(crate) fn longest_end(text: &TextView<'_>, first: u32, most: u32) -> Result<u32, u32>
    requires first { first < length text.now.words }
    requires most { most ≤ 1024 }
    ensures run { IfOk result (IsRun text.now most first) }
    ensures greedy { IfOk result (IsGreedy text.now most first) }
    ensures long { IfErr result (λ needed. (needed ≡ needs_of text.now first) × (most < needed)) }
{
    let mut used = 0;
    for k in first..text.len() {
        let sizes = sizes_of(text, k);
        if used + sizes.needs > most {
            return if k == first { Err(sizes.needs) } else { Ok(k) };
        }
        used += sizes.len;
    }
    Ok(text.len())
}
