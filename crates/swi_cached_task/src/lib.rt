//! What the commands over the cached machine share: a program placed for a cache, and what its board has done.
#![tactic(auto)]

mod placed;
mod work;

pub use placed::{Placed, place};
pub use work::{board_work, final_state};
