//! Several programs that run out of one cache ram, an original instruction of one of them at a time.
#![tactic(auto)]

mod event;
mod input;
mod laws;
mod process;
mod share;

pub use laws::laws_of_share;
pub use process::{Guest, most_words};
pub use share::{Share, ShareCounts};
