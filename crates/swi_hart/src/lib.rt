//! A hart out of a cache ram, and one machine step of it.
#![tactic(auto)]

mod exit;
mod fault;
mod hart;
mod plain;
mod position;
mod quick;
mod step;
mod word;

pub use exit::jump;
pub use fault::BoardFault;
pub use hart::{CodePlace, Control, ExitKind, Hart, Role, Stage};
pub use plain::{plain_place, plain_step};
pub use position::Position;
pub use quick::quick_step;
pub use step::register_target;
