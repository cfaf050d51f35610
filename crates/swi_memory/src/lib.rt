//! The memory of a program: its segments, its layout, and the bus that loads and stores.
#![tactic(auto)]

mod access;
mod area;
mod bank;
mod bus;
mod copies;
mod gather;
mod layout;
mod loads;
mod ranges;
mod right;
mod segment;
mod stores;
mod text;
mod window;
mod windows;
mod word_range;

pub use access::Access;
pub use area::Area;
pub use bus::Bus;
pub use layout::Layout;
pub use right::Right;
pub use segment::Segment;
pub use word_range::WordRange;
