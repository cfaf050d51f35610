//! The devices of `swic`: in memory, whose calls fail where a list says so, and over std's readers, writers and files. What a
//! device is, the traits of `swi_outside` say.
#![tactic(auto)]

mod byte_log;
mod count;
mod fault_plan;
mod fault_ram;
mod folder;
mod folder_shelf;
mod mem_shelf;
mod mem_sink;
mod mem_source;
mod ram_calls;
mod real;
mod shelf_call;
mod shelf_log;
mod vec_ram;
mod watched;
mod watched_folder;
mod zeroed_words;

pub use fault_ram::FaultRam;
pub use folder::{Folder, SystemFolder};
pub use folder_shelf::FolderShelf;
pub use mem_shelf::MemShelf;
pub use mem_sink::MemSink;
pub use mem_source::MemSource;
pub use real::{RealSink, RealSource};
pub use vec_ram::VecRam;
