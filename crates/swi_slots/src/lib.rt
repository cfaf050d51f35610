//! The cache service with slots of one size, over a table that finds blocks and links; the simplest such table, and one
//! that finds each without a search.
#![tactic(auto)]

mod chain_table;
mod divisor;
mod scan;
mod slots;
mod table;

pub use chain_table::{ChainTable, FifoRom, chains};
pub use scan::{ScanRom, ScanTable};
pub use slots::SlotRom;
pub use table::LinkTable;
