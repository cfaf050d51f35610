//! Laws of the cache's policies, for who chooses a cache.
#![tactic(auto)]

mod laws;

pub use laws::{laws_of_paging, laws_of_programs, laws_of_room, laws_of_writes};
