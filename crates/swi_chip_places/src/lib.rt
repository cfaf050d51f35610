//! The table of places of a program's text words, as a service on a processor reads it.
#![tactic(auto)]

mod filling;

pub use filling::fill_places;
