//! Laws of the start of a service on a processor, from a file that `swic check` accepts.
#![tactic(auto)]

mod laws;

pub use laws::{laws_of_images, laws_of_starts};
