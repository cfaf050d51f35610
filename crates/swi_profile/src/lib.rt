//! How often each word of a text is executed in a run.
#![tactic(auto)]

mod profile;

pub use profile::Profile;
