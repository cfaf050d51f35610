//! One run of a program for many caches: the flat machine, and beside it all caches, served by its transfers.
#![tactic(auto)]

mod leaving;
mod survey;
mod track;
mod ways;

pub use survey::{SurveyStop, Surveyed, run_survey};
