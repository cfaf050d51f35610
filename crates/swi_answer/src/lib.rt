//! What the commands of `swic` answer: endings and refusals, their exit statuses, and the lines that tell them.
#![tactic(auto)]

mod answer;
mod lines;
mod status;

pub use answer::{Ending, Refusal};
pub use lines::{image_line, line_of_ending, line_of_guest, line_of_refusal};
pub use status::status_of;
