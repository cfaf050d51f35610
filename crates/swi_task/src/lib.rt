//! What the commands of `swic` stand on: a command as one record, its answer, its files, its program and image, and its cache's
//! size.
#![tactic(auto)]

mod cache;
mod file;
mod report;
mod subject;

pub use cache::{check_block, check_size};
pub use file::{file_with, read_file, write_file};
pub use report::{ending_by, refusal_of, write_report};
pub use subject::{
    Prepared, Subject, SubjectImage, accept, cut_image, cut_image_by, load, own_image, prepare,
    subject_of,
};
