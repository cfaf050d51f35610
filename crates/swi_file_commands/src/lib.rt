//! The commands that leave the cache RAM alone: `rewrite`, `upgrade`, `check`, `list`, `plain` and `profile`.
#![tactic(auto)]

mod check_file;
mod flat_file;
mod list_file;
mod profile_file;
mod rewrite_file;
mod run_plain;
mod upgrade_file;

pub use check_file::check;
pub use list_file::list;
pub use profile_file::profile;
pub use rewrite_file::rewrite;
pub use run_plain::plain;
pub use upgrade_file::upgrade;
