//! What is told of the steps of a run.

/// Which steps of a run are told, each in a line.
#[derive(Clone, Copy, Debug, PartialEq, Eq)]
pub enum Trace {
    /// None.
    Off,
    /// Each one, before it is made.
    Each,
    /// The last 32, behind the run.
    Last,
}
