/// The answer of a device that could not do what it was asked.
///
/// It comes only where the device's count of faults rose in that call.
#[derive(Clone, Copy, Debug, PartialEq, Eq)]
pub struct Failed;

/// The answer of a call that needed memory where none was to be had.
#[derive(Clone, Copy, Debug, PartialEq, Eq)]
pub struct Memory;
