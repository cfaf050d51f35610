//! The heap of a guest.

/// The heap region, and the break in it. The break is a number only: the whole region can be read and written.
#[derive(Clone, Copy, Debug, PartialEq, Eq)]
pub struct Heap {
    /// The address of the region's first byte, where the break begins.
    pub base: u32,
    /// The address behind the region's last byte, the highest that the break may have.
    pub limit: u32,
    /// The break.
    pub now: u32,
}
