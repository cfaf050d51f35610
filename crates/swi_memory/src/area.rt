//! A segment or region of a bus, as it stands now.
#![tactic(auto)]

/// A segment or region: its first address, its rights (4 read, 2 write, 1 execute) and all its bytes
/// as they stand now.
#[derive(Clone, Copy, Debug)]
pub struct Area<'a> {
    pub base: u32,
    pub flags: u32,
    pub bytes: &'a [u8],
}
