//! A segment of a program.
#![tactic(auto)]

ghost use Rattle.std.specs.Prelude.{◌≡◌, ◌<◌, ◌≤◌, ◌+◌, ◌^◌, length};

use std::marker::Model;

/// A range of memory as a file gives it: a base address, rights, a size in bytes, and the bytes at
/// its front that the file has, which stay in the file. The bytes past these are zero at the start
/// of a run.
///
/// Source: System V ABI, "Program Header", a segment of type PT_LOAD.
#[derive(Drop)]
pub struct Segment<'a> {
    base: u32,
    flags: u32,
    size: u32,
    bytes: &'a [u8],
}

impl<'a> Model for Segment<'a> {
    ghost use Rattle.swi_memory.specs.Segment.{SegmentData};

    ghost Value = { SegmentData };

    ghost use Rattle.swi_memory.specs.SegmentView.{data_of, Fits};

    ghost view = { data_of };

    ghost invariant = { Fits };
}

impl<'a> Segment<'a> {
    /// The segment with these rights (4 read, 2 write, 1 execute), of `size` bytes, of which the
    /// file has the first. The rights are below 8, there are at most `size` bytes, and `base + size`
    /// is at most 2^32.
    pub fn of(base: u32, flags: u32, size: u32, bytes: &'a [u8]) -> Segment<'a>
        requires rights { flags < 8 }
        requires front { length bytes.now ≤ size }
        requires end { base + size ≤ 2 ^ 32 }
        ensures { result ≡ record { base = base; flags = flags; size = size; bytes = bytes.now } }
    {
        Segment {
            base,
            flags,
            size,
            bytes,
        }
    }

    /// The first address.
    pub fn base(&self) -> u32
        ensures value { result ≡ self.now.base }
        ensures end { self.now.base + self.now.size ≤ 2 ^ 32 }
    {
        self.base
    }

    /// The rights: 4 read, 2 write, 1 execute, added up.
    pub fn flags(&self) -> u32
        ensures value { result ≡ self.now.flags }
        ensures below { result < 8 }
    {
        self.flags
    }

    /// How many bytes it takes in memory.
    pub fn size(&self) -> u32
        ensures value { result ≡ self.now.size }
        ensures end { self.now.base + self.now.size ≤ 2 ^ 32 }
    {
        self.size
    }

    /// The bytes that the file has, at most `size` of them.
    pub fn bytes(&self) -> &'a [u8]
        ensures value { result.now ≡ self.now.bytes }
        ensures front { length result.now ≤ self.now.size }
    {
        self.bytes
    }
}
