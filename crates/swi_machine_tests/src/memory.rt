use std::alloc::Global;
use std::test::Fail;
use swi_memory::{Access, Bus, Layout, Segment};

// Text from 0x1002 on, whose file has 15 bytes, so that its words stand at 0x1004, 0x1008 and 0x100C;
// data adjoins it at 0x1012; bytes that can only be written stand at 0x2000, bytes that can only be
// read at 0; the heap is empty, and the stack ends with the last address.
fn memory(alloc: Global) -> Result<Bus, Fail> {
    let text = [1, 2, 3, 4, 5, 6, 7, 8, 9, 10, 11, 12, 13, 14, 15];
    let segments = [
        Segment::of(0x1012, 6, 4, &[0xA0, 0xA1]),
        Segment::of(0x1002, 5, 16, &text),
        Segment::of(0x2000, 2, 4, &[]),
        Segment::of(0, 4, 4, &[0x71, 0x72, 0x73, 0x74]),
    ];
    let layout = Layout {
        heap: 0x3000,
        heap_len: 0,
        stack: 0xFFFFFFF0,
        stack_len: 16,
        sp: 0xFFFFFFB0,
    };
    Ok(Bus::new(alloc, &segments, &layout)?)
}

fn load(bus: &Bus, a: u32, k: u8) -> Option<u32> {
    match k {
        1 => bus.load(a, 1).ok(),
        2 => bus.load(a, 2).ok(),
        _ => bus.load(a, 4).ok(),
    }
}

fn store(bus: &mut Bus, a: u32, k: u8, v: u32) -> bool {
    match k {
        1 => bus.store(a, 1, v).is_ok(),
        2 => bus.store(a, 2, v).is_ok(),
        _ => bus.store(a, 4, v).is_ok(),
    }
}

/// An address, how many bytes, and what a load of them answers.
static LOADS: [(u32, u8, Option<u32>); 15] = [
    (0x1002, 1, Some(0x01)),
    (0x1004, 4, Some(0x06050403)),
    (0x100F, 2, Some(0x0F0E)),
    (0x1010, 4, Some(0xA1A0000F)),
    (0x1011, 2, Some(0xA000)),
    (0x1013, 4, None),
    (0x1014, 2, Some(0)),
    (0x1001, 4, None),
    (0x2000, 1, None),
    (0xFFFFFFFC, 4, Some(0)),
    (0xFFFFFFFD, 4, None),
    (0xFFFFFFFF, 1, Some(0)),
    (0xFFFFFFFF, 2, None),
    (0x00000000, 4, Some(0x74737271)),
    (0x00000001, 4, None),
];

#[test]
fn loads_are_little_endian_and_cross_adjoining_segments_but_not_the_last_address(
    rt: HostRuntime,
) -> Result<(), Fail> {
    let bus = memory(rt.alloc())?;
    for &(a, k, want) in LOADS.iter() {
        assert_eq!(rt; load(&bus, a, k), want, "at {a:x}, {k} bytes");
    }
    Ok(())
}

/// An address, how many bytes, what is stored there and whether it is, and then an address and its word.
static STORES: [(u32, u8, u32, bool, u32, u32); 9] = [
    (0x1012, 4, 0x11223344, true, 0x1010, 0x3344000F),
    (0x1013, 2, 0xFFFF5566, true, 0x1012, 0x11556644),
    (0x1015, 1, 0x177, true, 0x1012, 0x77556644),
    (0x1011, 2, 0x8888, false, 0x1010, 0x6644000F),
    (0x1014, 4, 0x99999999, false, 0x1012, 0x77556644),
    (0xFFFFFFFC, 4, 0xAABBCCDD, true, 0xFFFFFFFC, 0xAABBCCDD),
    (0xFFFFFFFE, 4, 0x11111111, false, 0xFFFFFFFC, 0xAABBCCDD),
    (0xFFFFFFFF, 2, 0x2222, false, 0x00000000, 0x74737271),
    (0x1004, 4, 0x33333333, false, 0x1004, 0x06050403),
];

#[test]
fn stores_change_their_bytes_alone_and_a_refused_one_changes_nothing(
    rt: HostRuntime,
) -> Result<(), Fail> {
    let mut bus = memory(rt.alloc())?;
    for &(a, k, v, accepted, then, want) in STORES.iter() {
        let answer = (store(&mut bus, a, k, v), load(&bus, then, 4));
        assert_eq!(rt; answer, (accepted, Some(want)), "at {a:x}, {k} bytes");
    }
    Ok(())
}

/// An address, and the word that is fetched there.
static FETCHES: [(u32, Option<u32>); 8] = [
    (0x1000, None),
    (0x1002, None),
    (0x1004, Some(0x06050403)),
    (0x1006, None),
    (0x100C, Some(0x0E0D0C0B)),
    (0x1010, None),
    (0x1014, None),
    (0xFFFFFFFC, None),
];

/// The word that either call fetches. An address that is no multiple of 4 is one for the first alone.
fn fetched(bus: &Bus, a: u32) -> (Option<u32>, Option<u32>) {
    let word = bus.fetch(a);
    (
        word,
        if a % 4 == 0 {
            bus.fetch_aligned(a)
        } else {
            word
        },
    )
}

#[test]
fn whole_words_of_the_file_are_fetched_and_nothing_else(rt: HostRuntime) -> Result<(), Fail> {
    let bus = memory(rt.alloc())?;
    for &(a, want) in FETCHES.iter() {
        assert_eq!(rt; fetched(&bus, a), (want, want), "at {a:x}");
    }
    Ok(())
}

// a text of 12 bytes, of which the file has seven
static CUT_FETCHES: [(u32, Option<u32>); 3] = [
    (0x1000, Some(0x04030201)),
    (0x1004, None),
    (0x1008, None),
];

#[test]
fn no_word_is_fetched_beside_the_bytes_of_the_file(rt: HostRuntime) -> Result<(), Fail> {
    let layout = Layout {
        heap: 0x3000,
        heap_len: 0,
        stack: 0x4000,
        stack_len: 16,
        sp: 0x4000,
    };
    let segments = [Segment::of(0x1000, 5, 12, &[1, 2, 3, 4, 5, 6, 7])];
    let bus = Bus::new(rt.alloc(), &segments, &layout)?;
    for &(a, want) in CUT_FETCHES.iter() {
        assert_eq!(rt; bus.fetch(a), want, "at {a:x}");
    }
    Ok(())
}

/// An address, how many bytes, and whether they can be read, can be written, and touch a text word.
static RANGES: [(u32, u32, (bool, bool, bool)); 13] = [
    (0x9999, 0, (true, true, false)),
    (0x1002, 2, (true, false, false)),
    (0x1002, 3, (true, false, true)),
    (0x100F, 1, (true, false, true)),
    (0x1010, 1, (true, false, false)),
    (0x1010, 6, (true, false, false)),
    (0x1012, 4, (true, true, false)),
    (0x1012, 5, (false, false, false)),
    (0x2000, 4, (false, true, false)),
    (0xFFFFFFF0, 16, (true, true, false)),
    (0xFFFFFFF0, 17, (false, false, false)),
    (0x00000000, 0xFFFFFFFF, (false, false, true)),
    (0x00001008, 0, (true, true, false)),
];

#[test]
fn ranges_are_judged_byte_by_byte(rt: HostRuntime) -> Result<(), Fail> {
    let bus = memory(rt.alloc())?;
    for &(a, n, want) in RANGES.iter() {
        let judged = (
            bus.readable(a, n),
            bus.writable(a, n),
            bus.touches_text(a, n),
        );
        assert_eq!(rt; judged, want, "at {a:x}, {n} bytes");
    }
    Ok(())
}

/// An address, how many bytes that can be read, and the piece of them that one segment has.
static PIECES: [(u32, u32, &[u8]); 2] = [(0x1010, 6, &[15, 0]), (0x1012, 2, b"xy")];

/// The piece at an address, where the bytes can be read.
fn piece(bus: &Bus, a: u32, n: u32) -> Option<&[u8]> {
    if n > 0 && bus.readable(a, n) {
        Some(bus.front(a, n))
    } else {
        None
    }
}

#[test]
fn pieces_end_with_their_segment(rt: HostRuntime) -> Result<(), Fail> {
    let mut bus = memory(rt.alloc())?;
    let copied = [
        bus.copy_in(0x1012, b"xyz"),
        bus.copy_in(0x1014, b"xyz"),
        bus.copy_in(0xFFFFFFFF, b"xy"),
    ];
    assert_eq!(rt; copied, [Ok(()), Err(Access), Err(Access)]);
    assert_eq!(rt; load(&bus, 0x1012, 4), Some(0x007A7978));
    for &(a, n, want) in PIECES.iter() {
        assert_eq!(rt; piece(&bus, a, n), Some(want), "at {a:x}");
    }
    Ok(())
}

/// The areas' first addresses, rights and sizes.
static AREAS: [(u32, u32, usize); 5] = [
    (0x0000, 4, 4),
    (0x1002, 5, 16),
    (0x1012, 6, 4),
    (0x2000, 2, 4),
    (0xFFFFFFF0, 6, 16),
];

#[test]
fn areas_stand_in_order(rt: HostRuntime) -> Result<(), Fail> {
    let bus = memory(rt.alloc())?;
    let mut areas = Vec::new(rt.alloc());
    for k in 0..bus.areas() {
        let area = bus.area(k);
        areas.push((area.base, area.flags, area.bytes.len()))?;
    }
    assert_eq!(rt; areas.as_slice(), AREAS.as_slice());
    Ok(())
}
