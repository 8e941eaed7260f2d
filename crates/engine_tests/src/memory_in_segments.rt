//! Segments of a controller's memory: what is read of them, and which are refused.
use crate::same::same;
use segments::{ReadFault, Segment, SegmentFault, Segments};
use std::process::Abort;

/// A segment that these event channels may read.
fn segment(extension: u8, base: u32, len: usize, events: u16) -> Segment {
    Segment {
        extension,
        base,
        len,
        events,
    }
}

/// Two segments of one extension, the second of which no event channel may read, and one of
/// another extension.
fn apart() -> [Segment; 3] {
    [
        segment(0, 0x1000, 16, 1),
        segment(0, 0x2000, 8, 0),
        segment(1, 0, 4, 1),
    ]
}

/// Segments that touch, and the last address.
fn touching() -> [Segment; 6] {
    [
        segment(0, 0, 1, 1),
        segment(0, 0x1000, 2, 1),
        segment(0, 0x1002, 2, 1),
        segment(0, 0xFFFF_FFFF, 1, 1),
        segment(1, 0, 1, 1),
        segment(1, 0x1000, 4, 1),
    ]
}

const LOW: [u8; 16] = [0, 1, 2, 3, 4, 5, 6, 7, 8, 9, 10, 11, 12, 13, 14, 15];

const NOT_READ: [u8; 8] = [0x20, 0x21, 0x22, 0x23, 0x24, 0x25, 0x26, 0x27];

const OTHER: [u8; 4] = [0xA0, 0xA1, 0xA2, 0xA3];

/// Bytes that are asked for, and what is answered.
type Read = (
    &'static str,
    u8,
    usize,
    usize,
    Result<&'static [u8], ReadFault>,
);

/// What is read of the segments that are apart.
const OF_APART: &[Read] = &[
    ("4 bytes at 0x1004 of 0", 0, 0x1004, 4, Ok(&[4, 5, 6, 7])),
    ("2 bytes at 0x1008 of 0", 0, 0x1008, 2, Ok(&[8, 9])),
    ("1 bytes at 1 of 0", 0, 1, 1, Err(ReadFault::OutOfRange)),
    ("2 bytes at 2 of 1", 1, 2, 2, Ok(&[0xA2, 0xA3])),
    ("1 bytes at 4 of 1", 1, 4, 1, Err(ReadFault::OutOfRange)),
    ("1 bytes at 0 of 2", 2, 0, 1, Err(ReadFault::OutOfRange)),
    (
        "1 bytes at 0x200E of 0",
        0,
        0x200E,
        1,
        Err(ReadFault::OutOfRange),
    ),
    (
        "2 bytes at 0x100F of 0",
        0,
        0x100F,
        2,
        Err(ReadFault::OutOfRange),
    ),
    ("2 bytes at 0x2000 of 0", 0, 0x2000, 2, Ok(&[0x20, 0x21])),
];

/// What is read of those that touch.
const OF_TOUCHING: &[Read] = &[
    ("1 bytes at 0 of 0", 0, 0, 1, Ok(&[0x77])),
    ("2 bytes at 0x1000 of 0", 0, 0x1000, 2, Ok(&[0x10, 0x11])),
    (
        "3 bytes at 0x1000 of 0",
        0,
        0x1000,
        3,
        Err(ReadFault::OutOfRange),
    ),
    (
        "2 bytes at 0x1001 of 0",
        0,
        0x1001,
        2,
        Err(ReadFault::OutOfRange),
    ),
    ("2 bytes at 0x1002 of 0", 0, 0x1002, 2, Ok(&[0x12, 0x13])),
    (
        "1 bytes at 0xFFFF_FFFF of 0",
        0,
        0xFFFF_FFFF,
        1,
        Ok(&[0xFF]),
    ),
    (
        "1 bytes at 0x1_0000_0000 of 0",
        0,
        0x1_0000_0000,
        1,
        Err(ReadFault::OutOfRange),
    ),
    ("1 bytes at 0 of 1", 1, 0, 1, Ok(&[0xB0])),
    ("2 bytes at 0x1002 of 1", 1, 0x1002, 2, Ok(&[0xB3, 0xB4])),
];

/// Compares what is read of segments with what is wanted.
fn are_read(rt: &impl Abort, segments: &Segments, memory: &[&[u8]], reads: &[Read]) {
    for (row, extension, address, size, wanted) in reads {
        let read = segments.read(memory, *extension, *address, *size);
        same(rt, read, *wanted, row, "what is read");
    }
}

#[test]
fn bytes_are_read_of_the_segment_that_they_lie_in(rt: HostRuntime) {
    let segments = Segments::new(&apart(), 1).expect(&rt, "segments");
    are_read(&rt, &segments, &[&LOW, &NOT_READ, &OTHER], OF_APART);
    let read = segments.read(&[&LOW, &[], &OTHER], 0, 0x2000, 2);
    same(
        &rt,
        read,
        Err(ReadFault::AccessDenied),
        "none there",
        "what is read",
    );
    let read = segments.read(&[&LOW], 1, 0, 1);
    same(
        &rt,
        read,
        Err(ReadFault::AccessDenied),
        "too few slices",
        "what is read",
    );
}

#[test]
fn segments_that_touch_are_two(rt: HostRuntime) {
    let segments = Segments::new(&touching(), 1).expect(&rt, "segments");
    let memory: [&[u8]; 6] = [
        &[0x77],
        &[0x10, 0x11],
        &[0x12, 0x13],
        &[0xFF],
        &[0xB0],
        &[0xB1, 0xB2, 0xB3, 0xB4],
    ];
    are_read(&rt, &segments, &memory, OF_TOUCHING);
}

/// Memory that a segment has, what of it is asked for by event channel 0, and whether it may read
/// that.
const READABLE: &[(&str, u8, usize, usize, bool)] = &[
    ("its own", 0, 0x1000, 2, true),
    ("another extension", 1, 2, 2, true),
    ("another's", 0, 0x2000, 1, false),
];

/// Memory, and whether it fits the segments for event channel 0.
const FITTING: &[(&str, &[&[u8]], bool)] = &[
    ("what it reads", &[&LOW, &[], &OTHER], true),
    ("one too short", &[&LOW, &NOT_READ, &[]], false),
    ("a slice too few", &[&LOW, &NOT_READ], false),
];

#[test]
fn an_event_channel_reads_its_own_segments(rt: HostRuntime) {
    let segments = Segments::new(&apart(), 1).expect(&rt, "segments");
    for (row, extension, address, size, wanted) in READABLE {
        let is_readable = segments.is_readable(0, *extension, *address, *size);
        same(&rt, is_readable, *wanted, row, "is readable");
    }
    for (row, memory, wanted) in FITTING {
        same(&rt, segments.fits(0, memory), *wanted, row, "fits");
    }
}

#[test]
fn segments_out_of_a_limit_are_refused(rt: HostRuntime) {
    let first = segment(0, 0x1000, 16, 1);
    let pairs = [
        ("no byte", segment(0, 0x1010, 0, 1), SegmentFault::Len(1)),
        (
            "too many bytes",
            segment(0, 0x1010, 0x1_0000_0001, 1),
            SegmentFault::Len(1),
        ),
        (
            "behind the last address",
            segment(0, 0x1010, 0xFFFF_F000, 1),
            SegmentFault::End(1),
        ),
        (
            "an address of two",
            segment(0, 0x100F, 1, 1),
            SegmentFault::Order(1),
        ),
        (
            "a lower base",
            segment(0, 0x0FFF, 1, 1),
            SegmentFault::Order(1),
        ),
        (
            "another's event channel",
            segment(0, 0x1010, 1, 2),
            SegmentFault::Events(1),
        ),
    ];
    for (row, second, fault) in pairs {
        let refused = Segments::new(&[first, second], 1).err();
        same(&rt, refused, Some(fault), row, "the fault");
    }
    let fault = Segments::new(&[], 1).err();
    same(&rt, fault, Some(SegmentFault::Number), "none", "the fault");
}
