//! A small file against the bytes that the format's tables say.
use crate::holds::holds;
use crate::mdf::worked_file::FILE;
use mdf_blocks::{Axis, ChannelKind, ConversionKind, ListedData, Time, ValueFormat, Zone};
use mdf_file::{About, NewChannel, NewConversion, StreamedGroup, data_bytes, file_end};
use measured_values::{ByteOrder, ValueLimits};
use std::alloc::Global;
use std::process::Abort;

const START: Time = Time {
    nanoseconds: 1_700_000_000_000_000_000,
    zone: Zone::Utc,
};

const COMMENT: &str = "<FHcomment><TX>made</TX></FHcomment>";

pub fn about(rt: &impl Abort, alloc: Global) -> About {
    About {
        start: START,
        program: *b"nerthogl",
        comment: text(rt, alloc, COMMENT),
    }
}

/// A text of its own memory.
pub fn text(rt: &impl Abort, alloc: Global, text: &str) -> String {
    text.to_owned(alloc).expect(rt, "memory")
}

pub fn time(rt: &impl Abort, alloc: Global) -> NewChannel {
    NewChannel {
        name: text(rt, alloc, "t"),
        unit: Some(text(rt, alloc, "s")),
        comment: None,
        conversion: None,
        kind: ChannelKind::Master(Axis::Time),
        format: ValueFormat::Float(ByteOrder::MsbLast),
        bit_offset: 0,
        byte_offset: 0,
        bit_count: 64,
        limits: None,
    }
}

fn on_or_off(rt: &impl Abort, alloc: Global) -> NewConversion {
    let off = Some(text(rt, alloc, "off"));
    let on = Some(text(rt, alloc, "on"));
    NewConversion {
        kind: ConversionKind::ValuesToTexts,
        values: vec![in alloc; 0.0, 1.0].expect(rt, "memory"),
        texts: vec![in alloc; off, on, None].expect(rt, "memory"),
    }
}

pub fn state(rt: &impl Abort, alloc: Global) -> NewChannel {
    NewChannel {
        name: text(rt, alloc, "state"),
        unit: None,
        comment: Some(text(rt, alloc, "mode")),
        conversion: Some(on_or_off(rt, alloc)),
        kind: ChannelKind::Value,
        format: ValueFormat::Unsigned(ByteOrder::MsbLast),
        bit_offset: 0,
        byte_offset: 8,
        bit_count: 8,
        limits: None,
    }
}

fn half_behind_40(rt: &impl Abort, alloc: Global) -> NewConversion {
    NewConversion {
        kind: ConversionKind::Linear,
        values: vec![in alloc; -40.0, 0.5].expect(rt, "memory"),
        texts: Vec::new(alloc),
    }
}

pub fn speed(rt: &impl Abort, alloc: Global) -> NewChannel {
    NewChannel {
        name: text(rt, alloc, "speed"),
        unit: Some(text(rt, alloc, "rpm")),
        comment: None,
        conversion: Some(half_behind_40(rt, alloc)),
        kind: ChannelKind::Value,
        format: ValueFormat::Signed(ByteOrder::MsbFirst),
        bit_offset: 0,
        byte_offset: 0,
        bit_count: 16,
        limits: Some(ValueLimits {
            least: -1.5,
            greatest: 2048.0,
        }),
    }
}

pub const QUARTERS: [u8; 18] = [
    0, 0, 0, 0, 0, 0, 0xd0, 0x3f, 0, 0, 0, 0, 0, 0, 0, 0xe0, 0x3f, 1,
];

pub const LATER: [u8; 9] = [0, 0, 0, 0, 0, 0, 0xe8, 0x3f, 1];

/// The channels of a group of two.
pub fn two(rt: &impl Abort, alloc: Global) -> Vec<NewChannel> {
    vec![in alloc; time(rt, alloc), state(rt, alloc)].expect(rt, "memory")
}

/// The channel of a group of one.
pub fn one(rt: &impl Abort, alloc: Global) -> Vec<NewChannel> {
    vec![in alloc; speed(rt, alloc)].expect(rt, "memory")
}

/// The blocks of the group of two.
const FIRST_BLOCKS: [ListedData; 2] = [
    ListedData {
        place: 168,
        offset: 0,
    },
    ListedData {
        place: 216,
        offset: 18,
    },
];

/// The block of the group of one.
const SECOND_BLOCK: [ListedData; 1] = [ListedData {
    place: 256,
    offset: 0,
}];

/// The groups, whose records are so many bytes in blocks at these places.
fn streamed(rt: &impl Abort, alloc: Global) -> Vec<StreamedGroup> {
    let first = StreamedGroup {
        name: text(rt, alloc, "10 ms"),
        channels: two(rt, alloc),
        record_bytes: 9,
        blocks: FIRST_BLOCKS.to_vec(alloc).expect(rt, "memory"),
        len: 27,
    };
    let second = StreamedGroup {
        name: text(rt, alloc, "event"),
        channels: one(rt, alloc),
        record_bytes: 2,
        blocks: SECOND_BLOCK.to_vec(alloc).expect(rt, "memory"),
        len: 2,
    };
    vec![in alloc; first, second].expect(rt, "memory")
}

/// A file of which the records were written first.
fn streamed_file(rt: &impl Abort, alloc: Global, about: &About) -> Vec<u8> {
    let end = file_end(alloc, about, 288, &streamed(rt, alloc)).expect(rt, "an end");
    let rows: [&[u8]; 3] = [&QUARTERS, &LATER, &[0x12, 0x34]];
    let mut out = end.front;
    for records in rows {
        let bytes = data_bytes(alloc, records).expect(rt, "bytes of records");
        out.extend_from_slice(&bytes).expect(rt, "memory");
    }
    out.extend_from_slice(&end.behind).expect(rt, "memory");
    out
}

#[test]
fn records_that_stand_in_front_are_those_of_the_groups(rt: HostRuntime) {
    let about = about(&rt, rt.alloc());
    let bytes = streamed_file(&rt, rt.alloc(), &about);
    holds(&rt, bytes.as_slice() == FILE, "the file");
}
