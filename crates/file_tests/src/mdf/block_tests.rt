//! Blocks against the bytes that the format's tables say.
use crate::holds::holds;
use crate::mdf::worked_bytes as worked;
use mdf_blocks::{
    Axis, Channel, ChannelGroup, ChannelKind, ConversionKind, DataGroup, FileHeader, FileHistory,
    FileState, ListedData, Time, ValueFormat, Zone, data_head, identification, push_channel,
    push_channel_group, push_comment, push_conversion, push_data_group, push_data_list,
    push_file_header, push_file_history, push_text,
};
use measured_values::{ByteOrder, ValueLimits};
use std::alloc::AllocError;
use std::process::Abort;

/// That bytes are those of a table.
fn same(rt: &impl Abort, name: &str, bytes: &[u8], wanted: &[u8]) {
    holds(rt, bytes == wanted, name);
}

const HEADER: FileHeader = FileHeader {
    first_group: 0x2a8,
    first_history: 0xa8,
    comment: 0x1f0,
    start: Time {
        nanoseconds: 1_700_000_000_123_456_789,
        zone: Zone::Offsets {
            zone: 60,
            daylight: -60,
        },
    },
};

const HISTORY: FileHistory = FileHistory {
    next: 0x1234,
    comment: 0x5678,
    time: Time {
        nanoseconds: 1_700_000_000_000_000_000,
        zone: Zone::Local,
    },
};

const DATA_GROUP: DataGroup = DataGroup {
    next: 0x108,
    channel_group: 0x208,
    records: 0x308,
    comment: 0x408,
};

const CHANNEL_GROUP: ChannelGroup = ChannelGroup {
    first_channel: 0x510,
    acquisition_name: 0x610,
    comment: 0x710,
    cycles: 66_051,
    record_bytes: 260,
};

const LIST: [ListedData; 2] = [
    ListedData {
        place: 0x1000,
        offset: 0,
    },
    ListedData {
        place: 0x2000,
        offset: 4096,
    },
];

/// A value of 11 bits by Motorola's order, from bit 5 of byte 258 on, from -1.5 to 2048.
const VALUE: Channel = Channel {
    next: 0x18,
    name: 0x28,
    conversion: 0x38,
    unit: 0x48,
    comment: 0x58,
    kind: ChannelKind::Value,
    format: ValueFormat::Signed(ByteOrder::MsbFirst),
    bit_offset: 5,
    byte_offset: 258,
    bit_count: 11,
    limits: Some(ValueLimits {
        least: -1.5,
        greatest: 2048.0,
    }),
};

/// Seconds in a float of 64 bits.
const MASTER: Channel = Channel {
    next: 0,
    name: 0x68,
    conversion: 0,
    unit: 0x78,
    comment: 0,
    kind: ChannelKind::Master(Axis::Time),
    format: ValueFormat::Float(ByteOrder::MsbLast),
    bit_offset: 0,
    byte_offset: 0,
    bit_count: 64,
    limits: None,
};

/// The numbers of the records.
const INDEX: Channel = Channel {
    next: 0,
    name: 0x88,
    conversion: 0,
    unit: 0,
    comment: 0,
    kind: ChannelKind::VirtualMaster(Axis::Index),
    format: ValueFormat::Unsigned(ByteOrder::MsbLast),
    bit_offset: 0,
    byte_offset: 0,
    bit_count: 0,
    limits: None,
};

/// That a block was pushed, and has the bytes of a table; the next one is pushed to nothing again.
fn block_is(
    rt: &impl Abort,
    name: &str,
    pushed: Result<(), AllocError>,
    block: &mut Vec<u8>,
    wanted: &[u8],
) {
    pushed.expect(rt, "memory");
    same(rt, name, block, wanted);
    block.clear();
}

/// The blocks of a file, its groups and their data.
fn groups_are_those_of_tables(rt: &impl Abort, out: &mut Vec<u8>) {
    let pushed = push_file_header(out, &HEADER);
    block_is(rt, "HD", pushed, out, worked::HEADER);
    let pushed = push_file_history(out, &HISTORY);
    block_is(rt, "FH", pushed, out, worked::HISTORY);
    let pushed = push_data_group(out, &DATA_GROUP);
    block_is(rt, "DG", pushed, out, worked::DATA_GROUP);
    let pushed = push_channel_group(out, &CHANNEL_GROUP);
    block_is(rt, "CG", pushed, out, worked::CHANNEL_GROUP);
    let pushed = push_data_list(out, 0x800, &LIST);
    block_is(rt, "DL", pushed, out, worked::LIST);
}

/// The blocks of channels and texts.
fn channels_are_those_of_tables(rt: &impl Abort, out: &mut Vec<u8>) {
    let pushed = push_channel(out, &VALUE);
    block_is(rt, "CN, a value", pushed, out, worked::CHANNEL);
    let pushed = push_channel(out, &MASTER);
    block_is(rt, "CN, the time", pushed, out, worked::MASTER);
    let pushed = push_channel(out, &INDEX);
    block_is(rt, "CN, the index", pushed, out, worked::INDEX);
    let pushed = push_text(out, "speed");
    block_is(rt, "TX", pushed, out, worked::TEXT);
    let pushed = push_comment(out, "<TX>°C é</TX>");
    block_is(rt, "MD", pushed, out, worked::COMMENT);
}

/// The blocks of conversions.
fn conversions_are_those_of_tables(rt: &impl Abort, out: &mut Vec<u8>) {
    let pushed = push_conversion(out, ConversionKind::Linear, 0x90, &[], &[-40.0, 0.5]);
    block_is(rt, "CC, linear", pushed, out, worked::LINEAR);
    let numbers = [0.0, 4.0, -3.0, 0.0, 0.0, 2.0];
    let pushed = push_conversion(out, ConversionKind::Rational, 0, &[], &numbers);
    block_is(rt, "CC, rational", pushed, out, worked::RATIONAL);
    let places = [0xa0, 0xb0, 0];
    let pushed = push_conversion(out, ConversionKind::ValuesToTexts, 0, &places, &[-1.0, 1.0]);
    block_is(rt, "CC, texts", pushed, out, worked::TEXTS);
    let places = [0xa0, 0xb0, 0xc0];
    let bounds = [0.0, 9.0, 10.0, 19.0];
    let pushed = push_conversion(out, ConversionKind::RangesToTexts, 0, &places, &bounds);
    block_is(rt, "CC, ranges", pushed, out, worked::RANGES);
}

#[test]
fn each_block_has_the_bytes_of_its_table(rt: HostRuntime) {
    let mut out = Vec::new(rt.alloc());
    groups_are_those_of_tables(&rt, &mut out);
    channels_are_those_of_tables(&rt, &mut out);
    conversions_are_those_of_tables(&rt, &mut out);
}

#[test]
fn what_needs_no_memory_has_the_bytes_of_its_table(rt: HostRuntime) {
    let program = b"nerthogl";
    let unfinished = FileState::Unfinished {
        cycles: true,
        last_data: true,
        last_list: true,
    };
    let finished = identification(FileState::Finished, program);
    same(&rt, "ID", &finished, worked::IDENTIFICATION);
    let begun = identification(unfinished, program);
    same(&rt, "ID, unfinished", &begun, worked::UNFINISHED);
    same(&rt, "DT", &data_head(65_536), worked::DATA);
}
