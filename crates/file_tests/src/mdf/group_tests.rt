//! Records and channels against bytes and places that are worked out from the format.
ghost use Rattle.std.specs.Prelude.{◌≡◌, length};

use crate::holds::holds;
use mdf_blocks::{Axis, ChannelKind, ConversionKind, ValueFormat, ValuePlace};
use mdf_file::NewChannel;
use mdf_groups::{
    FormFault, Front, PlacedColumn, RecordFault, RecordForm, RecordTime, channels_of, is_lost,
    risen, seconds_of,
};
use measured_values::{
    BitOperation, ByteOrder, Conversion, DataType, Encoding, TextRow, TextTable, Tick, ValueLimits,
};
use std::alloc::Global;
use std::process::Abort;
use value_tables::Column;

const INTEL: ByteOrder = ByteOrder::MsbLast;

const MOTOROLA: ByteOrder = ByteOrder::MsbFirst;

/// The columns: data type, byte order, mask, name, and the place in the sample.
type Row = (DataType, ByteOrder, Option<u64>, &'static str, u32);

/// A Motorola word, a masked byte, a mask with holes, a float, names twice, and a column `t`.
const ROWS: [Row; 7] = [
    (DataType::UWord, MOTOROLA, None, "speed", 0),
    (DataType::UByte, INTEL, Some(0xF0), "gear", 2),
    (DataType::UByte, INTEL, Some(0b101), "flags", 2),
    (DataType::Float32, INTEL, Some(1), "t", 3),
    (DataType::SByte, INTEL, None, "speed", 7),
    (DataType::SByte, INTEL, None, "speed", 8),
    (DataType::UByte, INTEL, None, "overload", 9),
];

/// A sample of these columns.
pub const SAMPLE: [u8; 10] = [0x01, 0x02, 0xA5, 0, 0, 0x80, 0x3F, 0xFF, 0x7F, 5];

/// The channels of the columns behind a front of 8 bytes: name, format, byte, bit, number of bits.
type Found = (&'static str, ValueFormat, u32, u8, u32);

const FOUND: [Found; 7] = [
    ("speed", ValueFormat::Unsigned(MOTOROLA), 9, 0, 16),
    ("gear", ValueFormat::Unsigned(INTEL), 11, 4, 4),
    ("flags", ValueFormat::Unsigned(INTEL), 19, 0, 64),
    ("t", ValueFormat::Float(INTEL), 12, 0, 32),
    ("speed_2", ValueFormat::Signed(INTEL), 16, 0, 8),
    ("speed_3", ValueFormat::Signed(INTEL), 17, 0, 8),
    ("overload", ValueFormat::Unsigned(INTEL), 18, 0, 8),
];

/// The record of the sample, taken at 1.5 s: time, mark, sample, and the value of `flags`.
pub const RECORD: [u8; 27] = [
    0, 0, 0, 0, 0, 0, 0xF8, 0x3F, //
    1, //
    0x01, 0x02, 0xA5, 0, 0, 0x80, 0x3F, 0xFF, 0x7F, 5, //
    5, 0, 0, 0, 0, 0, 0, 0,
];

fn placed(row: &Row, operation: Option<BitOperation>) -> PlacedColumn<'static> {
    let (data_type, order, mask, name, at) = *row;
    PlacedColumn {
        column: Column {
            name,
            identifier: "",
            unit: "",
            encoding: Encoding {
                data_type,
                order,
                mask,
                operation,
            },
            address: 0,
            conversion: None,
            limits: None,
        },
        at,
    }
}

pub fn columns(rt: &impl Abort, alloc: Global) -> Vec<PlacedColumn<'static>> {
    let columns = ROWS.iter().map(|row| placed(row, None)).collect(alloc);
    columns.expect(rt, "memory")
}

/// The form of the records of these columns.
fn form(rt: &impl Abort, alloc: Global, front: Front, columns: &[PlacedColumn<'_>]) -> RecordForm
    ensures { length result.places ≡ length columns.now }
{
    RecordForm::of(alloc, front, 10, columns).expect(rt, "a form")
}

/// That of a form of 27 bytes a record is written, and two are refused.
fn writes_one_of_three(rt: &impl Abort, form: &RecordForm, out: &mut Vec<u8>) {
    let written = form.write_record(out, RecordTime::Seconds(1.5), 1, &SAMPLE);
    holds(rt, written == Ok(()), "a record");
    holds(rt, out.as_slice() == RECORD.as_slice(), "its bytes");
    let late = form.write_record(out, RecordTime::Unknown, 0, &SAMPLE);
    holds(rt, late == Err(RecordFault::WrongTime), "no time");
    let short = form.write_record(out, RecordTime::Seconds(2.0), 0, &SAMPLE[1..]);
    let what = "part of a sample";
    holds(rt, short == Err(RecordFault::WrongLength), what);
    holds(rt, out.len() == 27, "nothing more");
}

#[test]
fn a_record_is_front_mark_sample_and_values(rt: HostRuntime) {
    let alloc = rt.alloc();
    let form = form(&rt, alloc, Front::Seconds, &columns(&rt, alloc));
    holds(&rt, form.record_bytes() == 27, "the length of a record");
    writes_one_of_three(&rt, &form, &mut Vec::new(alloc));
}

/// That ticks stand before the mark.
fn ticks_have_their_bytes(rt: &impl Abort, ticks: &RecordForm, out: &mut Vec<u8>) {
    let written = ticks.write_record(out, RecordTime::Ticks(0x0102), 2, &SAMPLE);
    holds(rt, written == Ok(()), "a record of ticks");
    let has_ticks = out[..10] == [2, 1, 0, 0, 0, 0, 0, 0, 2, 1];
    holds(rt, has_ticks, "its bytes");
}

/// That nothing stands before the mark.
fn nothing_has_no_bytes(rt: &impl Abort, nothing: &RecordForm, out: &mut Vec<u8>) {
    let written = nothing.write_record(out, RecordTime::Unknown, 3, &SAMPLE);
    holds(rt, written == Ok(()), "a record without a time");
    holds(rt, out[..3] == [3, 1, 2], "its bytes");
    holds(rt, nothing.record_bytes() == 11, "its length");
}

#[test]
fn fronts_have_their_bytes(rt: HostRuntime) {
    let alloc = rt.alloc();
    let columns = [placed(&ROWS[0], None)];
    let mut out = Vec::new(alloc);
    ticks_have_their_bytes(&rt, &form(&rt, alloc, Front::Ticks, &columns), &mut out);
    out.clear();
    nothing_has_no_bytes(&rt, &form(&rt, alloc, Front::Nothing, &columns), &mut out);
}

/// That of a form of one value it stands behind the sample.
fn value_stands_behind(rt: &impl Abort, form: &RecordForm, out: &mut Vec<u8>) {
    let written = form.write_record(out, RecordTime::Unknown, 0, &SAMPLE);
    holds(rt, written == Ok(()), "a record");
    holds(rt, out[11..] == [0xFF; 8], "the value");
}

/// That a value stands at this place.
fn stands_at(rt: &impl Abort, place: ValuePlace, format: ValueFormat, byte_offset: u32) {
    holds(rt, place.format == format, "its format");
    holds(rt, place.byte_offset == byte_offset, "its place");
}

const SHIFT: BitOperation = BitOperation {
    left: 0,
    right: 1,
    extends_sign: true,
};

#[test]
fn a_value_behind_an_operation_stands_behind_the_sample(rt: HostRuntime) {
    let columns = [placed(&ROWS[4], Some(SHIFT))];
    let form = form(&rt, rt.alloc(), Front::Nothing, &columns);
    value_stands_behind(&rt, &form, &mut Vec::new(rt.alloc()));
    stands_at(&rt, form.places()[0], ValueFormat::Signed(INTEL), 11);

    let outside = RecordForm::of(rt.alloc(), Front::Nothing, 7, &columns);
    let is_refused = matches!(outside, Err(FormFault::Outside));
    holds(&rt, is_refused, "a value outside");
}

/// That a channel of values is this.
fn same(rt: &impl Abort, channel: &NewChannel, found: Found) {
    let (name, format, byte, bit, count) = found;
    let is_bare = channel.comment.is_none() && channel.limits.is_none();
    let place = (channel.byte_offset, channel.bit_offset, channel.bit_count);
    holds(rt, channel.name.as_str() == name, name);
    holds(rt, channel.kind == ChannelKind::Value && is_bare, name);
    holds(rt, channel.format == format, name);
    holds(rt, place == (byte, bit, count), name);
}

/// The channels of these columns behind a front.
fn channels_behind(
    rt: &impl Abort,
    alloc: Global,
    front: Front,
    columns: &[PlacedColumn<'_>],
) -> Vec<NewChannel> {
    let form = form(rt, alloc, front, columns);
    channels_of(alloc, &form, columns).expect(rt, "memory")
}

/// That the channel of the master is this.
fn same_master(
    rt: &impl Abort,
    channel: &NewChannel,
    name: &str,
    kind: ChannelKind,
    bit_count: u32,
) {
    holds(rt, channel.name.as_str() == name, "the name of the master");
    holds(rt, channel.kind == kind, "the kind of the master");
    let is_so_long = channel.bit_count == bit_count;
    holds(rt, is_so_long, "the bits of the master");
}

/// That channels of values are these.
fn same_values(rt: &impl Abort, channels: &[NewChannel], found: &[Found]) {
    for (channel, found) in channels.iter().zip(found) {
        same(rt, channel, *found);
    }
}

#[test]
fn channels_stand_where_the_record_has_their_values(rt: HostRuntime) {
    let columns = columns(&rt, rt.alloc());
    let channels = channels_behind(&rt, rt.alloc(), Front::Seconds, &columns);
    holds(&rt, channels.len() == 9, "channels");
    let kind = ChannelKind::Master(Axis::Time);
    same_master(&rt, &channels[0], "t_2", kind, 64);
    let overload = ("overload_2", ValueFormat::Unsigned(INTEL), 8, 0, 8);
    same(&rt, &channels[1], overload);
    same_values(&rt, &channels[2..], &FOUND);
}

/// The channels of values without a tick.
const WITHOUT_TICK: [Found; 3] = [
    ("ticks", ValueFormat::Unsigned(INTEL), 0, 0, 64),
    ("overload", ValueFormat::Unsigned(INTEL), 8, 0, 8),
    ("speed", ValueFormat::Unsigned(MOTOROLA), 9, 0, 16),
];

#[test]
fn channels_without_a_tick_have_an_index(rt: HostRuntime) {
    let columns = [placed(&ROWS[0], None)];
    let channels = channels_behind(&rt, rt.alloc(), Front::Ticks, &columns);
    holds(&rt, channels.len() == 4, "channels without a tick");
    let kind = ChannelKind::VirtualMaster(Axis::Index);
    same_master(&rt, &channels[0], "index", kind, 0);
    same_values(&rt, &channels[1..], &WITHOUT_TICK);
}

fn row(rt: &impl Abort, alloc: Global, least: f64, greatest: f64, text: &str) -> TextRow {
    TextRow {
        least,
        greatest,
        text: text.to_owned(alloc).expect(rt, "memory"),
    }
}

const LIMITS: ValueLimits = ValueLimits {
    least: -40.0,
    greatest: 87.5,
};

/// Whether a text is this.
fn says(text: &Option<String>, wanted: &str) -> bool {
    match text {
        Some(text) => text.as_str() == wanted,
        None => false,
    }
}

/// A byte with a conversion, the unit V, a long identifier, and limits.
fn convertible(conversion: &Conversion) -> PlacedColumn<'_> {
    PlacedColumn {
        column: Column {
            name: "u",
            identifier: "supply",
            unit: "V",
            encoding: placed(&ROWS[6], None).column.encoding,
            address: 0,
            conversion: Some(conversion),
            limits: Some(LIMITS),
        },
        at: 9,
    }
}

/// The channel of a byte with a conversion, and whether that is lost.
fn converted(rt: &impl Abort, alloc: Global, conversion: &Conversion) -> (NewChannel, bool) {
    let columns = [convertible(conversion)];
    let lost = is_lost(alloc, &columns[0].column).expect(rt, "memory");
    let mut channels = channels_behind(rt, alloc, Front::Nothing, &columns);
    (channels.pop().expect(rt, "a channel"), lost)
}

/// That a conversion is of this kind, with these numbers and texts.
fn same_conversion(
    rt: &impl Abort,
    channel: &NewChannel,
    kind: ConversionKind,
    values: &[f64],
    texts: &[&str],
) {
    let conversion = channel.conversion.as_ref().expect(rt, "a conversion");
    holds(rt, conversion.kind == kind, "the kind");
    holds(rt, conversion.values.as_slice() == values, "the numbers");
    holds(rt, conversion.texts.len() == texts.len(), "so many texts");
    for (text, wanted) in conversion.texts.iter().zip(texts) {
        holds(rt, says(text, wanted), wanted);
    }
}

/// That a channel has this unit and comment.
fn same_texts(rt: &impl Abort, channel: &NewChannel, unit: &str, comment: &str) {
    holds(rt, says(&channel.unit, unit), "the unit");
    holds(rt, says(&channel.comment, comment), "the comment");
}

#[test]
fn conversions_have_their_numbers_and_texts(rt: HostRuntime) {
    let linear = Conversion::Linear {
        factor: 0.5,
        offset: -40.0,
    };
    let (channel, lost) = converted(&rt, rt.alloc(), &linear);
    holds(&rt, !lost, "nothing is lost");
    same_texts(&rt, &channel, "V", "supply");
    let kind = ConversionKind::Linear;
    same_conversion(&rt, &channel, kind, &[-40.0, 0.5], &[]);
    let limits = channel.limits.expect(&rt, "limits");
    holds(&rt, limits.least == -40.0, "the least");
    holds(&rt, limits.greatest == 87.5, "the greatest");
}

#[test]
fn raw_values_have_no_limits(rt: HostRuntime) {
    let (channel, lost) = converted(&rt, rt.alloc(), &Conversion::Other);
    holds(&rt, lost, "it is lost");
    same_texts(&rt, &channel, "raw", "supply");
    holds(&rt, channel.conversion.is_none(), "no conversion");
    holds(&rt, channel.limits.is_none(), "no limits");
}

/// Two ranges that fall, and a default.
fn ranges(rt: &impl Abort, alloc: Global) -> Conversion {
    let high = row(rt, alloc, 10.0, 19.0, "high");
    let low = row(rt, alloc, 0.0, 9.0, "low");
    let other = "none".to_owned(alloc).expect(rt, "memory");
    Conversion::Texts(TextTable {
        rows: vec![in alloc; high, low].expect(rt, "memory"),
        other: Some(other),
    })
}

#[test]
fn ranges_have_their_bounds_and_the_default(rt: HostRuntime) {
    let ranges = ranges(&rt, rt.alloc());
    let (channel, _) = converted(&rt, rt.alloc(), &ranges);
    same_conversion(
        &rt,
        &channel,
        ConversionKind::RangesToTexts,
        &[0.0, 9.0, 10.0, 19.0],
        &["low", "high", "none"],
    );
}

#[test]
fn ticks_are_seconds(rt: HostRuntime) {
    let micro = Tick {
        mantissa: 1,
        exponent: -6,
    };
    holds(&rt, seconds_of(1_500_000, micro) == 1.5, "1.5 s");
    holds(&rt, seconds_of(1, micro) == 0.000001, "1 µs");
    let long = Tick {
        mantissa: 25,
        exponent: 1,
    };
    holds(&rt, seconds_of(4, long) == 1000.0, "1000 s");
    holds(&rt, risen(2.0, 1.5) == 2.0, "an earlier time");
    holds(&rt, risen(2.0, 2.5) == 2.5, "a later time");
}
