//! Encodings against the places where MDF finds their values.
use crate::holds::holds;
use mdf_blocks::{ValueFormat, ValuePlace, place_in_record};
use measured_values::{BitOperation, ByteOrder, DataType, Encoding};
use std::process::Abort;

/// A value: its data type, byte order and mask. It stands at byte 16.
type Value = (DataType, ByteOrder, Option<u64>);

/// A place: format, byte, bit, and number of bits.
type Place = (ValueFormat, u32, u8, u32);

const INTEL: ByteOrder = ByteOrder::MsbLast;

const MOTOROLA: ByteOrder = ByteOrder::MsbFirst;

const BITS: ValueFormat = ValueFormat::Unsigned(ByteOrder::MsbLast);

const MOTOROLA_BITS: ValueFormat = ValueFormat::Unsigned(ByteOrder::MsbFirst);

/// Values that MDF finds.
const FOUND: &[(&str, Value, Place)] = &[
    (
        "all bits, signed, by Motorola",
        (DataType::SLong, MOTOROLA, None),
        (ValueFormat::Signed(ByteOrder::MsbFirst), 16, 0, 32),
    ),
    (
        "a float, whatever its mask",
        (DataType::Float32, INTEL, Some(0xFF)),
        (ValueFormat::Float(ByteOrder::MsbLast), 16, 0, 32),
    ),
    (
        "the upper half of a byte",
        (DataType::UByte, INTEL, Some(0xF0)),
        (BITS, 16, 4, 4),
    ),
    (
        "the third byte of four",
        (DataType::ULong, INTEL, Some(0x00FF_0000)),
        (BITS, 18, 0, 8),
    ),
    (
        "the same by Motorola",
        (DataType::ULong, MOTOROLA, Some(0x00FF_0000)),
        (MOTOROLA_BITS, 17, 0, 8),
    ),
    (
        "bits of both bytes by Motorola",
        (DataType::SWord, MOTOROLA, Some(0x0FF0)),
        (MOTOROLA_BITS, 16, 4, 8),
    ),
    (
        "the low byte by Motorola",
        (DataType::UWord, MOTOROLA, Some(0x00FF)),
        (MOTOROLA_BITS, 17, 0, 8),
    ),
    (
        "all of 64 bits",
        (DataType::AUint64, MOTOROLA, Some(0xFFFF_FFFF_FFFF_FFFF)),
        (MOTOROLA_BITS, 16, 0, 64),
    ),
];

/// Values that it can't find.
const NOT_FOUND: &[(&str, Value)] = &[
    ("a mask with a hole", (DataType::UByte, INTEL, Some(0b101))),
    ("a mask of nothing", (DataType::UByte, INTEL, Some(0))),
    (
        "a mask beyond the value",
        (DataType::UByte, INTEL, Some(0x1F0)),
    ),
];

fn encoding(value: Value) -> Encoding {
    let (data_type, order, mask) = value;
    Encoding {
        data_type,
        order,
        mask,
        operation: None,
    }
}

fn place(place: Place) -> ValuePlace {
    let (format, byte_offset, bit_offset, bit_count) = place;
    ValuePlace {
        format,
        byte_offset,
        bit_offset,
        bit_count,
    }
}

/// That the place of a value at byte 16 is this.
fn same(rt: &impl Abort, name: &str, encoding: Encoding, wanted: Option<ValuePlace>) {
    holds(rt, place_in_record(encoding, 16) == wanted, name);
}

#[test]
fn values_stand_where_mdf_finds_them(rt: HostRuntime) {
    for (name, value, wanted) in FOUND {
        same(&rt, name, encoding(*value), Some(place(*wanted)));
    }
    for (name, value) in NOT_FOUND {
        same(&rt, name, encoding(*value), None);
    }
    let shifted = Encoding {
        operation: Some(BitOperation {
            left: 0,
            right: 1,
            extends_sign: false,
        }),
        ..encoding((DataType::UByte, INTEL, None))
    };
    same(&rt, "an operation", shifted, None);
}
