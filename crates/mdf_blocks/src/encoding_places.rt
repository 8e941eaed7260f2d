//! Where the value of an encoding stands in a record.
ghost use Rattle.std.specs.Prelude.{◌≡◌, ◌+◌, ◌*◌, ◌^◌, ◌<◌, ◌≤◌, IfSome, IsSome, None};
ghost use Rattle.measured_values.specs.Encodings.{size_of};
ghost use Rattle.mdf_blocks.specs.ValuePlaces.{FindsMasked, FindsRaw, IsPlaceOf, IsRun};
ghost use Rattle.mdf_blocks.specs.ValuePlaces.{bytes_of_bits};
ghost use Rattle.mdf_blocks.specs.ValuePlaces.{first_byte, format_of, is_float, order_of};

use crate::bit_run::BitRun;
use crate::value_format::ValueFormat;
use crate::value_place::ValuePlace;
use measured_values::{ByteOrder, DataType, Encoding};

/// Where MDF finds the value whose bytes begin at `at` in a record. `None` if there is no such
/// place: of a mask with holes, or of bits behind an operation.
pub fn place_in_record(encoding: Encoding, at: u32) -> Option<ValuePlace>
    requires { at + 8 ≤ 2 ^ 32 }
    ensures found { IfSome result (FindsRaw encoding at) }
    ensures within { IfSome result (λ p. p.byte_offset + bytes_of_bits p.bit_offset p.bit_count
        ≤ at + size_of encoding.data_type) }
    ensures whole { encoding.operation ≡ None → encoding.mask ≡ None → IsSome result }
{
    match encoding.operation {
        Some(_) => None,
        None => masked_place(encoding.data_type, encoding.order, encoding.mask, at),
    }
}

/// The same, without an operation.
fn masked_place(
    data_type: DataType,
    order: ByteOrder,
    mask: Option<u64>,
    at: u32,
) -> Option<ValuePlace>
    requires { at + 8 ≤ 2 ^ 32 }
    ensures found { IfSome result (FindsMasked data_type order mask at) }
    ensures within { IfSome result (λ p. p.byte_offset + bytes_of_bits p.bit_offset p.bit_count
        ≤ at + size_of data_type) }
    ensures whole { mask ≡ None → IsSome result }
{
    let size = data_type.size() as u32;
    let format = format_of(data_type, order);
    let all = BitRun {
        low: 0,
        count: 8 * size,
    };
    let whole = place_of(format, size, all, at);
    let Some(mask) = mask else {
        return Some(whole);
    };
    if is_float(data_type) {
        return Some(whole);
    }
    let run = run_of(mask, size)?;
    Some(place_of(ValueFormat::Unsigned(order), size, run, at))
}

/// The format of all bits of a data type.
fn format_of(data_type: DataType, order: ByteOrder) -> ValueFormat
    ensures { result ≡ format_of data_type order }
{
    match data_type {
        DataType::UByte | DataType::UWord | DataType::ULong | DataType::AUint64 => {
            ValueFormat::Unsigned(order)
        }
        DataType::SByte | DataType::SWord | DataType::SLong | DataType::AInt64 => {
            ValueFormat::Signed(order)
        }
        DataType::Float16 | DataType::Float32 | DataType::Float64 => ValueFormat::Float(order),
    }
}

fn is_float(data_type: DataType) -> bool
    ensures { result ≡ is_float data_type }
{
    match data_type {
        DataType::Float16 | DataType::Float32 | DataType::Float64 => true,
        _ => false,
    }
}

/// The bits of a mask, if they stand one beside another within so many bytes.
fn run_of(mask: u64, size: u32) -> Option<BitRun>
    requires { size ≤ 8 }
    ensures { IfSome result (IsRun mask size) }
{
    if mask == 0 {
        return None;
    }
    let low = mask.trailing_zeros();
    let ones = mask >> low;
    let count = 64 - ones.leading_zeros();
    if count == 0 {
        return None;
    }
    if ones != u64::MAX >> (64 - count) {
        return None;
    }
    if low + count > 8 * size {
        return None;
    }
    Some(BitRun { low, count })
}

/// The place of bits of a number of so many bytes, which begins at `at`.
fn place_of(format: ValueFormat, size: u32, run: BitRun, at: u32) -> ValuePlace
    requires size { size ≤ 8 }
    requires some { 0 < run.count }
    requires within { run.low + run.count ≤ 8 * size }
    requires room { at + 8 ≤ 2 ^ 32 }
    ensures { IsPlaceOf format size run at result }
{
    let byte = first_byte(order_of(format), size, run);
    ValuePlace {
        format,
        byte_offset: at + byte,
        bit_offset: (run.low % 8) as u8,
        bit_count: run.count,
    }
}

/// At which byte of a number bits begin.
fn first_byte(order: ByteOrder, size: u32, run: BitRun) -> u32
    requires size { size ≤ 8 }
    requires some { 0 < run.count }
    requires within { run.low + run.count ≤ 8 * size }
    ensures value { result ≡ first_byte order size run.low run.count }
    ensures limit { result ≤ 8 }
{
    match order {
        ByteOrder::MsbLast => run.low / 8,
        ByteOrder::MsbFirst => size - 1 - (run.low + run.count - 1) / 8,
    }
}

fn order_of(format: ValueFormat) -> ByteOrder
    ensures { result ≡ order_of format }
{
    match format {
        ValueFormat::Unsigned(order) => order,
        ValueFormat::Signed(order) => order,
        ValueFormat::Float(order) => order,
    }
}
