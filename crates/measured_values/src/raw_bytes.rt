//! From bytes to a raw value.
ghost use Rattle.std.specs.Prelude.{◌≡◌, ◌-◌, ◌*◌, ◌/◌, ◌%◌, ◌<◌, ◌≤◌, ◌^◌, ◌↔◌, IfSome, IsSome};
ghost use Rattle.std.specs.Prelude.{false, length};
ghost use Rattle.std.specs.Float.{inf, nan};
ghost use Rattle.measured_values.specs.Encodings.{size_of};
ghost use Rattle.measured_values.specs.Raws.{IsSize, masked, number_of_bytes, raw_in, raw_value};
ghost use Rattle.measured_values.specs.Raws.{signed_in, twos_complement, unsigned_in};
ghost use Rattle.measured_values.specs.Raws.{highest_bit, is_signed, keeps_sign, mask_in, moved};
ghost use Rattle.measured_values.specs.Raws.{operated, operated_in, raw_by, raw_with};
ghost use Rattle.measured_values.specs.Raws.{half, half_size, half_units, sign_extended};

use crate::bit_operation::BitOperation;
use crate::byte_order::ByteOrder;
use crate::data_type::DataType;
use crate::encoding::Encoding;
use crate::raw::Raw;
use std::num::{f32_from_bits_with_nan, f64_from_bits_with_nan, nearest_u64_to_f64};

/// The raw value of bytes; `None` if there are not as many as the data type has.
///
/// A mask takes its bits of an integer, signed or not, and without an operation moves the lowest of
/// them to bit 0; the result is unsigned, and 0 if the mask is. With an operation nothing is moved
/// but as it says, and the result is signed if it extends the sign, or if there is no mask and the
/// data type is signed. Neither has an effect on a float (ASAM MCD-2 MC, MEASUREMENT: BIT_MASK,
/// BIT_OPERATION, BYTE_ORDER). A NaN's payload isn't kept.
pub fn raw_of(encoding: Encoding, bytes: &[u8]) -> Option<Raw>
    ensures size { IsSome result ↔ (length bytes.now ≡ size_of encoding.data_type) }
    ensures value { IfSome result (λ raw. raw ≡ raw_value encoding bytes.now) }
{
    if bytes.len() != encoding.data_type.size() {
        return None;
    }
    let number = number_in(encoding.order, bytes)?;
    Some(raw_by(encoding, number))
}

/// The unsigned number of 1, 2, 4 or 8 bytes; `None` for another number of them.
pub fn number_in(order: ByteOrder, bytes: &[u8]) -> Option<u64>
    ensures some { IsSize (length bytes.now) → IsSome result }
    ensures value { IfSome result (λ number.
        number ≡ number_of_bytes order (length bytes.now) bytes.now) }
    ensures fits { IfSome result (λ number. number < 256 ^ length bytes.now) }
{
    match *bytes {
        [a] => Some(a as u64),
        [a, b] => Some(number_of_2(order, [a, b]) as u64),
        [a, b, c, d] => Some(number_of_4(order, [a, b, c, d]) as u64),
        [a, b, c, d, e, f, g, h] => Some(number_of_8(order, [a, b, c, d, e, f, g, h])),
        _ => None,
    }
}

fn number_of_2(order: ByteOrder, bytes: [u8; 2]) -> u16
    ensures { result ≡ number_of_bytes order 2 bytes }
{
    match order {
        ByteOrder::MsbLast => u16::from_le_bytes(bytes),
        ByteOrder::MsbFirst => u16::from_be_bytes(bytes),
    }
}

fn number_of_4(order: ByteOrder, bytes: [u8; 4]) -> u32
    ensures { result ≡ number_of_bytes order 4 bytes }
{
    match order {
        ByteOrder::MsbLast => u32::from_le_bytes(bytes),
        ByteOrder::MsbFirst => u32::from_be_bytes(bytes),
    }
}

fn number_of_8(order: ByteOrder, bytes: [u8; 8]) -> u64
    ensures { result ≡ number_of_bytes order 8 bytes }
{
    match order {
        ByteOrder::MsbLast => u64::from_le_bytes(bytes),
        ByteOrder::MsbFirst => u64::from_be_bytes(bytes),
    }
}

/// The raw value of the number that the bytes are.
fn raw_by(encoding: Encoding, number: u64) -> Raw
    requires { number < 256 ^ size_of encoding.data_type }
    ensures { result ≡ raw_by encoding.operation encoding.data_type encoding.mask number }
{
    match encoding.operation {
        Some(operation) => raw_with(operation, encoding.data_type, encoding.mask, number),
        None => raw_in(encoding.data_type, encoding.mask, number),
    }
}

/// The raw value of a number behind an operation.
fn raw_with(operation: BitOperation, data_type: DataType, mask: Option<u64>, number: u64) -> Raw
    requires { number < 256 ^ size_of data_type }
    ensures { result ≡ raw_with operation data_type mask number }
{
    match data_type {
        DataType::Float16 | DataType::Float32 | DataType::Float64 => {
            raw_in(data_type, mask, number)
        }
        _ => operated_in(operation, data_type, mask, number),
    }
}

/// The bits of an integer behind an operation.
fn operated_in(operation: BitOperation, data_type: DataType, mask: Option<u64>, number: u64) -> Raw
    ensures { result ≡ operated_in operation data_type mask number }
{
    let signed = operation.extends_sign | keeps_sign(data_type, mask);
    operated(operation, signed, mask_in(data_type, mask), number)
}

/// The bits that count of a data type.
fn mask_in(data_type: DataType, mask: Option<u64>) -> u64
    ensures { result ≡ mask_in data_type mask }
{
    let all = u64::MAX >> (64 - 8 * data_type.size());
    match mask {
        Some(mask) => mask & all,
        None => all,
    }
}

/// Whether values are signed without an operation that says so.
fn keeps_sign(data_type: DataType, mask: Option<u64>) -> bool
    ensures { result ≡ keeps_sign data_type mask }
{
    match mask {
        Some(_) => false,
        None => is_signed(data_type),
    }
}

fn is_signed(data_type: DataType) -> bool
    ensures { result ≡ is_signed data_type }
{
    match data_type {
        DataType::SByte | DataType::SWord | DataType::SLong | DataType::AInt64 => true,
        _ => false,
    }
}

/// The bits of a number that a mask takes, moved; signed, if that is wanted, by the highest bit of
/// the mask.
fn operated(operation: BitOperation, signed: bool, mask: u64, number: u64) -> Raw
    ensures { result ≡ operated operation signed mask number }
{
    let bits = moved(operation, number & mask);
    if signed {
        Raw::Signed(sign_extended(highest_bit(moved(operation, mask)), bits))
    } else {
        Raw::Unsigned(bits)
    }
}

/// Bits moved up, and then down.
fn moved(operation: BitOperation, number: u64) -> u64
    ensures { result ≡ moved operation number }
{
    moved_down(moved_up(number, operation.left), operation.right)
}

/// Bits moved up, without those that are moved out of the 64.
fn moved_up(number: u64, bits: u8) -> u64
    ensures { result ≡ number * 2 ^ bits % 2 ^ 64 }
{
    if bits < 64 { number << bits } else { 0 }
}

/// Bits moved down.
fn moved_down(number: u64, bits: u8) -> u64
    ensures { result ≡ number / 2 ^ bits }
{
    if bits < 64 { number >> bits } else { 0 }
}

/// What the highest bit is worth that is set in a number; of 0 it is 1.
fn highest_bit(number: u64) -> u64
    ensures value { result ≡ highest_bit number }
    ensures some { 0 < result }
    ensures limit { result ≤ 2 ^ 63 }
{
    if number == 0 {
        return 1;
    }
    1 << (63 - number.leading_zeros())
}

/// The number whose bit that is worth `sign` is copied to all bits above it.
fn sign_extended(sign: u64, number: u64) -> i64
    requires some { 0 < sign }
    requires limit { sign ≤ 2 ^ 63 }
    ensures { result ≡ sign_extended sign number }
{
    let below = number % sign;
    if number / sign % 2 == 0 {
        below as i64
    } else {
        -1 - ((sign - 1 - below) as i64)
    }
}

/// The raw value of the number that the bytes of a data type are.
fn raw_in(data_type: DataType, mask: Option<u64>, number: u64) -> Raw
    requires { number < 256 ^ size_of data_type }
    ensures { result ≡ raw_in data_type mask number }
{
    match data_type {
        DataType::UByte => unsigned_in(mask, number),
        DataType::SByte => signed_in(1 << 7, mask, number),
        DataType::UWord => unsigned_in(mask, number),
        DataType::SWord => signed_in(1 << 15, mask, number),
        DataType::ULong => unsigned_in(mask, number),
        DataType::SLong => signed_in(1 << 31, mask, number),
        DataType::AUint64 => unsigned_in(mask, number),
        DataType::AInt64 => signed_in(1 << 63, mask, number),
        DataType::Float16 => Raw::Double(half(number)),
        DataType::Float32 => Raw::Single(f32_from_bits_with_nan(number as u32)),
        DataType::Float64 => Raw::Double(f64_from_bits_with_nan(number)),
    }
}

/// A float of 16 bits (IEEE 754, binary16), which one of 64 bits has too.
fn half(number: u64) -> f64
    requires { number < 2 ^ 16 }
    ensures { result ≡ half number }
{
    let size = half_size(number / 1024 % 32, number % 1024);
    if number / 32768 == 0 { size } else { -size }
}

/// A float of 16 bits without its sign, by its exponent and its fraction as they stand in its bits.
fn half_size(exponent: u64, fraction: u64) -> f64
    requires exponent { exponent < 2 ^ 5 }
    requires fraction { fraction < 2 ^ 10 }
    ensures { result ≡ half_size exponent fraction }
{
    if exponent == 31 {
        return if fraction == 0 {
            infinity()
        } else {
            no_number()
        };
    }
    nearest_u64_to_f64(half_units(exponent, fraction)) / nearest_u64_to_f64(16_777_216)
}

fn infinity() -> f64
    ensures { result ≡ inf false }
{
    f64::INFINITY
}

fn no_number() -> f64
    ensures { result ≡ nan }
{
    f64::NAN
}

/// How many times 2^-24 it is.
fn half_units(exponent: u64, fraction: u64) -> u64
    requires exponent { exponent < 31 }
    requires fraction { fraction < 2 ^ 10 }
    ensures { result ≡ half_units exponent fraction }
{
    if exponent == 0 {
        fraction
    } else {
        (1024 + fraction) << (exponent - 1)
    }
}

/// The raw value of an unsigned number.
fn unsigned_in(mask: Option<u64>, number: u64) -> Raw
    ensures { result ≡ unsigned_in mask number }
{
    match mask {
        Some(mask) => Raw::Unsigned(masked(mask, number)),
        None => Raw::Unsigned(number),
    }
}

/// The raw value of a number in two's complement, whose highest bit is worth `half`.
fn signed_in(half: u64, mask: Option<u64>, number: u64) -> Raw
    requires half { half ≤ 2 ^ 63 }
    requires number { number < 2 * half }
    ensures { result ≡ signed_in half mask number }
{
    match mask {
        Some(mask) => Raw::Unsigned(masked(mask, number)),
        None => Raw::Signed(twos_complement(half, number)),
    }
}

/// The bits of a number that a mask takes, the lowest of them as bit 0.
fn masked(mask: u64, number: u64) -> u64
    ensures { result ≡ masked mask number }
{
    if mask == 0 {
        return 0;
    }
    (number & mask) >> mask.trailing_zeros()
}

/// The signed number of a number in two's complement, whose highest bit is worth `half`.
fn twos_complement(half: u64, number: u64) -> i64
    requires half { half ≤ 2 ^ 63 }
    requires number { number < 2 * half }
    ensures { result ≡ twos_complement half number }
{
    if number < half {
        number as i64
    } else {
        -1 - ((half - 1 - (number - half)) as i64)
    }
}
