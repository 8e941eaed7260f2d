//! The integers and the numbers that words say.
ghost use Rattle.std.specs.Prelude.{◌≡◌, ◌≤◌, ◌<◌, ◌^◌};
ghost use Rattle.std.specs.Option.{SomeIff};
ghost use Rattle.std.specs.Str.Parse.{IsNumeral, digits_value};
ghost use Rattle.a2l_text.specs.Numbers.{is_hexadecimal, IsInteger, integer_value, SaysNumber};

use crate::split::behind;
use std::num::nearest_u64_to_f64;

/// The value of digits, if it is below 2^64.
fn value_of(digits: &[u8], radix: u32) -> Option<u64>
    requires least { 2 ≤ radix }
    requires greatest { radix ≤ 16 }
    ensures { SomeIff result (IsNumeral radix digits.now × (digits_value radix digits.now < 2 ^ 64))
        (digits_value radix digits.now) }
{
    if digits.is_empty() {
        return None;
    }
    let mut value = 0u64;
    for byte in digits {
        let digit = char::from(*byte).to_digit(radix)?;
        value = value.checked_mul(radix as u64)?.checked_add(digit as u64)?;
    }
    Some(value)
}

#[inline(always)]
fn is_hexadecimal(word: &[u8]) -> bool
    ensures { result ≡ is_hexadecimal word.now }
{
    word.len() >= 2 && word[0] == b'0' && (word[1] == b'x' || word[1] == b'X')
}

/// The integer that a word says: decimal digits, or `0x` or `0X` and hexadecimal digits. A word
/// with a sign says none, nor does one from 2^64 on.
pub fn integer_of(word: &[u8]) -> Option<u64>
    ensures { SomeIff result (IsInteger word.now) (integer_value word.now) }
{
    if is_hexadecimal(word) {
        return value_of(behind(word, 2), 16);
    }
    value_of(word, 10)
}

/// The finite number that a word says: a decimal number, with a sign, a point and an exponent if
/// need be, or an integer with `0x`. It is the nearest `f64`.
pub fn number_of(word: &[u8]) -> Option<f64>
    ensures { SaysNumber word.now result }
{
    if is_hexadecimal(word) {
        let value = integer_of(word)?;
        return Some(nearest_u64_to_f64(value));
    }
    let value: f64 = fast_float::parse(word).ok()?;
    if value.is_finite() { Some(value) } else { None }
}
