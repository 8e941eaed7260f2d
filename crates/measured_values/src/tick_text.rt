//! The tick of a timestamp, in seconds, as a text says it.
ghost use Rattle.std.specs.Prelude.{◌≡◌, ◌⊎◌, ◌+◌, ◌*◌, ◌<◌, ◌≤◌, ◌^◌, ◌↔◌, IfNone, IfSome, IsTrue};
ghost use Rattle.std.specs.Prelude.{length};
ghost use Rattle.std.specs.Float.Numeral.{numeral_digits, tens_down, tens_up};
ghost use Rattle.std.specs.Str.Parse.{AllDigits, digits_value_after};
ghost use Rattle.measured_values.specs.Decimals.{tens_above, tens_below};
ghost use Rattle.measured_values.specs.Ticks.{IsShort, IsTickOf, SaysTick};
ghost use Rattle.measured_values.specs.declared.tick.Tick.{Tick};

use crate::tick::Tick;
use crate::trailing_zeros::without_zeros;
use fast_float::Numeral;

/// No more digits are read, but for those of an exponent.
const MAX_DIGITS: usize = 30;

/// No more digits of an exponent are read.
const MAX_EXPONENT_DIGITS: usize = 4;

/// The greatest number of 9 digits.
const MAX_MANTISSA: u128 = 999_999_999;

/// The powers of ten go from -18 to 18.
const MAX_EXPONENT: u64 = 18;

/// The tick that a text says, in seconds, as `0.001`, `1e-6` or `12.5E-9`: a positive decimal of
/// at most 9 digits, not counting zeros in front and at the end, times a power of ten from -18 to
/// 18. The mantissa of the result doesn't end in a zero. `None` for any other text, and for one
/// that has more than 30 digits before its exponent or more than 4 in it.
pub fn tick_of(text: &str) -> Option<Tick>
    ensures value { IfSome result (λ tick. SaysTick text.now tick) }
    ensures none { IfNone result ((tick : Tick) → ¬ (SaysTick text.now tick)) }
{
    let numeral = Numeral::scan(text.as_bytes());
    if !is_short(&numeral, text.len()) {
        return None;
    }
    tick_in(&numeral)
}

/// The tick that a numeral writes.
fn tick_in(numeral: &Numeral<'_>) -> Option<Tick>
    requires digits { length numeral.now.whole + length numeral.now.fraction ≤ MAX_DIGITS }
    requires exponent { length numeral.now.exponent ≤ MAX_EXPONENT_DIGITS }
    ensures value { IfSome result (λ tick. IsTickOf numeral.now tick) }
    ensures none { IfNone result ((tick : Tick) → ¬ (IsTickOf numeral.now tick)) }
{
    let digits = number_in(numeral);
    if digits == 0 {
        return None;
    }
    let (mantissa, zeros) = without_zeros(digits, MAX_DIGITS as u8);
    if MAX_MANTISSA < mantissa {
        return None;
    }
    let up = zeros as u64 + tens_up(numeral);
    let Some(exponent) = exponent_of(up, tens_down(numeral)) else {
        return None;
    };
    Some(Tick {
        mantissa: mantissa as u32,
        exponent,
    })
}

/// The number of a numeral's digits, without its point and its exponent.
fn number_in(numeral: &Numeral<'_>) -> u128
    requires { length numeral.now.whole + length numeral.now.fraction ≤ MAX_DIGITS }
    ensures value { result ≡ numeral_digits numeral.now }
    ensures limit { result < 10 ^ MAX_DIGITS }
{
    let whole = digits_onto(0, numeral.whole());
    digits_onto(whole, numeral.fraction())
}

/// Whether the parts are those of a text that is one numeral, with no more digits than are read.
fn is_short(numeral: &Numeral<'_>, text_len: usize) -> bool
    ensures { IsTrue result ↔ IsShort numeral.now text_len }
{
    numeral.has_digits()
        && numeral.len() == text_len
        && numeral.whole().len() + numeral.fraction().len() <= MAX_DIGITS
        && numeral.exponent().len() <= MAX_EXPONENT_DIGITS
}

/// The powers of ten that the numeral's number is multiplied by.
fn tens_up(numeral: &Numeral<'_>) -> u64
    requires { length numeral.now.exponent ≤ MAX_EXPONENT_DIGITS }
    ensures value { result ≡ tens_up numeral.now }
    ensures limit { result < 10 ^ MAX_EXPONENT_DIGITS }
{
    if numeral.is_exponent_negative() {
        return 0;
    }
    digits_onto(0, numeral.exponent()) as u64
}

/// The powers of ten that the numeral's number is divided by.
fn tens_down(numeral: &Numeral<'_>) -> u64
    requires exponent { length numeral.now.exponent ≤ MAX_EXPONENT_DIGITS }
    requires fraction { length numeral.now.fraction ≤ MAX_DIGITS }
    ensures value { result ≡ tens_down numeral.now }
{
    let places = numeral.fraction().len() as u64;
    if numeral.is_exponent_negative() {
        return places + digits_onto(0, numeral.exponent()) as u64;
    }
    places
}

/// The number that digits write behind those of another number.
fn digits_onto(number: u128, digits: &[u8]) -> u128
    requires digits { AllDigits 10 digits.now }
    requires short { (number + 1) * 10 ^ length digits.now ≤ 10 ^ MAX_DIGITS }
    ensures value { result ≡ digits_value_after 10 number digits.now }
    ensures limit { result < (number + 1) * 10 ^ length digits.now }
{
    let mut sum = number;
    for digit in digits {
        sum = 10 * sum + (*digit - b'0') as u128;
    }
    sum
}

/// The exponent of `up` powers of ten over `down` of them, if it is from -18 to 18.
fn exponent_of(up: u64, down: u64) -> Option<i8>
    ensures value { IfSome result (λ exponent.
        up + tens_below exponent ≡ down + tens_above exponent) }
    ensures limits { IfSome result (λ exponent.
        (tens_above exponent ≤ MAX_EXPONENT) × (tens_below exponent ≤ MAX_EXPONENT)) }
    ensures none { IfNone result ((down + MAX_EXPONENT < up) ⊎ (up + MAX_EXPONENT < down)) }
{
    if down <= up {
        let above = up - down;
        return if MAX_EXPONENT < above {
            None
        } else {
            Some(above as i8)
        };
    }
    let below = down - up;
    if MAX_EXPONENT < below {
        None
    } else {
        Some(-(below as i8))
    }
}
