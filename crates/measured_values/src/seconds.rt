//! Ticks, written in seconds.
ghost use Rattle.std.specs.Prelude.{◌≡◌, ◌*◌, ◌<◌, ◌++◌, OnErr, OnOk, neg_ℤ, pos, replicate};
ghost use Rattle.std.specs.Prelude.{string_bytes};
ghost use Rattle.std.specs.Fmt.{decimal};
ghost use Rattle.measured_values.specs.Decimals.{IsDecimal};
ghost use Rattle.measured_values.specs.Texts.{GrowsBy, Keeps};

use crate::decimal_places::{push_placed, push_zeros};
use crate::tick::Tick;
use crate::trailing_zeros::without_zeros;
use itoa::Buffer;
use std::alloc::AllocError;

/// Appends `at` ticks in seconds, as an exact decimal: 1234 ticks of 1e-6 s are `0.001234`. There
/// is no exponent, no zero at the end of a fraction, and no point behind a whole number. If memory
/// is out, a part of the text may have been appended.
pub fn push_seconds(out: &mut String, at: u64, tick: Tick) -> Result<(), AllocError>
    ensures ok { OnOk result (GrowsBy (IsDecimal (at * tick.mantissa) tick.exponent)
        (string_bytes out.old) (string_bytes out.new)) }
    ensures err { OnErr result (Keeps (string_bytes out.old) (string_bytes out.new)) }
{
    let number = at as u128 * tick.mantissa as u128;
    if number == 0 {
        return out.push_str("0");
    }
    if tick.exponent >= 0 {
        return push_whole(out, number, tick.exponent as usize);
    }
    push_fraction(out, number, tick.exponent.unsigned_abs())
}

/// Appends a number's digits, and zeros behind them.
fn push_whole(out: &mut String, number: u128, zeros: usize) -> Result<(), AllocError>
    ensures ok { OnOk result (string_bytes out.new
        ≡ string_bytes out.old ++ (decimal number ++ replicate zeros 48)) }
    ensures err { OnErr result (Keeps (string_bytes out.old) (string_bytes out.new)) }
{
    out.push_str(Buffer::new().format(number))?;
    push_zeros(out, zeros)
}

/// Appends a number with a point before the last `places` of its digits, without the zeros that
/// it ends in behind the point.
fn push_fraction(out: &mut String, number: u128, places: u8) -> Result<(), AllocError>
    requires { 0 < number }
    ensures ok { OnOk result (GrowsBy (IsDecimal number (neg_ℤ (pos places)))
        (string_bytes out.old) (string_bytes out.new)) }
    ensures err { OnErr result (Keeps (string_bytes out.old) (string_bytes out.new)) }
{
    let (digits, zeros) = without_zeros(number, places);
    let mut buffer = Buffer::new();
    push_placed(out, buffer.format(digits), (places - zeros) as usize)
}
