//! The times of samples in seconds.
ghost use Rattle.std.specs.Prelude.{◌≡◌, ◌≤◌, ℤ, pos};
ghost use Rattle.std.specs.Float.{NotNan, binary64, ◌≤ᶠ◌};
ghost use Rattle.std.specs.Float.Ieee.{of_int};
ghost use Rattle.mdf_groups.specs.Times.{power, risen, seconds_of};

use measured_values::Tick;
use std::num::nearest_u64_to_f64;

/// So many ticks in seconds: as the nearest float, times the mantissa, times or divided by the
/// power of ten, which is exact up to 10^22. Each product is rounded to the nearest float.
pub fn seconds_of(at: u64, tick: Tick) -> f64
    ensures { result ≡ seconds_of at tick }
{
    let ticks = nearest_u64_to_f64(at) * nearest_u64_to_f64(tick.mantissa as u64);
    let size = tick.exponent.unsigned_abs();
    if tick.exponent < 0 {
        ticks / power(size)
    } else {
        ticks * power(size)
    }
}

/// A power of ten.
fn power(exponent: u8) -> f64
    ensures { result ≡ power exponent }
{
    let mut out = nearest_u64_to_f64(1);
    for _factor in 0..exponent {
        out = out * nearest_u64_to_f64(10);
    }
    out
}

/// The later of two times, so that those of a list never fall.
pub fn risen(last: f64, now: f64) -> f64
    ensures value { result ≡ risen last now }
    ensures rises { NotNan last → NotNan now → (last ≤ᶠ result) × (now ≤ᶠ result) }
{
    if now < last { last } else { now }
}
