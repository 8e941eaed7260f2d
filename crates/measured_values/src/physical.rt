//! The physical values of measurements: integers, floats and texts.
ghost use Rattle.std.specs.Prelude.{◌≡◌};
ghost use Rattle.measured_values.specs.Physicals.{number_of_shown, shown_of, Value};

use crate::raw::Raw;
use std::num::{f32_to_f64_with_nan, nearest_i64_to_f64, nearest_u64_to_f64};

/// A physical value: what a conversion makes of a raw one. A text is that of the conversion.
#[derive(Clone, Copy, Debug)]
pub enum Physical<'t> {
    Unsigned(u64),
    Signed(i64),
    Single(f32),
    Double(f64),
    Text(&'t str),
}

impl<'t> Physical<'t> {
    /// A raw value as it is.
    pub fn unconverted(raw: Raw) -> Physical<'t>
        ensures { shown_of result ≡ Value raw }
    {
        match raw {
            Raw::Unsigned(number) => Physical::Unsigned(number),
            Raw::Signed(number) => Physical::Signed(number),
            Raw::Single(number) => Physical::Single(number),
            Raw::Double(number) => Physical::Double(number),
        }
    }

    /// The number that a curve or a mean takes: the nearest `f64`, for a text that of the raw
    /// value.
    pub fn number(&self, raw: Raw) -> f64
        ensures { result ≡ number_of_shown (shown_of self.now) raw }
    {
        match *self {
            Physical::Unsigned(number) => nearest_u64_to_f64(number),
            Physical::Signed(number) => nearest_i64_to_f64(number),
            Physical::Single(number) => f32_to_f64_with_nan(number),
            Physical::Double(number) => number,
            Physical::Text(_) => raw.number(),
        }
    }
}
