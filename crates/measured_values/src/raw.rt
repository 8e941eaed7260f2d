//! The raw values of measurements, before a conversion: integers and floats.
ghost use Rattle.std.specs.Prelude.{◌≡◌};
ghost use Rattle.measured_values.specs.Physicals.{computed, narrowed, written};
ghost use Rattle.measured_values.specs.Raws.{number_of_raw};

use crate::data_type::DataType;
use std::num::{
    f32_to_f64_with_nan, nearest_f64_to_f32_with_nan, nearest_i64_to_f64, nearest_u64_to_f64,
};

/// A raw value: what the bytes of a measured value say, before any conversion.
#[derive(Clone, Copy, Debug)]
pub enum Raw {
    /// The value of an unsigned type, or the bits that a mask takes.
    Unsigned(u64),
    /// The value of a signed type.
    Signed(i64),
    /// A FLOAT32_IEEE.
    Single(f32),
    /// A FLOAT64_IEEE, or a FLOAT16_IEEE.
    Double(f64),
}

impl Raw {
    /// The number that a curve or a mean takes: the nearest `f64`.
    pub fn number(self) -> f64
        ensures { result ≡ number_of_raw self }
    {
        match self {
            Raw::Unsigned(number) => nearest_u64_to_f64(number),
            Raw::Signed(number) => nearest_i64_to_f64(number),
            Raw::Single(number) => f32_to_f64_with_nan(number),
            Raw::Double(number) => number,
        }
    }

    /// What is written of a number that was computed of this one.
    pub(crate) fn computed(self, number: f64) -> Raw
        ensures { result ≡ computed self number }
    {
        match self {
            Raw::Single(_) => narrowed(number),
            _ => Raw::Double(number),
        }
    }

    /// What is written of a number of values of a data type: of FLOAT32_IEEE a number that a float
    /// of 32 bits has too is written as such a float, with no more digits than it needs.
    pub fn written(data_type: DataType, number: f64) -> Raw
        ensures { result ≡ written data_type number }
    {
        match data_type {
            DataType::Float32 => narrowed(number),
            _ => Raw::Double(number),
        }
    }
}

/// A number that a float of 32 bits has too, as such a float; and any other as one of 64 bits.
fn narrowed(number: f64) -> Raw
    ensures { result ≡ narrowed number }
{
    let single = nearest_f64_to_f32_with_nan(number);
    if f32_to_f64_with_nan(single) == number {
        Raw::Single(single)
    } else {
        Raw::Double(number)
    }
}
