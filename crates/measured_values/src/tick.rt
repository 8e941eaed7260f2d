//! The length of a tick in seconds, as mantissa and exponent.
/// How long a tick of a timestamp is: `mantissa` times 10 to the power of `exponent`, in seconds.
#[derive(Clone, Copy, Debug, PartialEq, Eq)]
pub struct Tick {
    pub mantissa: u32,
    pub exponent: i8,
}
