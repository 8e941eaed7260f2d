//! How MDF has a conversion.
use crate::placed_text::PlacedText;

/// The most texts of a conversion: each range has two numbers, and their count has 16 bits.
pub const MAX_TEXTS: usize = 32_767;

/// How MDF has a conversion (ASAM MDF 4.1, CC).
#[derive(Debug, Drop)]
pub enum Rule {
    /// The raw value is the physical one, without a conversion.
    Identical,
    /// P1 and P2 of a linear conversion.
    Linear([f64; 2]),
    /// P1 to P6 of a rational one.
    Rational([f64; 6]),
    /// A text for each of these numbers, of which the least and the greatest are the same.
    Values(Vec<PlacedText>),
    /// A text for each of these ranges.
    Ranges(Vec<PlacedText>),
    /// MDF has none like it: the raw value stays as it is.
    Lost,
}
