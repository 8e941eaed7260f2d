//! The kinds of conversions.
/// How a physical value comes of a raw one (ASAM MDF 4.1, CC: cc_type). The numbers are P1, P2 and
/// so on.
#[derive(Clone, Copy, Debug, PartialEq, Eq)]
pub enum ConversionKind {
    /// P1 + P2 * raw.
    Linear,
    /// (P1 * raw^2 + P2 * raw + P3) / (P4 * raw^2 + P5 * raw + P6).
    Rational,
    /// The text of the number that the raw value is, or else the last text.
    ValuesToTexts,
    /// The text of the range, of two numbers, that the raw value is in, or else the last text.
    RangesToTexts,
}
