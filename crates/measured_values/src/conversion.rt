//! The conversions of raw values, with their coefficients or their texts.
use crate::text_table::TextTable;

/// How a physical value comes of a raw one (ASAM MCD-2 MC, COMPU_METHOD).
#[derive(Debug, Drop)]
pub enum Conversion {
    /// IDENTICAL, or no method: the raw value is the physical one.
    Identical,
    /// LINEAR: `factor` times the raw value, plus `offset` (COEFFS_LINEAR).
    Linear { factor: f64, offset: f64 },
    /// RAT_FUNC whose `a`, `d` and `e` are 0 and whose `b` isn't: the raw value is
    /// `(b * physical + c) / f`, so the physical one is `(f * raw - c) / b` (COEFFS).
    Rational { b: f64, c: f64, f: f64 },
    /// TAB_VERB: a text for each raw value that has one.
    Texts(TextTable),
    /// Another method, which isn't carried out.
    Other,
}
