//! Texts in the place of numbers: which raw value has which text.
/// The texts of raw values (ASAM MCD-2 MC, COMPU_VTAB and COMPU_VTAB_RANGE).
#[derive(Debug, Drop)]
pub struct TextTable {
    /// The rows, in their order: a value has the text of the first row in whose range it is.
    pub rows: Vec<TextRow>,
    /// The text of a value that is in no row's range (DEFAULT_VALUE).
    pub other: Option<String>,
}

/// The text of the raw values from `least` to `greatest`, both included, compared as `f64`. In a
/// row of COMPU_VTAB both are the same.
#[derive(Debug, Drop)]
pub struct TextRow {
    pub least: f64,
    pub greatest: f64,
    pub text: String,
}
