//! A conversion that a file is to have.
use mdf_blocks::ConversionKind;

/// How a physical value comes of a raw one (ASAM MDF 4.1, CC).
#[derive(Debug, Drop)]
pub struct NewConversion {
    pub kind: ConversionKind,
    /// P1, P2 and so on; or the keys, or the bounds, of texts.
    pub values: Vec<f64>,
    /// The texts, and the one of all other values, which may be missing.
    pub texts: Vec<Option<String>>,
}
