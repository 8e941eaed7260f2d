//! A column, and where it stands in the samples of a DAQ list.
use value_tables::Column;

/// A column whose bytes the samples of a DAQ list have.
#[derive(Clone, Copy)]
pub struct PlacedColumn<'a> {
    pub column: Column<'a>,
    /// The place of its first byte in a sample.
    pub at: u32,
}
