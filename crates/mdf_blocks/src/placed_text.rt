//! A row of a table of texts, in its place.
/// The numbers that have a text, and the row of the table that has it.
#[derive(Clone, Copy, Debug)]
pub struct PlacedText {
    /// The least of the numbers.
    pub least: f64,
    /// The greatest of them.
    pub greatest: f64,
    /// The number of the row.
    pub row: usize,
}
