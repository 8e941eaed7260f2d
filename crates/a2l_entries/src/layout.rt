//! The two layouts of arrays: row by row, and column by column.
/// In which order the elements of an array of two dimensions stand (ASAM MCD-2 MC, LAYOUT).
#[derive(Clone, Copy, Debug, PartialEq, Eq)]
pub enum Layout {
    /// ROW_DIR: row by row, so that the first dimension, x, runs fastest.
    Rows,
    /// COLUMN_DIR: column by column, so that the second dimension, y, runs fastest.
    Columns,
}
