//! Which texts of values stand at the left of a curve, and where.

use crate::heights::Heights;
use measured_values::{TextRow, TextTable};
use std::alloc::{AllocError, Global};

/// The line of a text at the upper end of a curve, in tenths of a unit below that end; at the lower
/// end it is by 7/8 of the height lower.
const UPPER: u64 = 90;
/// The least distance between two lines, in tenths of a unit.
const BETWEEN: u64 = 130;

/// A text, and where its line is, in tenths of a unit below the upper end of a curve.
#[derive(Clone, Copy)]
pub struct Level<'t> {
    pub text: &'t str,
    pub line: u64,
}

/// The texts of a table that have a value between the ends of a curve, and of these in the order of
/// the table those that find room beside those before.
pub fn levels_of<'t>(
    alloc: Global,
    table: &'t TextTable,
    heights: &Heights,
) -> Result<Vec<Level<'t>>, AllocError> {
    let mut levels = Vec::new(alloc);
    for row in &table.rows {
        if let Some(line) = line_of(row, heights) {
            if is_free(&levels, line) {
                let text = row.text.as_str();
                levels.push(Level { text, line })?;
            }
        }
    }
    Ok(levels)
}

/// The line of a row's text: at the least of its values that lies between the ends.
fn line_of(row: &TextRow, heights: &Heights) -> Option<u64> {
    let value = if row.least < heights.least {
        heights.least
    } else {
        row.least
    };
    if value <= heights.greatest && value <= row.greatest {
        Some(heights.y(value) * 7 / 8 + UPPER)
    } else {
        None
    }
}

/// Whether a line is far enough from all others.
fn is_free(levels: &[Level<'_>], line: u64) -> bool {
    levels
        .iter()
        .all(|level| line.abs_diff(level.line) >= BETWEEN)
}
