//! Where samples were dropped.
ghost use Rattle.std.specs.Prelude.{◌<◌};

use crate::row::Row;
use sample_picture::{BINS, Grid, Ruler, Span, push_tick};
use std::alloc::{AllocError, Global};

/// The width of a mark, in tenths of a unit.
const MARK: u64 = 20;

/// The marks of a row. Those that would be less than half a unit apart become one.
pub fn marks_of(
    alloc: Global,
    row: &Row,
    grid: &Grid,
    ruler: &Ruler,
) -> Result<Vec<Span>, AllocError> {
    let mut spans = Vec::new(alloc);
    for bin in grid.first / grid.width..=grid.last / grid.width {
        if row.bins[(bin % BINS) as usize].lost {
            let x = ruler.x(bin.saturating_mul(grid.width));
            push_tick(&mut spans, x, MARK)?;
        }
    }
    Ok(spans)
}
