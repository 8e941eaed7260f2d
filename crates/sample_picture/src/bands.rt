//! The strokes of a row: from neighbouring bins to one stroke.
ghost use Rattle.std.specs.Prelude.{◌<◌};

use crate::grid::Grid;
use crate::losses::Losses;
use crate::mark::Mark;
use crate::numbers::push_tenths;
use crate::row::{BINS, Row};
use crate::ruler::Ruler;
use crate::span::Span;
use std::alloc::{AllocError, Global};

/// Which bins are drawn.
#[derive(Clone, Copy)]
pub enum Band {
    /// Those with a sample.
    Samples,
    /// Those with a sample that has the overload indication.
    Overloads,
}

impl Band {
    /// Whether a bin with this mark is drawn.
    fn shows(self, mark: Mark) -> bool {
        match self {
            Band::Samples => mark.is_sample(),
            Band::Overloads => mark.is_overload(),
        }
    }

    /// The least length of a stroke, in tenths of a unit.
    fn tick(self) -> u64
        ensures { result < 100 }
    {
        match self {
            Band::Samples => 20,
            Band::Overloads => 22,
        }
    }
}

/// The strokes of a row. Ticks that would be less than half a unit apart become one stroke.
pub fn spans_of(
    alloc: Global,
    row: &Row,
    grid: &Grid,
    ruler: &Ruler,
    band: Band,
) -> Result<Vec<Span>, AllocError> {
    let mut spans = Vec::new(alloc);
    for bin in grid.first / grid.width..=grid.last / grid.width {
        if band.shows(row.bins[(bin % BINS) as usize]) {
            let x = ruler.x(bin.saturating_mul(grid.width));
            push_tick(&mut spans, x, band.tick())?;
        }
    }
    Ok(spans)
}

/// The strokes over what was lost of a row: each from the bin of a sample to that of the next one.
pub fn lost_spans(
    alloc: Global,
    losses: &Losses,
    grid: &Grid,
    ruler: &Ruler,
) -> Result<Vec<Span>, AllocError> {
    let mut spans = Vec::new(alloc);
    let mut from = 0;
    let mut open = false;
    for bin in grid.first / grid.width..=grid.last / grid.width {
        let x = ruler.x(bin.saturating_mul(grid.width));
        let lost = losses.reach_over(bin);
        if lost && !open {
            from = x;
        }
        if open && !lost {
            spans.push(Span {
                from: from.min(x),
                to: x,
            })?;
        }
        open = lost;
    }
    Ok(spans)
}

/// One more tick, which the last stroke takes in if it is near.
pub fn push_tick(spans: &mut Vec<Span>, x: u64, tick: u64) -> Result<(), AllocError>
    requires place { x < 8000 }
    requires len { tick < 100 }
{
    let to = x + tick;
    if let Some(last) = spans.pop() {
        if x >= last.from && x - last.from <= (last.to - last.from) + 5 {
            spans.push(Span {
                from: last.from,
                to: to.max(last.to),
            })?;
            return Ok(());
        }
        spans.push(last)?;
    }
    spans.push(Span { from: x, to })?;
    Ok(())
}

/// Writes a row's strokes as one path, or nothing if there is none.
pub fn push_strokes(text: &mut String, class: &str, spans: &[Span]) -> Result<(), AllocError> {
    if spans.is_empty() {
        return Ok(());
    }
    write!(text, "<path class=\"{class}\" d=\"")?;
    for span in spans {
        span.push_stroke(text)?;
    }
    text.push_str("\"/>\n")
}

/// Writes a triangle above the middle of each stroke, if it is clear of the one before: `shape` is
/// the rest of its path, and `clear` how far the next one has to be, in tenths of a unit.
pub fn push_triangles(
    text: &mut String,
    spans: &[Span],
    shape: &str,
    clear: u64,
) -> Result<(), AllocError> {
    if spans.is_empty() {
        return Ok(());
    }
    text.push_str("<path class=\"t\" d=\"")?;
    let mut free = 0;
    for span in spans {
        let middle = span.middle();
        if middle >= free {
            text.push_str("M")?;
            push_tenths(text, middle)?;
            text.push_str(shape)?;
            free = middle.saturating_add(clear);
        }
    }
    text.push_str("\"/>\n")
}
