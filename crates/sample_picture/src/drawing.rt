//! A picture of samples: its text.
ghost use Rattle.std.specs.Prelude.{IfOk, string_bytes};
ghost use Rattle.sample_picture.specs.Shown.{IsClosed};

use crate::axis::Axis;
use crate::bands::{Band, lost_spans, push_strokes, push_triangles, spans_of};
use crate::furniture::{EDGE, ROW, TOP, bottom, push_axis, push_head};
use crate::grid::Grid;
use crate::losses::Losses;
use crate::numbers::push_number;
use crate::row::Row;
use crate::ruler::Ruler;
use std::alloc::{AllocError, Global};

/// The text of a picture of these rows.
pub fn text_of(
    alloc: Global,
    rows: &[Row],
    losses: &[Losses],
    grid: &Grid,
    axis: Axis,
) -> Result<String, AllocError>
    ensures { IfOk result (λ text. IsClosed (string_bytes text)) }
{
    let mut text = String::new(alloc);
    push_head(&mut text, rows)?;
    push_axis(&mut text, grid, bottom(rows), axis)?;
    let mut middle = TOP + ROW / 2;
    for (place, row) in rows.iter().enumerate() {
        let lost = losses.get(place).unwrap_or(&Losses::NONE);
        writeln!(text, "<g transform=\"translate({EDGE} {middle})\">")?;
        push_row(alloc, &mut text, row, lost, grid)?;
        text.push_str("</g>\n")?;
        middle = middle.saturating_add(ROW);
    }
    text.push_str("</svg>\n")?;
    Ok(text)
}

/// Writes one row, about the middle of its base line.
fn push_row(
    alloc: Global,
    text: &mut String,
    row: &Row,
    losses: &Losses,
    grid: &Grid,
) -> Result<(), AllocError> {
    push_names(text, row)?;
    push_totals(text, row)?;
    text.push_str("<path class=\"b\" d=\"M1 0h720\"/>\n")?;
    if grid.first > grid.last {
        return Ok(());
    }
    let ruler = Ruler {
        first: grid.first,
        last: grid.last,
    };
    let lost = lost_spans(alloc, losses, grid, &ruler)?;
    push_strokes(text, "l", &lost)?;
    let samples = spans_of(alloc, row, grid, &ruler, Band::Samples)?;
    push_strokes(text, "s", &samples)?;
    let overloads = spans_of(alloc, row, grid, &ruler, Band::Overloads)?;
    push_strokes(text, "o", &overloads)?;
    push_triangles(text, &overloads, "-15l-3.5-6h7z", 50)
}

/// Writes the names of a row at its left.
fn push_names(text: &mut String, row: &Row) -> Result<(), AllocError> {
    let (list, channel) = (row.list, row.channel);
    writeln!(
        text,
        "<text class=\"n e\" x=\"-12\" y=\"-1\">list {list}</text>"
    )?;
    writeln!(
        text,
        "<text class=\"m e\" x=\"-12\" y=\"13\">channel {channel}</text>"
    )
}

/// Writes the totals of a row at its right.
fn push_totals(text: &mut String, row: &Row) -> Result<(), AllocError> {
    text.push_str("<text x=\"732\" y=\"-1\">")?;
    push_count(text, row.samples, "sample")?;
    let class = if row.overloads > 0 { "r" } else { "m" };
    write!(text, "<text class=\"{class}\" x=\"732\" y=\"13\">")?;
    push_count(text, row.overloads, "overload")
}

/// Writes a number and what it counts, and ends the text.
fn push_count(text: &mut String, count: u64, word: &str) -> Result<(), AllocError> {
    push_number(text, count)?;
    let plural = if count == 1 { "" } else { "s" };
    writeln!(text, " {word}{plural}</text>")
}
