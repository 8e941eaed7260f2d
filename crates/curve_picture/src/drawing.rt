//! A picture of curves: its text.
ghost use Rattle.std.specs.Prelude.{IfOk, string_bytes};
ghost use Rattle.sample_picture.specs.Shown.{IsClosed};

use crate::axis::CurveAxis;
use crate::caption::{Caption, push_cut};
use crate::curve::{Plot, pieces_of, push_curve, push_dots};
use crate::furniture::{LEFT, ROW, TOP, push_axis, push_head};
use crate::heights::Heights;
use crate::label::label_of;
use crate::levels::{Level, levels_of};
use crate::marks::marks_of;
use crate::row::Row;
use measured_values::TextTable;
use sample_picture::{
    Grid, Losses, Ruler, lost_spans, push_number, push_strokes, push_tenths, push_triangles,
};
use std::alloc::{AllocError, Global};

/// No more letters of a text stand at the left of a curve.
const LETTERS: usize = 14;

/// The text of a picture of these rows. The values of a row that has a table are drawn as steps,
/// with their texts at the left.
pub fn text_of(
    alloc: Global,
    captions: &[Caption],
    rows: &[Row],
    losses: &[Losses],
    tables: &[Option<&TextTable>],
    grid: &Grid,
    axis: CurveAxis,
) -> Result<String, AllocError>
    ensures { IfOk result (λ text. IsClosed (string_bytes text)) }
{
    let mut text = String::new(alloc);
    push_head(&mut text, rows.len())?;
    push_axis(alloc, &mut text, grid, rows.len(), axis)?;
    let mut top = TOP;
    for (place, row) in rows.iter().enumerate() {
        writeln!(text, "<g transform=\"translate({LEFT} {top})\">")?;
        if let Some(caption) = captions.get(place) {
            caption.push_words(&mut text)?;
        }
        let lost = losses.get(place).unwrap_or(&Losses::NONE);
        let table = tables.get(place).copied().flatten();
        push_row(alloc, &mut text, row, lost, table, grid)?;
        text.push_str("</g>\n")?;
        top = top.saturating_add(ROW);
    }
    text.push_str("</svg>\n")?;
    Ok(text)
}

/// Writes one row but for its caption.
fn push_row(
    alloc: Global,
    text: &mut String,
    row: &Row,
    losses: &Losses,
    table: Option<&TextTable>,
    grid: &Grid,
) -> Result<(), AllocError> {
    text.push_str("<path class=\"g\" d=\"M0 0h720\"/><path class=\"b\" d=\"M0 64h720\"/>\n")?;
    if row.values > 0 {
        push_total(text, row.values)?;
    }
    let Some(whole) = row.whole() else {
        return push_nothing(text, row.values);
    };
    let heights = Heights::of(&whole);
    push_left(alloc, text, &heights, table)?;
    if grid.first > grid.last {
        return Ok(());
    }
    let ruler = Ruler {
        first: grid.first,
        last: grid.last,
    };
    push_losses(alloc, text, row, losses, grid, &ruler)?;
    let plot = Plot {
        ruler,
        heights,
        reach: row.reach(),
        stepped: table.is_some(),
    };
    let pieces = pieces_of(alloc, row, grid)?;
    push_curve(text, &pieces, &plot)?;
    push_dots(alloc, text, &pieces, &plot)
}

/// Writes that nothing is drawn of so many values.
fn push_nothing(text: &mut String, values: u64) -> Result<(), AllocError> {
    let words = if values == 0 {
        "no value"
    } else {
        "no finite value"
    };
    writeln!(
        text,
        "<text class=\"m c\" x=\"360\" y=\"37\">{words}</text>"
    )
}

/// Writes where samples of a row were dropped.
fn push_losses(
    alloc: Global,
    text: &mut String,
    row: &Row,
    losses: &Losses,
    grid: &Grid,
    ruler: &Ruler,
) -> Result<(), AllocError> {
    text.push_str("<g transform=\"translate(0 32)\">\n")?;
    let lost = lost_spans(alloc, losses, grid, ruler)?;
    push_strokes(text, "l", &lost)?;
    let marks = marks_of(alloc, row, grid, ruler)?;
    push_strokes(text, "o", &marks)?;
    push_triangles(text, &marks, "-32l-4-7h8z", 60)?;
    text.push_str("</g>\n")
}

/// Writes how many values a row has, at its right above the curve.
fn push_total(text: &mut String, values: u64) -> Result<(), AllocError> {
    text.push_str("<text class=\"m e w\" x=\"720\" y=\"-12\">")?;
    push_number(text, values)?;
    let plural = if values == 1 { "" } else { "s" };
    writeln!(text, " value{plural}</text>")
}

/// Writes the texts of values at the left of a curve, or without a text the greatest and the least
/// value.
fn push_left(
    alloc: Global,
    text: &mut String,
    heights: &Heights,
    table: Option<&TextTable>,
) -> Result<(), AllocError> {
    let Some(table) = table else {
        return push_ends(alloc, text, heights);
    };
    let levels = levels_of(alloc, table, heights)?;
    if levels.is_empty() {
        return push_ends(alloc, text, heights);
    }
    for level in &levels {
        push_level(text, level)?;
    }
    Ok(())
}

/// Writes a text at its height.
fn push_level(text: &mut String, level: &Level<'_>) -> Result<(), AllocError> {
    text.push_str("<text class=\"m e\" x=\"-8\" y=\"")?;
    push_tenths(text, level.line)?;
    text.push_str("\">")?;
    push_cut(text, level.text, LETTERS)?;
    text.push_str("</text>\n")
}

/// Writes the greatest and the least value at the left of a curve; the one value if all are the
/// same.
fn push_ends(alloc: Global, text: &mut String, heights: &Heights) -> Result<(), AllocError> {
    let least = label_of(alloc, heights.least)?;
    if heights.is_flat() {
        return writeln!(text, "<text class=\"m e\" x=\"-8\" y=\"37\">{least}</text>");
    }
    let greatest = label_of(alloc, heights.greatest)?;
    writeln!(
        text,
        "<text class=\"m e\" x=\"-8\" y=\"9\">{greatest}</text>"
    )?;
    writeln!(text, "<text class=\"m e\" x=\"-8\" y=\"65\">{least}</text>")
}
