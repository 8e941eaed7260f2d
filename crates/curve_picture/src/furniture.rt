//! What stands round the rows: the card, the title, the legend and the axis.

use crate::axis::CurveAxis;
use crate::scale::Scale;
use crate::style::STYLE;
use sample_picture::{Grid, Ruler, push_tenths, round_step};
use std::alloc::{AllocError, Global};

/// The left end of the curves.
pub const LEFT: u64 = 112;
/// The upper end of the first curve.
pub const TOP: u64 = 88;
/// From the upper end of a curve to that of the next one.
pub const ROW: u64 = 104;
/// The width of the picture: curves are 720 units wide.
const WIDTH: u64 = 852;
/// From the last row to the axis there is less than a whole row.
const CLEAR: u64 = 28;
/// No character of a label is wider, in tenths of a unit.
const CHARACTER: u64 = 105;
/// The least distance between two labels, in tenths of a unit.
const BETWEEN: u64 = 240;

/// Where the axis stands below so many rows.
fn bottom(rows: usize) -> u64 {
    (rows as u64)
        .saturating_mul(ROW)
        .saturating_add(TOP - CLEAR)
}

/// Writes the head: the card, the title and the legend.
pub fn push_head(text: &mut String, rows: usize) -> Result<(), AllocError> {
    let height = bottom(rows).saturating_add(56);
    text.push_str("<svg xmlns=\"http://www.w3.org/2000/svg\" class=\"curves\" role=\"img\" ")?;
    writeln!(
        text,
        "width=\"{WIDTH}\" height=\"{height}\" viewBox=\"0 0 {WIDTH} {height}\">"
    )?;
    text.push_str("<title>Measured values</title>\n")?;
    text.push_str(STYLE)?;
    let (card, tall) = (WIDTH - 1, height.saturating_sub(1));
    write!(
        text,
        "<rect class=\"k\" x=\".5\" y=\".5\" width=\"{card}\" height=\"{tall}\" rx=\"6\"/>\n"
    )?;
    text.push_str(LEGEND)
}

/// The title and the legend.
const LEGEND: &str = "<text class=\"h\" x=\"20\" y=\"35\">Measured values</text>
<path class=\"l\" d=\"M300 30h18\" style=\"stroke-width:18\"/>
<path class=\"o\" d=\"M318 30h2\" style=\"stroke-width:18\"/>
<path class=\"t\" d=\"M319 21l-4-7h8z\"/>
<text class=\"m\" x=\"330\" y=\"35\">samples were dropped before it</text>
<path class=\"v\" d=\"M676 33l8-5M704 29l8 4\"/>
<text class=\"m\" x=\"724\" y=\"35\">no sample</text>
";

/// Writes the axis below the rows, with the least and the greatest place and round ones between.
pub fn push_axis(
    alloc: Global,
    text: &mut String,
    grid: &Grid,
    rows: usize,
    axis: CurveAxis,
) -> Result<(), AllocError> {
    let scale = Scale::of(axis, grid.last);
    let word = scale.word();
    let end = bottom(rows);
    let low = end.saturating_add(40);
    writeln!(
        text,
        "<text class=\"m c\" x=\"472\" y=\"{low}\">{word}</text>"
    )?;
    writeln!(text, "<path class=\"b\" d=\"M{LEFT} {end}h720\"/>")?;
    if grid.first > grid.last {
        return Ok(());
    }
    let (first, last) = (scale.count(grid.first), scale.count(grid.last));
    let ruler = Ruler {
        first: first.min(last),
        last,
    };
    let left = label(alloc, &scale, first)?;
    push_label(text, left.as_str(), 0, end, "m")?;
    if first >= last {
        return Ok(());
    }
    let right = label(alloc, &scale, last)?;
    push_label(text, right.as_str(), 7200, end, "m e")?;
    let free = width(left.as_str()).saturating_add(BETWEEN);
    let full = 7200u64.saturating_sub(width(right.as_str()).saturating_add(BETWEEN));
    push_between(alloc, text, &scale, &ruler, end, free, full)
}

/// A number of counts as a label.
fn label(alloc: Global, scale: &Scale, count: u64) -> Result<String, AllocError> {
    let mut text = String::new(alloc);
    scale.push(&mut text, count)?;
    Ok(text)
}

/// How much room a label takes, in tenths of a unit.
fn width(label: &str) -> u64 {
    (label.len() as u64).saturating_mul(CHARACTER)
}

/// Writes the label of one place, and the line of it.
fn push_label(
    text: &mut String,
    label: &str,
    x: u64,
    end: u64,
    class: &str,
) -> Result<(), AllocError> {
    let x = x.saturating_add(LEFT * 10);
    text.push_str("<path class=\"g\" d=\"M")?;
    push_tenths(text, x)?;
    writeln!(text, " {TOP}V{end}\"/>")?;
    let low = end.saturating_add(19);
    write!(text, "<text class=\"{class}\" y=\"{low}\" x=\"")?;
    push_tenths(text, x)?;
    writeln!(text, "\">{label}</text>")
}

/// Writes the labels of round numbers, those that are clear of the labels beside them.
fn push_between(
    alloc: Global,
    text: &mut String,
    scale: &Scale,
    ruler: &Ruler,
    end: u64,
    mut free: u64,
    full: u64,
) -> Result<(), AllocError> {
    let step = round_step((ruler.last - ruler.first) / 7);
    for k in 1..12u64 {
        let count = (ruler.first / step).saturating_add(k).saturating_mul(step);
        let words = label(alloc, scale, count)?;
        let half = width(words.as_str()) / 2;
        let x = ruler.x(count);
        if count < ruler.last && x >= free.saturating_add(half) && x.saturating_add(half) <= full {
            push_label(text, words.as_str(), x, end, "m c")?;
            free = x.saturating_add(half).saturating_add(BETWEEN);
        }
    }
    Ok(())
}
