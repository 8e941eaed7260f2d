//! What stands round the rows: the card, the title, the legend and the axis.
ghost use Rattle.std.specs.Prelude.{◌≤◌};

use crate::axis::Axis;
use crate::grid::Grid;
use crate::numbers::{characters, push_number, push_tenths};
use crate::row::Row;
use crate::ruler::{Ruler, round_step};
use crate::style::STYLE;
use std::alloc::AllocError;

/// The left end of the plot.
const LEFT: u64 = 96;
/// Where rows begin, so that the middle of a tick is at its place.
pub const EDGE: u64 = LEFT - 1;
/// The upper end of the first row.
pub const TOP: u64 = 64;
/// The height of a row.
pub const ROW: u64 = 48;
/// The width of the plot, in whole units.
const WIDE: u64 = 720;
/// No character of a label is wider.
const CHARACTER: u64 = 7;

/// The lower end of the rows.
pub fn bottom(rows: &[Row]) -> u64
    ensures { 64 ≤ result }
{
    (rows.len() as u64).saturating_mul(ROW).saturating_add(TOP)
}

/// The width that the totals take.
fn totals_width(rows: &[Row]) -> u64
    ensures { result ≤ 400 }
{
    let mut digits = 6;
    for row in rows {
        digits = digits.max(characters(row.samples));
        digits = digits.max(characters(row.overloads));
    }
    (digits.min(26) + 10) * CHARACTER
}

/// Writes the head: the card, the title and the legend.
pub fn push_head(text: &mut String, rows: &[Row]) -> Result<(), AllocError> {
    let width = LEFT + WIDE + 16 + totals_width(rows) + 8;
    let height = bottom(rows).saturating_add(54);
    write!(
        text,
        "<svg xmlns=\"http://www.w3.org/2000/svg\" class=\"daq\" role=\"img\" "
    )?;
    writeln!(
        text,
        "width=\"{width}\" height=\"{height}\" viewBox=\"0 0 {width} {height}\">"
    )?;
    text.push_str("<title>Samples of the DAQ lists</title>\n")?;
    text.push_str(STYLE)?;
    let (card, tall) = (width - 1, height - 1);
    write!(
        text,
        "<rect class=\"k\" x=\".5\" y=\".5\" width=\"{card}\" height=\"{tall}\" rx=\"6\"/>\n"
    )?;
    text.push_str(LEGEND)
}

/// The title and the legend.
const LEGEND: &str = "<text class=\"h\" x=\"20\" y=\"35\">Samples of the DAQ lists</text>
<path class=\"s\" d=\"M263.7 30h2\"/><text class=\"m\" x=\"273\" y=\"34\">sample</text>
<path class=\"l\" d=\"M322 32h18\"/><path class=\"o\" d=\"M339.8 32h2.2\"/>\
<path class=\"t\" d=\"M340.9 17l-3.5-6h7z\"/>
<text class=\"m\" x=\"350\" y=\"34\">overload: samples were dropped before it</text>
<path class=\"b\" d=\"M606 30h30\"/><text class=\"m\" x=\"644\" y=\"34\">no sample</text>
";

/// Writes the axis below the rows, with the least and the greatest place and round ones between.
pub fn push_axis(text: &mut String, grid: &Grid, end: u64, axis: Axis) -> Result<(), AllocError> {
    let word = axis.word();
    let low = end.saturating_add(38);
    writeln!(
        text,
        "<text class=\"m c\" x=\"456\" y=\"{low}\">{word}</text>"
    )?;
    writeln!(text, "<path class=\"b\" d=\"M{LEFT} {end}h{WIDE}\"/>")?;
    if grid.first > grid.last {
        return Ok(());
    }
    let ruler = Ruler {
        first: grid.first,
        last: grid.last,
    };
    push_label(text, &ruler, grid.first, end, "")?;
    if grid.first < grid.last {
        push_label(text, &ruler, grid.last, end, " e")?;
    }
    push_between(text, &ruler, end)
}

/// Writes the label of one place, and the line of it.
fn push_label(
    text: &mut String,
    ruler: &Ruler,
    at: u64,
    end: u64,
    class: &str,
) -> Result<(), AllocError> {
    let x = ruler.x(at) + LEFT * 10;
    text.push_str("<path class=\"g\" d=\"M")?;
    push_tenths(text, x)?;
    writeln!(text, " {TOP}V{end}\"/>")?;
    let low = end.saturating_add(18);
    write!(text, "<text class=\"m{class}\" y=\"{low}\" x=\"")?;
    push_tenths(text, x)?;
    text.push_str("\">")?;
    push_number(text, at)?;
    text.push_str("</text>\n")
}

/// Writes the labels of round numbers, those that are clear of the labels of the ends.
fn push_between(text: &mut String, ruler: &Ruler, end: u64) -> Result<(), AllocError> {
    let label = characters(ruler.last) * CHARACTER;
    let most = (WIDE / (label + 40)).min(8) + 1;
    let step = round_step((ruler.last - ruler.first) / most);
    for k in 1..12u64 {
        let at = (ruler.first / step).saturating_add(k).saturating_mul(step);
        let x = ruler.x(at);
        if at < ruler.last && x >= 15 * label + 100 && x + 15 * label + 100 <= 7200 {
            push_label(text, ruler, at, end, " c")?;
        }
    }
    Ok(())
}
