//! Prints what there is of the samples of each DAQ list.
ghost use Rattle.std.specs.Prelude.{◌≤◌, OnOk, length};
ghost use Rattle.std.specs.Fmt.{decimal};
ghost use Rattle.std.specs.Io.KnownBytes.{Appends};
ghost use Rattle.sample_tables.specs.Tables.{column, head_line, right_aligned, table_text};
ghost use Rattle.sample_tables.specs.Tables.{tally_line, tally_text, ticks_text};

use crate::summary::Summary;
use crate::tally::Tally;
use daq_reader::ListShape;
use std::io::{self, Write};

/// Prints the head of the table, and a line for each DAQ list.
pub fn print_summary<W: Write>(
    out: &mut W,
    shapes: &[ListShape],
    summary: &Summary,
) -> io::Result<()>
    requires { length shapes.now ≤ summary.now.lists }
    ensures { OnOk result (Appends (W.contents out.old) (W.contents out.new)
        (table_text shapes.now summary.now.samples)) }
{
    print_head(out)?;
    for place in 0..shapes.len() {
        print_list(out, &shapes[place], summary.tally(place))?;
    }
    out.flush()
}

/// Prints the head of the table.
pub fn print_head<W: Write>(out: &mut W) -> io::Result<()>
    ensures { OnOk result (Appends (W.contents out.old) (W.contents out.new) head_line) }
{
    writeln!(
        out,
        "list channel      samples    overloads      first       last"
    )
}

/// Prints the line of a DAQ list.
fn print_list<W: Write>(out: &mut W, shape: &ListShape, tally: Tally) -> io::Result<()>
    ensures { OnOk result (Appends (W.contents out.old) (W.contents out.new)
        (tally_line shape.now tally)) }
{
    print_tally(out, shape.list() as u16, shape.channel() as u16, tally)
}

/// Prints the line of a DAQ list of this number and event channel.
pub fn print_tally<W: Write>(out: &mut W, list: u16, channel: u16, tally: Tally) -> io::Result<()>
    ensures { OnOk result (Appends (W.contents out.old) (W.contents out.new)
        (tally_text list channel tally)) }
{
    print_number(out, list)?;
    print_channel(out, channel)?;
    print_count(out, tally.samples)?;
    print_count(out, tally.overloads)?;
    print_ticks(out, tally.first)?;
    print_ticks(out, tally.last)?;
    writeln!(out)
}

/// Prints the number of a DAQ list.
fn print_number<W: Write>(out: &mut W, list: u16) -> io::Result<()>
    ensures { OnOk result (Appends (W.contents out.old) (W.contents out.new)
        (right_aligned 4 (decimal list))) }
{
    write!(out, "{list:>4}")
}

/// Prints the number of an event channel.
fn print_channel<W: Write>(out: &mut W, channel: u16) -> io::Result<()>
    ensures { OnOk result (Appends (W.contents out.old) (W.contents out.new)
        (column 7 channel)) }
{
    write!(out, " {channel:>7}")
}

/// Prints how many samples there are.
fn print_count<W: Write>(out: &mut W, samples: u64) -> io::Result<()>
    ensures { OnOk result (Appends (W.contents out.old) (W.contents out.new)
        (column 12 samples)) }
{
    write!(out, " {samples:>12}")
}

/// Prints ticks, or `-` if there are none.
fn print_ticks<W: Write>(out: &mut W, ticks: Option<u32>) -> io::Result<()>
    ensures { OnOk result (Appends (W.contents out.old) (W.contents out.new)
        (ticks_text ticks)) }
{
    match ticks {
        Some(ticks) => write!(out, " {ticks:>10}"),
        None => write!(out, "          -"),
    }
}
