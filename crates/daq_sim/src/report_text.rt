//! Prints what came of a run.
ghost use Rattle.std.specs.Prelude.{◌++◌, OnOk, codes, flat_map, option_map};
ghost use Rattle.std.specs.Fmt.{decimal};
ghost use Rattle.std.specs.Io.KnownBytes.{Appends};
ghost use Rattle.daq_sim.specs.Printed.{account_text, frames_text, line_of, list_line, yes_or_no};

use daq_engine::{ListReport, Report};
use std::io::{self, Write};

/// Prints the frames, if they were kept, as one hexadecimal line, and then the account.
pub fn print_outcome<W: Write>(
    out: &mut W,
    frames: Option<&str>,
    refused: u64,
    report: &Report,
) -> io::Result<()>
    ensures { OnOk result (Appends (W.contents out.old) (W.contents out.new)
        (frames_text (option_map (λ line. line.now) frames.entry)
        ++ account_text refused report.now)) }
{
    print_frames(out, frames)?;
    print_lists(out, &report.lists)?;
    print_refused(out, refused)?;
    print_failed(out, report.failed)?;
    out.flush()
}

/// Prints the line of the frames, if they were kept.
fn print_frames<W: Write>(out: &mut W, frames: Option<&str>) -> io::Result<()>
    ensures { OnOk result (Appends (W.contents out.old) (W.contents out.new)
        (frames_text (option_map (λ line. line.now) frames.entry))) }
{
    match frames {
        Some(line) => writeln!(out, "{line}"),
        None => Ok(()),
    }
}

/// Prints a line for each DAQ list.
fn print_lists<W: Write>(out: &mut W, lists: &[ListReport]) -> io::Result<()>
    ensures { OnOk result (Appends (W.contents out.old) (W.contents out.new)
        (flat_map list_line lists.now)) }
{
    for list in lists {
        print_list(out, list)?;
    }
    Ok(())
}

/// Prints the line of a DAQ list.
fn print_list<W: Write>(out: &mut W, list: &ListReport) -> io::Result<()>
    ensures { OnOk result (Appends (W.contents out.old) (W.contents out.new)
        (list_line list.now)) }
{
    writeln!(
        out,
        "list {} due {} written {} dropped {} left {}",
        list.list, list.due, list.written, list.dropped, list.left
    )
}

/// Prints how many steps were refused.
fn print_refused<W: Write>(out: &mut W, refused: u64) -> io::Result<()>
    ensures { OnOk result (Appends (W.contents out.old) (W.contents out.new)
        (line_of (codes "refused " ++ decimal refused))) }
{
    writeln!(out, "refused {refused}")
}

/// Prints whether the writer failed.
fn print_failed<W: Write>(out: &mut W, failed: bool) -> io::Result<()>
    ensures { OnOk result (Appends (W.contents out.old) (W.contents out.new)
        (line_of (codes "failed " ++ yes_or_no failed))) }
{
    if failed {
        writeln!(out, "failed yes")
    } else {
        writeln!(out, "failed no")
    }
}
