//! Samples are printed in words as they are read, and their counts behind them.
ghost use Rattle.std.specs.Prelude.{◌≡◌, ◌≤◌, length};

use daq_reader::{ListShape, SampleView, Samples};
use explain::write_sample;
use sample_tables::{Summary, print_summary};
use std::alloc::Global;
use std::io::{self, ErrorKind, Write};
use std::marker::Model;

/// Prints each sample that it is handed in words, a line for each frame, and counts it.
///
/// After the first line that can't be printed there is no more.
#[derive(Drop)]
pub struct SampleLines<W: Write + Drop> {
    out: W,
    line: String,
    counter: u16,
    failed: Option<ErrorKind>,
    summary: Summary,
}

impl<W: Write + Drop> Model for SampleLines<W> {
    ghost use Rattle.sample_tables.specs.Tallies.{SummaryState};

    ghost Value = { SummaryState };

    ghost view = { λ a. a.summary };
}

impl<W: Write + Drop> SampleLines<W> {
    /// Prints a text. The samples are counted in a summary, and the first frame of the first one
    /// has this counter.
    pub fn new(alloc: Global, text: &str, summary: Summary, counter: u16, out: W) -> SampleLines<W>
        ensures { result ≡ summary }
    {
        let mut out = out;
        let failed = failure_of(out.write_all(text.as_bytes()));
        SampleLines {
            out,
            line: String::new(alloc),
            counter,
            failed,
            summary,
        }
    }

    /// Prints an empty line, and the table of the lists of these shapes, and gives the writer back;
    /// refused if that, or a line, can't be printed.
    pub fn finish(self, shapes: &[ListShape]) -> io::Result<W>
        requires { length shapes.now ≤ self.lists }
    {
        let SampleLines {
            out,
            failed,
            summary,
            ..
        } = self;
        let mut out = out;
        if let Some(kind) = failed {
            return Err(io::Error::from(kind));
        }
        print_table(&mut out, shapes, &summary)?;
        Ok(out)
    }
}

impl<W: Write + Drop> Samples for SampleLines<W> {
    ghost use Rattle.std.specs.Prelude.{ℕ};

    ghost handed = { λ a. a.samples };

    ghost Kept = { ℕ };

    ghost kept = { λ a. a.lists };

    /// Prints the sample, and counts it.
    fn hand(&mut self, place: usize, sample: &SampleView<'_>) {
        if self.failed.is_none() {
            self.failed = print_sample(&mut self.out, &mut self.line, &mut self.counter, sample);
        }
        self.summary.hand(place, sample);
    }
}

/// Prints a line for each frame of a sample, the first of which has this counter, and tells what
/// failed.
fn print_sample<W: Write>(
    out: &mut W,
    line: &mut String,
    counter: &mut u16,
    sample: &SampleView<'_>,
) -> Option<ErrorKind> {
    line.clear();
    let Ok(behind) = write_sample(line, *counter, sample) else {
        return Some(ErrorKind::OutOfMemory);
    };
    *counter = behind;
    failure_of(out.write_all(line.as_bytes()))
}

/// Prints an empty line and the table.
fn print_table<W: Write>(out: &mut W, shapes: &[ListShape], summary: &Summary) -> io::Result<()>
    requires { length shapes.now ≤ summary.now.lists }
{
    writeln!(out)?;
    print_summary(out, shapes, summary)
}

/// What failed.
fn failure_of(printing: io::Result<()>) -> Option<ErrorKind> {
    match printing {
        Ok(()) => None,
        Err(error) => Some(error.kind()),
    }
}
