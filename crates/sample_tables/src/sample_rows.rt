//! Samples become rows of CSV as they are handed over, one row for each element.
ghost use Rattle.std.specs.Prelude.{◌≡◌, [], IfOk, OnOk, Some, false, slice_get, true};
ghost use Rattle.std.specs.Option.{option_copied};
ghost use Rattle.std.specs.Io.KnownBytes.{Appends};
ghost use Rattle.csv.specs.Writing.{row_text, text_written};
ghost use Rattle.copy_plan.specs.Config.{OdtEntry, odt};
ghost use Rattle.sample_tables.specs.Rows.{IsBetweenRows, column_names, csv_text, entry_text};
ghost use Rattle.sample_tables.specs.Rows.{odt_text, rfc_4180, sample_text, text_at};

use crate::row::{Row, write_names, write_row};
use crate::spot::Spot;
use crate::spots::Spots;
use csv::{Error, Terminator, Writer, WriterBuilder};
use daq_reader::{ListShape, SampleLog, SampleView, Samples};
use std::alloc::{AllocError, Global};
use std::io::{self, ErrorKind, Write};
use std::marker::Model;
use std::snapshot::Snapshot;

/// Writes each sample that it is handed as rows of CSV, one row an element.
///
/// The text is that of RFC 4180. After the first row that can't be written there is no more.
#[derive(Drop)]
pub struct SampleRows<W: Write + Drop> {
    shapes: Vec<ListShape>,
    spots: Spots,
    rows: Writer<W>,
    failed: bool,
    start: Snapshot<W>,
    log: SampleLog,
}

impl<W: Write + Drop> Model for SampleRows<W> {
    ghost use Rattle.std.specs.Prelude.{◌≡◌, false, reverse};
    ghost use Rattle.sample_tables.specs.Rows.{HasRows, RowsState};
    ghost use Rattle.sample_tables.specs.Spots.{KnowsSpots};

    ghost Value = { RowsState };

    ghost view = { λ a. record {
      plans = a.shapes.items;
      start = W.contents a.start.value;
      samples = a.log.samples;
    } };

    ghost invariant = { λ a. KnowsSpots a.spots a.shapes.items (reverse a.log.samples)
        × (a.failed ≡ false → HasRows W.contents a.shapes.items
        (W.contents a.start.value) a.log.samples a.rows) };
}

impl<W: Write + Drop> SampleRows<W> {
    /// Writes the names of the columns; the samples will be those of DAQ lists of these shapes.
    /// Lack of memory is the only fault.
    pub fn new(alloc: Global, shapes: Vec<ListShape>, out: W) -> Result<SampleRows<W>, AllocError>
        ensures { IfOk result (λ rows. rows ≡ record {
          plans = shapes.items;
          start = W.contents out;
          samples = [];
        }) }
    {
        let spots = Spots::new(alloc, shapes.len())?;
        let start = Snapshot::of(&out);
        let mut rows = WriterBuilder::new()
            .terminator(Terminator::CRLF)
            .from_writer(out);
        let failed = !are_named(&mut rows);
        Ok(SampleRows {
            shapes,
            spots,
            rows,
            failed,
            start,
            log: SampleLog::new(),
        })
    }

    /// Writes out what is left, and gives the writer back; refused if that, or a row, can't be
    /// written.
    pub fn finish(self) -> io::Result<W>
        ensures { IfOk result (λ out.
            Appends self.start (W.contents out) (csv_text self.plans self.samples)) }
    {
        let SampleRows { rows, failed, .. } = self;
        if failed {
            return Err(io::Error::from(ErrorKind::Other));
        }
        match rows.into_inner() {
            Ok(out) => Ok(out),
            Err(_) => Err(io::Error::from(ErrorKind::Other)),
        }
    }
}

impl<W: Write + Drop> Samples for SampleRows<W> {
    ghost use Rattle.sample_tables.specs.Rows.{RowsStart};

    ghost handed = { λ a. a.samples };

    ghost Kept = { RowsStart };

    ghost kept = { λ a. record { plans = a.plans; start = a.start } };

    /// Writes the rows of the sample.
    fn hand(&mut self, place: usize, sample: &SampleView<'_>) {
        let shape = shape_at(&self.shapes, place);
        let at = self.spots.next(shape, place, sample.stamp());
        self.failed = !go_on(self.failed, &mut self.rows, shape, sample, at);
        // for the proof: clauses speak of the samples that were handed over
        self.log.note(place, sample);
    }
}

/// The shape of the list at a place; `None` exactly if there is none.
fn shape_at(shapes: &[ListShape], place: usize) -> Option<&ListShape>
    ensures { option_copied result ≡ slice_get shapes.now place }
{
    shapes.get(place)
}

/// Writes the names of the columns, and returns whether they are written.
fn are_named<W: Write + Drop>(rows: &mut Writer<W>) -> bool
    requires { IsBetweenRows rows.old }
    ensures text { result ≡ true → Appends (text_written W.contents rows.old)
        (text_written W.contents rows.new) (row_text rfc_4180 column_names) }
    ensures between { result ≡ true → IsBetweenRows rows.new }
{
    let Ok(()) = write_names(rows) else {
        return false;
    };
    true
}

/// Writes the rows of a sample, if none failed before, and returns whether all are written.
fn go_on<W: Write + Drop>(
    failed: bool,
    rows: &mut Writer<W>,
    shape: Option<&ListShape>,
    sample: &SampleView<'_>,
    at: Spot,
) -> bool
    requires { failed ≡ false → IsBetweenRows rows.old }
    ensures before { result ≡ true → failed ≡ false }
    ensures text { result ≡ true → Appends (text_written W.contents rows.old)
        (text_written W.contents rows.new) (text_at (option_copied shape.entry) at
        sample.now.sample) }
    ensures between { result ≡ true → IsBetweenRows rows.new }
{
    if failed {
        return false;
    }
    are_written(rows, shape, sample, at)
}

/// Writes the rows of a sample, of a list if there is one, and returns whether they are written.
fn are_written<W: Write + Drop>(
    rows: &mut Writer<W>,
    shape: Option<&ListShape>,
    sample: &SampleView<'_>,
    at: Spot,
) -> bool
    requires { IsBetweenRows rows.old }
    ensures text { result ≡ true → Appends (text_written W.contents rows.old)
        (text_written W.contents rows.new) (text_at (option_copied shape.entry) at
        sample.now.sample) }
    ensures between { result ≡ true → IsBetweenRows rows.new }
{
    let Some(shape) = shape else {
        return true;
    };
    let Ok(()) = write_sample(rows, shape, sample, at) else {
        return false;
    };
    true
}

/// Writes the rows of a sample of a list.
fn write_sample<W: Write + Drop>(
    rows: &mut Writer<W>,
    shape: &ListShape,
    sample: &SampleView<'_>,
    at: Spot,
) -> Result<(), Error>
    requires { IsBetweenRows rows.old }
    ensures text { OnOk result (Appends (text_written W.contents rows.old)
        (text_written W.contents rows.new) (sample_text shape.now at sample.now.sample)) }
    ensures between { OnOk result (IsBetweenRows rows.new) }
{
    for k in 0..shape.odts() {
        write_odt(rows, shape, sample, at, k)?;
    }
    Ok(())
}

/// Writes the rows of an ODT of a sample.
fn write_odt<W: Write + Drop>(
    rows: &mut Writer<W>,
    shape: &ListShape,
    sample: &SampleView<'_>,
    at: Spot,
    k: usize,
) -> Result<(), Error>
    requires { IsBetweenRows rows.old }
    ensures text { OnOk result (Appends (text_written W.contents rows.old)
        (text_written W.contents rows.new)
        (odt_text shape.now at sample.now.sample (k, odt shape.now k))) }
    ensures between { OnOk result (IsBetweenRows rows.new) }
{
    for e in 0..shape.entries(k) {
        write_entry(rows, shape, sample, at, k, e)?;
    }
    Ok(())
}

/// Writes the row of entry `e` of ODT `k` of a sample, if the sample has as many bytes there.
fn write_entry<W: Write + Drop>(
    rows: &mut Writer<W>,
    shape: &ListShape,
    sample: &SampleView<'_>,
    at: Spot,
    k: usize,
    e: usize,
) -> Result<(), Error>
    requires { IsBetweenRows rows.old }
    ensures text { (entry : OdtEntry) → slice_get (odt shape.now k) e ≡ Some entry
        → OnOk result (Appends (text_written W.contents rows.old)
        (text_written W.contents rows.new) (entry_text shape.now at sample.now.sample k
        (e, entry))) }
    ensures between { OnOk result (IsBetweenRows rows.new) }
{
    let Some((address, size)) = shape.entry(k, e) else {
        return Ok(());
    };
    let Some(bytes) = sample.entry(k, e) else {
        return Ok(());
    };
    if bytes.len() != size as usize {
        return Ok(());
    }
    let row = Row {
        at,
        ticks: sample.stamp(),
        list: shape.list(),
        odt: k,
        entry: e,
        address,
        bytes,
        overload: sample.overload(),
    };
    write_row(rows, row)
}
