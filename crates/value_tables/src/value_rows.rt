//! The values of samples are written as CSV, one row for each sample.
ghost use Rattle.std.specs.Prelude.{◌≡◌, ◌↔◌, ◌^◌, ◌<◌, [], ℕ, IfOk, IfSome, IsOk, List, None};
ghost use Rattle.std.specs.Prelude.{length, option_map};
ghost use Rattle.std.specs.Option.{option_copied};
ghost use Rattle.std.specs.Io.KnownBytes.{Appends, Keeps};
ghost use Rattle.csv.specs.Writing.{text_written};
ghost use Rattle.sample_tables.specs.Rows.{IsBetweenRows};
ghost use Rattle.value_tables.specs.Lists.{HasSources};
ghost use Rattle.value_tables.specs.ValueRows.{IsCsv, IsRowIn};

use crate::column::Column;
use crate::list_columns::{ListColumns, list_at, lists_of};
use crate::row_writer::RowWriter;
use csv::{Terminator, Writer, WriterBuilder};
use daq_reader::{ListShape, SampleLog, SampleView, Samples};
use measured_values::Tick;
use sample_tables::{Spot, Spots};
use std::alloc::{AllocError, Global};
use std::io::{self, ErrorKind, Write};
use std::marker::Model;
use std::snapshot::Snapshot;

/// Writes each sample that it is handed as a row of CSV: its time, its list, whether it has the
/// overload indication, and the physical value of each column; nothing if the sample doesn't have
/// it. The time is in seconds if it is known how long a tick is, else in ticks.
///
/// The text is that of RFC 4180. After the first row that can't be written there is no more.
#[derive(Drop)]
pub struct ValueRows<'a, W: Write + Drop> {
    columns: Vec<Column<'a>>,
    lists: Vec<ListColumns>,
    spots: Spots,
    rows: RowWriter<W>,
    failed: Option<ErrorKind>,
    start: Snapshot<W>,
    log: SampleLog,
}

impl<'a, W: Write + Drop> Model for ValueRows<'a, W> {
    ghost use Rattle.std.specs.Prelude.{◌≡◌, All, None, reverse};
    ghost use Rattle.sample_tables.specs.Spots.{KnowsSpots};
    ghost use Rattle.value_tables.specs.Lists.{HasSources, plans_of};
    ghost use Rattle.value_tables.specs.ValueRows.{HasCsv, ValueRowsState};

    ghost Value = { ValueRowsState };

    ghost view = { λ a. record {
      tick = a.rows.tick;
      columns = a.columns.items;
      plans = plans_of a.lists.items;
      start = W.contents a.start.value;
      samples = a.log.samples;
    } };

    ghost invariant = { λ a.
        KnowsSpots a.spots (plans_of a.lists.items) (reverse a.log.samples)
        × All (HasSources a.columns.items) a.lists.items
        × (a.failed ≡ None → HasCsv W.contents a.rows.tick a.columns.items
        (plans_of a.lists.items) (W.contents a.start.value) a.log.samples a.rows.rows) };
}

impl<'a, W: Write + Drop> ValueRows<'a, W> {
    /// Writes the names of the columns; the samples will be those of DAQ lists of these shapes.
    /// Lack of memory is the only fault.
    pub fn new(
        alloc: Global,
        tick: Option<Tick>,
        columns: Vec<Column<'a>>,
        shapes: Vec<ListShape>,
        out: W,
    ) -> Result<ValueRows<'a, W>, AllocError>
        ensures { IfOk result (λ rows. rows ≡ record {
          tick = tick;
          columns = columns.entry.items;
          plans = shapes.items;
          start = W.contents out;
          samples = [];
        }) }
    {
        let spots = Spots::new(alloc, shapes.len())?;
        let lists = lists_of(alloc, shapes, &columns)?;
        let start = Snapshot::of(&out);
        let mut rows = RowWriter {
            rows: WriterBuilder::new()
                .terminator(Terminator::CRLF)
                .from_writer(out),
            cell: String::new(alloc),
            tick,
        };
        let failed = failure_of(rows.write_heads(&columns));
        Ok(ValueRows {
            columns,
            lists,
            spots,
            rows,
            failed,
            start,
            log: SampleLog::new(),
        })
    }

    /// Writes out what is left, and gives the writer back; refused if that, or a row, can't be
    /// written.
    pub fn finish(self) -> io::Result<W>
        ensures { IfOk result (λ out. (text : List ℕ)
            × IsCsv self.entry.tick self.entry.columns self.entry.plans
            self.entry.samples text
            × Appends self.entry.start (W.contents out) text) }
    {
        let ValueRows { rows, failed, .. } = self;
        written_out(rows.rows, failed)
    }
}

impl<'a, W: Write + Drop> Samples for ValueRows<'a, W> {
    ghost use Rattle.value_tables.specs.ValueRows.{ValueRowsStart};

    ghost handed = { λ a. a.samples };

    ghost Kept = { ValueRowsStart };

    ghost kept = { λ a. record {
      tick = a.tick;
      columns = a.columns;
      plans = a.plans;
      start = a.start;
    } };

    /// Writes the row of the sample.
    fn hand(&mut self, place: usize, sample: &SampleView<'_>) {
        let list = list_at(&self.lists, place);
        let at = self.spots.next(shape_of(list), place, sample.stamp());
        self.failed = go_on(self.failed, &mut self.rows, &self.columns, list, sample, at);
        // for the proof: clauses speak of the samples that were handed over
        self.log.note(place, sample);
    }
}

/// Writes out what is left of rows, and gives the writer under them back, unless something failed
/// before.
fn written_out<W: Write + Drop>(rows: Writer<W>, failed: Option<ErrorKind>) -> io::Result<W>
    ensures { IfOk result (λ out. (failed ≡ None)
        × Keeps (text_written W.contents rows) (W.contents out)) }
{
    if let Some(kind) = failed {
        return Err(io::Error::from(kind));
    }
    match rows.into_inner() {
        Ok(out) => Ok(out),
        Err(_) => Err(io::Error::from(ErrorKind::Other)),
    }
}

/// The shape of a list, if there is one.
fn shape_of(list: Option<&ListColumns>) -> Option<&ListShape>
    ensures { option_copied result ≡ option_map (λ l. l.shape) (option_copied list.entry) }
{
    Some(&list?.shape)
}

/// Writes the row of a sample, of a list if there is one, unless something failed before, and tells
/// what failed.
fn go_on<W: Write + Drop>(
    failed: Option<ErrorKind>,
    rows: &mut RowWriter<W>,
    columns: &[Column<'_>],
    list: Option<&ListColumns>,
    sample: &SampleView<'_>,
    at: Spot,
) -> Option<ErrorKind>
    requires between { failed ≡ None → IsBetweenRows rows.old.rows }
    requires sources { IfSome list (λ l. HasSources columns.now l.now) }
    requires few { length columns.now < 2 ^ 63 }
    ensures before { result ≡ None → failed ≡ None }
    ensures text { result ≡ None → (text : List ℕ)
        × IsRowIn rows.old.tick columns.now
        (option_map (λ l. l.shape) (option_copied list.entry)) at sample.now.sample text
        × Appends (text_written W.contents rows.old.rows)
        (text_written W.contents rows.new.rows) text }
    ensures between { result ≡ None → IsBetweenRows rows.new.rows }
    ensures tick { rows.new.tick ≡ rows.old.tick }
{
    if failed.is_some() {
        return failed;
    }
    let Some(list) = list else {
        return None;
    };
    failure_of(rows.write_row(columns, list, sample, at))
}

/// What failed.
fn failure_of(printing: Result<(), ErrorKind>) -> Option<ErrorKind>
    ensures { (result ≡ None) ↔ IsOk printing }
{
    match printing {
        Ok(()) => None,
        Err(kind) => Some(kind),
    }
}
