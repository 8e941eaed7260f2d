//! The table of samples: a sheet that a recording is printed on.
ghost use Rattle.std.specs.Prelude.{◌≡◌, [], IfOk};

use crate::sheet::Sheet;
use daq_reader::{ListShape, SampleView, Samples};
use sample_tables::{Summary, print_summary};
use std::alloc::{AllocError, Global};
use std::io::{self, Write};
use std::marker::Model;

/// The table of the samples that it was handed, with a line for each list.
#[derive(Drop)]
pub struct Table<W: Write + Drop> {
    shapes: Vec<ListShape>,
    summary: Summary,
    out: W,
}

impl<W: Write + Drop> Model for Table<W> {
    ghost use Rattle.std.specs.Prelude.{◌≤◌, length};
    ghost use Rattle.sample_tables.specs.Rows.{RowsState};

    ghost Value = { RowsState };

    ghost view = { λ a. record {
      plans = a.shapes.items;
      start = W.contents a.out;
      samples = a.summary.samples;
    } };

    ghost invariant = { λ a. length a.shapes.items ≤ a.summary.lists };
}

impl<W: Write + Drop> Table<W> {
    /// No samples; they will be those of DAQ lists of these shapes. Lack of memory is the only
    /// fault.
    pub fn new(alloc: Global, shapes: Vec<ListShape>, out: W) -> Result<Table<W>, AllocError>
        ensures { IfOk result (λ table. table ≡ record {
          plans = shapes.items;
          start = W.contents out;
          samples = [];
        }) }
    {
        let summary = Summary::new(alloc, shapes.len())?;
        Ok(Table {
            shapes,
            summary,
            out,
        })
    }
}

impl<W: Write + Drop> Samples for Table<W> {
    ghost use Rattle.sample_tables.specs.Rows.{RowsStart};

    ghost handed = { λ a. a.samples };

    ghost Kept = { RowsStart };

    ghost kept = { λ a. record { plans = a.plans; start = a.start } };

    /// Counts the sample.
    fn hand(&mut self, place: usize, sample: &SampleView<'_>) {
        self.summary.hand(place, sample);
    }
}

impl<W: Write + Drop> Sheet for Table<W> {
    ghost use Rattle.std.proofs.Common.{subst};
    ghost use Rattle.std.specs.Io.KnownBytes.{Appends};
    ghost use Rattle.sample_tables.specs.Tables.{table_text};

    type Out = W;

    ghost IsPrinted = { λ a samples out.
        Appends a.start (W.contents out) (table_text a.plans samples) };

    ghost by_kept = { λ a b samples out same.
        subst (λ kept.
        Appends kept.start (W.contents out) (table_text kept.plans samples)) same };

    fn print(self) -> io::Result<W> {
        let Table {
            shapes,
            summary,
            out,
        } = self;
        let mut out = out;
        print_summary(&mut out, &shapes, &summary)?;
        Ok(out)
    }
}
