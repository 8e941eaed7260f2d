//! The table of values: a sheet that a recording is printed on.
ghost use Rattle.std.specs.Prelude.{◌≡◌, [], IfOk};

use crate::sheet::Sheet;
use daq_reader::{ListShape, SampleView, Samples};
use std::alloc::{AllocError, Global};
use std::io::{self, Write};
use std::marker::Model;
use value_tables::{Column, ValueTallies, print_tallies};

/// The table of the values of columns in the samples that it was handed.
#[derive(Drop)]
pub struct TallySheet<'a, W: Write + Drop> {
    alloc: Global,
    tallies: ValueTallies<'a>,
    out: W,
}

impl<'a, W: Write + Drop> Model for TallySheet<'a, W> {
    ghost use Rattle.recording.specs.Sheets.{TallySheetState};

    ghost Value = { TallySheetState };

    ghost view = { λ a. record {
      columns = a.tallies.columns;
      plans = a.tallies.plans;
      start = W.contents a.out;
      samples = a.tallies.samples;
    } };
}

impl<'a, W: Write + Drop> TallySheet<'a, W> {
    /// No values of these columns; the samples will be those of DAQ lists of these shapes. Lack of
    /// memory is the only fault.
    pub fn new(
        alloc: Global,
        columns: Vec<Column<'a>>,
        shapes: Vec<ListShape>,
        out: W,
    ) -> Result<TallySheet<'a, W>, AllocError>
        ensures { IfOk result (λ sheet. sheet ≡ record {
          columns = columns.entry.items;
          plans = shapes.items;
          start = W.contents out;
          samples = [];
        }) }
    {
        let tallies = ValueTallies::new(alloc, columns, shapes)?;
        Ok(TallySheet {
            alloc,
            tallies,
            out,
        })
    }
}

impl<'a, W: Write + Drop> Samples for TallySheet<'a, W> {
    ghost use Rattle.recording.specs.Sheets.{TallySheetStart};

    ghost handed = { λ a. a.samples };

    ghost Kept = { TallySheetStart };

    ghost kept = { λ a. record { columns = a.columns; plans = a.plans; start = a.start } };

    /// Counts the values of the sample.
    fn hand(&mut self, place: usize, sample: &SampleView<'_>) {
        self.tallies.hand(place, sample);
    }
}

impl<'a, W: Write + Drop> Sheet for TallySheet<'a, W> {
    ghost use Rattle.std.proofs.Common.{subst};
    ghost use Rattle.std.specs.Prelude.{ℕ, List};
    ghost use Rattle.std.specs.Io.KnownBytes.{Appends};
    ghost use Rattle.value_tables.specs.TallyText.{IsTable};

    type Out = W;

    ghost IsPrinted = { λ a samples out.
        (text : List ℕ) × IsTable a.plans a.columns samples text
        × Appends a.start (W.contents out) text };

    ghost by_kept = { λ a b samples out same.
        subst (λ kept.
        (text : List ℕ) × IsTable kept.plans kept.columns samples text
        × Appends kept.start (W.contents out) text) same };

    fn print(self) -> io::Result<W> {
        let TallySheet {
            alloc,
            tallies,
            out,
        } = self;
        let mut out = out;
        print_tallies(alloc, &mut out, &tallies)?;
        Ok(out)
    }
}
