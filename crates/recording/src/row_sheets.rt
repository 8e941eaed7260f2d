//! Rows of CSV as sheets: they are written as the samples come.
use crate::sheet::Sheet;
use sample_tables::SampleRows;
use std::io::{self, Write};
use value_tables::ValueRows;

impl<W: Write + Drop> Sheet for SampleRows<W> {
    ghost use Rattle.std.proofs.Common.{subst};
    ghost use Rattle.std.specs.Io.KnownBytes.{Appends};
    ghost use Rattle.sample_tables.specs.Rows.{csv_text};

    type Out = W;

    ghost IsPrinted = { λ a samples out.
        Appends a.start (W.contents out) (csv_text a.plans samples) };

    ghost by_kept = { λ a b samples out same.
        subst (λ kept.
        Appends kept.start (W.contents out) (csv_text kept.plans samples)) same };

    fn print(self) -> io::Result<W> {
        let mut out = self.finish()?;
        out.flush()?;
        Ok(out)
    }
}

impl<'a, W: Write + Drop> Sheet for ValueRows<'a, W> {
    ghost use Rattle.std.proofs.Common.{subst};
    ghost use Rattle.std.specs.Prelude.{ℕ, List};
    ghost use Rattle.std.specs.Io.KnownBytes.{Appends};
    ghost use Rattle.value_tables.specs.ValueRows.{IsCsv};

    type Out = W;

    ghost IsPrinted = { λ a samples out.
        (text : List ℕ) × IsCsv a.tick a.columns a.plans samples text
        × Appends a.start (W.contents out) text };

    ghost by_kept = { λ a b samples out same.
        subst (λ kept.
        (text : List ℕ) × IsCsv kept.tick kept.columns kept.plans samples text
        × Appends kept.start (W.contents out) text) same };

    fn print(self) -> io::Result<W> {
        let mut out = self.finish()?;
        out.flush()?;
        Ok(out)
    }
}
