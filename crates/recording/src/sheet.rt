//! What a recording is printed on: samples go onto it, and it is printed once all are there.
ghost use Rattle.std.specs.Prelude.{◌≡◌, ℕ, List, IfOk};
ghost use Rattle.daq_reader.specs.Recorded.{Recorded};

use daq_reader::Samples;
use std::io;

/// What the samples of a recording are printed on.
pub trait Sheet: Samples {
    /// The writer that it is printed to.
    type Out: Drop;

    /// What is to be printed of samples on such a sheet stands in the writer.
    ghost IsPrinted: { Self → List (ℕ × Recorded) → Self.Out → Type 0 };

    /// Prints what isn't printed yet, and gives the writer back.
    fn print(self) -> io::Result<Self::Out>
        ensures { IfOk result (λ out. Self.IsPrinted self (Self.handed self) out) };

    /// What that is no sample changes.
    ghost by_kept: { (a b : Self) (samples : List (ℕ × Recorded)) (out : Self.Out)
        → Self.kept a ≡ Self.kept b → Self.IsPrinted a samples out
        → Self.IsPrinted b samples out };
}
