//! Where a measurement file is written.
ghost use Rattle.std.specs.Prelude.{◌≡◌, List, ℕ, OnOk, Option};
ghost use Rattle.std.specs.Io.KnownBytes.{append_known};
ghost use Rattle.mdf_file.specs.Outs.{write_over};

use std::io;

/// Where a measurement file is written: what was written can still be written over.
pub trait MdfOut {
    /// All bytes that it has; `None` claims nothing.
    ghost known: { Self → Option (List ℕ) };

    /// Appends bytes behind all others.
    fn append(&mut self, bytes: &[u8]) -> io::Result<()>
        ensures appended { OnOk result
            (known self.new ≡ append_known (known self.old) bytes.now) };

    /// Writes bytes over the first ones.
    fn write_front(&mut self, front: &[u8]) -> io::Result<()>
        ensures over { OnOk result (known self.new ≡ write_over front.now (known self.old)) };
}
