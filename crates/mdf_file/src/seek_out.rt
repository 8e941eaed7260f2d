//! A measurement file in a file, or in whatever else can be sought in.
ghost use Rattle.std.specs.Prelude.{None};

use crate::mdf_out::MdfOut;
use std::io::{self, Seek, SeekFrom, Write};

/// A measurement file in a file, or in whatever else can be sought in. It is to be empty, and no
/// clause says what it has.
#[derive(Drop)]
pub struct SeekOut<F> {
    inner: F,
}

impl<F: Write + Seek> SeekOut<F> {
    /// What is written goes there.
    pub fn new(inner: F) -> SeekOut<F> {
        SeekOut { inner }
    }

    /// What was written to, as it stands.
    pub fn into_inner(self) -> F {
        self.inner
    }
}

impl<F: Write + Seek> MdfOut for SeekOut<F> {
    ghost known = { λ _. None };

    fn append(&mut self, bytes: &[u8]) -> io::Result<()> {
        self.inner.write_all(bytes)
    }

    fn write_front(&mut self, front: &[u8]) -> io::Result<()> {
        self.inner.seek(SeekFrom::Start(0))?;
        self.inner.write_all(front)?;
        self.inner.seek(SeekFrom::End(0))?;
        Ok(())
    }
}
