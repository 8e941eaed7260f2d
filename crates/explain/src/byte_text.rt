//! Bytes are written in hexadecimal.
use std::fmt::{self, Display};

/// Bytes in hexadecimal, without spaces.
#[derive(Clone, Copy)]
pub struct ByteText<'a> {
    pub bytes: &'a [u8],
}

impl<'a> Display for ByteText<'a> {
    fn fmt<W: fmt::Write>(&self, f: &mut fmt::Formatter<W>) -> fmt::Result {
        for byte in self.bytes {
            write!(f, "{byte:02x}")?;
        }
        Ok(())
    }
}
