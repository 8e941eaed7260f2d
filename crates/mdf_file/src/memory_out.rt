//! A measurement file in memory.
ghost use Rattle.std.specs.Prelude.{◌≡◌, ◌≤◌, [], OnOk, Some, ◌++◌, drop, length};

use crate::mdf_out::MdfOut;
use std::alloc::Global;
use std::io;
use std::marker::Model;

/// A measurement file in memory.
#[derive(Debug, Drop)]
pub struct MemoryOut {
    bytes: Vec<u8>,
}

impl Model for MemoryOut {
    ghost use Rattle.std.specs.Prelude.{List, ℕ};

    ghost Value = { List ℕ };

    ghost view = { λ a. a.bytes.items };
}

impl MemoryOut {
    /// No bytes yet.
    pub fn new(alloc: Global) -> MemoryOut
        ensures { result ≡ [] }
    {
        MemoryOut {
            bytes: Vec::new(alloc),
        }
    }

    /// The bytes that were written.
    pub fn bytes(&self) -> &[u8]
        ensures { result.now ≡ self.now }
    {
        &self.bytes
    }
}

impl MdfOut for MemoryOut {
    ghost known = { λ a. Some a };

    fn append(&mut self, bytes: &[u8]) -> io::Result<()>
        ensures { OnOk result (Some self.new ≡ Some (self.old ++ bytes.now)) }
    {
        self.bytes.extend_from_slice(bytes)?;
        Ok(())
    }

    fn write_front(&mut self, front: &[u8]) -> io::Result<()>
        ensures { OnOk result
            (Some self.new ≡ Some (front.now ++ drop (length front.now) self.old)) }
    {
        if front.len() > self.bytes.len() {
            return Err(io::Error::from(io::ErrorKind::InvalidInput));
        }
        write_over(&mut self.bytes, front);
        Ok(())
    }
}

/// Writes bytes over the first ones.
fn write_over(bytes: &mut [u8], front: &[u8])
    requires { length front.now ≤ length bytes.old }
    ensures { bytes.new ≡ front.now ++ drop (length front.now) bytes.old }
{
    bytes[..front.len()].copy_from_slice(front);
}
