//! A writer that hands bytes on to another one, and keeps a copy for the story of a run.
ghost use Rattle.std.specs.Prelude.{◌≡◌, [], IfSome};

use frame_writer::{Out, OutFault};
use std::alloc::Global;
use std::marker::Model;

/// A writer that keeps a copy of what another one takes. For that one nothing changes: if memory
/// for the copy is refused, the copy alone is given up.
///
/// Contracts see the other one.
#[derive(Drop)]
pub struct KeepingOut<O: Out> {
    inner: O,
    kept: Vec<u8>,
    is_short: bool,
}

impl<O: Out> Model for KeepingOut<O> {
    ghost use Rattle.std.specs.Prelude.{◌≡◌, false};

    ghost Value = { O };

    ghost view = { λ a. a.inner };

    ghost invariant = { λ a. a.is_short ≡ false → O.contents a.inner ≡ a.kept.items };
}

impl<O: Out> KeepingOut<O> {
    /// Over a writer that took nothing yet.
    pub fn new(alloc: Global, inner: O) -> KeepingOut<O>
        requires unused { O.contents inner ≡ [] }
        ensures { result ≡ inner }
    {
        KeepingOut {
            inner,
            kept: Vec::new(alloc),
            is_short: false,
        }
    }

    /// The bytes that the writer took; none if memory for them was refused.
    pub fn kept(&self) -> Option<&[u8]>
        ensures { IfSome result (λ bytes. bytes.now ≡ O.contents self.now) }
    {
        if self.is_short {
            return None;
        }
        Some(&self.kept)
    }
}

impl<O: Out> Out for KeepingOut<O> {
    ghost contents = { λ a. O.contents a };

    ghost failures = { λ a. O.failures a };

    ghost stalls = { λ a. O.stalls a };

    fn put(&mut self, bytes: &[u8]) -> Result<usize, OutFault> {
        let Ok(taken) = self.inner.put(bytes) else {
            return Err(OutFault);
        };
        if self.is_short {
            return Ok(taken);
        }
        let Ok(()) = self.kept.extend_from_slice(&bytes[..taken]) else {
            self.is_short = true;
            return Ok(taken);
        };
        Ok(taken)
    }
}
