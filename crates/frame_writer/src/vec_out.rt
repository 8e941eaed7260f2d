//! A writer that keeps its bytes in memory, to be read back.
ghost use Rattle.std.specs.Prelude.{◌≡◌, ◌+◌, ◌<◌, ◌++◌, IfOk, OnErr, OnOk, length};
ghost use Rattle.frame_writer.specs.Counts.{raised};
ghost use Rattle.frame_writer.specs.MemoryOuts.{empty_vec_out};

use crate::out::{Out, OutFault};
use std::alloc::{Allocator, Global};
use std::marker::Model;

/// A writer into memory. It takes all that it is handed, and fails where memory for that is
/// refused.
#[derive(Drop)]
pub struct VecOut<A: Allocator = Global> {
    bytes: Vec<u8, A>,
    failures: u64,
}

impl<A: Allocator> Model for VecOut<A> {
    ghost use Rattle.std.specs.Prelude.{vec_capacity};
    ghost use Rattle.frame_writer.specs.MemoryOuts.{VecOutState};

    ghost Value = { VecOutState };

    ghost view = { λ a. record {
      contents = a.bytes.items;
      capacity = vec_capacity a.bytes;
      failures = a.failures;
    } };
}

impl<A: Allocator> VecOut<A> {
    /// A writer that took nothing yet. It takes no memory before the first byte.
    pub fn new(alloc: A) -> VecOut<A>
        ensures { result ≡ empty_vec_out }
    {
        VecOut {
            bytes: Vec::new(alloc),
            failures: 0,
        }
    }

    /// The bytes that were written.
    pub fn bytes(&self) -> &[u8]
        ensures { result.now ≡ self.now.contents }
    {
        &self.bytes
    }
}

impl<A: Allocator> Out for VecOut<A> {
    ghost contents = { λ a. a.contents };

    ghost failures = { λ a. a.failures };

    ghost stalls = { λ _. 0 };

    /// Takes all of the bytes; fails only where there was no room for them and memory for more was
    /// refused.
    fn put(&mut self, bytes: &[u8]) -> Result<usize, OutFault>
        ensures all { IfOk result (λ n. n ≡ length bytes.now) }
        ensures taken { OnOk result (self.new.contents ≡ self.old.contents ++ bytes.now) }
        ensures failures_stay { OnOk result (self.new.failures ≡ self.old.failures) }

        ensures no_room { OnErr result
            (self.old.capacity < length self.old.contents + length bytes.now) }
        ensures contents_stay { OnErr result (self.new.contents ≡ self.old.contents) }
        ensures failed { OnErr result (self.new.failures ≡ raised self.old.failures) }
    {
        if self.bytes.extend_from_slice(bytes).is_err() {
            self.failures = self.failures.wrapping_add(1);
            return Err(OutFault);
        }
        Ok(bytes.len())
    }
}
