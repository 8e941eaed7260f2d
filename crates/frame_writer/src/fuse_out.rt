//! A writer that stalls, or fails after so many bytes, for tests of torn frames.
ghost use Rattle.std.specs.Prelude.{◌≡◌, ◌+◌, ◌<◌, ◌++◌, IfOk, IsErr, OnErr, OnOk, length, take};
ghost use Rattle.frame_writer.specs.Counts.{counted, is_stall, raised};
ghost use Rattle.frame_writer.specs.MemoryOuts.{fuse_takes, unburnt};

use crate::out::{Out, OutFault};
use std::alloc::{Allocator, Global};
use std::marker::Model;

/// A writer into memory that takes bytes in pieces and then fails for good, to test what stands on
/// a writer.
#[derive(Drop)]
pub struct FuseOut<A: Allocator = Global> {
    bytes: Vec<u8, A>,
    chunk: usize,
    good: usize,
    failures: u64,
    stalls: u64,
}

impl<A: Allocator> Model for FuseOut<A> {
    ghost use Rattle.std.specs.Prelude.{◌≤◌, length, vec_capacity};
    ghost use Rattle.frame_writer.specs.MemoryOuts.{FuseOutState};

    ghost Value = { FuseOutState };

    ghost view = { λ a. record {
      contents = a.bytes.items;
      capacity = vec_capacity a.bytes;
      failures = a.failures;
      stalls = a.stalls;
      chunk = a.chunk;
      good = a.good;
    } };

    ghost invariant = { λ a. length a.bytes.items ≤ a.good };
}

impl<A: Allocator> FuseOut<A> {
    /// A writer that takes at most `chunk` bytes a call, and `good` bytes in all. With `chunk` 0 it
    /// takes none.
    pub fn new(alloc: A, chunk: usize, good: usize) -> FuseOut<A>
        ensures { result ≡ unburnt chunk good }
    {
        FuseOut {
            bytes: Vec::new(alloc),
            chunk,
            good,
            failures: 0,
            stalls: 0,
        }
    }

    /// The bytes that were written.
    pub fn bytes(&self) -> &[u8]
        ensures { result.now ≡ self.now.contents }
    {
        &self.bytes
    }
}

impl<A: Allocator> Out for FuseOut<A> {
    ghost contents = { λ a. a.contents };

    ghost failures = { λ a. a.failures };

    ghost stalls = { λ a. a.stalls };

    /// Takes as many bytes as their number, `chunk` and what remains of `good` allow. Fails where
    /// nothing of `good` remains, also at no bytes; and else only where there was no room and
    /// memory for more was refused.
    fn put(&mut self, bytes: &[u8]) -> Result<usize, OutFault>
        ensures least { IfOk result (λ n. n ≡ fuse_takes self.old bytes.now) }
        ensures taken { IfOk result
            (λ n. self.new.contents ≡ self.old.contents ++ take n bytes.now) }
        ensures failures_stay { OnOk result (self.new.failures ≡ self.old.failures) }
        ensures stalled { IfOk result
            (λ n. self.new.stalls ≡ counted (is_stall bytes.now n) self.old.stalls) }

        ensures burnt { length self.old.contents ≡ self.old.good → IsErr result }
        ensures no_room { OnErr result (length self.old.contents < self.old.good
            → self.old.capacity < length self.old.contents + fuse_takes self.old bytes.now) }
        ensures contents_stay { OnErr result (self.new.contents ≡ self.old.contents) }
        ensures failed { OnErr result (self.new.failures ≡ raised self.old.failures) }
        ensures stalls_stay { OnErr result (self.new.stalls ≡ self.old.stalls) }

        ensures limits_stay { (self.new.chunk ≡ self.old.chunk) × (self.new.good ≡ self.old.good) }
    {
        let left = self.good - self.bytes.len();
        let taken = bytes.len().min(self.chunk).min(left);
        if left == 0 || self.bytes.extend_from_slice(&bytes[..taken]).is_err() {
            self.failures = self.failures.wrapping_add(1);
            return Err(OutFault);
        }
        if taken == 0 && !bytes.is_empty() {
            self.stalls = self.stalls.wrapping_add(1);
        }
        Ok(taken)
    }
}
