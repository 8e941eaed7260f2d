//! What a writer of bytes promises: it takes some of them from the front, or fails.
ghost use Rattle.std.specs.Prelude.{◌≡◌, ℕ, ◌≤◌, List, ◌++◌, IfOk, OnErr, length, take};
ghost use Rattle.frame_writer.specs.Counts.{counted, is_stall, raised};

use thiserror::Error;

/// A writer refused bytes.
#[derive(Clone, Copy, Debug, PartialEq, Eq, Error)]
#[error("the writer failed")]
pub struct OutFault;

/// A writer that takes bytes in pieces, as a file or a socket does.
pub trait Out {
    /// The bytes that it took, in order.
    ghost contents: { Self → List ℕ };

    /// How often it failed, modulo 2^64.
    ghost failures: { Self → ℕ };

    /// How often it was handed at least one byte and took none, modulo 2^64.
    ghost stalls: { Self → ℕ };

    /// Takes bytes from the front, and returns how many it took. After a fault it has taken none.
    fn put(&mut self, bytes: &[u8]) -> Result<usize, OutFault>
        ensures within { IfOk result (λ n. n ≤ length bytes.now) }
        ensures taken { IfOk result
            (λ n. contents self.new ≡ contents self.old ++ take n bytes.now) }
        ensures failures_stay { IfOk result (λ _. failures self.new ≡ failures self.old) }
        ensures stalled { IfOk result
            (λ n. stalls self.new ≡ counted (is_stall bytes.now n) (stalls self.old)) }

        ensures contents_stay { OnErr result (contents self.new ≡ contents self.old) }
        ensures failed { OnErr result (failures self.new ≡ raised (failures self.old)) }
        ensures stalls_stay { OnErr result (stalls self.new ≡ stalls self.old) };
}
