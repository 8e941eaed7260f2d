//! A writer that hands its bytes on to a file or a stream of the standard library.
ghost use Rattle.std.specs.Prelude.{◌≡◌, ◌≤◌, ◌++◌, IfOk, OnErr, OnOk, length, take};
ghost use Rattle.std.specs.Io.KnownBytes.{WriteAppends};
ghost use Rattle.frame_writer.specs.Counts.{counted, is_stall, raised};
ghost use Rattle.frame_writer.specs.Streams.{inner_of, told, untouched};

use crate::byte_log::ByteLog;
use crate::out::{Out, OutFault};
use std::io::Write;

/// A writer over a file, a stream or whatever else implements `Write`.
///
/// Each `put` is one `write`, and every error of it is a failure, an interruption too: nothing is
/// tried again. It keeps none of the bytes.
#[derive(Drop)]
pub struct StdOut<W> {
    inner: W,
    failures: u64,
    stalls: u64,
    log: ByteLog,
}

impl<W: Write> StdOut<W> {
    /// A writer that took nothing yet.
    pub fn new(inner: W) -> StdOut<W>
        ensures fresh { told result ≡ untouched }
        ensures inner { inner_of result ≡ inner }
    {
        StdOut {
            inner,
            failures: 0,
            stalls: 0,
            log: ByteLog::new(),
        }
    }

    /// What it writes to, as it stands.
    pub fn into_inner(self) -> W
        ensures { result ≡ inner_of self }
    {
        self.inner
    }
}

impl<W: Write> Out for StdOut<W> {
    ghost contents = { λ a. (told a).contents };

    ghost failures = { λ a. (told a).failures };

    ghost stalls = { λ a. (told a).stalls };

    /// Takes what one `write` takes, and fails if it returns an error.
    fn put(&mut self, bytes: &[u8]) -> Result<usize, OutFault>
        ensures within { IfOk result (λ n. n ≤ length bytes.now) }
        ensures taken { IfOk result (λ n.
            (told self.new).contents ≡ (told self.old).contents ++ take n bytes.now) }
        ensures failures_stay { OnOk result ((told self.new).failures ≡ (told self.old).failures) }
        ensures stalled { IfOk result (λ n.
            (told self.new).stalls ≡ counted (is_stall bytes.now n) (told self.old).stalls) }

        ensures contents_stay { OnErr result ((told self.new).contents ≡ (told self.old).contents) }
        ensures failed { OnErr result ((told self.new).failures ≡ raised (told self.old).failures) }
        ensures stalls_stay { OnErr result ((told self.new).stalls ≡ (told self.old).stalls) }

        ensures inner { WriteAppends
            (W.contents (inner_of self.old)) (W.contents (inner_of self.new)) result bytes.now }
    {
        let Ok(taken) = self.inner.write(bytes) else {
            self.failures = self.failures.wrapping_add(1);
            return Err(OutFault);
        };
        if taken == 0 && !bytes.is_empty() {
            self.stalls = self.stalls.wrapping_add(1);
        }
        // for the proof: clauses speak of the bytes that were taken
        self.log.note(&bytes[..taken]);
        Ok(taken)
    }
}
