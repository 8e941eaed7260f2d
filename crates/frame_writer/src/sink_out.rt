//! A writer that throws its bytes away, for frames that are laid out in a caller's buffer.
ghost use Rattle.std.specs.Prelude.{◌≡◌, []};
ghost use Rattle.frame_writer.specs.Streams.{sunk};

use crate::byte_log::ByteLog;
use crate::out::{Out, OutFault};

/// A writer that takes all that it is handed and keeps none of it: for whoever has the frames laid
/// out where they are wanted (`FrameWriter::send_into`). It never fails.
#[derive(Drop)]
pub struct SinkOut {
    pub(crate) log: ByteLog,
}

impl SinkOut {
    /// A writer that took nothing yet.
    pub fn new() -> SinkOut
        ensures { sunk result ≡ [] }
    {
        SinkOut {
            log: ByteLog::new(),
        }
    }
}

impl Out for SinkOut {
    ghost contents = { λ a. sunk a };

    ghost failures = { λ _. 0 };

    ghost stalls = { λ _. 0 };

    /// Takes all of the bytes.
    fn put(&mut self, bytes: &[u8]) -> Result<usize, OutFault> {
        // for the proof: clauses speak of the bytes that were taken
        self.log.note(bytes);
        Ok(bytes.len())
    }
}
