//! The trait of what a capture is shown on.

use capture_recording::CaptureSink;
use std::io;

/// What a capture is shown on: it is handed the samples, and printed behind the last one.
pub trait CaptureSheet: CaptureSink {
    /// Prints what isn't printed yet; refused if that, or what came before, can't be printed.
    fn print(self) -> io::Result<()>;
}
