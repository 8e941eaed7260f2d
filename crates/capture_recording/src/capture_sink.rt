//! The trait of whoever is handed the samples of a capture.

use captured_samples::{KeptSamples, SampleSink};

/// What is handed the samples of a slave, and told when their packets were captured.
pub trait CaptureSink: SampleSink {
    ghost use Rattle.std.specs.Prelude.{List};
    ghost use Rattle.captured_samples.specs.Standing.{Told};

    /// What follows was captured at this time: nanoseconds since 1970-01-01, UTC. `None`: the
    /// capture doesn't tell.
    fn set_time(&mut self, nanoseconds: Option<i64>)
        ensures { (ts : List Told) → Self.told self.old ts → Self.told self.new ts };

    /// A frame of the slave or of its master, whole, before it is read.
    fn frame(&mut self, is_of_master: bool, counter: u16, packet: &[u8])
        ensures { (ts : List Told) → Self.told self.old ts → Self.told self.new ts };
}

/// No times are kept, and no frames.
impl CaptureSink for KeptSamples {
    fn set_time(&mut self, _nanoseconds: Option<i64>) {}

    fn frame(&mut self, _is_of_master: bool, _counter: u16, _packet: &[u8]) {}
}
