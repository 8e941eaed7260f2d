//! A pump whose frames go straight to a buffer.

use crate::faults::PumpFault;
use crate::pumped::Pumped;
use crate::pumped_all::NOTHING;
use crate::transmitter::Transmitter;
use channel_ring::{ItemTake, TakeEnd};
use frame_writer::{MAX_SAMPLE_BYTES, SinkOut};
use xcp_base::limits::{MAX_TAKEN, RUN_CHANNELS};

/// The bytes that a pump writes at most: the frames of a sample at their longest, for each event
/// channel.
pub const MAX_PUMP: usize = RUN_CHANNELS as usize * MAX_SAMPLE_BYTES;

impl<T: ItemTake> Transmitter<SinkOut, T> {
    ghost use Rattle.std.specs.Prelude.{◌≤◌, length, Ok, IfErr, IfOk};
    ghost use Rattle.transmitter.specs.Fills.{IsInFront};
    ghost use Rattle.transmitter.specs.Pumps.{IsPump};
    ghost use Rattle.transmitter.specs.Sinks.{RefusesFill, sink_transmitter};

    /// `pump`, and places the frames into the front of a buffer; answers what it did, and how many
    /// bytes these are.
    ///
    /// Each ring has its turn, so that `pump_all` then begins at ring 0. The writer can't fail, so
    /// `Failed` is never the answer. Refused as `pump` is; then nothing is taken, and the buffer is
    /// as it was.
    pub fn pump_into(&mut self, buffer: &mut [u8]) -> Result<(Pumped, usize), PumpFault>
        requires room { MAX_PUMP ≤ length buffer.old }
        ensures ok { IfOk result (λ done. IsPump
            (sink_transmitter T.TakeEnd self.old)
            (sink_transmitter T.TakeEnd self.new) (Ok done.0)) }
        ensures within { IfOk result (λ done. done.1 ≤ MAX_PUMP) }
        ensures front { IfOk result (λ done. IsInFront
            (sink_transmitter T.TakeEnd self.old).writer.out
            (sink_transmitter T.TakeEnd self.new).writer.out
            buffer.old buffer.new done.1) }
        ensures err { IfErr result (RefusesFill (sink_transmitter T.TakeEnd self.old)
            (sink_transmitter T.TakeEnd self.new) buffer.old buffer.new) }
    {
        if self.writer.closed() {
            return Err(PumpFault::Closed);
        }
        if self.taken >= MAX_TAKEN {
            return Err(PumpFault::Spent);
        }
        let mut pumped = NOTHING;
        let mut end = 0;
        // all fits, so each ring has its turn
        self.pump_on(0, buffer, &mut end, &mut pumped);
        self.next = 0;
        Ok((pumped.as_one(), end))
    }
}
