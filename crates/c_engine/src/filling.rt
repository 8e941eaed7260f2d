//! Pumps, as many as a buffer has room for.

ghost use Rattle.c_engine.specs.Fillings.{FillsEngine};

use crate::held_engine::HeldEngine;
use crate::pumped_all_out::PumpedAllOut;
use crate::status::Status;
use channel_ring::TakeEnd;
use daq_engine::Ring;
use frame_writer::{MAX_SAMPLE_BYTES, Out, SinkOut};

/// Pumps until nothing is left or the next sample doesn't fit, and puts the frames into the front
/// of the buffer.
pub fn fill<R: Ring>(
    engine: &mut HeldEngine<R>,
    buffer: &mut [u8],
    len: &mut usize,
    pumped: &mut PumpedAllOut,
) -> Status
    ensures { FillsEngine ⟦<SinkOut as Out>⟧ R.Take.TakeEnd engine.old engine.new
        (record { buffer = buffer.old; len = len.old; pumped = pumped.old })
        (record { buffer = buffer.new; len = len.new; pumped = pumped.new }) result }
{
    if buffer.len() < MAX_SAMPLE_BYTES {
        return Status::SmallBuffer;
    }
    match engine.transmitter.pump_all(buffer) {
        Ok((done, count)) => {
            *len = count;
            *pumped = PumpedAllOut::of(done);
            Status::Ok
        }
        Err(_) => Status::Spent,
    }
}
