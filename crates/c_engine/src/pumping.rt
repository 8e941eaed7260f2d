//! A pump, and its frames into a buffer.

ghost use Rattle.c_engine.specs.Engines.{PumpsEngine};

use crate::held_engine::HeldEngine;
use crate::pumped_out::PumpedOut;
use crate::status::Status;
use channel_ring::TakeEnd;
use daq_engine::Ring;
use frame_writer::{Out, SinkOut};

/// The bytes that one pump writes at most: of 8 event channels a sample of 8 packets each, of 64
/// bytes behind a header of 4.
pub const PUMP_BYTES: usize = 4352;

/// Pumps, and puts the frames into the front of the buffer.
pub fn pump<R: Ring>(
    engine: &mut HeldEngine<R>,
    buffer: &mut [u8],
    len: &mut usize,
    pumped: &mut PumpedOut,
) -> Status
    ensures { PumpsEngine ⟦<SinkOut as Out>⟧ R.Take.TakeEnd engine.old engine.new
        (record { buffer = buffer.old; len = len.old; pumped = pumped.old })
        (record { buffer = buffer.new; len = len.new; pumped = pumped.new }) result }
{
    if buffer.len() < PUMP_BYTES {
        return Status::SmallBuffer;
    }
    match engine.transmitter.pump_into(buffer) {
        Ok((done, count)) => {
            *len = count;
            *pumped = PumpedOut::of(done);
            Status::Ok
        }
        Err(_) => Status::Spent,
    }
}
