//! The rings of an engine whose samplers were all finished, emptied in rounds.

ghost use Rattle.c_engine.specs.Ends.{DrainsEngine};

use crate::held_engine::HeldEngine;
use crate::pumped_out::PumpedOut;
use crate::pumping::{PUMP_BYTES, pump};
use crate::status::Status;
use daq_engine::Ring;
use frame_writer::{Out, SinkOut};

/// Looks at all that was sent, and pumps where something is left.
pub fn drain<R: Ring>(
    engine: &mut HeldEngine<R>,
    buffer: &mut [u8],
    len: &mut usize,
    pumped: &mut PumpedOut,
    left: &mut bool,
) -> Status
    ensures { DrainsEngine ⟦<SinkOut as Out>⟧ R.Take.TakeEnd R.Send.SendEnd R.Send.End.RingEnd
        engine.old engine.new
        (record {
          frames = record { buffer = buffer.old; len = len.old; pumped = pumped.old };
          left = left.old;
        })
        (record {
          frames = record { buffer = buffer.new; len = len.new; pumped = pumped.new };
          left = left.new;
        })
        result }
{
    if buffer.len() < PUMP_BYTES {
        return Status::SmallBuffer;
    }
    if !engine.lending.collect() {
        return Status::Unfinished;
    }
    *left = engine.lending.look(&mut engine.transmitter);
    if *left {
        return pump(engine, buffer, len, pumped);
    }
    *len = 0;
    *pumped = PumpedOut::nothing();
    Status::Ok
}
