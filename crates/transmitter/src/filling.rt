//! Pumps whose frames go straight to a buffer, as many as it has room for.

ghost use Rattle.std.specs.Prelude.{◌≡◌, ◌↔◌, IsTrue};

use crate::faults::PumpFault;
use crate::place::ToBuffer;
use crate::pumped_all::{NOTHING, PumpedAll};
use crate::transmitter::Transmitter;
use crate::turn::Turn;
use channel_ring::{ItemTake, TakeEnd};
use frame_writer::SinkOut;
use xcp_base::limits::MAX_TAKEN;
use xcp_base::with_list;

/// Whether a pump with turns at all rings took nothing.
fn found_nothing(from: usize, before: u64, taken: u64) -> bool
    ensures { IsTrue result ↔ ((from ≡ 0) × (taken ≡ before)) }
{
    from == 0 && taken == before
}

impl<T: ItemTake> Transmitter<SinkOut, T> {
    ghost use Rattle.std.specs.Prelude.{◌≡◌, ◌+◌, ◌*◌, ◌<◌, ◌≤◌, length};
    ghost use Rattle.std.specs.Prelude.{None, IfErr, IfOk, vec_len};
    ghost use Rattle.xcp_base.specs.declared.limits.TheConstants.{MAX_TAKEN};
    ghost use Rattle.frame_writer.specs.Sinks.{sink_writer};
    ghost use Rattle.frame_writer.specs.declared.layout.TheConstants.{MAX_SAMPLE_BYTES};
    ghost use Rattle.transmitter.specs.Fills.{FindsNoRoom};
    ghost use Rattle.transmitter.specs.Inner.Fits.{AreFew, HasTurns, LaysOn};
    ghost use Rattle.transmitter.specs.Sinks.{FillsFront, RefusesFill, sink_transmitter};

    /// Pumps again and again, until a pump finds nothing or the next sample's frames don't fit into
    /// the buffer; answers what the pumps did, and how many bytes their frames have in the front of
    /// the buffer.
    ///
    /// A sample that doesn't fit stays in its ring, and the next call goes on at this ring: so the
    /// items are taken in the order in which pumps take them. A buffer of `MAX_SAMPLE_BYTES`
    /// bytes has room for any sample. Refused as `pump_into` is; then nothing is taken, and the
    /// buffer is as it was.
    pub fn pump_all(&mut self, buffer: &mut [u8]) -> Result<(PumpedAll, usize), PumpFault>
        ensures ok { IfOk result (FillsFront (sink_transmitter T.TakeEnd self.old)
            (sink_transmitter T.TakeEnd self.new) buffer.old buffer.new) }
        ensures err { IfErr result (RefusesFill (sink_transmitter T.TakeEnd self.old)
            (sink_transmitter T.TakeEnd self.new) buffer.old buffer.new) }
    {
        if self.writer.closed() {
            return Err(PumpFault::Closed);
        }
        if self.taken >= MAX_TAKEN {
            return Err(PumpFault::Spent);
        }
        let mut pumped = NOTHING;
        let mut end = 0;
        let mut from = self.next;
        while self.taken < MAX_TAKEN {
            let before = pumped.taken;
            let stop = self.pump_on(from, buffer, &mut end, &mut pumped);
            if stop < self.ends.len() {
                self.next = stop;
                return Ok((pumped, end));
            }
            if found_nothing(from, before, pumped.taken) {
                self.next = 0;
                return Ok((pumped, end));
            }
            from = 0;
        }
        self.next = 0;
        Ok((pumped, end))
    }

    /// A pump's turns at the rings from `from` on; answers the ring at which the frames don't fit,
    /// or the number of rings.
    pub(crate) fn pump_on(
        &mut self,
        from: usize,
        buffer: &mut [u8],
        end: &mut usize,
        pumped: &mut PumpedAll,
    ) -> usize
        requires nothing_in_hand { self.old.hand ≡ None }
        requires taken { self.old.taken < MAX_TAKEN }
        requires inside { end.old ≤ length buffer.old }
        requires count { pumped.old.taken ≤ self.old.taken }
        requires long { 4 * pumped.old.frames ≤ end.old }
        ensures turns { HasTurns from result (sink_transmitter T.TakeEnd self.old)
            (sink_transmitter T.TakeEnd self.new) pumped.old pumped.new }
        ensures lays { LaysOn (sink_writer self.old.writer).out
            (sink_writer self.new.writer).out
            buffer.old buffer.new end.old end.new }
        ensures few { AreFew result pumped.old pumped.new end.old end.new }
        ensures long { 4 * pumped.new.frames ≤ end.new }
        ensures stop { result ≤ vec_len self.old.ends }
        ensures no_room { result < vec_len self.old.ends → FindsNoRoom result
            (sink_transmitter T.TakeEnd self.new) (length buffer.old) end.new }
        ensures short { result < vec_len self.old.ends
            → length buffer.old < end.new + MAX_SAMPLE_BYTES }
        ensures as_many { vec_len self.new.ends ≡ vec_len self.old.ends }
    {
        let rings = self.ends.len();
        if from >= rings {
            return rings;
        }
        for c in from..rings {
            match self.turn::<ToBuffer>(c, buffer, end) {
                Turn::Nothing => {}
                Turn::Wrote(frames) => {
                    pumped.taken += 1;
                    pumped.frames += frames as u64;
                }
                Turn::Stopped(list) => {
                    pumped.taken += 1;
                    pumped.stopped = with_list(pumped.stopped, list);
                }
                Turn::Stays => return c,
            }
        }
        rings
    }
}
