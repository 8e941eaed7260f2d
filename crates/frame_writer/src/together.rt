//! The packets of a sample, sent together.
ghost use Rattle.std.specs.Prelude.{◌≡◌, ◌↔◌, false, true, IsErrOf, OnOk};
ghost use Rattle.frame_writer.specs.Writing.{FailsWithinText, after_text, state_of};

use crate::layout::{place_text, text_len, whole_frames};
use crate::out::Out;
use crate::writer::{FrameWriter, WriteFault, put_all};
use xcp_base::Packets;

impl<O: Out> FrameWriter<O> {
    /// Writes the packets of a sample as frames, one behind another. The writer is handed all of
    /// them together, and then what it did not take.
    ///
    /// Refused with `Closed` exactly where an earlier call failed, and with `Failed` where the
    /// writer fails or stalls in this call: then a proper prefix of these bytes was written, the
    /// counter rose by the frames of it that are whole, and nothing is written from then on, as if
    /// each packet had been sent by itself.
    pub fn send_all(&mut self, packets: &Packets) -> Result<(), WriteFault>
        ensures ok { OnOk result
            (state_of O.Out self.new ≡ after_text (state_of O.Out self.old) packets.now) }
        ensures stays_open { OnOk result ((state_of O.Out self.new).closed ≡ false) }

        ensures failed { IsErrOf result WriteFault.Failed
            → FailsWithinText (state_of O.Out self.old) (state_of O.Out self.new) packets.now }

        ensures closed { IsErrOf result WriteFault.Closed
            ↔ ((state_of O.Out self.old).closed ≡ true) }
        ensures closed_keeps { IsErrOf result WriteFault.Closed → self.new ≡ self.old }
    {
        if self.closed {
            return Err(WriteFault::Closed);
        }
        // for the proof: so many bytes are few
        text_len(packets);
        let end = place_text(&mut self.room, 0, self.counter, packets);
        let taken = put_all(&mut self.out, &self.room[..end]);
        if taken < end {
            return Err(self.break_off(whole_frames(packets, taken)));
        }
        self.counter = self.counter.wrapping_add(packets.len() as u16);
        Ok(())
    }
}
