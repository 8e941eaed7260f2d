//! The packets of a sample, laid out in a buffer that may be too short for them.

use crate::layout::{MAX_SAMPLE_BYTES, text_len};
use crate::sink_out::SinkOut;
use crate::writer::FrameWriter;
use xcp_base::Packets;

impl FrameWriter<SinkOut> {
    ghost use Rattle.std.specs.Prelude.{◌≡◌, ◌+◌, ◌≤◌, ◌<◌, ◌++◌, drop, false, length, take, None};
    ghost use Rattle.std.specs.Prelude.{IfSome};
    ghost use Rattle.frame_writer.specs.Frame.{text};
    ghost use Rattle.frame_writer.specs.Sinks.{sink_writer};
    ghost use Rattle.frame_writer.specs.Writing.{after_text};

    /// `send_into` a buffer that may be too short: the frames are laid out from `at` on if there is
    /// room for all of them. Answers where they end; `None` if they don't fit, and then nothing was
    /// sent and the buffer is as it was.
    pub fn send_within(&mut self, buffer: &mut [u8], at: usize, packets: &Packets) -> Option<usize>
        requires was_open { (sink_writer self.old).closed ≡ false }
        requires inside { at ≤ length buffer.old }
        ensures sent { IfSome result (λ _. sink_writer self.new
            ≡ after_text (sink_writer self.old) packets.now) }
        ensures frames { IfSome result (λ end. take end buffer.new ≡ take at buffer.old
            ++ text (sink_writer self.old).counter packets.now) }
        ensures end { IfSome result (λ end. end ≡ at
            + length (text (sink_writer self.old).counter packets.now)) }
        ensures few { IfSome result (λ end. end ≤ at + MAX_SAMPLE_BYTES) }
        ensures inside { IfSome result (λ end. end ≤ length buffer.old) }
        ensures behind { IfSome result (λ end. drop end buffer.new ≡ drop end buffer.old) }
        ensures len { length buffer.new ≡ length buffer.old }

        ensures too_long { result ≡ None → length buffer.old
            < at + length (text (sink_writer self.old).counter packets.now) }
        ensures stays { result ≡ None
            → sink_writer self.new ≡ sink_writer self.old }
        ensures buffer_stays { result ≡ None → buffer.new ≡ buffer.old }
    {
        if buffer.len() - at < text_len(packets) {
            return None;
        }
        Some(self.lay_out(buffer, at, packets))
    }
}
