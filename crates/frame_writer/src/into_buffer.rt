//! The packets of a sample, or one packet, laid out where their frames are wanted.

use crate::layout::{MAX_SAMPLE_BYTES, place_frame, place_text, text_len};
use crate::sink_out::SinkOut;
use crate::writer::FrameWriter;
use xcp_base::Packets;

impl FrameWriter<SinkOut> {
    ghost use Rattle.std.specs.Prelude.{◌≡◌, ◌+◌, ◌<◌, ◌≤◌, ◌++◌, drop, false, length, take};
    ghost use Rattle.frame_writer.specs.Frame.{frame, text};
    ghost use Rattle.frame_writer.specs.Inner.{text_len};
    ghost use Rattle.frame_writer.specs.Sinks.{sink_writer};
    ghost use Rattle.frame_writer.specs.Writing.{after_frame, after_text};

    /// `send_all`, and lays the frames out in a buffer, from `at` on; answers where they end. So
    /// they are copied once. It never fails, since the writer takes all.
    pub fn send_into(&mut self, buffer: &mut [u8], at: usize, packets: &Packets) -> usize
        requires was_open { (sink_writer self.old).closed ≡ false }
        requires room { at + MAX_SAMPLE_BYTES ≤ length buffer.old }
        ensures sent { sink_writer self.new
            ≡ after_text (sink_writer self.old) packets.now }
        ensures frames { take result buffer.new ≡ take at buffer.old
            ++ text (sink_writer self.old).counter packets.now }
        ensures end { result ≡ at
            + length (text (sink_writer self.old).counter packets.now) }
        ensures within { result ≤ at + MAX_SAMPLE_BYTES }
        ensures behind { drop result buffer.new ≡ drop result buffer.old }
        ensures len { length buffer.new ≡ length buffer.old }
    {
        // for the proof: so many bytes are few
        text_len(packets);
        self.lay_out(buffer, at, packets)
    }

    /// `send`, and lays the frame out in a buffer, from `at` on; answers where it ends. The packet
    /// may have as many bytes as LEN can say. It never fails, since the writer takes all.
    pub fn send_one_into(&mut self, buffer: &mut [u8], at: usize, packet: &[u8]) -> usize
        requires was_open { (sink_writer self.old).closed ≡ false }
        requires not_empty { 0 < length packet.now }
        requires fits { length packet.now ≤ 65535 }
        requires room { at + 4 + length packet.now ≤ length buffer.old }
        ensures sent { sink_writer self.new ≡ after_frame (sink_writer self.old) packet.now }
        ensures frame { take result buffer.new ≡ take at buffer.old
            ++ frame (sink_writer self.old).counter packet.now }
        ensures end { result ≡ at + 4 + length packet.now }
        ensures behind { drop result buffer.new ≡ drop result buffer.old }
        ensures len { length buffer.new ≡ length buffer.old }
    {
        let end = place_frame(buffer, at, self.counter, packet);
        // for the proof: clauses speak of the bytes that were taken
        self.out.log.note(&buffer[at..end]);
        self.counter = self.counter.wrapping_add(1);
        end
    }

    /// `send_into` a buffer that has room for these frames.
    pub(crate) fn lay_out(&mut self, buffer: &mut [u8], at: usize, packets: &Packets) -> usize
        requires was_open { (sink_writer self.old).closed ≡ false }
        requires room { at + text_len packets.now ≤ length buffer.old }
        ensures sent { sink_writer self.new
            ≡ after_text (sink_writer self.old) packets.now }
        ensures frames { take result buffer.new ≡ take at buffer.old
            ++ text (sink_writer self.old).counter packets.now }
        ensures end { result ≡ at + text_len packets.now }
        ensures behind { drop result buffer.new ≡ drop result buffer.old }
        ensures len { length buffer.new ≡ length buffer.old }
    {
        let end = place_text(buffer, at, self.counter, packets);
        // for the proof: clauses speak of the bytes that were taken
        self.out.log.note(&buffer[at..end]);
        self.counter = self.counter.wrapping_add(packets.len() as u16);
        end
    }
}
