//! The frames of a sample, laid out where they are wanted, with CTR 0.
ghost use Rattle.std.specs.Prelude.{◌≡◌, ℕ, ◌+◌, ◌*◌, ◌<◌, ◌≤◌, Bool, true, List, ◌++◌, length};
ghost use Rattle.std.specs.Prelude.{take};
ghost use Rattle.xcp_base.specs.declared.limits.TheConstants.{MAX_ODTS_IN_ALL, MAX_PACKET, SLACK};
ghost use Rattle.segments.specs.declared.segment.Segment.{Segment};
ghost use Rattle.daq_store.specs.Configuration.{is_ready};
ghost use Rattle.copy_plan.specs.Config.{plan_of};
ghost use Rattle.segments.specs.Image.{image_len};
ghost use Rattle.frame_writer.specs.Frame.{frame, unnumbered};
ghost use Rattle.copy_plan.specs.Frames.{frame_len, frames_len};
ghost use Rattle.copy_plan.specs.Memory.{FitsMemory, image_in};
ghost use Rattle.copy_plan.specs.Packet.{packet, packets};

use crate::plan::{CopyPlan, HEADER, frames_len_of};
use daq_store::ListConf;
use xcp_base::{MemoryView, put_copied, put_first, put_number};

/// The bytes of the frames of a sample of a DAQ list, as each plan of it has them.
pub fn sample_len(conf: &ListConf) -> usize
    ensures value { (l first_pid : ℕ) (segments : List Segment)
        → result ≡ frames_len (plan_of l conf.now first_pid segments) }
    ensures limit { (segments : List Segment) → is_ready segments conf.now ≡ true
        → result ≤ MAX_ODTS_IN_ALL * (4 + MAX_PACKET) }
{
    // for the proof: MAX_DTO, and how many ODTs there may be
    let _ = (conf.form(), conf.odts());
    frames_len_of(conf)
}

impl CopyPlan {
    /// The bytes of the frames of a sample.
    pub fn frames_len(&self) -> usize
        ensures value { result ≡ frames_len self.now }
        ensures law { (image : List ℕ) (stamp : ℕ) (overload : Bool)
            → length image ≡ image_len self.now.segments
            → result ≡ length (unnumbered (packets self.now image stamp overload)) }
    {
        self.frames_len
    }

    /// Lays the frames of a sample out, from `at` on, each with a CTR of 0, and answers where they
    /// end. They have the packets that `fill_into` makes. Up to `SLACK` bytes behind them are
    /// written over.
    pub fn lay_frames(
        &self,
        out: &mut [u8],
        at: usize,
        memory: MemoryView<'_>,
        stamp: u32,
        overload: bool,
    ) -> usize
        requires memory { FitsMemory self.now.channel self.now.segments memory }
        requires room { at + frames_len self.now + SLACK ≤ length out.old }
        ensures end { result ≡ at + frames_len self.now }
        ensures front { take result out.new ≡ take at out.old ++ unnumbered (packets self.now
            (image_in self.now.channel self.now.segments memory.entry) stamp overload) }
        ensures len { length out.new ≡ length out.old }
    {
        let odts = self.odts();
        // ODT 0 by itself, so that no other is looked at for a timestamp and an overload indication
        let mut end = self.lay_frame(out, at, memory, stamp, overload, 0);
        for k in 1..odts {
            end = self.lay_frame(out, end, memory, stamp, overload, k);
        }
        end
    }

    /// Lays the frame of an ODT out.
    ///
    /// It is compiled into each call: where `k` is not 0, nothing asks for a timestamp.
    #[inline(always)]
    fn lay_frame(
        &self,
        out: &mut [u8],
        at: usize,
        memory: MemoryView<'_>,
        stamp: u32,
        overload: bool,
        k: usize,
    ) -> usize
        requires memory { FitsMemory self.now.channel self.now.segments memory }
        requires odt { k < length self.now.odts }
        requires room { at + frame_len self.now k + SLACK ≤ length out.old }
        ensures end { result ≡ at + frame_len self.now k }
        ensures front { take result out.new ≡ take at out.old ++ frame 0 (packet self.now
            (image_in self.now.channel self.now.segments memory.entry) stamp overload k) }
        ensures len { length out.new ≡ length out.old }
    {
        let body = at + HEADER;
        // a whole word each, for what comes next to write over
        let stamp_at = put_first(out, body, self.field(k, overload), self.form.id.field_len());
        let copies_at = put_first(out, stamp_at, stamp.to_le_bytes(), self.stamp_len(k));
        let copies = self.copies_of(k);
        let end = put_copied(out, copies_at, memory, copies.offsets(), copies.stretches());
        // LEN, and a CTR of 0
        let header = ((end - body) as u32).to_le_bytes();
        put_number(out, at, &header);
        end
    }
}
