//! The sample of a DAQ list that is due, made where the ring wants it.
ghost use Rattle.std.specs.Prelude.{◌≡◌};
ghost use Rattle.channel_ring.specs.Making.{ArePackets, FitsSample, SampleLimit};
ghost use Rattle.copy_plan.specs.Memory.{FitsMemory, image_in};
ghost use Rattle.copy_plan.specs.Packet.{packets};
ghost use Rattle.sampler.specs.Inner.Moments.{FitsMemory-prop};
ghost use Rattle.sampler.specs.Limits.{KeepsTo};

use channel_ring::SampleMaker;
use copy_plan::CopyPlan;
use xcp_base::{MemoryView, Packets};

/// What makes the packets of a list's sample, of memory as a trigger hands it in.
#[derive(Drop)]
pub struct DueSample<'a> {
    plan: &'a CopyPlan,
    memory: MemoryView<'a>,
    stamp: u32,
    marked: bool,
    ghost fits: { FitsMemory plan.now.channel plan.now.segments memory } by { FitsMemory-prop plan.now.channel plan.now.segments memory },
    ghost are: { ArePackets (packets plan.now
        (image_in plan.now.channel plan.now.segments memory) stamp marked) },
}

impl<'a> DueSample<'a> {
    /// The sample of a list, with the overload indication or without.
    pub fn of(plan: &'a CopyPlan, memory: MemoryView<'a>, stamp: u32, marked: bool) -> DueSample<'a>
        requires fits { FitsMemory plan.now.channel plan.now.segments memory }
        ensures packets { ⟦<DueSample<'a> as SampleMaker>⟧.packets result ≡ packets plan.now
            (image_in plan.now.channel plan.now.segments memory.entry) stamp marked }
        ensures keeps { (limit : SampleLimit) → KeepsTo limit plan.now
            → FitsSample limit (⟦<DueSample<'a> as SampleMaker>⟧.packets result) }
    {
        // for the proof: what a plan keeps to
        let _ = plan.odts();
        DueSample {
            plan,
            memory,
            stamp,
            marked,
        }
    }
}

impl<'a> SampleMaker for DueSample<'a> {
    ghost packets = { λ s. packets s.plan.now
        (image_in s.plan.now.channel s.plan.now.segments s.memory) s.stamp s.marked };

    fn count(&self) -> u8 {
        self.plan.odts() as u8
    }

    fn frames_len(&self) -> usize {
        self.plan.frames_len()
    }

    fn fill(&self, sample: &mut Packets) {
        // for the proof: what a plan keeps to
        let _ = self.plan.odts();
        self.plan
            .fill_into(sample, self.memory, self.stamp, self.marked);
    }

    fn lay_frames(&self, out: &mut [u8], at: usize) -> usize {
        // for the proof: how long the frames are
        let _ = self.plan.frames_len();
        self.plan
            .lay_frames(out, at, self.memory, self.stamp, self.marked)
    }

    ghost within = { λ s. s.are };
}
