//! A part of a measurement that came back, and the line of each of its DAQ lists.
use crate::opened_with::OpenedWith;
use daq_engine::ListReport;
use frame_ring::FrameLeft;
use sampler::SamplerEnd;
use slave_outbox::Intake;
use std::marker::Model;
use xcp_base::ListId;

/// An event channel's part of a measurement that has ended, with what is left of its sampler: what
/// became of the samples of each of its DAQ lists.
#[derive(Drop)]
pub struct Finished {
    pub(crate) number: u64,
    pub(crate) opened: OpenedWith,
    pub(crate) end: SamplerEnd<FrameLeft>,
    pub(crate) intake: Intake,
}

impl Model for Finished {
    ghost use Rattle.slave_channels.specs.Channels.{FinishedState, IsFinished};
    ghost use Rattle.slave_channels.specs.Codes.{end_codes};

    ghost Value = { FinishedState };

    ghost coded = { Prim.hlevel end_codes };

    ghost view = { λ f. record {
      number = f.number;
      opened = f.opened;
      end = f.end;
      intake = f.intake;
    } };

    ghost invariant = { λ f. IsFinished
        (record { number = f.number; opened = f.opened; end = f.end; intake = f.intake }) };
}

impl Finished {
    ghost use Rattle.std.specs.Prelude.{◌≡◌, IfSome, IsNone, None};
    ghost use Rattle.sampler.specs.State.{counts_at};
    ghost use Rattle.slave_outbox.specs.Accounts.{no_line};
    ghost use Rattle.slave_channels.specs.Channels.{HasLine, IsFinished};

    /// The measurement's number.
    pub fn number(&self) -> u64
        ensures number { result ≡ self.now.number }
        // what is left of the sampler says which past it came to
        ensures finished { IsFinished self.now }
    {
        self.number
    }

    /// What became of the samples of a DAQ list, if it is of the event channel. What was taken off
    /// the ring and not written is left, like what wasn't taken.
    pub fn line(&self, l: ListId) -> Option<ListReport>
        ensures none { IsNone result → counts_at self.now.end l ≡ None }
        // none of its samples was due then, so its line would be of zeros
        ensures nothing { IsNone result → HasLine self.now l (no_line l) }
        ensures line { IfSome result (HasLine self.now l) }
    {
        self.intake.line(&self.end, l)
    }
}
