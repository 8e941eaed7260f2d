//! The items of the channel's rings are taken.
ghost use Rattle.std.specs.Prelude.{◌≡◌};
ghost use Rattle.slave_channels.specs.Channels.{TakesOf};

use crate::channel::Channel;
use crate::share::Share;
use slave_outbox::{Outbox, Step};
use xcp_base::ChannelId;

/// Takes the next item of a part's ring, if the part is there.
#[inline(always)]
fn take_of(part: &mut Option<Share>, c: ChannelId, outbox: &mut Outbox) -> Step
    ensures takes { TakesOf c part.old part.new outbox.old outbox.new result }
    ensures shown_stays { outbox.new.shown ≡ outbox.old.shown }
{
    match part {
        Some(share) => outbox.take(&mut share.intake, share.number, c.byte()),
        None => Step::Nothing,
    }
}

impl Channel {
    /// Takes the next item of the newest measurement's ring, if one is there, and lays a sample of
    /// a DAQ list that runs out, as one of event channel `c`. It takes no memory.
    pub fn take(&mut self, c: ChannelId, outbox: &mut Outbox) -> Step
        ensures takes { TakesOf c self.old.newer self.new.newer outbox.old outbox.new result }
        ensures rest_stays { self.new ≡ record self.old { newer = self.new.newer } }
        ensures shown_stays { outbox.new.shown ≡ outbox.old.shown }
    {
        take_of(&mut self.newer, c, outbox)
    }

    /// The same of the measurement before it. It has ended, so none of its lists runs and no sample
    /// is laid out; but while its ring is full its task can't carry out a stop.
    pub fn take_from_older(&mut self, c: ChannelId, outbox: &mut Outbox) -> Step
        ensures takes { TakesOf c self.old.older self.new.older outbox.old outbox.new result }
        ensures rest_stays { self.new ≡ record self.old { older = self.new.older } }
        ensures shown_stays { outbox.new.shown ≡ outbox.old.shown }
    {
        take_of(&mut self.older, c, outbox)
    }
}
