//! The items of one event channel's rings are taken.
ghost use Rattle.std.specs.Prelude.{◌≡◌, ◌<◌, Some, length, slice_get};
ghost use Rattle.std.specs.Option.{is_some};
ghost use Rattle.slave_channels.specs.Calls.{TakesFromNewer, TakesFromOlder};
ghost use Rattle.slave_channels.specs.Channels.{ChannelState};
ghost use Rattle.slave_channels.specs.Each.{IsOnlyAt};

use crate::channels::Channels;
use slave_outbox::{Outbox, Step};
use xcp_base::ChannelId;

impl Channels {
    /// Whether the measurement before the newest has a part at event channel `c`.
    pub fn has_older(&self, c: usize) -> bool
        requires channel { c < length self.now }
        ensures { (x : ChannelState) → slice_get self.now c ≡ Some x → result ≡ is_some x.older }
    {
        self.all[c].has_older()
    }

    /// Takes the next item of the newest measurement's ring at event channel `c`, if one is there,
    /// and lays a sample of a DAQ list that runs out. It takes no memory.
    pub fn take(&mut self, c: usize, outbox: &mut Outbox) -> Step
        requires channel { c < length self.old }
        ensures takes { IsOnlyAt (TakesFromNewer c outbox.old outbox.new result) c
            self.old self.new }
        ensures shown_stays { outbox.new.shown ≡ outbox.old.shown }
    {
        self.all[c].take(ChannelId::at(c), outbox)
    }

    /// The same of the measurement before it.
    pub fn take_from_older(&mut self, c: usize, outbox: &mut Outbox) -> Step
        requires channel { c < length self.old }
        ensures takes { IsOnlyAt (TakesFromOlder c outbox.old outbox.new result) c
            self.old self.new }
        ensures shown_stays { outbox.new.shown ≡ outbox.old.shown }
    {
        self.all[c].take_from_older(ChannelId::at(c), outbox)
    }
}
