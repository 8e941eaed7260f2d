//! A measurement is stopped or ended at all event channels.
ghost use Rattle.slave_channels.specs.Calls.{Ends, StopsAll};
ghost use Rattle.slave_channels.specs.Each.{IsEach};

use crate::Channel;
use crate::channels::Channels;
use xcp_base::ListSet;

/// Ends the measurement that is there at an event channel, if one is.
pub(crate) fn end_one(channel: &mut Channel)
    ensures ends { Ends channel.old channel.new }
{
    channel.end();
}

impl Channels {
    /// Orders, at each event channel, the stops of those of these DAQ lists that run. They always
    /// find places, and take no memory.
    pub fn stop_all(&mut self, lists: ListSet)
        ensures orders { IsEach (λ c. StopsAll lists) self.old self.new }
    {
        for c in 0..self.all.len() {
            self.all[c].stop_all(lists);
        }
    }

    /// Ends the measurement that is there at each event channel, if one is: each task gives back
    /// what is left of its sampler, as soon as it looks.
    pub fn end(&mut self)
        ensures ends { IsEach (λ c. Ends) self.old self.new }
    {
        for c in 0..self.all.len() {
            end_one(&mut self.all[c]);
        }
    }
}
