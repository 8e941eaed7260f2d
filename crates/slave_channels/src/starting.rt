//! DAQ lists of a measurement are started at all event channels, or none.
ghost use Rattle.std.specs.Prelude.{◌≡◌, ◌≢◌, length, true, false};
ghost use Rattle.xcp_base.specs.Lists.{has_list};
ghost use Rattle.tasks.specs.Links.{CanStart};
ghost use Rattle.slave_channels.specs.Calls.{CanStartAll, HasNoPlaces, Looks, Starts, StartsAt};
ghost use Rattle.slave_channels.specs.Each.{IsEach};

use crate::Channel;
use crate::channels::Channels;
use xcp_base::ListSet;

/// Whether starts of these lists find places at an event channel, if they are any.
fn can_start_one(channel: &mut Channel, set: ListSet) -> bool
    ensures yes { result ≡ true → set ≢ 0 → CanStart channel.new.link.newer (has_list set) }
    ensures some { result ≡ false → set ≢ 0 }
    ensures no { result ≡ false → ¬ CanStart channel.new.link.newer (has_list set) }
    ensures looked { Looks channel.old channel.new }
{
    if set.is_empty() {
        return true;
    }
    channel.can_start(set)
}

/// Orders the starts of these lists at an event channel, if they are any.
fn start_one(channel: &mut Channel, set: ListSet)
    requires checked { set ≢ 0 → CanStart channel.old.link.newer (has_list set) }
    ensures starts { Starts set channel.old channel.new }
{
    if !set.is_empty() {
        channel.start_checked(set);
    }
}

impl Channels {
    /// Whether starts of the lists `lists[c]` find places at the task of each event channel `c`,
    /// with the stops of all lists that then run and an order to end. An empty set asks for none.
    pub fn can_start(&mut self, lists: &[ListSet]) -> bool
        requires lists { length lists.now ≡ length self.old }
        ensures yes { result ≡ true → CanStartAll lists.now self.new }
        ensures no { result ≡ false → HasNoPlaces lists.now self.new }
        ensures looked { IsEach (λ c. Looks) self.old self.new }
    {
        for c in 0..self.all.len() {
            if !can_start_one(&mut self.all[c], lists[c]) {
                return false;
            }
        }
        true
    }

    /// Orders the starts of the lists `lists[c]` at each event channel `c`, which were checked.
    pub fn start_checked(&mut self, lists: &[ListSet])
        requires lists { length lists.now ≡ length self.old }
        requires checked { CanStartAll lists.now self.old }
        ensures starts { IsEach (StartsAt lists.now) self.old self.new }
    {
        for c in 0..self.all.len() {
            start_one(&mut self.all[c], lists[c]);
        }
    }
}
