//! Orders of one command about many DAQ lists.
ghost use Rattle.std.specs.Prelude.{◌≡◌, ◌≢◌, ℕ, ◌+◌, ◌<◌, ◌&&◌, true, false};
ghost use Rattle.xcp_base.specs.declared.limits.TheConstants.{MAX_LISTS};
ghost use Rattle.xcp_base.specs.Lists.{has_list};
ghost use Rattle.slave_outbox.specs.Deeds.{Started, Stopped};
ghost use Rattle.tasks.specs.Links.{CanStart, LooksAtNewest, is_running};
ghost use Rattle.channel_ring.specs.declared.order.Order.TheVariants.{Start, Stop};
ghost use Rattle.slave_channels.specs.Ordering.{OrdersAll, from_on, one_if};
ghost use Rattle.slave_channels.specs.Ordering.{starts_noted, starts_sent, stops_noted, stops_sent};

use crate::channel::Channel;
use xcp_base::limits::MAX_LISTS;
use xcp_base::{ListId, ListSet};

impl Channel {
    /// Orders the starts of these DAQ lists, which were checked by `can_start`. It takes no memory.
    pub fn start_checked(&mut self, lists: ListSet)
        requires checked { CanStart self.old.link.newer (has_list lists) }
        ensures orders { OrdersAll self.old self.new
            (starts_sent (has_list lists) MAX_LISTS) (starts_noted (has_list lists) MAX_LISTS) }
    {
        for l in 0..MAX_LISTS {
            self.start_one(lists, ListId::at(l));
        }
    }

    /// Orders the stops of those of these DAQ lists that run. They always find places, and take no
    /// memory.
    pub fn stop_all(&mut self, lists: ListSet)
        ensures orders { OrdersAll self.old self.new
            (stops_sent (λ l. has_list lists l && is_running self.old.link.newer l) MAX_LISTS)
            (stops_noted (λ l. has_list lists l && is_running self.old.link.newer l) MAX_LISTS) }
    {
        let stopped = lists.intersection(self.running());
        for l in 0..MAX_LISTS {
            let list = ListId::at(l);
            self.stop_one(stopped.has_list(list), list);
        }
    }

    /// Orders the start of a list, if it is among these; those behind it can still be started.
    fn start_one(&mut self, lists: ListSet, l: ListId)
        requires checked { CanStart self.old.link.newer (from_on l (has_list lists)) }
        ensures orders { OrdersAll self.old self.new
            (one_if (has_list lists l) (Start l)) (one_if (has_list lists l) (Started l)) }
        ensures behind { CanStart self.new.link.newer (from_on (l + 1) (has_list lists)) }
    {
        if lists.has_list(l) {
            self.start(l);
        }
    }

    /// Orders the stop of a list, if it is wanted.
    fn stop_one(&mut self, wanted: bool, l: ListId)
        requires runs { wanted ≡ true → is_running self.old.link.newer l ≡ true }
        ensures orders { OrdersAll self.old self.new
            (one_if wanted (Stop l)) (one_if wanted (Stopped l)) }
        ensures others { (k : ℕ) → k ≢ l
            → is_running self.new.link.newer k ≡ is_running self.old.link.newer k }
    {
        if wanted {
            self.stop(l);
        }
    }
}
