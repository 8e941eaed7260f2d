//! The slave is closed.
ghost use Rattle.std.specs.Prelude.{◌≡◌, ◌≤◌, [], length, vec_capacity};
ghost use Rattle.slave_channels.specs.declared.sums.TheConstants.{LAST};
ghost use Rattle.slave_lending.specs.Lends.{Closes, NoneAway, NoneAwayOf};
ghost use Rattle.slave_lending.specs.Slots.{AreEndsOf};

use crate::lending_slave::LendingSlave;
use crate::slot::Slot;
use frame_ring::FrameSend;
use slave::Closed;
use tasks::TaskEnd;

/// What is left of all tasks, none of which is away: those that weren't handed out are finished. It
/// takes no memory, since `room` has a place for each.
fn ends_of(slots: Vec<Slot>, room: Vec<TaskEnd<FrameSend>>) -> Vec<TaskEnd<FrameSend>>
    requires none_away { NoneAwayOf slots.items }
    requires empty { room.items ≡ [] }
    requires room { length slots.items ≤ vec_capacity room }
    ensures { AreEndsOf slots.items result.items }
{
    let mut ends = room;
    for slot in slots {
        ends.push_reserved(slot.into_end());
    }
    ends
}

impl LendingSlave {
    /// Closes the slave, as `Slave::close`, with what is left of its tasks: none of them is away,
    /// and those that weren't handed out are finished. It takes no memory.
    pub fn close(self) -> Closed
        requires none_away { NoneAway self }
        ensures closes { Closes self result.account result.is_whole result.complete }
        ensures many { length result.complete.last ≡ LAST }
    {
        let LendingSlave {
            slave,
            stream: _,
            slots,
            room,
        } = self;
        slave.close(ends_of(slots, room))
    }
}
