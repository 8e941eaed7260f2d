//! The master is lost, and what waits for it is thrown away.
ghost use Rattle.std.specs.Prelude.{◌≡◌, ◌++◌, [], ◌∷◌, length};
ghost use Rattle.slave_outbox.specs.Outboxes.{has_waiting, origins_in};
ghost use Rattle.slave.specs.Hearing.{GoesBy};
ghost use Rattle.slave.specs.Inner.{LeavesFirst, LeavesOne, PartsGoBy};
ghost use Rattle.slave.specs.Log.{Discarded, HungUp, discarding, losing};

use crate::slave::Slave;
use slave_outbox::Origin;
use xcp_base::{ListId, ListSet};

impl Slave {
    /// The transport was lost: it is as behind DISCONNECT, but nothing is replied; and what waits
    /// to be sent is thrown away, with a peek that wasn't sent, so that nothing of one master
    /// reaches the next. Samples that are thrown away are left, also one of which only some frames
    /// were sent: the others are never sent. The next frame has the CTR behind that of the last
    /// frame that was sent.
    pub fn hang_up(&mut self)
        ensures hangs_up { GoesBy self.old self.new
            (discarding (has_waiting self.old.outbox) ++ losing self.old.session.connected) }
        ensures none_waits { self.new.outbox.waits ≡ [] }
        ensures none_shown { self.new.outbox.shown ≡ 0 }
        ensures profile_stays { self.new.session.profile ≡ self.old.session.profile }
        ensures acts_stay { self.new.acts ≡ self.old.acts }
        ensures next_stays { self.new.next ≡ self.old.next }
    {
        self.disconnect();
        self.discard();
    }

    /// The master can't be followed any more: all DAQ lists stop and are given up, and no master is
    /// connected. So it is behind DISCONNECT, but nothing is replied. What waits to be sent waits
    /// on. While no master is connected, nothing changes.
    pub fn disconnect(&mut self)
        ensures disconnects { GoesBy self.old self.new (losing self.old.session.connected) }
        ensures outbox_stays { self.new.outbox ≡ self.old.outbox }
        ensures profile_stays { self.new.session.profile ≡ self.old.session.profile }
        ensures acts_stay { self.new.acts ≡ self.old.acts }
        ensures next_stays { self.new.next ≡ self.old.next }
    {
        if self.session.is_connected() {
            self.lose_master();
        }
    }

    /// The master that is connected is lost.
    fn lose_master(&mut self)
        ensures loses { PartsGoBy self.old self.new (HungUp ∷ []) }
        ensures outbox_stays { self.new.outbox ≡ self.old.outbox }
        ensures profile_stays { self.new.session.profile ≡ self.old.session.profile }
        ensures acts_stay { self.new.acts ≡ self.old.acts }
        ensures next_stays { self.new.next ≡ self.old.next }
    {
        let before = self.session.running();
        self.session.hang_up();
        self.settle(before, ListSet::none());
    }

    /// What waits is thrown away, if something does.
    fn discard(&mut self)
        ensures discards { GoesBy self.old self.new (discarding (has_waiting self.old.outbox)) }
        ensures none_waits { self.new.outbox.waits ≡ [] }
        ensures none_shown { self.new.outbox.shown ≡ 0 }
        ensures session_stays { self.new.session ≡ self.old.session }
        ensures acts_stay { self.new.acts ≡ self.old.acts }
        ensures next_stays { self.new.next ≡ self.old.next }
    {
        if !self.outbox.is_empty() {
            self.throw_away();
        }
    }

    /// What waits is thrown away.
    fn throw_away(&mut self)
        ensures discards { PartsGoBy self.old self.new (Discarded ∷ []) }
        ensures none_waits { self.new.outbox.waits ≡ [] }
        ensures none_shown { self.new.outbox.shown ≡ 0 }
        ensures session_stays { self.new.session ≡ self.old.session }
        ensures acts_stay { self.new.acts ≡ self.old.acts }
        ensures next_stays { self.new.next ≡ self.old.next }
    {
        self.leave_all();
        self.outbox.discard();
    }

    /// Each sample that waits, as a whole or in part, is left: its part is told, or the account.
    fn leave_all(&mut self)
        ensures leaves { LeavesFirst (length (origins_in self.old.outbox.waits))
            self.old self.new }
    {
        for i in 0..self.outbox.len() {
            let origin = self.outbox.origin(i);
            self.leave(origin);
        }
    }

    /// What is from there isn't sent. A sample is left: its part is told if it did not come back,
    /// and else the account.
    fn leave(&mut self, origin: Origin)
        ensures leaves { LeavesOne origin self.old self.new }
    {
        let Origin::Sample(number, c, list) = origin else {
            return;
        };
        let Some(l) = ListId::new(list) else {
            return;
        };
        if !self.channels.unsent(c, number, l) {
            self.account.unsent(number, l, 1);
        }
    }
}
