//! What came back of measurements is handed out.
ghost use Rattle.std.specs.Prelude.{◌≡◌, ℕ, ◌+◌, ◌*◌, ◌<◌, IsNone, OnSome, Some, length, slice_get};
ghost use Rattle.std.specs.Prelude.{true, false};
ghost use Rattle.xcp_base.specs.declared.limits.TheConstants.{MAX_CHANNELS};
ghost use Rattle.slave.specs.Finishing.{GaveAll, GivesBack, GivesBackBy, IsOfNewest};
ghost use Rattle.slave.specs.Hearing.{is_spent};
ghost use Rattle.slave.specs.declared.limits.TheConstants.{PER_ACT};
ghost use Rattle.slave.specs.Inner.{AllCame, Busy, Collects, Idle, IsOver, Notes, PartsGoBy};
ghost use Rattle.slave.specs.Inner.{TakesAll};
ghost use Rattle.slave.specs.Inner.{TakesOne};
ghost use Rattle.slave_channels.specs.Calls.{GivesBackNewer, GivesBackOlder};
ghost use Rattle.slave_channels.specs.Channels.{ChannelState};
ghost use Rattle.slave_channels.specs.Each.{IsOnlyAt};
ghost use Rattle.std.specs.Option.{is_some};

use crate::limits::PER_ACT;
use crate::slave::Slave;
use slave_channels::{Account, Finished};

/// Adds a part that came back to an account, if there is one.
fn note(account: &mut Account, part: &Option<Finished>)
    ensures { Notes account.old account.new part.now }
{
    if let Some(part) = part {
        account.add(part);
    }
}

impl Slave {
    /// What came back of a measurement that has ended, at event channel `c`: of the last two with a
    /// part there, the older first. Of the newest measurement it is while no list runs. Its task
    /// gives it back when it looks for orders, or never took it. `None` if nothing came back there,
    /// or there is no such event channel, or the slave is spent.
    ///
    /// A start that opens a measurement takes back what came back before.
    pub fn take_back(&mut self, c: usize) -> Option<Finished>
        ensures back { GivesBack self.old self.new c result }
        ensures gave_all { IsNone result → is_spent self.old ≡ false → (ch : ChannelState)
            → slice_get self.new.channels c ≡ Some ch → GaveAll self.new ch }
        ensures counts { OnSome result (self.new.acts ≡ self.old.acts + PER_ACT) }
        ensures acts_stay { IsNone result → self.new.acts ≡ self.old.acts }
        ensures next_stays { self.new.next ≡ self.old.next }
    {
        if self.is_spent() {
            return None;
        }
        let finished = self.back_at(c)?;
        self.acts += PER_ACT;
        Some(finished)
    }

    /// What came back at event channel `c`, which isn't counted yet.
    fn back_at(&mut self, c: usize) -> Option<Finished>
        ensures back { GivesBackBy PartsGoBy self.old self.new c result }
        ensures one { TakesOne c (is_some result) self.old self.new }
        ensures acts_stay { self.new.acts ≡ self.old.acts }
        ensures next_stays { self.new.next ≡ self.old.next }
    {
        if c >= self.channels.len() {
            return None;
        }
        if let Some(finished) = self.take_older(c) {
            return Some(finished);
        }
        if !self.is_over(c) {
            return None;
        }
        self.take_newer(c)
    }

    /// Whether the last measurement with a part at an event channel has ended: no list runs, or it
    /// isn't the newest.
    fn is_over(&self, c: usize) -> bool
        requires channel { c < length self.now.channels }
        ensures over { result ≡ true → IsOver self.now c }
        ensures busy { result ≡ false → Busy self.now.session }
        ensures newest { result ≡ false → (ch : ChannelState)
            → slice_get self.now.channels c ≡ Some ch → IsOfNewest self.now ch }
    {
        if self.is_idle() {
            return true;
        }
        let Some(number) = self.channels.newest(c) else {
            return false;
        };
        number.wrapping_add(1) != self.number
    }

    /// Takes back what came back, at all event channels.
    pub(crate) fn collect(&mut self)
        ensures collects { Collects (2 * MAX_CHANNELS) self.old self.new }
        ensures all { AllCame self.new }
    {
        for c in 0..self.channels.len() {
            self.collect_at(c);
        }
    }

    /// Takes back what came back at an event channel: of one measurement, or of two.
    pub(crate) fn collect_at(&mut self, c: usize)
        ensures collects { Collects 2 self.old self.new }
        ensures all { TakesAll c self.old self.new }
    {
        if self.collect_one(c) {
            let _ = self.collect_one(c);
        }
    }

    /// Takes back what came back of one measurement at an event channel, and frees it; and returns
    /// whether something did.
    fn collect_one(&mut self, c: usize) -> bool
        ensures collects { Collects 1 self.old self.new }
        ensures one { TakesOne c result self.old self.new }
    {
        let Some(part) = self.back_at(c) else {
            return false;
        };
        // for the proof: gives `finished`, the past that its sampler came to
        let _ = part.number();
        true
    }

    /// What came back of the one before the last with a part there.
    fn take_older(&mut self, c: usize) -> Option<Finished>
        requires channel { c < length self.old.channels }
        ensures back { GivesBackBy PartsGoBy self.old self.new c result }
        ensures acts_stay { self.new.acts ≡ self.old.acts }
        ensures next_stays { self.new.next ≡ self.old.next }
        ensures there { IsOnlyAt (GivesBackOlder result) c self.old.channels self.new.channels }
    {
        let part = self.channels.take_older(c);
        note(&mut self.account, &part);
        part
    }

    /// What came back of the last measurement with a part there, which has ended.
    fn take_newer(&mut self, c: usize) -> Option<Finished>
        requires over { IsOver self.old c }
        requires channel { c < length self.old.channels }
        ensures back { GivesBackBy PartsGoBy self.old self.new c result }
        ensures acts_stay { self.new.acts ≡ self.old.acts }
        ensures next_stays { self.new.next ≡ self.old.next }
        ensures there { IsOnlyAt (GivesBackNewer result) c self.old.channels self.new.channels }
    {
        let part = self.channels.take_newer(c);
        note(&mut self.account, &part);
        part
    }
}
