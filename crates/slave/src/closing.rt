//! A slave is closed.
ghost use Rattle.std.specs.Prelude.{◌≡◌, ◌*◌, ◌<◌, length};
ghost use Rattle.slave_channels.specs.declared.sums.TheConstants.{LAST as OWN};
ghost use Rattle.xcp_base.specs.declared.limits.TheConstants.{MAX_CHANNELS};
ghost use Rattle.slave.specs.Closing.{AreEndsOf, Closes};
ghost use Rattle.slave.specs.Inner.{Collects, Gathers, GathersFirst, HasAll, HasComplete};
ghost use Rattle.slave_channels.specs.Calls.{IsBeside, IsRingAt};
ghost use Rattle.slave_channels.specs.Each.{IsOnlyAt};

use crate::complete::Complete;
use crate::slave::Slave;
use frame_ring::FrameSend;
use slave_channels::{Account, LAST};
use tasks::TaskEnd;

/// What a slave leaves.
#[derive(Drop)]
pub struct Closed {
    /// The account of the session.
    pub account: Account,
    /// Whether all that was handed to tasks came back, so that each measurement is in the account
    /// with all of its event channels.
    pub is_whole: bool,
    /// The same of the last four measurements, one by one, and of all before them.
    pub complete: Complete,
}

impl Slave {
    /// The account of the session so far: of each DAQ list what was due, written, dropped and left,
    /// over all parts of measurements that came back. A sample that was laid out counts as written,
    /// as long as its last packet isn't thrown away.
    pub fn account(&self) -> &Account
        ensures { result.now ≡ self.now.account }
    {
        &self.account
    }

    /// Closes the slave, and returns the account of the session. All DAQ lists stop, and what waits
    /// is thrown away and left, as by `hang_up`; then what came back of the tasks is taken back.
    ///
    /// The tasks are finished before, and what is left of each is handed in, in the order of the
    /// event channels: all that they gave back is in the account. What a task did not fetch is
    /// recalled; if it can't be, the account isn't whole.
    pub fn close(mut self, mut ends: Vec<TaskEnd<FrameSend>>) -> Closed
        requires tasks { AreEndsOf self.channels ends.items }
        ensures closes { Closes self ends.items
            result.account result.is_whole result.complete }
        ensures many { length result.complete.last ≡ OWN }
    {
        self.hang_up();
        self.gather_all(&mut ends);
        let is_whole = !self.channels.has_parts();
        let complete = self.complete();
        Closed {
            account: self.account,
            is_whole,
            complete,
        }
    }

    /// Of which measurements all parts came back.
    fn complete(&self) -> Complete
        ensures { HasComplete self.now.account.end self.now.channels result }
    {
        let first = self.account.end().saturating_sub(LAST);
        Complete {
            last: [
                self.has_all(first, first + 1),
                self.has_all(first + 1, first + 2),
                self.has_all(first + 2, first + 3),
                self.has_all(first + 3, first + 4),
            ],
            older: self.has_all(0, first),
        }
    }

    /// Whether all parts of the measurements with these numbers came back.
    fn has_all(&self, from: u64, to: u64) -> bool
        ensures { HasAll from to self.now.channels result }
    {
        !self.channels.has_parts_within(from, to)
    }

    /// Takes back, at all event channels, what their tasks gave back, which were finished.
    fn gather_all(&mut self, ends: &mut Vec<TaskEnd<FrameSend>>)
        requires tasks { AreEndsOf self.old.channels ends.old.items }
        ensures collects { Collects (2 * MAX_CHANNELS) self.old self.new }
        ensures gathers { GathersFirst (length self.old.channels) ends.old.items
            self.old self.new }
    {
        for c in 0..self.channels.len() {
            self.gather(c, &mut ends[c]);
        }
    }

    /// Takes back what the task of event channel `c` gave back, which was finished.
    fn gather(&mut self, c: usize, end: &mut TaskEnd<FrameSend>)
        requires channel { c < length self.old.channels }
        requires one_line { IsRingAt c self.old.channels end.old.ring }
        ensures collects { Collects 2 self.old self.new }
        ensures gathers { Gathers c end.old self.old self.new }
        ensures end_stays { end.new ≡ end.old }
    {
        self.look_beside(c, end);
        self.collect_at(c);
        self.look_beside(c, end);
    }

    /// Looks at all that the task of event channel `c` gave back, which was finished.
    fn look_beside(&mut self, c: usize, end: &mut TaskEnd<FrameSend>)
        requires channel { c < length self.old.channels }
        requires one_line { IsRingAt c self.old.channels end.old.ring }
        ensures collects { Collects 0 self.old self.new }
        ensures beside { IsOnlyAt (IsBeside end.old) c self.old.channels self.new.channels }
        ensures end_stays { end.new ≡ end.old }
    {
        self.channels.beside(c, end);
    }
}
