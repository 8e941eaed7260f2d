//! What came back of the measurements at one event channel.
ghost use Rattle.std.specs.Prelude.{◌≡◌, ◌<◌, length, true, false};
ghost use Rattle.slave_channels.specs.Calls.{GivesBackNewer, GivesBackOlder, IsNewestAt};
ghost use Rattle.slave_channels.specs.Calls.{IsBeside, IsRingAt, KeepsNone, KeepsNoneWithin};
ghost use Rattle.slave_channels.specs.Calls.{KeepsOne, KeepsOneWithin};
ghost use Rattle.slave_channels.specs.Each.{IsOnlyAt};

use crate::Finished;
use crate::channels::Channels;
use frame_ring::FrameSend;
use tasks::TaskEnd;

impl Channels {
    /// Whether a part of a measurement is kept at an event channel: what is left of its sampler was
    /// not taken back.
    pub fn has_parts(&self) -> bool
        ensures none { result ≡ false → KeepsNone self.now }
        ensures some { result ≡ true → KeepsOne self.now }
    {
        for c in 0..self.all.len() {
            if self.all[c].has_parts() {
                return true;
            }
        }
        false
    }

    /// Whether a part is kept at an event channel of a measurement with a number from `from` to
    /// below `to`.
    pub fn has_parts_within(&self, from: u64, to: u64) -> bool
        ensures none { result ≡ false → KeepsNoneWithin from to self.now }
        ensures some { result ≡ true → KeepsOneWithin from to self.now }
    {
        for c in 0..self.all.len() {
            if self.all[c].has_part_within(from, to) {
                return true;
            }
        }
        false
    }

    /// The number of the last measurement with a part at event channel `c`, if that part is kept.
    pub fn newest(&self, c: usize) -> Option<u64>
        requires channel { c < length self.now }
        ensures number { IsNewestAt c self.now result }
    {
        self.all[c].newest()
    }

    /// Looks at all that the task of event channel `c` gave back so far, which was finished. From
    /// then on each of it is known to come.
    pub fn beside(&mut self, c: usize, end: &mut TaskEnd<FrameSend>)
        requires channel { c < length self.old }
        requires one_line { IsRingAt c self.old end.old.ring }
        ensures beside { IsOnlyAt (IsBeside end.old) c self.old self.new }
        ensures end_stays { end.new ≡ end.old }
    {
        self.all[c].beside(end);
    }

    /// What came back of the measurement before the last at event channel `c`.
    pub fn take_older(&mut self, c: usize) -> Option<Finished>
        requires channel { c < length self.old }
        ensures back { IsOnlyAt (GivesBackOlder result) c self.old self.new }
    {
        self.all[c].take_older()
    }

    /// What came back of the last measurement at event channel `c`.
    pub fn take_newer(&mut self, c: usize) -> Option<Finished>
        requires channel { c < length self.old }
        ensures back { IsOnlyAt (GivesBackNewer result) c self.old self.new }
    {
        self.all[c].take_newer()
    }
}
