//! Items are taken off the rings, and what waits is sent.
ghost use Rattle.std.specs.Prelude.{◌≡◌, ◌+◌, ◌*◌, ◌<◌, ◌≤◌, [], min, length, drop};
ghost use Rattle.std.specs.Prelude.{take as first};
ghost use Rattle.xcp_base.specs.declared.limits.TheConstants.{MAX_CHANNELS};
ghost use Rattle.frame_writer.specs.Frame.{text};
ghost use Rattle.slave_outbox.specs.Outboxes.{Shows, packets_in};
ghost use Rattle.slave.specs.Hearing.{GoesBy};
ghost use Rattle.slave.specs.Inner.{EndsRound, GoesRound, KeepsNewest, KeepsOlder};
ghost use Rattle.slave.specs.Inner.{LetsGoThere, LooksOlder, LooksOnce, acts_of};
ghost use Rattle.slave.specs.Log.{sending};
ghost use Rattle.slave.specs.Taking.{LetsGo, LooksThrough, TakesFairly, TakesItems};
ghost use Rattle.slave.specs.Taking.{most_taken};
ghost use Rattle.slave.specs.declared.limits.TheConstants.{MOST_ACTS, PER_ACT};

use crate::limits::PER_ACT;
use crate::round::{Round, is_full};
use crate::slave::Slave;
use slave_outbox::Step;

/// The most items that are taken off one ring in a call.
const MOST_ITEMS: usize = 1024;

/// What a step adds to `acts`: nothing if it took no item.
fn acts_of(step: Step) -> u64
    ensures value { result ≡ acts_of step }
    ensures limit { result ≤ PER_ACT }
{
    match step {
        Step::Nothing | Step::Full => 0,
        _ => PER_ACT,
    }
}

impl Slave {
    /// Takes items off the newest measurement's rings, round by round: in a round at most one of
    /// each, in rising event channel. It lays those samples out whose DAQ list runs, as long as
    /// their frames end within the page; the call ends at the first sample that finds no room, and
    /// the next call begins at that ring. Else it ends once a round over all rings found nothing,
    /// or after 1,024 rounds. So the rings take turns: over many calls none gives more than one
    /// item more than a ring in which each call leaves some (`laws::fair_shares`).
    ///
    /// First, up to 1,024 items are let go of each ring of the measurement before, so that its
    /// tasks' stops find room. It takes no memory, and nothing off the rings of a slave that is
    /// spent (`is_spent`).
    pub fn take(&mut self)
        ensures takes { TakesItems most_taken self.old self.new }
        ensures through { LooksThrough self.old self.new }
        ensures fair { TakesFairly self.old self.new }
        ensures lets_go { LetsGo self.old self.new }
    {
        self.let_go();
        let mut begin = self.next;
        let mut rounds = 0;
        while rounds < MOST_ITEMS {
            let round = self.round(begin);
            if round.is_last(begin) {
                return;
            }
            begin = 0;
            rounds += 1;
        }
    }

    /// Takes an item of each ring, from that of event channel `begin` on. It breaks off at a sample
    /// that finds no room, and notes its channel in `next`; else `next` is 0.
    fn round(&mut self, begin: usize) -> Round
        ensures takes { TakesItems MAX_CHANNELS self.old self.new }
        ensures ends { EndsRound self.old self.new begin result }
        ensures goes { GoesRound self.old self.new begin result }
        ensures older { KeepsOlder self.old self.new }
    {
        let before = self.acts;
        let len = self.channels.len();
        for c in begin.min(len)..len {
            let step = self.take_one(c);
            if is_full(step) {
                self.next = c;
                return Round::HeldUp;
            }
        }
        self.next = 0;
        if self.acts > before {
            return Round::Took;
        }
        Round::Empty
    }

    /// Takes up to 1,024 items of each ring of the measurement before the last.
    fn let_go(&mut self)
        ensures takes { TakesItems (1024 * MAX_CHANNELS) self.old self.new }
        ensures keeps { KeepsNewest self.old self.new }
        ensures goes { LetsGo self.old self.new }
    {
        for c in 0..self.channels.len() {
            self.take_from_older(c);
        }
    }

    /// Takes up to 1,024 items of the measurement before the last at event channel `c`.
    fn take_from_older(&mut self, c: usize)
        requires channel { c < length self.old.channels }
        ensures takes { TakesItems 1024 self.old self.new }
        ensures keeps { KeepsNewest self.old self.new }
        ensures goes { LetsGoThere self.old self.new c }
    {
        if self.channels.has_older(c) {
            self.empty_older(c);
        }
    }

    /// The same where it has a part there. It stands out of line, as that seldom is so.
    #[inline(never)]
    fn empty_older(&mut self, c: usize)
        requires channel { c < length self.old.channels }
        ensures takes { TakesItems 1024 self.old self.new }
        ensures keeps { KeepsNewest self.old self.new }
        ensures goes { LetsGoThere self.old self.new c }
    {
        let mut taken = 0;
        while taken < MOST_ITEMS {
            // never `Full`: no list of that measurement runs
            if let Step::Nothing | Step::Full = self.take_one_older(c) {
                return;
            }
            taken += 1;
        }
    }

    /// Counts so many acts more, if any.
    fn count(&mut self, acts: u64)
        requires limit { acts ≤ PER_ACT }
        requires below { self.old.acts < MOST_ACTS }
        ensures { self.new ≡ record self.old { acts = self.old.acts + acts } }
    {
        if acts > 0 {
            self.acts += acts;
        }
    }

    /// Takes the next item of the newest measurement at event channel `c`, if there is one.
    fn take_one(&mut self, c: usize) -> Step
        requires channel { c < length self.old.channels }
        ensures takes { TakesItems 1 self.old self.new }
        ensures looks { LooksOnce self.old self.new c result }
        ensures older { KeepsOlder self.old self.new }
    {
        if self.is_spent() {
            return Step::Nothing;
        }
        let step = self.channels.take(c, &mut self.outbox);
        self.count(acts_of(step));
        step
    }

    /// The same of the measurement before it.
    fn take_one_older(&mut self, c: usize) -> Step
        requires channel { c < length self.old.channels }
        ensures takes { TakesItems 1 self.old self.new }
        ensures keeps { KeepsNewest self.old self.new }
        ensures looks { LooksOlder self.old self.new c result }
    {
        if self.is_spent() {
            return Step::Nothing;
        }
        let step = self.channels.take_from_older(c, &mut self.outbox);
        self.count(acts_of(step));
        step
    }

    /// Copies as many whole frames as find room to the front of a buffer, in the order in which
    /// they were laid out, and returns how many bytes these are. They still wait: the next peek
    /// begins with the same, unless `sent` comes between. A sample may so go out in several
    /// datagrams.
    pub fn peek(&mut self, buffer: &mut [u8]) -> usize
        ensures shows { Shows self.old.outbox (length buffer.old) self.new.outbox.shown result }
        ensures bytes { first result buffer.new ≡ text self.old.outbox.counter
            (packets_in (first self.new.outbox.shown self.old.outbox.waits)) }
        ensures behind { drop result buffer.new ≡ drop result buffer.old }
        ensures outbox { self.new.outbox
            ≡ record self.old.outbox { shown = self.new.outbox.shown } }
        ensures stays { GoesBy self.old self.new [] }
        ensures profile_stays { self.new.session.profile ≡ self.old.session.profile }
        ensures acts_stay { self.new.acts ≡ self.old.acts }
        ensures next_stays { self.new.next ≡ self.old.next }
    {
        self.outbox.peek(buffer)
    }

    /// The frames that the last peek showed were sent, and wait no more.
    pub fn sent(&mut self)
        ensures sends { GoesBy self.old self.new
            (sending (min self.old.outbox.shown (length self.old.outbox.waits))) }
        ensures none_shown { self.new.outbox.shown ≡ 0 }
        ensures profile_stays { self.new.session.profile ≡ self.old.session.profile }
        ensures acts_stay { self.new.acts ≡ self.old.acts }
        ensures next_stays { self.new.next ≡ self.old.next }
    {
        self.outbox.sent();
    }
}
