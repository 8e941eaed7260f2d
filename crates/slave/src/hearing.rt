//! The packets of the master are heard.
ghost use Rattle.std.specs.Prelude.{◌≡◌, ◌+◌, ◌<◌, true, false};
ghost use Rattle.session.specs.Standing.{given_by};
ghost use Rattle.slave_outbox.specs.Outboxes.{has_room};
ghost use Rattle.slave.specs.Hearing.{Hears, is_spent, may_hear};
ghost use Rattle.slave.specs.Inner.{counting};
ghost use Rattle.slave.specs.declared.limits.TheConstants.{MOST_ACTS, PER_PACKET};

use crate::limits::{MOST_ACTS, PER_PACKET};
use crate::slave::Slave;
use std::alloc::Global;

impl Slave {
    /// Whether it did so much that it hears and takes nothing any more: it counted some 2^57 acts,
    /// of which a packet counts as 128 and an item as 126. What waits is still sent.
    pub fn is_spent(&self) -> bool
        ensures { result ≡ is_spent self.now }
    {
        self.acts >= MOST_ACTS
    }

    /// Whether it hears a packet: it isn't spent, and there is room for one more reply.
    pub fn has_room(&self) -> bool
        ensures { result ≡ may_hear self.now }
    {
        if self.is_spent() {
            return false;
        }
        self.outbox.has_room()
    }

    /// Hears a packet of the master, which came at this clock, with memory as it is then, and lays
    /// the reply out, if there is one; and returns whether there was room for a reply, and the
    /// slave isn't spent. If not, the packet isn't heard.
    ///
    /// What reads variables without a DAQ list reads them off `memory`, a slice for each segment.
    /// If that of its segment has another length, or isn't there, the answer is ERR_ACCESS_DENIED.
    ///
    /// A start is refused, beside what a session refuses, in this order: with ERR_SEQUENCE if a
    /// list isn't set up as it was when the measurement was opened; with ERR_CMD_BUSY if a task has
    /// no place for its orders, or two measurements of an event channel are out; with
    /// ERR_MEMORY_OVERFLOW if a list that it starts has a sample that is longer than its ring, or
    /// if there is no memory for a measurement, or, before or behind that, with ERR_CMD_BUSY if a
    /// task is at its place just then. Then nothing is started.
    pub fn hear(&mut self, alloc: Global, packet: &[u8], clock: u32, memory: &[&[u8]]) -> bool
        ensures room { result ≡ may_hear self.old }
        ensures stays { result ≡ false → self.new ≡ self.old }
        ensures heard { result ≡ true
            → Hears self.old self.new packet.now (given_by clock memory.now) }
        ensures counts { result ≡ true → self.new.acts ≡ self.old.acts + PER_PACKET }
        ensures shown_stays { self.new.outbox.shown ≡ self.old.outbox.shown }
        ensures profile_stays { self.new.session.profile ≡ self.old.session.profile }
        ensures next_stays { self.new.next ≡ self.old.next }
    {
        if !self.has_room() {
            return false;
        }
        self.hear_one(alloc, packet, clock, memory);
        self.acts += PER_PACKET;
        true
    }

    /// Hears a packet, and doesn't count it yet.
    fn hear_one(&mut self, alloc: Global, packet: &[u8], clock: u32, memory: &[&[u8]])
        requires room { has_room self.old.outbox ≡ true }
        ensures heard { Hears self.old (counting self.new PER_PACKET) packet.now
            (given_by clock memory.now) }
        ensures shown_stays { self.new.outbox.shown ≡ self.old.outbox.shown }
        ensures profile_stays { self.new.session.profile ≡ self.old.session.profile }
        ensures acts_stay { self.new.acts ≡ self.old.acts }
        ensures next_stays { self.new.next ≡ self.old.next }
    {
        let lists = self.session.starts_of(packet);
        match self.prepare(alloc, lists) {
            Ok(()) => self.answer(packet, clock, memory),
            Err(code) => self.refuse(code),
        }
    }
}
