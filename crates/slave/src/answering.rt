//! A packet is answered: the lists that it stops are stopped, and the reply is laid out.
ghost use Rattle.std.specs.Prelude.{◌≡◌, true, Err, Some};
ghost use Rattle.session.specs.Standing.{given_by};
ghost use Rattle.slave_outbox.specs.Outboxes.{has_room};
ghost use Rattle.session.specs.Fields.{packet_of};
ghost use Rattle.slave.specs.Inner.{Answers, LaysReply, Settles};

use crate::slave::Slave;
use session::Cto;
use xcp_base::{ErrCode, ListSet};

impl Slave {
    /// Answers a packet whose lists were started.
    pub(crate) fn answer(&mut self, packet: &[u8], clock: u32, memory: &[&[u8]])
        requires room { has_room self.old.outbox ≡ true }
        ensures answers { Answers self.old self.new packet.now (given_by clock memory.now) }
        ensures shown_stays { self.new.outbox.shown ≡ self.old.outbox.shown }
        ensures profile_stays { self.new.session.profile ≡ self.old.session.profile }
        ensures acts_stay { self.new.acts ≡ self.old.acts }
        ensures next_stays { self.new.next ≡ self.old.next }
    {
        let before = self.session.running();
        let reply = self.session.answer(packet, clock, memory);
        let now = self.session.running();
        self.settle(before, now);
        self.lay(reply);
    }

    /// Lays the refusal of a start out.
    pub(crate) fn refuse(&mut self, code: ErrCode)
        requires room { has_room self.old.outbox ≡ true }
        ensures lays { LaysReply self.old.outbox self.new.outbox (Some (packet_of (Err code))) }
        ensures shown_stays { self.new.outbox.shown ≡ self.old.outbox.shown }
        ensures rest_stays { self.new ≡ record self.old { outbox = self.new.outbox } }
    {
        self.lay(Some(Cto::error(code)));
    }

    /// Stops the lists that ran before and don't now, and ends the measurement where none runs.
    pub(crate) fn settle(&mut self, before: ListSet, now: ListSet)
        ensures settles { Settles self.old.channels self.new.channels before now }
        ensures rest_stays { self.new ≡ record self.old { channels = self.new.channels } }
    {
        self.channels.stop_all(before.difference(now));
        if now.is_empty() {
            self.channels.end();
        }
    }

    /// Lays a reply out, if there is one.
    fn lay(&mut self, reply: Option<Cto>)
        requires room { has_room self.old.outbox ≡ true }
        ensures lays { LaysReply self.old.outbox self.new.outbox reply }
        ensures shown_stays { self.new.outbox.shown ≡ self.old.outbox.shown }
        ensures rest_stays { self.new ≡ record self.old { outbox = self.new.outbox } }
    {
        if let Some(reply) = reply {
            let _ = self.outbox.reply(reply.as_slice());
        }
    }
}
