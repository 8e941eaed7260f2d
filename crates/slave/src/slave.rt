//! What a slave is made of: session, outbox, event channels, account.
use crate::plan::Plan;
use session::Session;
use slave_channels::{Account, Channels};
use slave_outbox::Outbox;
use std::marker::Model;

/// The transmitter's thread of an XCP slave: the session with its master, the event channels, and
/// the frames that wait to be sent.
///
/// Contracts speak of a slave by its log, what it did so far: it *stands after* it.
#[derive(Drop)]
pub struct Slave {
    pub(crate) session: Session,
    pub(crate) outbox: Outbox,
    pub(crate) channels: Channels,
    pub(crate) caps: Vec<usize>,
    pub(crate) plan: Plan,
    pub(crate) number: u64,
    pub(crate) account: Account,
    // what the acts so far count as, at least: see `limits`
    pub(crate) acts: u64,
    // the event channel at which the next round begins: the last one broke off there
    pub(crate) next: usize,
}

impl Model for Slave {
    ghost use Rattle.std.specs.Prelude.{◌≡◌, ◌+◌, ◌<◌, length};
    ghost use Rattle.slave.specs.Openings.{capacities_of};
    ghost use Rattle.slave.specs.Standing.{SlaveState};
    ghost use Rattle.slave.specs.declared.limits.TheConstants.{MOST_ACTS, PER_PACKET};
    ghost use Rattle.slave_channels.specs.Codes.{end_codes};

    ghost Value = { SlaveState };

    ghost coded = { Prim.hlevel end_codes };

    ghost view = { λ s. record {
      session = s.session;
      outbox = s.outbox;
      channels = s.channels;
      plan = s.plan;
      number = s.number;
      account = s.account;
      acts = s.acts;
      next = s.next;
    } };

    ghost invariant = { λ s. (length s.caps.items ≡ length s.channels)
        × (s.acts < MOST_ACTS + PER_PACKET)
        × (s.caps.items ≡ capacities_of s.session.profile) };
}
