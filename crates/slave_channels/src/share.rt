//! What the slave keeps of a measurement at one event channel until it comes back.
use crate::opened_with::OpenedWith;
use slave_outbox::Intake;
use std::marker::Model;

/// An event channel's part of a measurement: the measurement's number, what the part was opened
/// with, and the intake of the channel's ring.
#[derive(Drop)]
pub struct Share {
    pub(crate) number: u64,
    pub(crate) opened: OpenedWith,
    pub(crate) intake: Intake,
}

impl Model for Share {
    ghost use Rattle.slave_channels.specs.Channels.{ShareState};

    ghost Value = { ShareState };

    ghost view = { λ s. record { number = s.number; opened = s.opened; intake = s.intake } };
}
