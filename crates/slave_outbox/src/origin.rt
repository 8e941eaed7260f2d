//! Where frames are from that wait: a reply's or a sample's.
ghost use Rattle.std.specs.Prelude.{◌≡◌};
ghost use Rattle.slave_outbox.specs.Origins.{is_reply};

/// Where frames are from.
#[derive(Clone, Copy, Debug, PartialEq, Eq)]
pub enum Origin {
    /// A reply to a master's command.
    Reply,
    /// A sample: of a measurement, by its number, of an event channel, and of a DAQ list.
    Sample(u64, u8, u8),
}

impl Origin {
    /// Whether it is a reply.
    pub fn is_reply(self) -> bool
        ensures { result ≡ is_reply self }
    {
        matches!(self, Origin::Reply)
    }
}
