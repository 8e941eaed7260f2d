//! What the packet of a frame is.
ghost use Rattle.std.specs.Prelude.{◌≡◌};
ghost use Rattle.capture_story.specs.Kinds.{kind_of};

use captured_session::Side;

/// What a packet is (ASAM MCD-1 XCP, protocol layer, packet identifiers).
#[derive(Clone, Copy, Debug, PartialEq, Eq)]
pub enum FrameKind {
    /// A command.
    Command,
    /// STIM of the master.
    Stim,
    /// RES or ERR.
    Reply,
    /// EV.
    Event,
    /// SERV.
    Service,
    /// A packet of a DAQ list.
    Samples,
}

/// What a packet is, by who sent it and its first byte.
pub fn kind_of(side: Side, packet: &[u8]) -> FrameKind
    ensures { result ≡ kind_of side packet.now }
{
    match (side, packet) {
        (Side::Master, [0xC0..=0xFF, ..]) => FrameKind::Command,
        (Side::Master, _) => FrameKind::Stim,
        (Side::Slave, [0xFE..=0xFF, ..]) => FrameKind::Reply,
        (Side::Slave, [0xFD, ..]) => FrameKind::Event,
        (Side::Slave, [0xFC, ..]) => FrameKind::Service,
        (Side::Slave, _) => FrameKind::Samples,
    }
}
