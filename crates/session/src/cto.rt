//! The packets of replies, and the bits and texts that stand in them.
ghost use Rattle.std.specs.Prelude.{◌≡◌, ◌+◌, ◌<◌, ◌≤◌, ◌∷◌, ◌++◌, Err, length};
ghost use Rattle.std.specs.Prelude.{if◌then◌else◌};
ghost use Rattle.daq_store.specs.Replies.{reply_bytes};
ghost use Rattle.session.specs.Fields.{IsReplyPacket, packet_of};
ghost use Rattle.session.specs.Replies.{key_byte, mode_bits};

use arrayvec::ArrayVec;
use daq_store::Reply;
use std::marker::Model;
use xcp_base::limits::MAX_CTO;
use xcp_base::{ErrCode, IdKind};

/// The packet of a reply: RES, FF and the bytes behind it, or ERR, FE and an error code; 1 to 255
/// bytes.
#[derive(Drop)]
pub struct Cto {
    bytes: ArrayVec<u8, MAX_CTO>,
}

impl Model for Cto {
    ghost use Rattle.std.specs.Prelude.{ℕ, List};

    ghost Value = { List ℕ };

    ghost use Rattle.session.specs.Fields.{IsReplyPacket};
    ghost use Rattle.xcp_base.specs.declared.limits.TheConstants.{MAX_CTO};

    ghost view = { λ a. a.bytes.items };

    ghost invariant = { λ a. IsReplyPacket MAX_CTO a.bytes.items };
}

impl Cto {
    /// Its bytes.
    pub fn as_slice(&self) -> &[u8]
        ensures value { result.now ≡ self.now }
        ensures packet { IsReplyPacket MAX_CTO result.now }
    {
        self.bytes.as_slice()
    }

    /// RES, with these bytes behind it.
    pub(crate) fn positive(bytes: &[u8]) -> Cto
        requires { length bytes.now < MAX_CTO }
        ensures { result ≡ 0xFF ∷ bytes.now }
    {
        Cto::with_text(bytes, &[])
    }

    /// RES, with these bytes behind it and then a text.
    pub(crate) fn with_text(bytes: &[u8], text: &[u8]) -> Cto
        requires { length bytes.now + length text.now < MAX_CTO }
        ensures { result ≡ 0xFF ∷ (bytes.now ++ text.now) }
    {
        let mut packet = ArrayVec::new();
        packet.push(0xFF);
        let _ = packet.try_extend_from_slice(bytes);
        let _ = packet.try_extend_from_slice(text);
        Cto { bytes: packet }
    }

    /// ERR, with an error code.
    pub fn error(code: ErrCode) -> Cto
        ensures { result ≡ packet_of (Err code) }
    {
        let mut packet = ArrayVec::new();
        packet.push(0xFE);
        packet.push(code.byte());
        Cto { bytes: packet }
    }

    /// The reply of the store.
    pub(crate) fn of_store(reply: Reply) -> Cto
        ensures value { result ≡ reply_bytes reply }
        ensures few { length result ≤ 8 }
    {
        match reply {
            Reply::Positive => Cto::positive(&[]),
            Reply::Started { first_pid } => Cto::positive(&[first_pid]),
            Reply::Read { size, ext, addr } => {
                let [a, b, c, d] = addr.to_le_bytes();
                Cto::positive(&[0xFF, size, ext, a, b, c, d])
            }
            Reply::Error(code) => Cto::error(code),
        }
    }
}

/// A bit, if it is set.
pub fn bit(set: bool, value: u8) -> u8
    ensures { result ≡ (if set then value else 0) }
{
    if set { value } else { 0 }
}

/// The bits of the mode that GET_DAQ_LIST_MODE shows.
pub fn mode_bits(selected: bool, stamped: bool, runs: bool) -> u8
    ensures { result ≡ mode_bits selected stamped runs }
{
    bit(selected, 0x01) + bit(stamped, 0x10) + bit(runs, 0x40)
}

/// DAQ_KEY_BYTE: the identification field.
pub fn key_byte(id: IdKind) -> u8
    ensures { result ≡ key_byte id }
{
    match id {
        IdKind::Absolute => 0x00,
        IdKind::RelativeByte => 0x40,
        IdKind::RelativeWord => 0x80,
    }
}
