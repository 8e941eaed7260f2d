//! What a part of a datagram brings.

use crate::ip_packet::{IpPacket, Part};
use crate::limits::MAX_DATAGRAM;

/// What a part of a datagram brings.
#[derive(Clone, Copy)]
pub struct Piece<'b> {
    /// At which byte of the datagram's it begins.
    pub at: usize,
    /// Its bytes.
    pub bytes: &'b [u8],
    /// Where the datagram ends, if it tells that.
    pub end: Option<usize>,
}

impl<'b> Piece<'b> {
    ghost use Rattle.std.specs.Prelude.{◌≡◌, ◌+◌, ◌≤◌, ◌<◌, length, IfSome, IsNone};
    ghost use Rattle.datagrams.specs.Inner.{piece_shown};
    ghost use Rattle.datagrams.specs.Ip.{ip_of};
    ghost use Rattle.datagrams.specs.Parts.{byte_in, piece_of};

    /// That of a packet that is this part, if it ends within the longest datagram.
    pub fn of(packet: &IpPacket<'b>, part: Part) -> Option<Piece<'b>>
        ensures some { IfSome result (λ piece.
            piece_shown piece ≡ piece_of (ip_of packet.now) part) }
        ensures within { IfSome result (λ _.
            part.at + length packet.now.payload.now ≤ MAX_DATAGRAM) }
        ensures none { IsNone result → MAX_DATAGRAM < part.at + length packet.now.payload.now }
    {
        let bytes = packet.payload;
        let at = part.at as usize;
        if at > MAX_DATAGRAM || bytes.len() > MAX_DATAGRAM - at {
            return None;
        }
        let end = if part.is_last && !packet.is_cut {
            Some(at + bytes.len())
        } else {
            None
        };
        Some(Piece { at, bytes, end })
    }

    /// Its byte at a place of the datagram's, if it has one there.
    pub fn byte_at(self, i: usize) -> Option<u8>
        ensures { result ≡ byte_in (piece_shown self.entry) i }
    {
        if i < self.at {
            return None;
        }
        self.bytes.get(i - self.at).copied()
    }
}
