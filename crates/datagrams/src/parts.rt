//! Datagrams that come in parts.

use crate::ip_packet::{IpPacket, Part};
use crate::limits::{MAX_DATAGRAM, MAX_WAITING};
use crate::partial_datagram::PartialDatagram;
use crate::piece::Piece;
use crate::whole_datagram::WholeDatagram;
use std::alloc::{AllocError, Global};
use std::marker::Model;

/// Datagrams of which parts came, the oldest first, until they are whole.
#[derive(Drop)]
pub struct Parts {
    alloc: Global,
    waiting: Vec<PartialDatagram>,
    dropped: u64,
}

impl Model for Parts {
    ghost use Rattle.std.specs.Prelude.{◌≤◌, ◌<◌, ◌^◌, length};
    ghost use Rattle.datagrams.specs.Waiting.{PartsOf};
    ghost use Rattle.datagrams.specs.declared.limits.TheConstants.{MAX_WAITING};

    ghost Value = { PartsOf };

    ghost view = { λ a. record { waiting = a.waiting.items; dropped = a.dropped } };

    ghost invariant = { λ a. (length a.waiting.items ≤ MAX_WAITING) × (a.dropped < 2 ^ 64) };
}

impl Parts {
    ghost use Rattle.std.specs.Prelude.{◌≡◌, ◌+◌, ◌≤◌, ◌<◌, ℕ, List, [], length};
    ghost use Rattle.std.specs.Prelude.{IfOk, IfSome, IsNone, OnErr, OnOk};
    ghost use Rattle.datagrams.specs.Inner.{BeginsToWait, IsFirst, IsNew, piece_shown};
    ghost use Rattle.datagrams.specs.Ip.{ip_of};
    ghost use Rattle.datagrams.specs.Parts.{KeyOf, WaitOf, key_of, piece_of};
    ghost use Rattle.datagrams.specs.Waiting.{AreWaiting, TakesPacket, TakesPiece};
    ghost use Rattle.datagrams.specs.Whole.{handed_out};

    /// None came yet.
    pub fn new(alloc: Global) -> Parts
        ensures fresh { result ≡ record { waiting = []; dropped = 0 } }
        ensures stands { AreWaiting result [] }
    {
        Parts {
            alloc,
            waiting: Vec::new(alloc),
            dropped: 0,
        }
    }

    /// Takes a packet that carries a part of a datagram, and hands that out once it is whole. A
    /// packet that carries no part, or one that ends beyond the longest datagram, changes nothing.
    /// Out of memory nothing changes, and the packet may be handed in again.
    pub fn take(&mut self, packet: &IpPacket<'_>) -> Result<Option<WholeDatagram>, AllocError>
        ensures ok { IfOk result (λ d. (waits : List WaitOf) → AreWaiting self.old waits
            → TakesPacket waits (ip_of packet.now) (handed_out d) self.old self.new) }
        ensures err { OnErr result (self.new ≡ self.old) }
    {
        let Some(part) = packet.part else {
            return Ok(None);
        };
        let Some(piece) = Piece::of(packet, part) else {
            return Ok(None);
        };
        match place_of(&self.waiting, packet, part) {
            Some(place) => self.go_on(place, piece),
            None => self.begin(packet, part, piece),
        }
    }

    /// How many datagrams wait for parts.
    pub fn waiting(&self) -> usize
        ensures value { result ≡ length self.now.waiting }
        ensures few { result ≤ MAX_WAITING }
    {
        self.waiting.len()
    }

    /// How many were let go of, since more than `MAX_WAITING` would have waited.
    pub fn dropped(&self) -> u64
        ensures { result ≡ self.now.dropped }
    {
        self.dropped
    }

    /// A piece of the datagram that waits at a place.
    fn go_on(&mut self, place: usize, piece: Piece<'_>) -> Result<Option<WholeDatagram>, AllocError>
        requires waits { place < length self.old.waiting }
        requires within { piece.at + length piece.bytes.now ≤ MAX_DATAGRAM }
        ensures ok { IfOk result (λ d. (key : KeyOf) (waits : List WaitOf)
            → IsFirst key self.old.waiting place → AreWaiting self.old waits
            → TakesPiece waits key (piece_shown piece.entry) (handed_out d) self.old self.new) }
        ensures err { OnErr result (self.new ≡ self.old) }
    {
        let payload = self.waiting[place].whole_with(self.alloc, piece)?;
        if let Some(payload) = payload {
            let waiting = self.waiting.remove(place);
            return Ok(Some(waiting.into_whole(payload)));
        }
        let waiting = &mut self.waiting[place];
        waiting.add(piece)?;
        Ok(None)
    }

    /// A piece of a datagram of which none came yet.
    fn begin(
        &mut self,
        packet: &IpPacket<'_>,
        part: Part,
        piece: Piece<'_>,
    ) -> Result<Option<WholeDatagram>, AllocError>
        requires new { IsNew (key_of (ip_of packet.now) part) self.old.waiting }
        requires within { piece.at + length piece.bytes.now ≤ MAX_DATAGRAM }
        ensures ok { IfOk result (λ d. (waits : List WaitOf) → AreWaiting self.old waits
            → TakesPiece waits (key_of (ip_of packet.now) part) (piece_shown piece.entry)
            (handed_out d) self.old self.new) }
        ensures err { OnErr result (self.new ≡ self.old) }
    {
        let mut waiting = PartialDatagram::begin(self.alloc, packet, part)?;
        let payload = waiting.whole_with(self.alloc, piece)?;
        if let Some(payload) = payload {
            return Ok(Some(waiting.into_whole(payload)));
        }
        waiting.add(piece)?;
        self.wait(waiting)?;
        Ok(None)
    }

    /// One more waits, and if those are too many, the oldest is let go of.
    fn wait(&mut self, waiting: PartialDatagram) -> Result<(), AllocError>
        ensures ok { OnOk result (BeginsToWait waiting self.old self.new) }
        ensures err { OnErr result (self.new ≡ self.old) }
    {
        self.waiting.push(waiting)?;
        if self.waiting.len() > MAX_WAITING {
            let _oldest = self.waiting.remove(0);
            self.dropped = self.dropped.saturating_add(1);
        }
        Ok(())
    }
}

ghost use Rattle.std.specs.Prelude.{IfSome, IsNone};
ghost use Rattle.datagrams.specs.Inner.{IsFirst, IsNew};
ghost use Rattle.datagrams.specs.Ip.{ip_of};
ghost use Rattle.datagrams.specs.Parts.{key_of};

/// Where the datagram stands that a packet is a part of.
fn place_of(waiting: &[PartialDatagram], packet: &IpPacket<'_>, part: Part) -> Option<usize>
    ensures some { IfSome result (IsFirst (key_of (ip_of packet.now) part) waiting.now) }
    ensures none { IsNone result → IsNew (key_of (ip_of packet.now) part) waiting.now }
{
    for i in 0..waiting.len() {
        if waiting[i].has_part(packet, part) {
            return Some(i);
        }
    }
    None
}
