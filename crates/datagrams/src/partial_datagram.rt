//! A datagram that waits for parts.

use crate::ip_packet::{IpPacket, Part};
use crate::limits::MAX_DATAGRAM;
use crate::piece::Piece;
use crate::slots::{joined, make_places, put};
use crate::whole_datagram::WholeDatagram;
use std::alloc::{AllocError, Global};
use std::marker::Model;

/// A datagram that waits for parts: what came first at each place, and where it ends.
#[derive(Drop)]
pub struct PartialDatagram {
    from: Vec<u8>,
    to: Vec<u8>,
    protocol: u8,
    id: u32,
    slots: Vec<Option<u8>>,
    end: Option<usize>,
}

impl Model for PartialDatagram {
    ghost use Rattle.datagrams.specs.Waiting.{KeptOf};

    ghost Value = { KeptOf };

    ghost view = { λ a. record {
      key = record { from = a.from.items; to = a.to.items; protocol = a.protocol; id = a.id };
      slots = a.slots.items;
      end = a.end;
    } };
}

impl PartialDatagram {
    ghost use Rattle.std.specs.Prelude.{◌≡◌, ◌+◌, ◌≤◌, ◌^◌, ℕ, List, [], None, length};
    ghost use Rattle.std.specs.Prelude.{IfOk, IfSome, IsNone, OnErr, OnOk};
    ghost use Rattle.datagrams.specs.Inner.{GainsPiece, IsWholeWith, piece_shown};
    ghost use Rattle.datagrams.specs.Ip.{ip_of};
    ghost use Rattle.datagrams.specs.Parts.{KeyOf, key_of, same_key};
    ghost use Rattle.datagrams.specs.Whole.{whole_of};

    /// The datagram that a packet is a part of; none came yet.
    pub fn begin(
        alloc: Global,
        packet: &IpPacket<'_>,
        part: Part,
    ) -> Result<PartialDatagram, AllocError>
        ensures { IfOk result (λ it. it ≡ record {
          key = key_of (ip_of packet.now) part;
          slots = [];
          end = None;
        }) }
    {
        Ok(PartialDatagram {
            from: Vec::from_slice(alloc, packet.from)?,
            to: Vec::from_slice(alloc, packet.to)?,
            protocol: packet.protocol,
            id: part.id,
            slots: Vec::new(alloc),
            end: None,
        })
    }

    /// Whether a packet is a part of it.
    pub fn has_part(&self, packet: &IpPacket<'_>, part: Part) -> bool
        ensures { result ≡ same_key (key_of (ip_of packet.now) part) self.now.key }
    {
        packet.from == self.from.as_slice()
            && packet.to == self.to.as_slice()
            && packet.protocol == self.protocol
            && part.id == self.id
    }

    /// What it carries, if it is whole with this piece.
    pub fn whole_with(&self, alloc: Global, piece: Piece<'_>) -> Result<Option<Vec<u8>>, AllocError>
        ensures whole { IfOk result (λ it. IfSome it (λ bytes.
            IsWholeWith self.now (piece_shown piece.entry) bytes.items)) }
        ensures missing { IfOk result (λ it. IsNone it
            → (bytes : List ℕ) → IsWholeWith self.now (piece_shown piece.entry) bytes → ⊥) }
    {
        let Some(end) = self.end.or(piece.end) else {
            return Ok(None);
        };
        joined(alloc, &self.slots, piece, end)
    }

    /// Adds a piece. Out of memory it is as it was.
    pub fn add(&mut self, piece: Piece<'_>) -> Result<(), AllocError>
        requires { piece.at + length piece.bytes.now ≤ MAX_DATAGRAM }
        ensures ok { OnOk result (GainsPiece self.old self.new (piece_shown piece.entry)) }
        ensures err { OnErr result (self.new ≡ self.old) }
    {
        make_places(&mut self.slots, piece.at + piece.bytes.len())?;
        put(&mut self.slots, piece);
        self.end = self.end.or(piece.end);
        Ok(())
    }

    /// It is whole, and carries this.
    pub fn into_whole(self, payload: Vec<u8>) -> WholeDatagram
        ensures { whole_of result ≡ record {
          from = self.key.from;
          to = self.key.to;
          protocol = self.key.protocol;
          payload = payload.items;
        } }
    {
        WholeDatagram {
            from: self.from,
            to: self.to,
            protocol: self.protocol,
            payload,
        }
    }
}
