//! The frames of a master, put together from bytes that come in pieces.
ghost use Rattle.std.specs.Prelude.{◌≡◌, ◌≤◌, ◌<◌, ◌+◌, [], ◌∷◌, IsErr, IfOk, OnErr};
ghost use Rattle.std.specs.Prelude.{IsSome, IsNone, length, take, true, false};
ghost use Rattle.frame_writer.specs.Reading.{ReaderStandsAfter, Leads, packet_list};
ghost use Rattle.frame_writer.specs.Reading.{IsBadAfter, given_of};

use crate::fed::{BadFrame, Fed};
use crate::reach::{Reach, how_far};
use arrayvec::ArrayVec;
use std::marker::Model;
use xcp_base::limits::MAX_CTO;

/// The longest frame of a master, whatever MAX_CTO is, in bytes.
const MAX_FRAME: usize = 4 + MAX_CTO;

/// What is held of a frame whose bytes come in pieces.
///
/// Contracts speak of a reader by all bytes that it took, and the packets that it gave of them: it
/// *stands after* them. Once a frame is bad, it is closed for good.
#[derive(Drop)]
pub struct FrameReader {
    held: ArrayVec<u8, MAX_FRAME>,
    closed: bool,
    max_cto: u8,
}

impl Model for FrameReader {
    ghost use Rattle.frame_writer.specs.Reading.{ReaderState, IsReader};

    ghost Value = { ReaderState };

    ghost view = { λ a. record { held = a.held.items; closed = a.closed; max_cto = a.max_cto } };

    ghost invariant = { λ a. IsReader (record {
      held = a.held.items;
      closed = a.closed;
      max_cto = a.max_cto;
    }) };
}

impl FrameReader {
    /// A reader that took no byte, of packets of at most `max_cto` bytes.
    pub fn new(max_cto: u8) -> FrameReader
        ensures fresh { ReaderStandsAfter result [] [] }
        ensures stays_open { result.closed ≡ false }
        ensures max_cto { result.max_cto ≡ max_cto }
    {
        FrameReader {
            held: ArrayVec::new(),
            closed: false,
            max_cto,
        }
    }

    /// Whether a frame was bad.
    pub fn is_closed(&self) -> bool
        ensures { result ≡ self.now.closed }
    {
        self.closed
    }

    /// How many bytes are held: less than a frame.
    pub fn held(&self) -> usize
        ensures value { result ≡ length self.now.held }
        ensures limit { result < 4 + self.now.max_cto }
    {
        self.held.len()
    }

    /// Takes bytes up to the end of the frame that they end, or else all of them, and gives the
    /// packet of that frame (ASAM MCD-1 XCP, transport layer for Ethernet, header). CTR is not
    /// looked at.
    ///
    /// Refused if a frame is bad: as soon as its LEN is there, and for good from then on; then
    /// nothing is taken any more.
    pub fn feed(&mut self, bytes: &[u8]) -> Result<Fed, BadFrame>
        ensures ok { IfOk result
            (λ fed. Leads self.old self.new (take fed.taken bytes.now) (given_of fed)) }
        ensures within { IfOk result (λ fed. fed.taken ≤ length bytes.now) }
        ensures all { IfOk result
            (λ fed. IsNone fed.packet → fed.taken ≡ length bytes.now) }
        ensures some { IfOk result (λ fed. IsSome fed.packet → 0 < fed.taken) }
        ensures ends { IfOk result (λ fed. IsSome fed.packet → self.new.held ≡ []) }
        ensures stays_open { IfOk result (λ _. self.new.closed ≡ false) }

        ensures bad { OnErr result (IsBadAfter self.old self.new bytes.now) }
        ensures closed { self.old.closed ≡ true → IsErr result }
        ensures closed_keeps { self.old.closed ≡ true → self.new ≡ self.old }
    {
        if self.closed {
            return Err(BadFrame);
        }
        for (i, byte) in bytes.iter().enumerate() {
            if let Some(packet) = self.push(*byte)? {
                return Ok(Fed {
                    taken: i + 1,
                    packet: Some(packet),
                });
            }
        }
        Ok(Fed {
            taken: bytes.len(),
            packet: None,
        })
    }

    /// Takes one byte, and gives the packet of the frame that it ends.
    fn push(&mut self, byte: u8) -> Result<Option<ArrayVec<u8, MAX_CTO>>, BadFrame>
        requires { self.old.closed ≡ false }
        ensures ok { IfOk result
            (λ given. Leads self.old self.new (byte ∷ []) (packet_list given)) }
        ensures ends { IfOk result (λ given. IsSome given → self.new.held ≡ []) }
        ensures bad { OnErr result (Leads self.old self.new (byte ∷ []) []) }
        ensures shut { OnErr result (self.new.closed ≡ true) }
        ensures stays_open { IfOk result (λ _. self.new.closed ≡ false) }
    {
        self.held.push(byte);
        match how_far(self.held.as_slice(), self.max_cto) {
            Reach::Part => Ok(None),
            Reach::Bad => {
                self.closed = true;
                Err(BadFrame)
            }
            Reach::Whole => {
                let packet = packet_of(&self.held.as_slice()[4..]);
                self.held.clear();
                Ok(Some(packet))
            }
        }
    }
}

/// The packet of these bytes.
fn packet_of(bytes: &[u8]) -> ArrayVec<u8, MAX_CTO>
    requires { length bytes.now ≤ MAX_CTO }
    ensures { result.items ≡ bytes.now }
{
    let mut packet = ArrayVec::new();
    let _ = packet.try_extend_from_slice(bytes);
    packet
}
