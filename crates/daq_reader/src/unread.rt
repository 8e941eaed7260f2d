//! The frames of a recording that are left, taken one by one, with their counters checked.
ghost use Rattle.std.specs.Prelude.{◌≡◌, ◌↔◌, ◌++◌, ℕ, List, [], None, Ok, IfErr, IfOk};
ghost use Rattle.std.specs.Prelude.{IfSome, IsOkAnd, IsSomeAnd, OnErr};
ghost use Rattle.frame_writer.specs.Frame.{IsFrame, frame};
ghost use Rattle.daq_reader.specs.Frames.{IsFrameFaultOf, IsNext};

use crate::frame_fault::FrameFault;
use frame_writer::next_frame;
use std::marker::Model;

/// What is still to be read of a recording, or of a piece of one that ends with a frame.
#[derive(Drop)]
pub struct Unread<'a> {
    rest: &'a [u8],
    counter: u16,
}

impl<'a> Model for Unread<'a> {
    ghost use Rattle.daq_reader.specs.Frames.{Unread};

    ghost Value = { Unread };

    ghost view = { λ a. record { rest = a.rest.now; counter = a.counter } };
}

impl<'a> Unread<'a> {
    /// The frames of some bytes, of which the first has this counter: 0 at the start of a
    /// recording.
    pub fn new(bytes: &'a [u8], counter: u16) -> Unread<'a>
        ensures { result ≡ record { rest = bytes.now; counter = counter } }
    {
        Unread {
            rest: bytes,
            counter,
        }
    }

    /// The next packet; `None` exactly at the end. After a fault nothing changes, so the bytes that
    /// are left say where it stands.
    pub fn next_packet(&mut self) -> Result<Option<&'a [u8]>, FrameFault>
        ensures next { IfOk result (λ packet. IfSome packet
            (λ q. IsNext self.old self.new q.now)) }
        ensures end { (result ≡ Ok None) ↔ (self.old.rest ≡ []) }
        ensures found { (q behind : List ℕ) → IsFrame (self.old.counter, q)
            → self.old.rest ≡ frame self.old.counter q ++ behind
            → IsOkAnd result (λ packet. IsSomeAnd packet (λ p. p.now ≡ q)) }
        ensures end_stays { result ≡ Ok None → self.new ≡ self.old }

        ensures fault { IfErr result (IsFrameFaultOf self.old) }
        ensures err { OnErr result (self.new ≡ self.old) }
    {
        if self.rest.is_empty() {
            return Ok(None);
        }
        let Some((counter, packet, rest)) = next_frame(self.rest) else {
            return Err(FrameFault::Torn);
        };
        if counter != self.counter {
            return Err(FrameFault::Jump);
        }
        self.rest = rest;
        self.counter = counter.wrapping_add(1);
        Ok(Some(packet))
    }

    /// The bytes that are still to be read.
    pub fn rest(&self) -> &'a [u8]
        ensures { result.now ≡ self.now.rest }
    {
        self.rest
    }

    /// The counter of the next frame.
    pub fn counter(&self) -> u16
        ensures { result ≡ self.now.counter }
    {
        self.counter
    }
}
