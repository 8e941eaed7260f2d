//! The last command of a master.
ghost use Rattle.std.specs.Prelude.{◌≡◌, Some};
ghost use Rattle.captured_samples.specs.Frames.{is_connect};

use std::alloc::{AllocError, Global};
use std::marker::Model;

/// The last command of a master, by which a copy of it is known.
#[derive(Drop)]
pub struct LastCommand {
    bytes: Vec<u8>,
    counter: Option<u16>,
    counts: bool,
}

impl Model for LastCommand {
    ghost use Rattle.captured_samples.specs.Frames.{LastOf};

    ghost Value = { LastOf };

    ghost view = { λ a. record { bytes = a.bytes.items; counter = a.counter; counts = a.counts } };
}

impl LastCommand {
    ghost use Rattle.std.specs.Prelude.{◌≡◌, ◌∷◌, [], ℕ, List, OnOk};
    ghost use Rattle.captured_samples.specs.Frames.{counts_on, has_counter, is_copy, jumps};
    ghost use Rattle.captured_samples.specs.Frames.{last_of};

    /// None was heard.
    pub fn new(alloc: Global) -> LastCommand
        ensures { result ≡ last_of [] }
    {
        LastCommand {
            bytes: Vec::new(alloc),
            counter: None,
            counts: false,
        }
    }

    /// Whether a packet is a copy: of the same bytes and with the same counter, by a master that
    /// counts.
    pub fn is_copy(&self, counter: u16, packet: &[u8]) -> bool
        ensures { result ≡ is_copy self.now counter packet.now }
    {
        self.counts && self.has_counter(counter) && self.bytes.as_slice() == packet
    }

    /// Whether commands may be missing in front of a packet: its counter isn't one more than that
    /// of the last one, though that one's was; but with CONNECT a master may count anew.
    pub fn jumps(&self, counter: u16, packet: &[u8]) -> bool
        ensures { result ≡ jumps self.now counter packet.now }
    {
        self.counts && !self.counts_on_to(counter) && !is_connect(packet)
    }

    /// The next one.
    pub fn note(&mut self, counter: u16, packet: &[u8]) -> Result<(), AllocError>
        ensures { (before : List (ℕ × List ℕ)) → self.old ≡ last_of before
            → OnOk result (self.new ≡ last_of ((counter, packet.now) ∷ before)) }
    {
        self.counts = self.counts_on_to(counter);
        self.counter = Some(counter);
        self.bytes.clear();
        self.bytes.extend_from_slice(packet)?;
        Ok(())
    }

    /// Whether the last one has this counter.
    fn has_counter(&self, counter: u16) -> bool
        ensures { result ≡ has_counter counter self.now.counter }
    {
        match self.counter {
            Some(last) => last == counter,
            None => false,
        }
    }

    /// Whether a counter is one more than that of the last one.
    fn counts_on_to(&self, counter: u16) -> bool
        ensures { result ≡ counts_on counter self.now.counter }
    {
        match self.counter {
            Some(last) => last.wrapping_add(1) == counter,
            None => false,
        }
    }
}

/// Whether a packet is CONNECT.
fn is_connect(packet: &[u8]) -> bool
    ensures { result ≡ is_connect (Some packet.now) }
{
    matches!(packet, [0xFF, ..])
}
