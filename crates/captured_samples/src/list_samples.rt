//! The samples of one DAQ list.

use crate::places::{body_len, has_overload, head_len, odt_in};
use crate::stamps::ticks_in;
use crate::taken::Taken;
use captured_session::CapturedList;
use std::alloc::{AllocError, Global};
use std::marker::Model;

/// Reads the samples of one DAQ list off its packets. It keeps the bytes of one sample.
#[derive(Drop)]
pub struct ListSamples {
    list: CapturedList,
    packets: usize,
    overload: bool,
    ticks: Option<u32>,
    bytes: Vec<u8>,
}

impl Model for ListSamples {
    ghost use Rattle.std.specs.Prelude.{◌≤◌, length};
    ghost use Rattle.captured_samples.specs.Samples.{ShownOf};

    ghost Value = { ShownOf };

    ghost view = { λ a. record {
      list = a.list;
      packets = a.packets;
      overload = a.overload;
      ticks = a.ticks;
      bytes = a.bytes.items;
    } };

    ghost invariant = { λ a. a.packets ≤ length a.list.odts };
}

impl ListSamples {
    ghost use Rattle.std.specs.Prelude.{◌≡◌, ◌<◌, ◌+◌, ◌++◌, ◌∷◌, [], ℕ, List, IfOk, OnOk, length};
    ghost use Rattle.std.specs.Prelude.{true};
    ghost use Rattle.std.specs.Prelude.{◌==◌, ◌||◌, Some, if◌then◌else◌};
    ghost use Rattle.captured_session.specs.Lists.{ListOf};
    ghost use Rattle.captured_samples.specs.Places.{fits, odt_in};
    ghost use Rattle.captured_samples.specs.Inner.{taken_as, ticks_with, with_packet};
    ghost use Rattle.captured_samples.specs.Samples.{behind, is_begun, shown_of, ticks_in};

    /// Before the first packet of the list.
    pub fn new(alloc: Global, list: CapturedList) -> ListSamples
        ensures { result ≡ shown_of list [] }
    {
        ListSamples {
            list,
            packets: 0,
            overload: false,
            ticks: None,
            bytes: Vec::new(alloc),
        }
    }

    /// The list.
    pub fn list(&self) -> &CapturedList
        ensures { result.now ≡ self.now.list }
    {
        &self.list
    }

    /// Whether a packet of the sample has the overload indication.
    pub fn overload(&self) -> bool
        ensures { result ≡ self.now.overload }
    {
        self.overload
    }

    /// The ticks of the timestamp of the sample; `None` if the list isn't stamped.
    pub fn ticks(&self) -> Option<u32>
        ensures { result ≡ self.now.ticks }
    {
        self.ticks
    }

    /// The bytes of the entries of the sample, one behind another.
    pub fn bytes(&self) -> &[u8]
        ensures { result.now ≡ self.now.bytes }
    {
        &self.bytes
    }

    /// A gap: the packets of no sample stand on both its sides. Tells whether one was under way.
    pub fn break_off(&mut self) -> bool
        ensures none { self.new ≡ shown_of self.old.list [] }
        ensures told { result ≡ is_begun self.old }
    {
        let was_under_way = self.is_begun();
        self.clear();
        was_under_way
    }

    /// Takes the next packet, of whatever list, and tells what became of it. After a whole sample
    /// this is what is shown. Lack of memory is the only fault.
    pub fn take(&mut self, packet: &[u8]) -> Result<Taken, AllocError>
        ensures shown { (l : ListOf) (before : List (List ℕ)) → self.old ≡ shown_of l before
            → OnOk result (self.new ≡ shown_of l (behind l before packet.now)) }
        ensures taken { IfOk result (λ taken. taken
            ≡ taken_as self.new (odt_in self.old.list packet.now)) }
    {
        let Some(odt) = odt_in(&self.list, packet) else {
            return Ok(Taken::Other);
        };
        if !self.fits(odt, packet) || (odt != 0 && odt != self.packets) {
            self.clear();
            return Ok(Taken::LeftOut);
        }
        self.go_on(odt, packet)
    }

    /// Takes a packet that begins a sample, or goes on with the one under way.
    fn go_on(&mut self, odt: usize, packet: &[u8]) -> Result<Taken, AllocError>
        requires turn { (odt == 0 || odt == self.old.packets) ≡ true }
        requires there { odt < length self.old.list.odts }
        requires fits { fits self.old.list odt packet.now ≡ true }
        ensures shown { (l : ListOf) (before : List (List ℕ)) → self.old ≡ shown_of l before
            → OnOk result (self.new
            ≡ shown_of l ((if odt == 0 then [] else before) ++ packet.now ∷ [])) }
        ensures taken { IfOk result (λ taken. taken ≡ taken_as self.new (Some odt)) }
    {
        if odt == 0 {
            self.clear();
            return self.add(odt, packet);
        }
        self.add(odt, packet)
    }

    /// Whether a packet of an ODT has all bytes of the entries.
    fn fits(&self, odt: usize, packet: &[u8]) -> bool
        requires { odt < length self.now.list.odts }
        ensures { result ≡ fits self.now.list odt packet.now }
    {
        head_len(&self.list, odt) + body_len(&self.list, odt) <= packet.len()
    }

    /// Whether some packets of a sample came, but not all.
    fn is_begun(&self) -> bool
        ensures { result ≡ is_begun self.now }
    {
        self.packets > 0 && self.packets < self.list.odts()
    }

    /// No packet of a sample.
    fn clear(&mut self)
        ensures { self.new ≡ shown_of self.old.list [] }
    {
        self.packets = 0;
        self.overload = false;
        self.ticks = None;
        self.bytes.clear();
    }

    /// Takes the packet whose turn it is, and tells whether the sample is whole with it.
    fn add(&mut self, odt: usize, packet: &[u8]) -> Result<Taken, AllocError>
        requires turn { odt ≡ self.old.packets }
        requires there { odt < length self.old.list.odts }
        requires fits { fits self.old.list odt packet.now ≡ true }
        ensures shown { (l : ListOf) (before : List (List ℕ)) → self.old ≡ shown_of l before
            → OnOk result (self.new ≡ shown_of l (before ++ packet.now ∷ [])) }
        ensures taken { IfOk result (λ taken. taken ≡ taken_as self.new (Some odt)) }
    {
        let odts = self.list.odts();
        self.put(odt, packet)?;
        if self.packets == odts {
            return Ok(Taken::Whole);
        }
        Ok(Taken::Part)
    }

    /// Puts it behind the others.
    fn put(&mut self, odt: usize, packet: &[u8]) -> Result<(), AllocError>
        requires turn { odt ≡ self.old.packets }
        requires there { odt < length self.old.list.odts }
        requires fits { fits self.old.list odt packet.now ≡ true }
        ensures { OnOk result (self.new ≡ with_packet self.old packet.now) }
    {
        let odts = self.list.odts();
        let head = head_len(&self.list, odt);
        let len = body_len(&self.list, odt);
        self.bytes.extend_from_slice(&packet[head..head + len])?;
        self.ticks = self.ticks_with(odt, packet);
        self.overload = self.overload || has_overload(&self.list, packet);
        // for the proof: the next number is one of an ODT, or theirs
        self.packets = (odt + 1).min(odts);
        Ok(())
    }

    /// The ticks of the sample, with the packet of this ODT.
    fn ticks_with(&self, odt: usize, packet: &[u8]) -> Option<u32>
        ensures { result ≡ ticks_with odt (ticks_in self.now.list packet.now) self.now.ticks }
    {
        if odt == 0 {
            return ticks_in(&self.list, packet);
        }
        self.ticks
    }
}
