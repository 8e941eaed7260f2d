//! The packets of several DAQ lists, each taken by the reader of its list.
ghost use Rattle.std.specs.Prelude.{◌≡◌, ◌↔◌, ◌≤◌, ◌++◌, ◌∷◌, ℕ, List, [], IfErr, IfOk};
ghost use Rattle.std.specs.Prelude.{None, OnErr, OnOk, Some, length, slice_get, true};
ghost use Rattle.std.specs.Option.{option_copied};
ghost use Rattle.daq_reader.specs.Lists.{NoneWaits, Stands, StandsWith, Takes, place_in, plans_of};
ghost use Rattle.daq_reader.specs.Lists.{refusal};
ghost use Rattle.daq_reader.specs.Recorded.{Recorded};

use crate::list_reader::ListReader;
use crate::list_shape::ListShape;
use crate::packet_fault::PacketFault;
use std::alloc::{AllocError, Global};
use std::marker::Model;

/// Reads the samples of several DAQ lists off their packets, in whatever order they come.
///
/// Contracts see how far each list has come. A packet is of the first list that its identification
/// field names; no packet is of two lists of one store.
#[derive(Drop)]
pub struct Reader {
    lists: Vec<ListReader>,
}

impl Model for Reader {
    ghost use Rattle.std.specs.Prelude.{List};
    ghost use Rattle.daq_reader.specs.Reading.{Reading};

    ghost Value = { List Reading };

    ghost view = { λ a. a.lists.items };
}

impl Reader {
    /// A reader of no list.
    pub fn new(alloc: Global) -> Reader
        ensures value { result ≡ [] }
        ensures stands { Stands result [] [] }
    {
        Reader {
            lists: Vec::new(alloc),
        }
    }

    /// One more list, before its first packet. Lack of memory is the only fault.
    pub fn add(&mut self, alloc: Global, shape: ListShape) -> Result<(), AllocError>
        ensures ok { OnOk result
            (self.new ≡ self.old ++ record { plan = shape; packets = [] } ∷ []) }
        ensures stands { Stands self.old [] [] → OnOk result (Stands self.new [] []) }
        ensures err { OnErr result (self.new ≡ self.old) }
    {
        // for the proof: gives `plan` of the shape, which the lists of a reader have
        shape.odts();
        self.lists.push(ListReader::new(alloc, shape)?)?;
        Ok(())
    }

    /// Takes the next packet, and returns the place of the list whose sample is whole with it.
    pub fn take(&mut self, packet: &[u8]) -> Result<Option<usize>, PacketFault>
        ensures taken { IfOk result (λ whole. Takes self.old self.new packet.now whole) }
        ensures stands { IfOk result (λ whole.
            (qs : List (List ℕ)) (samples : List (ℕ × Recorded)) → Stands self.old qs samples
            → StandsWith self.new (qs ++ packet.now ∷ []) samples whole) }

        ensures no_fault { OnOk result (refusal self.old packet.now ≡ None) }
        ensures fault { IfErr result (λ fault. refusal self.old packet.now ≡ Some fault) }
        ensures err { OnErr result (self.new ≡ self.old) }
        ensures lists { plans_of self.new ≡ plans_of self.old }
    {
        let place = place_in(&self.lists, packet);
        if place == self.lists.len() {
            return Err(PacketFault::OtherList);
        }
        let whole = self.lists[place].take(packet)?;
        if !whole {
            return Ok(None);
        }
        Ok(Some(place))
    }

    /// Whether no list has packets that wait for others of their sample.
    pub fn is_between_samples(&self) -> bool
        ensures { (result ≡ true) ↔ NoneWaits self.now }
    {
        self.lists.iter().all(|list| !list.waits())
    }

    /// The reader of the list at a place; `None` exactly if there is none.
    pub fn list(&self, place: usize) -> Option<&ListReader>
        ensures { option_copied result ≡ slice_get self.now place }
    {
        self.lists.get(place)
    }
}

/// The place of the first list that a packet is of; the number of the lists if there is none.
fn place_in(lists: &[ListReader], packet: &[u8]) -> usize
    ensures value { result ≡ place_in (plans_of lists.now) packet.now }
    ensures limit { result ≤ length lists.now }
{
    for place in 0..lists.len() {
        if lists[place].names(packet) {
            return place;
        }
    }
    lists.len()
}
