//! The packets of one DAQ list become samples again.
ghost use Rattle.std.specs.Prelude.{◌≡◌, ◌↔◌, ◌<◌, [], ◌∷◌, ◌++◌};
ghost use Rattle.std.specs.Prelude.{IfErr, IfOk, IfSome, IsOk, IsSome, false};
ghost use Rattle.std.specs.Prelude.{None, OnErr, OnOk, Some, length, map, set, slice_index_or};
ghost use Rattle.std.specs.Prelude.{true, vec_items};
ghost use Rattle.copy_plan.specs.Config.{IsPlan};
ghost use Rattle.daq_reader.specs.Faults.{fault_of};
ghost use Rattle.daq_reader.specs.Inner.Fitting.{IsReading};
ghost use Rattle.daq_reader.specs.Inner.Places.{HavePlaces};
ghost use Rattle.daq_reader.specs.Lists.{is_of};
ghost use Rattle.daq_reader.specs.Reading.{is_whole, under_way};
ghost use Rattle.daq_reader.specs.Recorded.{AreOf, Begin};

use crate::list_shape::ListShape;
use crate::packet_fault::PacketFault;
use crate::sample_view::SampleView;
use std::alloc::{AllocError, Global};
use std::marker::Model;

/// Reads the samples of one DAQ list off its packets, one packet after another.
///
/// It has room for the packets of one sample, and takes no memory once it is made.
#[derive(Drop)]
pub struct ListReader {
    shape: ListShape,
    places: Vec<Vec<u8>>,
    taken: usize,
}

impl Model for ListReader {
    ghost use Rattle.std.specs.Prelude.{map, vec_items};
    ghost use Rattle.daq_reader.specs.Reading.{Reading};
    ghost use Rattle.daq_reader.specs.Inner.Places.{IsReader, reading_in};

    ghost Value = { Reading };

    ghost view = { λ a. reading_in a.shape a.taken (map vec_items a.places.items) };

    ghost invariant = { λ a. IsReader a.shape a.taken (map vec_items a.places.items) };
}

impl ListReader {
    /// Before the first packet of the list. Lack of memory is the only fault.
    pub fn new(alloc: Global, shape: ListShape) -> Result<ListReader, AllocError>
        ensures { IfOk result (λ reader. reader ≡ record { plan = shape; packets = [] }) }
    {
        let places = places_of(alloc, &shape)?;
        Ok(ListReader {
            shape,
            places,
            taken: 0,
        })
    }

    /// The shape of the list.
    pub fn shape(&self) -> &ListShape
        ensures { result.now ≡ self.now.plan }
    {
        &self.shape
    }

    /// The ODT whose packet is expected next.
    pub fn next_odt(&self) -> usize
        ensures value { result ≡ length (under_way self.now) }
        ensures below { result < length self.now.plan.odts }
    {
        let taken = self.taken();
        if taken == self.shape.odts() {
            return 0;
        }
        taken
    }

    /// Takes the next packet of the list, and returns whether a sample is whole with it.
    ///
    /// A packet is taken exactly if it and those that wait begin the packets of some sample of
    /// the list; after a whole sample none waits. One that is refused changes nothing.
    pub fn take(&mut self, packet: &[u8]) -> Result<bool, PacketFault>
        ensures succeeds { IsOk result
            ↔ Begin self.old.plan (under_way self.old ++ packet.now ∷ []) }
        ensures ok { OnOk result (self.new
            ≡ record self.old { packets = under_way self.old ++ packet.now ∷ [] }) }
        ensures whole { IfOk result (λ whole. whole ≡ is_whole self.new) }

        ensures no_fault { OnOk result
            (fault_of self.old.plan (length (under_way self.old)) packet.now ≡ None) }
        ensures fault { IfErr result (λ fault.
            fault_of self.old.plan (length (under_way self.old)) packet.now ≡ Some fault) }
        ensures err { OnErr result (self.new ≡ self.old) }
    {
        let k = self.next_odt();
        if let Some(fault) = self.fault(k, packet) {
            return Err(fault);
        }
        self.put(k, packet);
        Ok(self.is_whole())
    }

    /// Whether each ODT has its packet.
    pub fn is_whole(&self) -> bool
        ensures { result ≡ is_whole self.now }
    {
        self.taken() == self.shape.odts()
    }

    /// Whether packets wait for others of their sample.
    pub fn waits(&self) -> bool
        ensures { (result ≡ false) ↔ (under_way self.now ≡ []) }
    {
        self.taken() > 0 && !self.is_whole()
    }

    /// Whether a packet has an identification field that names the list.
    pub fn names(&self, packet: &[u8]) -> bool
        ensures { result ≡ is_of self.now.plan packet.now }
    {
        packet.len() >= self.shape.form().id.field_len() && self.shape.names(packet)
    }

    /// The sample that is whole; `None` exactly if none is.
    pub fn sample(&self) -> Option<SampleView<'_>>
        ensures some { IsSome result ↔ (is_whole self.now ≡ true) }
        ensures plan { IfSome result (λ sample. sample.plan ≡ self.now.plan) }
        ensures value { IfSome result
            (λ sample. AreOf self.now.plan sample.sample self.now.packets) }
    {
        if !self.is_whole() {
            return None;
        }
        Some(SampleView {
            shape: &self.shape,
            packets: self.places.as_slice(),
        })
    }

    /// The number of the packets that are there.
    fn taken(&self) -> usize
        ensures { result ≡ length self.now.packets }
    {
        self.taken
    }

    /// What is wrong with a packet if that of ODT `k` is expected.
    fn fault(&self, k: usize, packet: &[u8]) -> Option<PacketFault>
        requires { k < length self.now.plan.odts }
        ensures fault { result ≡ fault_of self.now.plan k packet.now }
        ensures reading { IsReading self.now }
    {
        self.shape.fault(k, packet)
    }

    /// Puts a packet that fits behind those that wait.
    fn put(&mut self, k: usize, packet: &[u8])
        requires awaited { k ≡ length (under_way self.old) }
        requires fits { fault_of self.old.plan k packet.now ≡ None }
        ensures { self.new ≡ record self.old { packets = under_way self.old ++ packet.now ∷ [] } }
    {
        fill_place(&mut self.places, k, packet);
        self.taken = k + 1;
    }
}

/// A place for the packet of each ODT of a list, of its length.
fn places_of(alloc: Global, shape: &ListShape) -> Result<Vec<Vec<u8>>, AllocError>
    ensures places { IfOk result (λ places. HavePlaces shape.now (map vec_items places.items)) }
    ensures plan { IsPlan shape.now }
{
    let mut places = Vec::with_capacity(alloc, shape.odts())?;
    for k in 0..shape.odts() {
        places.push(vec![in alloc; 0; shape.packet_len(k)]?)?;
    }
    Ok(places)
}

/// Puts a packet in its place.
fn fill_place(places: &mut Vec<Vec<u8>>, k: usize, packet: &[u8])
    requires there { k < length places.old.items }
    requires long { length packet.now
        ≡ length (slice_index_or (map vec_items places.old.items) k []) }
    ensures { map vec_items places.new.items ≡ set (map vec_items places.old.items) k packet.now }
{
    places[k].as_mut_slice().copy_from_slice(packet);
}
