//! The segments of a slave.
ghost use Rattle.std.specs.Prelude.{◌≡◌, ◌+◌, ◌<◌, ◌≤◌, None, Some, Ok, Err};
ghost use Rattle.std.specs.Prelude.{IfErr, IfOk, IfSome, OnOk};
ghost use Rattle.segments.specs.Faults.{segments_fault};
ghost use Rattle.segments.specs.Image.{HaveImage, image_segments};
ghost use Rattle.segments.specs.Memory.{bytes_in, fits, is_there, parts, read};
ghost use Rattle.segments.specs.Places.{HoldsAt, IsPlaceOf, is_readable, place_of, segment_of};
ghost use Rattle.segments.specs.Segment.{AreWithin};
ghost use Rattle.segments.specs.declared.limits.TheConstants.{ADDRESSES};

use crate::fault::{SegmentFault, segments_fault};
use crate::image::image_segment;
use crate::limits::{MAX_READERS, MAX_SEGMENTS};
use crate::place::Place;
use crate::read_fault::ReadFault;
use crate::segment::Segment;
use arrayvec::ArrayVec;
use std::marker::Model;

/// The segments of a slave, in rising order of extension, then base. They share no address.
#[derive(Debug, Drop)]
pub struct Segments {
    items: ArrayVec<Segment, MAX_SEGMENTS>,
}

impl Model for Segments {
    ghost use Rattle.std.specs.Prelude.{List};
    ghost use Rattle.segments.specs.declared.segment.Segment.{Segment};
    ghost use Rattle.segments.specs.Segment.{AreWithin};
    ghost use Rattle.segments.specs.declared.limits.TheConstants.{ADDRESSES};

    ghost Value = { List Segment };

    ghost view = { λ s. s.items.items };

    ghost invariant = { λ s. AreWithin s.items.items };
}

impl Segments {
    /// The segments of a slave with so many event channels, refused with the first limit that they
    /// are out of.
    pub fn new(segments: &[Segment], channels: u16) -> Result<Segments, SegmentFault>
        requires { channels ≤ MAX_READERS }
        ensures ok { OnOk result (segments_fault channels segments.now ≡ None) }
        ensures value { IfOk result (λ made. made ≡ segments.now) }
        ensures err { IfErr result (λ fault. segments_fault channels segments.now ≡ Some fault) }
    {
        if let Some(fault) = segments_fault(segments, channels) {
            return Err(fault);
        }
        let mut items = ArrayVec::new();
        let Ok(()) = items.try_extend_from_slice(segments) else {
            unreachable!();
        };
        Ok(Segments { items })
    }

    /// One segment of so many bytes, that every event channel may read: an image.
    pub fn of_image(len: usize) -> Segments
        requires { len ≤ ADDRESSES }
        ensures { result ≡ image_segments len }
    {
        let mut items = ArrayVec::new();
        items.push(image_segment(len));
        Segments { items }
    }

    /// The segments in their order.
    pub fn as_slice(&self) -> &[Segment]
        ensures value { result.now ≡ self.now }
        ensures image { HaveImage result.now }
    {
        self.items.as_slice()
    }

    /// The same in an array.
    pub fn items(&self) -> &ArrayVec<Segment, MAX_SEGMENTS>
        ensures value { result.now.items ≡ self.now }
        ensures image { HaveImage result.now.items }
    {
        &self.items
    }

    /// The same in an array of its own.
    pub fn copied(&self) -> ArrayVec<Segment, MAX_SEGMENTS>
        ensures value { result.items ≡ self.now }
        ensures image { HaveImage result.items }
    {
        let mut items = ArrayVec::new();
        let Ok(()) = items.try_extend_from_slice(self.items.as_slice()) else {
            unreachable!();
        };
        items
    }

    /// The place of so many bytes; `None` exactly if they lie in no segment.
    pub fn find(&self, extension: u8, address: usize, size: usize) -> Option<Place>
        ensures value { result ≡ place_of self.now extension address size }
        ensures within { IfSome result (IsPlaceOf self.now size) }
    {
        let segment = self.number_of(extension, address, size)?;
        Some(Place {
            segment: segment as u8,
            start: address - self.items[segment].base as usize,
        })
    }

    /// The number of the segment in which so many bytes lie.
    fn number_of(&self, extension: u8, address: usize, size: usize) -> Option<usize>
        ensures value { result ≡ segment_of self.now extension address size }
        ensures holds { IfSome result (λ i. HoldsAt self.now extension address size i) }
        ensures few { AreWithin self.now }
    {
        self.items
            .as_slice()
            .iter()
            .position(|segment| segment.holds(extension, address, size))
    }

    /// Whether so many bytes lie in a segment that an event channel may read.
    pub fn is_readable(&self, channel: u8, extension: u8, address: usize, size: usize) -> bool
        requires { channel < MAX_READERS }
        ensures { result ≡ is_readable channel self.now extension address size }
    {
        self.items.as_slice().iter().any(|segment| {
            segment.may_read(channel) && segment.holds(extension, address, size)
        })
    }

    /// Whether memory has a slice for each segment, and the slices of those that an event channel
    /// may read have the segments' lengths. Of the others nothing is looked at.
    pub fn fits(&self, channel: u8, memory: &[&[u8]]) -> bool
        requires { channel < MAX_READERS }
        ensures { result ≡ fits channel self.now (parts memory.now) }
    {
        fits(self.items.as_slice(), channel, memory)
    }

    /// So many bytes of memory, of which each segment that is there has a slice of its length.
    ///
    /// Refused with `OutOfRange` exactly if the bytes lie in no segment, else with `AccessDenied`
    /// exactly if their segment has no slice of its length.
    pub fn read<'m>(
        &self,
        memory: &[&'m [u8]],
        extension: u8,
        address: usize,
        size: usize,
    ) -> Result<&'m [u8], ReadFault>
        ensures ok { IfOk result (λ bytes. read self.now
            (parts memory.now) extension address size ≡ Ok bytes.now) }
        ensures err { IfErr result (λ fault. read self.now
            (parts memory.now) extension address size ≡ Err fault) }
        ensures within { OnOk result (address + size ≤ ADDRESSES) }
    {
        let Some(place) = self.find(extension, address, size) else {
            return Err(ReadFault::OutOfRange);
        };
        let bytes = bytes_in(memory, place.segment as usize);
        if bytes.len() != self.items[place.segment as usize].len {
            return Err(ReadFault::AccessDenied);
        }
        Ok(&bytes[place.start..place.start + size])
    }
}

/// Whether memory has a slice for each of these segments, as `Segments::fits` says.
pub fn fits(segments: &[Segment], channel: u8, memory: &[&[u8]]) -> bool
    requires { channel < MAX_READERS }
    ensures { result ≡ fits channel segments.now (parts memory.now) }
{
    if memory.len() != segments.len() {
        return false;
    }
    for i in 0..segments.len() {
        if !is_there(channel, &segments[i], memory[i]) {
            return false;
        }
    }
    true
}

/// Whether of a segment that an event channel may read all bytes are there.
fn is_there(channel: u8, segment: &Segment, bytes: &[u8]) -> bool
    requires { channel < MAX_READERS }
    ensures { result ≡ is_there channel (segment.now, bytes.now) }
{
    !segment.may_read(channel) || bytes.len() == segment.len
}

/// The bytes of a segment; none if there is no slice for it.
fn bytes_in<'m>(memory: &[&'m [u8]], segment: usize) -> &'m [u8]
    ensures { result.now ≡ bytes_in (parts memory.now) segment }
{
    match memory.get(segment) {
        Some(bytes) => bytes,
        None => &[],
    }
}
