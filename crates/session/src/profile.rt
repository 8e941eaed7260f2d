//! The profile of a slave, and the check of its limits, one after another.
ghost use Rattle.std.specs.Prelude.{◌≡◌, ◌≤◌, None, length};
ghost use Rattle.std.specs.List.{list_any};
ghost use Rattle.session.specs.Profiles.{profile_fault, numbers_fault, names_fault};
ghost use Rattle.session.specs.Profiles.{cto_fault, memory_fault, texts_fault};
ghost use Rattle.session.specs.Standing.{text_in};
ghost use Rattle.session.specs.Profiles.{is_bad_capacity, is_bad_dto};

use crate::event_channel::{EventChannel, events_fault, is_bad_name};
use crate::source::TextOf;
use frame_ring::BLOCK;
use frame_ring::limits::{MAX_FRAME_RING, MIN_FRAME_RING};
use segments::limits::MAX_READERS;
use segments::{Segment, SegmentFault, Segments};
use thiserror::Error;
use xcp_base::limits::{MAX_CHANNELS, MAX_CTO, MAX_PACKET, MAX_UNIT, MIN_CTO, MIN_DTO};
use xcp_base::{IdKind, StampSize};

/// What a slave is opened with.
#[derive(Debug, Drop)]
pub struct Profile {
    /// The memory that a master may name: 1 to 16 segments, in rising order of extension, then
    /// base.
    pub segments: Vec<Segment>,
    pub id: IdKind,
    /// The bytes of a timestamp: 1, 2 or 4.
    pub stamp_size: u8,
    /// The unit of a timestamp: 0 to 9, that is 1 ns, 10 ns, .. 1 s.
    pub unit: u8,
    /// So many units are one tick of a timestamp.
    pub ticks: u16,
    /// MAX_CTO: the most bytes of a command packet and of a reply, 8 to 255.
    pub max_cto: u8,
    /// MAX_DTO: the most bytes of a DAQ packet, 8 to 8192.
    pub max_dto: u16,
    /// 0 to 56 bytes of ASCII, 0x20 to 0x7E, and at most `max_cto - 8`.
    pub name: Vec<u8>,
    /// The event channels, 1 to 16.
    pub events: Vec<EventChannel>,
    /// The name of its A2L file, without path and extension: bytes as in its name.
    pub a2l_name: Vec<u8>,
    /// The EPK: which program it is. Bytes as in its name.
    pub epk: Vec<u8>,
    /// The A2L file itself, if a master is to fetch it: any bytes.
    pub a2l: Vec<u8>,
}

/// Which limit a profile is out of. The variants stand in the order of the checks; that the reply
/// to GET_ID has no room for the name is looked for behind MAX_CTO.
#[derive(Clone, Copy, Debug, PartialEq, Eq, Error)]
pub enum ProfileFault {
    #[error("there are no event channels, or more than 16")]
    Channels,
    #[error("timestamps have no size of 1, 2 or 4 bytes")]
    StampSize,
    #[error("a unit of time is over 9")]
    Unit,
    #[error("a timestamp has no ticks")]
    Ticks,
    #[error("the capacity of a ring is out of its limits")]
    Capacity,
    #[error("a name is too long, or not of printable ASCII")]
    Name,
    #[error("the name of an event channel is too long, or not of printable ASCII")]
    EventName,
    #[error("the unit of a cycle is over 9")]
    CycleUnit,
    #[error("{0}")]
    Segments(SegmentFault),
    #[error("MAX_CTO is not 8 to 255")]
    MaxCto,
    #[error("MAX_DTO is not 8 to 8192")]
    MaxDto,
    #[error("the name of the A2L file is too long, or not of printable ASCII")]
    A2lName,
    #[error("the EPK is too long, or not of printable ASCII")]
    Epk,
    #[error("the A2L file has 2^32 bytes or more")]
    A2l,
}

impl Profile {
    /// The first limit that it is out of, if there is one.
    pub fn fault(&self) -> Option<ProfileFault>
        ensures { result ≡ profile_fault self.now }
    {
        if let Some(fault) = self.numbers_fault() {
            return Some(fault);
        }
        if let Some(fault) = self.names_fault() {
            return Some(fault);
        }
        if let Some(fault) = self.memory_fault() {
            return Some(fault);
        }
        if let Some(fault) = self.cto_fault() {
            return Some(fault);
        }
        if is_bad_dto(self.max_dto) {
            return Some(ProfileFault::MaxDto);
        }
        self.texts_fault()
    }

    /// The first limit that its numbers are out of.
    fn numbers_fault(&self) -> Option<ProfileFault>
        ensures value { result ≡ numbers_fault self.now }
        ensures channels { result ≡ None → length self.now.events.items ≤ MAX_CHANNELS }
    {
        if self.events.is_empty() || self.events.len() > MAX_CHANNELS as usize {
            return Some(ProfileFault::Channels);
        }
        if StampSize::of(self.stamp_size).is_none() {
            return Some(ProfileFault::StampSize);
        }
        if self.unit > MAX_UNIT {
            return Some(ProfileFault::Unit);
        }
        if self.ticks == 0 {
            return Some(ProfileFault::Ticks);
        }
        if has_bad_capacity(&self.events) {
            return Some(ProfileFault::Capacity);
        }
        None
    }

    /// The first limit that its name and its event channels are out of.
    fn names_fault(&self) -> Option<ProfileFault>
        ensures { result ≡ names_fault self.now }
    {
        if is_bad_name(&self.name) {
            return Some(ProfileFault::Name);
        }
        events_fault(&self.events)
    }

    /// The first limit that its segments are out of.
    fn memory_fault(&self) -> Option<ProfileFault>
        requires { length self.now.events.items ≤ MAX_READERS }
        ensures { result ≡ memory_fault self.now }
    {
        match Segments::new(&self.segments, self.events.len() as u16) {
            Ok(_) => None,
            Err(fault) => Some(ProfileFault::Segments(fault)),
        }
    }

    /// Whether MAX_CTO is out of its limits, or too small for the reply with the name.
    fn cto_fault(&self) -> Option<ProfileFault>
        ensures { result ≡ cto_fault self.now }
    {
        let max_cto = self.max_cto as usize;
        if max_cto < MIN_CTO || max_cto > MAX_CTO {
            return Some(ProfileFault::MaxCto);
        }
        if 8 + self.name.len() > max_cto {
            return Some(ProfileFault::Name);
        }
        None
    }

    /// The first limit that its texts of identification are out of.
    fn texts_fault(&self) -> Option<ProfileFault>
        ensures { result ≡ texts_fault self.now }
    {
        if is_bad_name(&self.a2l_name) {
            return Some(ProfileFault::A2lName);
        }
        if is_bad_name(&self.epk) {
            return Some(ProfileFault::Epk);
        }
        if self.a2l.len() > MAX_TEXT {
            return Some(ProfileFault::A2l);
        }
        None
    }

    /// One of its texts.
    pub(crate) fn text(&self, of: TextOf) -> &[u8]
        ensures { result.now ≡ text_in self.now of }
    {
        match of {
            TextOf::Event(channel) => match self.events.get(channel as usize) {
                Some(event) => event.name.as_slice(),
                None => &[],
            },
            TextOf::A2lName => self.a2l_name.as_slice(),
            TextOf::A2l => self.a2l.as_slice(),
            TextOf::Epk => self.epk.as_slice(),
        }
    }
}

/// The most bytes of a text that UPLOAD reads: its length has four bytes.
const MAX_TEXT: usize = 0xFFFF_FFFF;

/// Whether some event channel has a capacity that a ring may not have.
fn has_bad_capacity(events: &[EventChannel]) -> bool
    ensures { result ≡ list_any (λ e. is_bad_capacity e.capacity) events.now }
{
    events.iter().any(|event| is_bad_capacity(event.capacity))
}

/// Whether MAX_DTO is out of its limits.
fn is_bad_dto(max_dto: u16) -> bool
    ensures { result ≡ is_bad_dto max_dto }
{
    max_dto < MIN_DTO || max_dto as usize > MAX_PACKET
}

/// Whether a ring may not have this capacity.
fn is_bad_capacity(capacity: usize) -> bool
    ensures { result ≡ is_bad_capacity capacity }
{
    capacity < MIN_FRAME_RING || capacity > MAX_FRAME_RING || capacity % BLOCK != 0
}
