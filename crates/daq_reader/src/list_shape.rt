//! How the packets of one DAQ list look, and what is wrong with one that doesn't fit.
ghost use Rattle.std.specs.Prelude.{◌≡◌, ◌<◌, ◌≤◌, ◌+◌, ◌&&◌, nat_le, nat_lt, IfOk, IfSome};
ghost use Rattle.std.specs.Prelude.{IsSome, length, map, slice_get, true};
ghost use Rattle.xcp_base.specs.Forms.{FitsFirstPid, field_len};
ghost use Rattle.daq_store.specs.Configuration.{channel_of, is_ready};
ghost use Rattle.copy_plan.specs.Config.{IsPlan, odt, plan_of, written_entries};
ghost use Rattle.daq_reader.specs.Faults.{fault_of, is_pid, len_of};
ghost use Rattle.daq_reader.specs.Inner.Cut.{head_len, place_of};
ghost use Rattle.daq_reader.specs.Recorded.{is_of_list};

use crate::packet_fault::PacketFault;
use crate::slots::Slots;
use arrayvec::ArrayVec;
use daq_store::ListConf;
use segments::limits::MAX_SEGMENTS;
use segments::{Segment, Segments};
use std::alloc::{AllocError, Global};
use std::marker::Model;
use std::snapshot::Snapshot;
use xcp_base::limits::{MAX_LISTS, MAX_ODTS_IN_ALL};
use xcp_base::{IdKind, PacketForm};

/// What the samples of one ready DAQ list look like: the form of their packets, and the entries of
/// each ODT. Contracts see the same plan as of the copy plan that writes them. The segments of
/// memory are not kept, `segments` has no bytes.
#[derive(Drop)]
pub struct ListShape {
    list: u8,
    channel: u8,
    prescaler: u8,
    first_pid: u8,
    form: PacketForm,
    stamped: bool,
    odts: Vec<Slots>,
    segments: Snapshot<ArrayVec<Segment, MAX_SEGMENTS>>,
}

impl Model for ListShape {
    ghost use Rattle.copy_plan.specs.Config.{IsPlan, ListPlan};
    ghost use Rattle.daq_reader.specs.Inner.Shapes.{shape_view};

    ghost Value = { ListPlan };

    ghost view = { shape_view };

    ghost invariant = { λ a. IsPlan (shape_view a) };
}

impl ListShape {
    /// The shape of a ready DAQ list, whose PIDs begin with FIRST_PID, which is 0 with a relative
    /// ODT number, for memory in these segments. Lack of memory is the only fault.
    pub fn of(
        alloc: Global,
        list: u8,
        conf: &ListConf,
        first_pid: u8,
        segments: &Segments,
    ) -> Result<ListShape, AllocError>
        requires list { list < MAX_LISTS }
        requires ready { is_ready segments.now conf.now ≡ true }
        requires pids { FitsFirstPid conf.now.form.id (length conf.now.odts) first_pid }
        ensures value { IfOk result
            (λ shape. shape ≡ plan_of list conf.now first_pid segments.now) }
        ensures plan { IfOk result IsPlan }
    {
        let odts = slots_of_odts(alloc, conf, segments)?;
        Ok(ListShape {
            list,
            channel: conf.channel(),
            prescaler: conf.prescaler(),
            first_pid,
            form: conf.form(),
            stamped: conf.stamped(),
            odts,
            segments: Snapshot::of(segments.items()),
        })
    }

    /// The number of the DAQ list.
    pub fn list(&self) -> u8
        ensures { result ≡ self.now.list }
    {
        self.list
    }

    /// The event channel.
    pub fn channel(&self) -> u8
        ensures { result ≡ self.now.channel }
    {
        self.channel
    }

    /// The form of the packets.
    pub fn form(&self) -> PacketForm
        ensures { result ≡ self.now.form }
    {
        self.form
    }

    /// Whether samples have a timestamp.
    pub fn stamped(&self) -> bool
        ensures { result ≡ self.now.stamped }
    {
        self.stamped
    }

    /// The number of ODTs, and so of the packets of a sample.
    pub fn odts(&self) -> usize
        ensures value { result ≡ length self.now.odts }
        ensures plan { IsPlan self.now }
    {
        self.odts.len()
    }

    /// The number of entries of an ODT; 0 if there is no such ODT.
    pub fn entries(&self, k: usize) -> usize
        ensures { result ≡ length (odt self.now k) }
    {
        let Some(slots) = self.odts.get(k) else {
            return 0;
        };
        slots.count()
    }

    /// Where entry `e` of ODT `k` stands in the image of all memory, and its bytes; `None` exactly
    /// if there is no such entry. If memory is one segment from address 0 on, that is its address.
    pub fn entry(&self, k: usize, e: usize) -> Option<(usize, u8)>
        ensures { result ≡ slice_get (odt self.now k) e }
    {
        let slots = self.odts.get(k)?;
        let slot = slots.get(e)?;
        Some((slot.in_image, slot.size))
    }

    /// The PID of an ODT without the overload indication (ASAM MCD-1 XCP, protocol layer,
    /// identification field).
    pub fn pid(&self, k: usize) -> u8
        requires { k < length self.now.odts }
        ensures value { result ≡ self.now.first_pid + k }
        ensures limit { result < 128 }
    {
        self.first_pid + k as u8
    }

    /// The bytes of the packet of an ODT.
    pub fn packet_len(&self, k: usize) -> usize
        requires { k < length self.now.odts }
        ensures { result ≡ len_of self.now k }
    {
        self.head_len(k) + self.odts[k].len()
    }

    /// Whether the identification field of a packet names the list.
    pub(crate) fn names(&self, packet: &[u8]) -> bool
        requires field { field_len self.now.form.id ≤ length packet.now }
        ensures { result ≡ is_of_list self.now packet.now }
    {
        match self.form.id {
            IdKind::Absolute => self.has_pid(packet[0] % 128),
            IdKind::RelativeByte => packet[1] == self.list,
            IdKind::RelativeWord => {
                packet[1] as usize + 256 * packet[2] as usize == self.list as usize
            }
        }
    }

    /// The bytes in front of the elements in the packet of an ODT.
    pub(crate) fn head_len(&self, k: usize) -> usize
        ensures value { result ≡ head_len self.now k }
        ensures limit { result ≤ 7 }
    {
        let field = self.form.id.field_len();
        if k == 0 && self.stamped {
            return field + self.form.stamp.bytes() as usize;
        }
        field
    }

    /// Where entry `e` of ODT `k` stands in its packet, and its bytes; `None` exactly if there
    /// is no such entry.
    pub(crate) fn place(&self, k: usize, e: usize) -> Option<(usize, usize)>
        ensures place { result ≡ place_of self.now k e }
        ensures odt { IsSome result → k < length self.now.odts }
        ensures within { IfSome result (λ p. p.0 + p.1 ≤ len_of self.now k) }
    {
        let slots = self.odts.get(k)?;
        let slot = slots.get(e)?;
        Some((self.head_len(k) + slot.start, slot.size as usize))
    }

    /// What is wrong with a packet if that of ODT `k` is expected.
    pub(crate) fn fault(&self, k: usize, packet: &[u8]) -> Option<PacketFault>
        requires { k < length self.now.odts }
        ensures { result ≡ fault_of self.now k packet.now }
    {
        // a packet without an identification field is of no list
        if packet.len() < self.form.id.field_len() {
            return Some(PacketFault::OtherList);
        }
        if !self.names(packet) {
            return Some(PacketFault::OtherList);
        }
        if !self.is_pid(k, packet) {
            return Some(PacketFault::OutOfTurn);
        }
        if packet.len() != self.packet_len(k) {
            return Some(PacketFault::WrongLength);
        }
        None
    }

    /// Whether a packet has the PID of ODT `k`, in ODT 0 with or without the overload indication.
    fn is_pid(&self, k: usize, packet: &[u8]) -> bool
        requires odt { k < length self.now.odts }
        requires some { 0 < length packet.now }
        ensures { result ≡ is_pid self.now k packet.now }
    {
        let pid = self.pid(k);
        if packet[0] == pid {
            return true;
        }
        k == 0 && packet[0] == pid + 0x80
    }

    /// Whether a PID without the overload indication is one of the list's.
    fn has_pid(&self, pid: u8) -> bool
        ensures { result
            ≡ (nat_le self.now.first_pid pid
            && nat_lt pid (self.now.first_pid + length self.now.odts)) }
    {
        self.first_pid <= pid && (pid as usize) < self.first_pid as usize + self.odts.len()
    }
}

/// The slots of each ODT of a list, as its event channel sees memory in segments.
fn slots_of_odts(
    alloc: Global,
    conf: &ListConf,
    segments: &Segments,
) -> Result<Vec<Slots>, AllocError>
    ensures value { IfOk result (λ odts. odts.items
        ≡ map (written_entries (channel_of conf.now.mode) segments.now) conf.now.odts) }
    ensures limit { IfOk result (λ _. length conf.now.odts ≤ MAX_ODTS_IN_ALL) }
{
    let mut odts = Vec::with_capacity(alloc, conf.odts())?;
    for odt in 0..conf.odts() {
        odts.push(Slots::of(alloc, conf, odt, segments)?)?;
    }
    Ok(odts)
}
