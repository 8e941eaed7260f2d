//! The slaves of a capture.
ghost use Rattle.std.specs.Prelude.{◌≡◌, ◌≤◌, ◌++◌, ◌∷◌, [], length, IfErr, IfOk, IfSome, IsNone};
ghost use Rattle.std.specs.Prelude.{OnOk, Some};
ghost use Rattle.capture_recording.specs.Refusals.{OrMemory, RefusesConnection};
ghost use Rattle.capture_recording.specs.Slaves.{AllEnd, IsAt, IsMet};

use crate::capture_read_fault::CaptureReadFault;
use crate::capture_sink::CaptureSink;
use crate::ip_data::IpData;
use crate::nanoseconds::nanoseconds_of;
use crate::same_address::is_same_address;
use crate::sinks::Sinks;
use crate::slave::Slave;
use crate::talks::{Talk, talk_of};
use capture::Captured;
use captured_samples::SlaveSamples;
use captured_session::Form;
use datagrams::{IpPacket, Link, Parts, ip_in, packet_in};
use std::alloc::Global;
use std::marker::Model;
use std::net::IpAddr;

/// The most slaves of a capture.
pub const MAX_SLAVES: usize = 256;

/// The slaves of a capture, in the order in which they are met first.
#[derive(Drop)]
pub struct Slaves<K: Sinks + Drop> {
    alloc: Global,
    port: u16,
    form: Form,
    sinks: K,
    slaves: Vec<Slave<K::Sink>>,
    parts: Parts,
    cut: u64,
}

impl<K: Sinks + Drop> Model for Slaves<K> {
    ghost use Rattle.capture_recording.specs.Slaves.{SlavesOf};

    ghost Value = { SlavesOf K K.Sink };

    ghost view = { λ a. record {
      port = a.port;
      form = a.form;
      sinks = a.sinks;
      slaves = a.slaves.items;
      parts = a.parts;
    } };
}

impl<K: Sinks + Drop> Slaves<K> {
    ghost use Rattle.std.specs.Prelude.{◌≡◌, ◌∷◌, [], List, IfErr, IfOk, IfSome, IsNone, OnOk};
    ghost use Rattle.capture.specs.Packets.{PacketOf, packet_of};
    ghost use Rattle.datagrams.specs.Ip.{ip_of};
    ghost use Rattle.datagrams.specs.Waiting.{AreWaiting, WholeOf};
    ghost use Rattle.datagrams.specs.Parts.{WaitOf};
    ghost use Rattle.capture_recording.specs.Refusals.{IsOneTooMany, OrMemory, RefusesCarried};
    ghost use Rattle.capture_recording.specs.Refusals.{RefusesEnd, RefusesPacket, RefusesPart};
    ghost use Rattle.capture_recording.specs.Refusals.{RefusesSaid};
    ghost use Rattle.capture_recording.specs.Said.{IsBehind, data_in};
    ghost use Rattle.capture_recording.specs.Slaves.{AllHeard, AllTaken, EachHeard, IsAt, IsMet};
    ghost use Rattle.capture_recording.specs.Slaves.{KeepsRest, MeetsOnly, TakesPart};
    ghost use Rattle.capture_recording.specs.Talks.{data_of};

    /// None yet. They have this port, and their packets look like this until they say otherwise.
    pub fn new(alloc: Global, port: u16, form: Form, sinks: K) -> Slaves<K>
        ensures port { result.port ≡ port }
        ensures form { result.form ≡ form }
        ensures taken { AllTaken K.Sink.told K.reads sinks [] result }
    {
        Slaves {
            alloc,
            port,
            form,
            sinks,
            slaves: Vec::new(alloc),
            parts: Parts::new(alloc),
            cut: 0,
        }
    }

    /// How many packets between masters and slaves weren't captured whole.
    pub fn cut(&self) -> u64 {
        self.cut
    }

    /// How many datagrams that came in parts were let go of, since too many waited for others.
    pub fn let_go(&self) -> u64
        ensures { result ≡ self.now.parts.dropped }
    {
        self.parts.dropped()
    }

    /// The slaves that were met.
    pub fn met(&self) -> &[Slave<K::Sink>]
        ensures { result.now ≡ self.now.slaves }
    {
        &self.slaves
    }

    /// The slaves that were met, handed out.
    pub fn into_met(self) -> Vec<Slave<K::Sink>>
        ensures { result.items ≡ self.slaves }
    {
        self.slaves
    }

    /// The next captured packet.
    ///
    /// Refused if with it more than `MAX_SLAVES` slaves talked whose samples are to be read, if the
    /// commands of one told more than can be kept, and for want of memory.
    pub fn take(&mut self, captured: &Captured<'_>) -> Result<(), CaptureReadFault>
        ensures taken { (first : K) (ps : List PacketOf)
            → AllTaken K.Sink.told K.reads first ps self.old
            → OnOk result (AllTaken K.Sink.told K.reads first
            (packet_of captured.now ∷ ps) self.new) }
        ensures port { OnOk result (self.new.port ≡ self.old.port) }
        ensures form { OnOk result (self.new.form ≡ self.old.form) }
        ensures err { (first : K) (ps : List PacketOf)
            → AllTaken K.Sink.told K.reads first ps self.old
            → IfErr result (OrMemory (RefusesPacket (K.reads first) self.old.form self.old.port
            (packet_of captured.now ∷ ps))) }
    {
        let time = captured.time.and_then(nanoseconds_of);
        let Some(bytes) = ip_in(Link::of(captured.link), captured.bytes) else {
            return Ok(());
        };
        let Some(packet) = packet_in(bytes) else {
            return Ok(());
        };
        match packet.part {
            None => self.hear_packet(time, &packet),
            Some(_) => self.hear_part(time, &packet),
        }
    }

    /// The end of the capture: what waits in connections is taken. Refused as `take` is.
    pub fn end(&mut self) -> Result<(), CaptureReadFault>
        ensures taken { (first : K) (ps : List PacketOf)
            → AllTaken K.Sink.told K.reads first ps self.old
            → OnOk result (AllTaken K.Sink.told K.reads first ps self.new) }
        ensures port { OnOk result (self.new.port ≡ self.old.port) }
        ensures form { OnOk result (self.new.form ≡ self.old.form) }
        ensures err { (first : K) (ps : List PacketOf)
            → AllTaken K.Sink.told K.reads first ps self.old
            → IfErr result (OrMemory (RefusesEnd self.old.port ps)) }
    {
        end_all(&mut self.slaves)
    }

    /// What a packet carries that is whole, or was cut.
    fn hear_packet(
        &mut self,
        time: Option<i64>,
        packet: &IpPacket<'_>,
    ) -> Result<(), CaptureReadFault>
        ensures heard { (first : K) (said : List WholeOf)
            → AllHeard K.Sink.told K.reads first said self.old
            → OnOk result ((d : WholeOf) × IsBehind (data_in (ip_of packet.now)) d
            × AllHeard K.Sink.told K.reads first (d ∷ said) self.new) }
        ensures stays { OnOk result (KeepsRest self.old self.new) }
        ensures err { (first : K) (said : List WholeOf)
            → AllHeard K.Sink.told K.reads first said self.old
            → IfErr result (OrMemory (RefusesCarried (K.reads first) self.old.form self.old.port
            (ip_of packet.now) said)) }
    {
        let carried = IpData::by_packet(packet);
        self.note_cut(packet, &carried);
        self.hear(time, &carried)
    }

    /// Counts a packet that wasn't captured whole.
    fn note_cut(&mut self, packet: &IpPacket<'_>, carried: &IpData<'_>)
        ensures { self.new ≡ self.old }
    {
        if packet.is_cut && talk_of(carried, self.port).is_some() {
            self.cut = self.cut.saturating_add(1);
        }
    }

    /// A packet that carries a part of a datagram.
    fn hear_part(
        &mut self,
        time: Option<i64>,
        packet: &IpPacket<'_>,
    ) -> Result<(), CaptureReadFault>
        ensures takes { (first : K) (waits : List WaitOf) (said : List WholeOf)
            → AreWaiting self.old.parts waits
            → AllHeard K.Sink.told K.reads first said self.old
            → OnOk result (TakesPart K.Sink.told K.reads first waits (ip_of packet.now) said
            self.new) }
        ensures port { OnOk result (self.new.port ≡ self.old.port) }
        ensures form { OnOk result (self.new.form ≡ self.old.form) }
        ensures err { (first : K) (waits : List WaitOf) (said : List WholeOf)
            → AreWaiting self.old.parts waits
            → AllHeard K.Sink.told K.reads first said self.old
            → IfErr result (OrMemory (RefusesPart (K.reads first) self.old.form self.old.port
            waits (ip_of packet.now) said)) }
    {
        let Ok(whole) = self.parts.take(packet) else {
            return Err(CaptureReadFault::Memory);
        };
        match whole {
            Some(whole) => self.hear(time, &IpData::by_parts(&whole)),
            None => Ok(()),
        }
    }

    /// What was carried, at this time.
    fn hear(&mut self, time: Option<i64>, carried: &IpData<'_>) -> Result<(), CaptureReadFault>
        ensures heard { (first : K) (said : List WholeOf)
            → AllHeard K.Sink.told K.reads first said self.old
            → OnOk result (AllHeard K.Sink.told K.reads first
            (data_of carried.now ∷ said) self.new) }
        ensures stays { OnOk result (KeepsRest self.old self.new) }
        ensures err { (first : K) (said : List WholeOf)
            → AllHeard K.Sink.told K.reads first said self.old
            → IfErr result (OrMemory (RefusesSaid (K.reads first) self.old.form self.old.port
            (data_of carried.now ∷ said))) }
    {
        let Some(talk) = talk_of(carried, self.port) else {
            return Ok(());
        };
        let Some(place) = self.place_of(talk.slave)? else {
            return Ok(());
        };
        self.slaves[place].hear(time, talk, carried)
    }

    /// The place of a slave, which may be met for the first time; `None` if it isn't read.
    fn place_of(&mut self, address: IpAddr) -> Result<Option<usize>, CaptureReadFault>
        ensures heard { (first : K) (said : List WholeOf)
            → EachHeard K.Sink.told K.reads first said self.old
            → OnOk result (EachHeard K.Sink.told K.reads first said self.new) }
        ensures some { IfOk result (λ place. IfSome place (IsAt address self.new.slaves)) }
        ensures none { (first : K) (said : List WholeOf)
            → EachHeard K.Sink.told K.reads first said self.old
            → IfOk result (λ place. IsNone place → K.reads first address → ⊥) }
        ensures stays { OnOk result (KeepsRest self.old self.new) }
        ensures only { OnOk result (MeetsOnly address self.old.slaves self.new.slaves) }
        ensures err { (first : K) (said : List WholeOf)
            → EachHeard K.Sink.told K.reads first said self.old
            → IfErr result (OrMemory (IsOneTooMany (K.reads first) address self.old.slaves)) }
    {
        if let Some(place) = place_in(&self.slaves, address) {
            return Ok(Some(place));
        }
        let Some(sink) = self.sinks.sink_of(address) else {
            return Ok(None);
        };
        let samples = SlaveSamples::new(self.alloc, self.form);
        add(
            &mut self.slaves,
            Slave::new(self.alloc, address, samples, sink),
        )
    }
}

/// One slave more, and its place.
fn add<S: CaptureSink + Drop>(
    slaves: &mut Vec<Slave<S>>,
    slave: Slave<S>,
) -> Result<Option<usize>, CaptureReadFault>
    ensures ok { IfOk result (λ place. (place ≡ Some (length slaves.old.items))
        × (slaves.new.items ≡ slaves.old.items ++ slave ∷ [])) }
    ensures err { IfErr result (OrMemory (λ fault. (fault ≡ CaptureReadFault.ManySlaves)
        × (MAX_SLAVES ≤ length slaves.old.items))) }
{
    let place = slaves.len();
    if place >= MAX_SLAVES {
        return Err(CaptureReadFault::ManySlaves);
    }
    match slaves.push(slave) {
        Ok(()) => Ok(Some(place)),
        Err(_) => Err(CaptureReadFault::Memory),
    }
}

/// The place of the slave of an address.
fn place_in<S: CaptureSink + Drop>(slaves: &[Slave<S>], address: IpAddr) -> Option<usize>
    ensures some { IfSome result (IsAt address slaves.now) }
    ensures none { IsNone result → IsMet address slaves.now → ⊥ }
{
    'slaves: for i in 0..slaves.len() {
        if is_same_address(slaves[i].address, address) {
            return Some(i);
        }
    }
    None
}

/// What waits in the connections of all.
fn end_all<S: CaptureSink + Drop>(slaves: &mut Vec<Slave<S>>) -> Result<(), CaptureReadFault>
    ensures ok { OnOk result (AllEnd slaves.old.items slaves.new.items) }
    ensures err { IfErr result (OrMemory (RefusesConnection slaves.old.items)) }
{
    'slaves: for i in 0..slaves.len() {
        slaves[i].give_up_holes()?;
    }
    Ok(())
}
