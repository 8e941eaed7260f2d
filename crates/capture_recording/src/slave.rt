//! A slave of a capture.

use crate::capture_read_fault::CaptureReadFault;
use crate::capture_sink::CaptureSink;
use crate::connection::Connection;
use crate::ip_data::IpData;
use crate::talks::Talk;
use captured_samples::SlaveSamples;
use captured_session::SessionFault;
use datagrams::{Segment, tcp_in, udp_in};
use frame_writer::next_frame;
use std::alloc::Global;
use std::net::{IpAddr, SocketAddr};

/// The most connections whose bytes are kept.
const MAX_CONNECTIONS: usize = 16;

/// A slave of a capture, and who is handed its samples.
#[derive(Drop)]
pub struct Slave<S: CaptureSink + Drop> {
    /// Its address.
    pub address: IpAddr,
    /// Its samples.
    pub samples: SlaveSamples,
    /// Who is handed them.
    pub sink: S,
    alloc: Global,
    connections: Vec<Connection>,
}

impl<S: CaptureSink + Drop> Slave<S> {
    ghost use Rattle.std.specs.Prelude.{◌≡◌, ◌≢◌, ◌+◌, ◌∷◌, [], ℕ, List, length, Err, IfErr, IfOk};
    ghost use Rattle.std.specs.Prelude.{IsOk, OnOk};
    ghost use Rattle.captured_samples.specs.Frames.{Came};
    ghost use Rattle.captured_samples.specs.Slaves.{IsFull, StandsAfter};
    ghost use Rattle.captured_samples.specs.Standing.{Start, set_up_of};
    ghost use Rattle.captured_session.specs.declared.session_fault.SessionFault.TheVariants.{
      ManyFacts,
    };
    ghost use Rattle.capture_recording.specs.Heard.{AreFrames, FillsUp, FillsUpBy, HearsDatagram};
    ghost use Rattle.capture_recording.specs.Heard.{HearsFrames};
    ghost use Rattle.capture_recording.specs.Refusals.{OrMemory};
    ghost use Rattle.capture_recording.specs.Slaves.{Ends, HearsTalk, IsOfDatagrams, IsOneWith};
    ghost use Rattle.capture_recording.specs.Talks.{data_of};

    /// Nothing was heard of it.
    pub fn new(alloc: Global, address: IpAddr, samples: SlaveSamples, sink: S) -> Slave<S>
        ensures address { result.address ≡ address }
        ensures samples { result.samples ≡ samples }
        ensures sink { result.sink ≡ sink }
        ensures plain { IsOfDatagrams result }
    {
        Slave {
            address,
            samples,
            sink,
            alloc,
            connections: Vec::new(alloc),
        }
    }

    /// What it and a master say to one another, captured at this time: the frames of a datagram of
    /// UDP, or of the bytes that come next with a segment of TCP.
    pub fn hear(
        &mut self,
        time: Option<i64>,
        talk: Talk,
        carried: &IpData<'_>,
    ) -> Result<(), CaptureReadFault>
        ensures ok { OnOk result
            (HearsTalk S.told (data_of carried.now) talk.is_of_master self.old self.new) }
        ensures err { IfErr result (OrMemory (λ fault.
            (fault ≡ CaptureReadFault.Session ManyFacts) × (carried.now.protocol ≢ 6
            → FillsUpBy talk.is_of_master carried.now.payload.now self.old.samples))) }
    {
        self.sink.set_time(time);
        match self.hear_carried(talk, carried) {
            Ok(()) => Ok(()),
            Err(fault) => Err(CaptureReadFault::of_session(fault)),
        }
    }

    /// What it and a master say to one another: the frames of a datagram of UDP, or of the bytes
    /// that come next with a segment of TCP.
    fn hear_carried(&mut self, talk: Talk, carried: &IpData<'_>) -> Result<(), SessionFault>
        ensures heard { OnOk result
            (HearsTalk S.told (data_of carried.now) talk.is_of_master self.old self.new) }
        ensures many { result ≡ Err ManyFacts → carried.now.protocol ≢ 6
            → FillsUpBy talk.is_of_master carried.now.payload.now self.old.samples }
    {
        if carried.is_segment() {
            return self.hear_tcp(talk, carried.payload);
        }
        self.hear_datagram(talk.is_of_master, carried.payload)
    }

    /// A segment of TCP, if these bytes are one.
    fn hear_tcp(&mut self, talk: Talk, bytes: &[u8]) -> Result<(), SessionFault>
        ensures { OnOk result (self.new.address ≡ self.old.address) }
    {
        match tcp_in(bytes) {
            Some(segment) => self.hear_segment(talk, &segment),
            None => Ok(()),
        }
    }

    /// A datagram of UDP, if these bytes are one.
    fn hear_datagram(&mut self, is_of_master: bool, bytes: &[u8]) -> Result<(), SessionFault>
        ensures heard { OnOk result (HearsDatagram is_of_master bytes.now
            self.old.samples self.new.samples (S.told self.old.sink) (S.told self.new.sink)) }
        ensures stays { OnOk result (IsOneWith self.old self.new) }
        ensures many { result ≡ Err ManyFacts → FillsUpBy is_of_master bytes.now self.old.samples }
    {
        let Some(datagram) = udp_in(bytes) else {
            return Ok(());
        };
        self.hear_frames(is_of_master, datagram.payload)?;
        Ok(())
    }

    /// What waits behind holes in connections, at the end of the capture.
    pub fn give_up_holes(&mut self) -> Result<(), CaptureReadFault>
        ensures ok { OnOk result (Ends self.old self.new) }
        ensures err { IfErr result (OrMemory (λ fault.
            fault ≡ CaptureReadFault.Session ManyFacts)) }
        ensures none { IsOfDatagrams self.old → IsOk result }
    {
        'connections: for place in 0..self.connections.len() {
            match self.give_up_in(place) {
                Ok(()) => {}
                Err(fault) => return Err(CaptureReadFault::of_session(fault)),
            }
        }
        Ok(())
    }

    /// What waits behind holes in one of them.
    fn give_up_in(&mut self, place: usize) -> Result<(), SessionFault>
        ensures { OnOk result (self.new.address ≡ self.old.address) }
    {
        self.give_up(place, true)?;
        self.give_up(place, false)
    }

    /// What waits in one direction of it.
    fn give_up(&mut self, place: usize, is_of_master: bool) -> Result<(), SessionFault>
        ensures { OnOk result (self.new.address ≡ self.old.address) }
    {
        if let Some(connection) = self.connections.get_mut(place) {
            connection.flow(is_of_master).give_up_holes();
        }
        self.hear_flow(place, is_of_master)
    }

    /// A segment.
    fn hear_segment(&mut self, talk: Talk, segment: &Segment<'_>) -> Result<(), SessionFault>
        ensures { OnOk result (self.new.address ≡ self.old.address) }
    {
        let place = self.place_of(talk, segment)?;
        if let Some(number) = segment.acknowledged {
            self.hear_acknowledged(place, !talk.is_of_master, number)?;
        }
        if let Some(connection) = self.connections.get_mut(place) {
            let flow = connection.flow(talk.is_of_master);
            if flow.take(segment).is_err() {
                return Err(SessionFault::Memory);
            }
        }
        self.hear_flow(place, talk.is_of_master)
    }

    /// Bytes before this number came to the receiver: those that the capture doesn't have aren't
    /// waited for any longer.
    fn hear_acknowledged(
        &mut self,
        place: usize,
        is_of_master: bool,
        number: u32,
    ) -> Result<(), SessionFault>
        ensures { OnOk result (self.new.address ≡ self.old.address) }
    {
        let Some(connection) = self.connections.get_mut(place) else {
            return Ok(());
        };
        let flow = connection.flow(is_of_master);
        if !flow.is_short_of(number) {
            return Ok(());
        }
        flow.give_up_holes();
        self.hear_flow(place, is_of_master)
    }

    /// The place of a connection, which may be a new one. The slave counts anew in it.
    fn place_of(&mut self, talk: Talk, segment: &Segment<'_>) -> Result<usize, SessionFault>
        ensures { OnOk result (self.new.address ≡ self.old.address) }
    {
        match position_of(&self.connections, talk.master) {
            Some(place) => {
                self.go_on_in(place, talk, segment);
                Ok(place)
            }
            None => self.begin_connection(talk.master),
        }
    }

    /// Begins the connection at a place anew, unless it may have this segment.
    fn go_on_in(&mut self, place: usize, talk: Talk, segment: &Segment<'_>)
        ensures { self.new.address ≡ self.old.address }
    {
        let Some(connection) = self.connections.get_mut(place) else {
            return;
        };
        if connection.flow(talk.is_of_master).may_have(segment) {
            return;
        }
        *connection = Connection::new(self.alloc, talk.master);
        self.samples.begin_anew();
    }

    /// The place of a new connection of a master. If too many are kept, they are dropped.
    fn begin_connection(&mut self, master: SocketAddr) -> Result<usize, SessionFault>
        ensures { OnOk result (self.new.address ≡ self.old.address) }
    {
        if self.connections.len() >= MAX_CONNECTIONS {
            self.connections.clear();
        }
        self.samples.begin_anew();
        let place = self.connections.len();
        match self.connections.push(Connection::new(self.alloc, master)) {
            Ok(()) => Ok(place),
            Err(_) => Err(SessionFault::Memory),
        }
    }

    /// What came in one direction of a connection.
    fn hear_flow(&mut self, place: usize, is_of_master: bool) -> Result<(), SessionFault>
        ensures { OnOk result (self.new.address ≡ self.old.address) }
    {
        'fetches: for _ in 0..u64::MAX {
            if !self.fetch(place, is_of_master)? {
                break;
            }
        }
        Ok(())
    }

    /// Bytes that came next in it; `false` if none came yet.
    fn fetch(&mut self, place: usize, is_of_master: bool) -> Result<bool, SessionFault>
        ensures { OnOk result (self.new.address ≡ self.old.address) }
    {
        let Some(connection) = self.connections.get_mut(place) else {
            return Ok(false);
        };
        let flow = connection.flow(is_of_master);
        match flow.fetch() {
            Ok(true) => {}
            Ok(false) => return Ok(false),
            Err(_) => return Err(SessionFault::Memory),
        }
        if !flow.find_step() {
            return Ok(true);
        }
        let bytes = std::mem::replace(&mut flow.bytes, Vec::new(self.alloc));
        let taken = self.hear_frames(is_of_master, &bytes)?;
        if let Some(connection) = self.connections.get_mut(place) {
            let flow = connection.flow(is_of_master);
            flow.bytes = bytes;
            flow.drop_front(taken);
        }
        Ok(true)
    }

    /// Frames in their order, as far as they are whole (ASAM MCD-1 XCP, transport layer for
    /// Ethernet, header). Returns how many bytes they are.
    fn hear_frames(&mut self, is_of_master: bool, bytes: &[u8]) -> Result<usize, SessionFault>
        ensures heard { IfOk result (λ taken. (fs : List (ℕ × List ℕ)) × (rest : List ℕ)
            × AreFrames bytes.now fs rest × (taken + length rest ≡ length bytes.now)
            × HearsFrames is_of_master fs self.old.samples self.new.samples
            (S.told self.old.sink) (S.told self.new.sink)) }
        ensures stays { OnOk result (IsOneWith self.old self.new) }
        ensures many { result ≡ Err ManyFacts → FillsUp is_of_master bytes.now self.old.samples }
    {
        let mut rest = bytes;
        'frames: for _ in 0..bytes.len() {
            let Some((counter, packet, behind)) = next_frame(rest) else {
                return Ok(bytes.len().saturating_sub(rest.len()));
            };
            self.hear_packet(is_of_master, counter, packet)?;
            rest = behind;
        }
        Ok(bytes.len().saturating_sub(rest.len()))
    }

    /// The packet of a frame.
    fn hear_packet(
        &mut self,
        is_of_master: bool,
        counter: u16,
        packet: &[u8],
    ) -> Result<(), SessionFault>
        ensures heard { OnOk result (HearsFrames is_of_master ((counter, packet.now) ∷ [])
            self.old.samples self.new.samples (S.told self.old.sink) (S.told self.new.sink)) }
        ensures stays { OnOk result (IsOneWith self.old self.new) }
        ensures many { (start : Start) (h : List Came) → StandsAfter start h self.old.samples
            → result ≡ Err ManyFacts → IsFull (set_up_of start h) }
    {
        self.sink.frame(is_of_master, counter, packet);
        if is_of_master {
            return self.samples.hear_master(counter, packet);
        }
        self.samples.hear_slave(counter, packet, &mut self.sink)
    }
}

/// The place of the connection of a master.
fn position_of(connections: &[Connection], master: SocketAddr) -> Option<usize> {
    connections
        .iter()
        .position(|connection| connection.master == master)
}
