//! The session, from CONNECT to DISCONNECT: each packet of the master is answered.
ghost use Rattle.std.specs.Prelude.{◌≡◌, ◌≤◌, [], IfErr, IfOk, IfSome, OnErr, OnOk, Some};
ghost use Rattle.std.specs.Prelude.{length};
ghost use Rattle.xcp_base.specs.declared.limits.TheConstants.{MAX_CTO};
ghost use Rattle.session.specs.Fields.{IsReplyPacket};
ghost use Rattle.session.specs.Past.{new_past, none_given};
ghost use Rattle.session.specs.Profiles.{profile_fault};
ghost use Rattle.session.specs.Requests.{request};
ghost use Rattle.session.specs.Standing.{AnswersMaster, AnswersRequest, Exchanges, Greets};
ghost use Rattle.session.specs.Standing.{MayRunOut, PacketMayRunOut, SessionStandsAfter, given_by};

use crate::cto::Cto;
use crate::profile::{Profile, ProfileFault};
use crate::request::{self, Request};
use crate::source::{Source, TextOf};
use daq_store::command::{self, Command};
use daq_store::{Limits, NoMemory, Store};
use segments::Segments;
use std::alloc::Global;
use std::marker::Model;
use xcp_base::ErrCode;
use xcp_base::limits::MAX_LISTS;

/// The session of a slave with its master: whether one is connected, what UPLOAD reads, and the DAQ
/// lists.
///
/// Contracts speak of a session by its past: it *stands after* it.
#[derive(Drop)]
pub struct Session {
    pub(crate) profile: Profile,
    pub(crate) connected: bool,
    pub(crate) source: Source,
    pub(crate) store: Store,
}

impl Model for Session {
    ghost use Rattle.session.specs.Standing.{SessionState, IsSession, source_held};

    ghost Value = { SessionState };

    ghost view = { λ a. record {
      profile = a.profile;
      connected = a.connected;
      source = source_held a.profile a.source;
      store = a.store;
    } };

    ghost invariant = { λ a. IsSession (record {
      profile = a.profile;
      connected = a.connected;
      source = source_held a.profile a.source;
      store = a.store;
    }) };
}

impl Session {
    /// The session of a slave with this profile: no master is connected, and there is no DAQ list.
    ///
    /// Refused if the profile is out of a limit, with the first of them.
    pub fn open(alloc: Global, profile: Profile) -> Result<Session, ProfileFault>
        ensures fault { IfErr result (λ fault. profile_fault profile ≡ Some fault) }
        ensures within { OnOk result (profile_fault profile ≡ None) }
        ensures profile { IfOk result (λ s. s.profile ≡ profile) }
        ensures fresh { IfOk result (λ s. SessionStandsAfter s new_past) }
    {
        if let Some(fault) = profile.fault() {
            return Err(fault);
        }
        let channels = profile.events.as_slice().len() as u16;
        let Ok(segments) = Segments::new(&profile.segments, channels) else {
            unreachable!()
        };
        let limits = Limits::of_slaves(profile.max_dto);
        let Ok(store) = Store::over(
            alloc,
            channels,
            segments,
            profile.id,
            profile.stamp_size,
            limits,
        ) else {
            unreachable!()
        };
        Ok(Session {
            profile,
            connected: false,
            source: Source::Nothing,
            store,
        })
    }

    /// Answers a packet of the master, which came at this clock, with memory as it is then: at most
    /// one reply. An allocation that runs out of memory isn't carried out, and is answered by
    /// ERR_MEMORY_OVERFLOW.
    ///
    /// Of each segment `memory` has one slice, in their order. A segment whose slice has another
    /// length, or that has none, isn't there, and what reads it is answered by ERR_ACCESS_DENIED.
    pub fn answer(&mut self, packet: &[u8], clock: u32, memory: &[&[u8]]) -> Option<Cto>
        ensures reply { Exchanges self.old self.new packet.now (given_by clock memory.now)
            result }
        ensures starts { IfSome result (IsReplyPacket MAX_CTO) }
        ensures profile_stays { self.new.profile ≡ self.old.profile }
        ensures fits { IfSome result (λ reply. length reply ≤ self.old.profile.max_cto) }
    {
        // for the proof: a reply of eight bytes fits
        self.max_cto();
        match self.carry_packet(packet, clock, memory) {
            Ok(reply) => reply,
            Err(NoMemory) => Some(Cto::error(ErrCode::MemoryOverflow)),
        }
    }

    /// Whether a master is connected.
    pub fn is_connected(&self) -> bool
        ensures { result ≡ self.now.connected }
    {
        self.connected
    }

    /// The transport was lost: all DAQ lists are given up as by FREE_DAQ, what UPLOAD reads is
    /// forgotten, and no master is connected. So it is after DISCONNECT, but nothing is replied.
    pub fn hang_up(&mut self)
        ensures fresh { SessionStandsAfter self.new new_past }
        ensures profile_stays { self.new.profile ≡ self.old.profile }
    {
        self.store.free_daq();
        self.source = Source::Nothing;
        self.connected = false;
    }

    /// Carries a packet out, and answers it, if it doesn't run out of memory.
    fn carry_packet(
        &mut self,
        packet: &[u8],
        clock: u32,
        memory: &[&[u8]],
    ) -> Result<Option<Cto>, NoMemory>
        ensures ok { IfOk result
            (AnswersMaster self.old self.new (given_by clock memory.now) packet.now) }
        ensures no_memory { OnErr result (PacketMayRunOut self.old packet.now) }
        ensures unchanged { OnErr result (self.new ≡ self.old) }
        ensures profile_stays { self.new.profile ≡ self.old.profile }
        ensures fits { IfOk result (λ reply. IfSome reply
            (λ bytes. length bytes ≤ self.old.profile.max_cto)) }
    {
        let read = request::read(packet, self.profile.max_cto);
        if !self.connected {
            return Ok(self.greet(read));
        }
        match read {
            Ok(asked) => {
                let reply = self.carry_out(asked, packet, clock, memory)?;
                Ok(Some(reply))
            }
            Err(code) => Ok(Some(Cto::error(code))),
        }
    }

    /// While no master is connected, CONNECT with mode 0 connects one; to all else there is no
    /// reply.
    fn greet(&mut self, read: Result<Request, ErrCode>) -> Option<Cto>
        ensures reply { Greets self.old self.new read result }
        ensures profile_stays { self.new.profile ≡ self.old.profile }
        ensures fits { IfSome result (λ reply. length reply ≤ self.old.profile.max_cto) }
    {
        match read {
            Ok(Request::Connect { mode: 0 }) => {
                self.connected = true;
                Some(self.connected_reply())
            }
            _ => None,
        }
    }

    /// Carries a request out, and answers it.
    fn carry_out(
        &mut self,
        asked: Request,
        packet: &[u8],
        clock: u32,
        memory: &[&[u8]],
    ) -> Result<Cto, NoMemory>
        requires { request self.old.profile.max_cto packet.now ≡ Ok asked }
        ensures ok { IfOk result
            (AnswersRequest self.old self.new (given_by clock memory.now) packet.now asked) }
        ensures no_memory { OnErr result (MayRunOut self.old asked) }
        ensures unchanged { OnErr result (self.new ≡ self.old) }
        ensures profile_stays { self.new.profile ≡ self.old.profile }
        ensures fits { IfOk result (λ reply. length reply ≤ self.old.profile.max_cto) }
    {
        // for the proof: a reply of eight bytes fits
        self.max_cto();
        match asked {
            Request::Connect { mode } => Ok(self.connect_again(mode)),
            Request::Disconnect => Ok(self.disconnect()),
            Request::GetStatus => Ok(self.status()),
            Request::Synch => Ok(Cto::error(ErrCode::CmdSynch)),
            Request::GetCommModeInfo => Ok(Cto::positive(&[0, 0, 0, 0, 0, 0, 0x10])),
            Request::GetId { kind } => Ok(self.id(kind)),
            Request::SetMta { extension, address } => Ok(self.set_mta(extension, address)),
            Request::Upload { count } => Ok(self.upload(count, memory)),
            Request::ShortUpload {
                count,
                extension,
                address,
            } => Ok(self.short_upload(count, extension, address, memory)),
            Request::GetDaqListMode { list } => Ok(self.list_mode(list)),
            Request::GetDaqClock => {
                let [a, b, c, d] = clock.to_le_bytes();
                Ok(Cto::positive(&[0, 0, 0, a, b, c, d]))
            }
            Request::GetDaqProcessorInfo => Ok(self.processor_info()),
            Request::GetDaqResolutionInfo => Ok(self.resolution_info()),
            Request::GetDaqListInfo { list } => Ok(self.list_info(list)),
            Request::GetDaqEventInfo { channel } => Ok(self.event_info(channel)),
            Request::WriteDaqMultiple { count } => Ok(self.write_multiple(count, &packet[2..])),
            Request::Lists(command) => self.set_lists(command),
        }
    }

    /// GET_DAQ_EVENT_INFO: the name's length, the cycle and the priority; UPLOAD reads the name.
    fn event_info(&mut self, channel: u16) -> Cto
        ensures reply { AnswersRequest self.old self.new none_given []
            (Request.GetDaqEventInfo channel) result }
        ensures profile_stays { self.new.profile ≡ self.old.profile }
        ensures few { length result ≤ 8 }
    {
        let Some(event) = self.profile.events.get(channel as usize) else {
            return Cto::error(ErrCode::OutOfRange);
        };
        let reply = Cto::positive(&[
            0x44,
            MAX_LISTS as u8,
            event.name.len() as u8,
            event.cycle,
            event.cycle_unit,
            event.priority,
        ]);
        self.source = Source::Text {
            text: TextOf::Event(channel),
            read: 0,
        };
        reply
    }

    /// One of the commands that set DAQ lists.
    fn set_lists(&mut self, command: Command) -> Result<Cto, NoMemory>
        ensures ok { IfOk result
            (AnswersRequest self.old self.new none_given [] (Request.Lists command)) }
        ensures no_memory { OnErr result (MayRunOut self.old (Request.Lists command)) }
        ensures unchanged { OnErr result (self.new ≡ self.old) }
        ensures profile_stays { self.new.profile ≡ self.old.profile }
        ensures fits { IfOk result (λ reply. length reply ≤ self.old.profile.max_cto) }
    {
        let reply = command::carry_out(&mut self.store, command)?;
        Ok(Cto::of_store(reply))
    }

    /// DISCONNECT: the session is as it was when it was opened.
    fn disconnect(&mut self) -> Cto
        ensures reply { AnswersRequest self.old self.new none_given [] Request.Disconnect result }
        ensures profile_stays { self.new.profile ≡ self.old.profile }
        ensures few { length result ≤ 8 }
    {
        self.hang_up();
        Cto::positive(&[])
    }
}
