//! The replies to requests that change nothing.
ghost use Rattle.std.specs.Prelude.{◌≡◌, ◌≤◌, map, length, max};
ghost use Rattle.session.specs.Fields.{packet_of};
ghost use Rattle.session.specs.Replies.{connect_reply, most_of};
ghost use Rattle.session.specs.Standing.{Looks};

use crate::cto::{Cto, bit, key_byte, mode_bits};
use crate::request::Request;
use crate::session::Session;
use daq_store::ListConf;
use xcp_base::ErrCode;

impl Session {
    /// GET_DAQ_LIST_INFO: the ODTs of the list, and the most entries of one of them.
    pub(crate) fn list_info(&self, list: u16) -> Cto
        ensures reply { Looks self.now (Request.GetDaqListInfo list) result }
        ensures few { length result ≤ 8 }
    {
        let Some(conf) = self.store.conf(list) else {
            return Cto::error(ErrCode::OutOfRange);
        };
        Cto::positive(&[0x04, conf.odts() as u8, most_entries(conf), 0, 0])
    }

    /// CONNECT while a master is connected already: nothing changes.
    pub(crate) fn connect_again(&self, mode: u8) -> Cto
        ensures reply { Looks self.now (Request.Connect mode) result }
        ensures few { length result ≤ 8 }
    {
        if mode != 0 {
            return Cto::error(ErrCode::OutOfRange);
        }
        self.connected_reply()
    }

    /// The reply to CONNECT: RESOURCE, COMM_MODE_BASIC, MAX_CTO, MAX_DTO, and the versions of the
    /// protocol layer and the transport layer.
    pub(crate) fn connected_reply(&self) -> Cto
        ensures reply { result ≡ packet_of (connect_reply self.now.profile 0) }
        ensures few { length result ≤ 8 }
    {
        let [low, high] = self.profile.max_dto.to_le_bytes();
        Cto::positive(&[0x04, 0x80, self.profile.max_cto, low, high, 0x01, 0x01])
    }

    /// GET_STATUS: whether a list runs.
    pub(crate) fn status(&self) -> Cto
        ensures reply { Looks self.now Request.GetStatus result }
        ensures few { length result ≤ 8 }
    {
        let runs = bit(self.store.any_running(), 0x40);
        Cto::positive(&[runs, 0, 0, 0, 0])
    }

    /// GET_DAQ_LIST_MODE: the bits of the mode, the event channel, the prescaler and the priority.
    pub(crate) fn list_mode(&self, list: u16) -> Cto
        ensures reply { Looks self.now (Request.GetDaqListMode list) result }
        ensures few { length result ≤ 8 }
    {
        let Some(conf) = self.store.conf(list) else {
            return Cto::error(ErrCode::OutOfRange);
        };
        let selected = self.store.selected(list);
        let runs = self.store.running(list);
        let mode = mode_bits(selected, conf.stamped(), runs);
        let [low, high] = (conf.channel() as u16).to_le_bytes();
        Cto::positive(&[mode, 0, 0, low, high, conf.prescaler(), conf.priority()])
    }

    /// GET_DAQ_PROCESSOR_INFO: the numbers of lists and event channels, and the identification
    /// field.
    pub(crate) fn processor_info(&self) -> Cto
        ensures reply { Looks self.now Request.GetDaqProcessorInfo result }
        ensures few { length result ≤ 8 }
    {
        let [a, b] = self.store.lists().to_le_bytes();
        let [c, d] = (self.profile.events.len() as u16).to_le_bytes();
        Cto::positive(&[0x53, a, b, c, d, 0, key_byte(self.profile.id)])
    }

    /// GET_DAQ_RESOLUTION_INFO: the sizes of entries, and the timestamp's size, unit and ticks.
    pub(crate) fn resolution_info(&self) -> Cto
        ensures reply { Looks self.now Request.GetDaqResolutionInfo result }
        ensures few { length result ≤ 8 }
    {
        let mode = self.profile.stamp_size + 16 * self.profile.unit;
        let [low, high] = self.profile.ticks.to_le_bytes();
        let most = self.store.most_entry();
        Cto::positive(&[0x01, most, 0x01, 0x00, mode, low, high])
    }
}

/// The most entries of one ODT.
fn most_entries(conf: &ListConf) -> u8
    ensures { result ≡ most_of (map length conf.now.odts) }
{
    let mut most = 0;
    for odt in 0..conf.odts() {
        most = greater(most, conf.entries(odt));
    }
    most as u8
}

/// The greater of two numbers.
fn greater(a: usize, b: usize) -> usize
    ensures { result ≡ max a b }
{
    if a > b { a } else { b }
}
