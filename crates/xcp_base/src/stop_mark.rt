//! What a stop sends through the ring, to tell the samples before it from those after it.
ghost use Rattle.std.specs.Prelude.{◌≡◌, ◌<◌};

use crate::channel_id::ChannelId;
use crate::limits::{MAX_CHANNELS, MAX_LISTS};
use crate::list_id::ListId;
use std::marker::Model;

/// Marks the place in an event channel's ring at which a DAQ list was stopped. It writes no
/// bytes.
#[derive(Debug, Drop)]
pub struct StopMark {
    channel: ChannelId,
    list: ListId,
}

impl Model for StopMark {
    ghost use Rattle.xcp_base.specs.Samples.{IsMark, MarkParts};

    ghost Value = { MarkParts };

    ghost view = { λ m. record { channel = m.channel; list = m.list } };

    ghost invariant = { λ m. IsMark (record { channel = m.channel; list = m.list }) };
}

impl StopMark {
    /// The marker of a DAQ list of an event channel.
    pub fn new(channel: u8, list: u8) -> StopMark
        requires channel_below { channel < MAX_CHANNELS }
        requires list_below { list < MAX_LISTS }
        ensures { result ≡ record { channel = channel; list = list } }
    {
        StopMark::of(ChannelId::at(channel as usize), ListId::at(list as u16))
    }

    /// The marker of a DAQ list of an event channel, as `new` makes it.
    pub fn of(channel: ChannelId, list: ListId) -> StopMark
        ensures { result ≡ record { channel = channel; list = list } }
    {
        StopMark { channel, list }
    }

    /// The number of the event channel.
    pub fn channel(&self) -> u8
        ensures value { result ≡ self.now.channel }
        ensures below { result < MAX_CHANNELS }
    {
        self.channel.byte()
    }

    /// The number of the DAQ list.
    pub fn list(&self) -> u8
        ensures value { result ≡ self.now.list }
        ensures below { result < MAX_LISTS }
    {
        self.list.byte()
    }
}
