//! What one trigger makes of one DAQ list: its packets, with event channel, list and number.
ghost use Rattle.std.specs.Prelude.{◌≡◌, ℕ, ◌<◌, List, true, false, length};
ghost use Rattle.xcp_base.specs.Bodies.{IsBodyOf};
ghost use Rattle.xcp_base.specs.Samples.{HasParts};

use crate::channel_id::ChannelId;
use crate::limits::{MAX_CHANNELS, MAX_LISTS};
use crate::list_id::ListId;
use crate::packets::Packets;
use std::marker::Model;

/// The packets of one DAQ list, made at one trigger of its event channel.
#[derive(Debug, Drop)]
pub struct Sample {
    channel: ChannelId,
    list: ListId,
    number: u64,
    packets: Packets,
}

impl Model for Sample {
    ghost use Rattle.xcp_base.specs.Samples.{IsSample, SampleParts};

    ghost Value = { SampleParts };

    ghost view = { λ s. record {
      channel = s.channel;
      list = s.list;
      number = s.number;
      packets = s.packets;
    } };

    ghost invariant = { λ s. IsSample (record {
      channel = s.channel;
      list = s.list;
      number = s.number;
      packets = s.packets;
    }) };
}

impl Sample {
    /// A sample; `number` counts the samples that the event channel accepted before it.
    pub fn new(channel: u8, list: u8, number: u64, packets: Packets) -> Sample
        requires channel_below { channel < MAX_CHANNELS }
        requires list_below { list < MAX_LISTS }
        requires some { 0 < length packets }
        ensures { result ≡ record {
          channel = channel;
          list = list;
          number = number;
          packets = packets;
        } }
    {
        let channel = ChannelId::at(channel as usize);
        Sample::of(channel, ListId::at(list as u16), number, packets)
    }

    /// A sample, as `new` makes it.
    pub fn of(channel: ChannelId, list: ListId, number: u64, packets: Packets) -> Sample
        requires some { 0 < length packets }
        ensures { result ≡ record {
          channel = channel;
          list = list;
          number = number;
          packets = packets;
        } }
    {
        Sample {
            channel,
            list,
            number,
            packets,
        }
    }

    /// Puts another sample in its place, whose packets are read off their body. Bytes that are no
    /// body of so many packets, and a body of none, are refused, and nothing changes then.
    pub fn read(
        &mut self,
        channel: ChannelId,
        list: ListId,
        number: u64,
        count: u8,
        body: &[u8],
    ) -> bool
        ensures yes { result ≡ true → HasParts channel list number self.new }
        ensures body { result ≡ true → IsBodyOf count body.now self.new.packets }
        ensures no { result ≡ false
            → (qs : List (List ℕ)) → 0 < length qs → ¬ IsBodyOf count body.now qs }
        ensures stays { result ≡ false → self.new ≡ self.old }
    {
        if count == 0 {
            return false;
        }
        if !self.packets.read_body(count, body) {
            return false;
        }
        self.channel = channel;
        self.list = list;
        self.number = number;
        true
    }

    /// The number of the event channel.
    pub fn channel(&self) -> u8
        ensures value { result ≡ self.now.channel }
        ensures below { result < MAX_CHANNELS }
    {
        self.channel.byte()
    }

    /// The number of the DAQ list.
    pub fn list(&self) -> u8
        ensures value { result ≡ self.now.list }
        ensures below { result < MAX_LISTS }
    {
        self.list.byte()
    }

    /// The number of samples that the event channel accepted before this one.
    pub fn number(&self) -> u64
        ensures { result ≡ self.now.number }
    {
        self.number
    }

    /// The packets, one for each ODT of the list; there is at least one.
    pub fn packets(&self) -> &Packets
        ensures value { result.now ≡ self.now.packets }
        ensures some { 0 < length result.now }
    {
        &self.packets
    }
}
