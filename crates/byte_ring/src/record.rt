//! Items as records: how they are written.
ghost use Rattle.std.specs.Prelude.{◌≡◌, ◌+◌, ◌<◌, ◌≤◌, [], ◌∷◌, ◌++◌, length, take};
ghost use Rattle.std.specs.Int.{to_le_bytes, w64};
ghost use Rattle.channel_ring.specs.Ends.{sample_item};
ghost use Rattle.byte_ring.specs.Records.{IsItem, record_of};

use xcp_base::limits::MIN_BYTE_RING;
use xcp_base::{ChannelId, Item, ListId, Packets};

/// The longest record, in bytes: the smallest ring has room for it.
pub(crate) const MAX_RECORD: usize = MIN_BYTE_RING;

/// The bytes in front of the packets in the record of a sample.
pub(crate) const HEAD: usize = 12;

/// The first byte of a sample's record.
pub(crate) const SAMPLE: u8 = 1;

/// The first byte of a stop marker's record.
pub(crate) const MARKER: u8 = 2;

/// The bytes of a stop marker's record.
pub(crate) const MARKER_LEN: usize = 3;

/// The number of bytes of an item's record.
#[tactic(auto, unfolding(crate::specs::Records::record_of))]
pub(crate) fn record_len(item: &Item) -> usize
    ensures { result ≡ length (record_of item.now) }
{
    match item {
        Item::Sample(sample) => HEAD + sample.packets().body().len(),
        Item::Marker(_) => MARKER_LEN,
    }
}

/// What stands in front of the packets in the record of a sample.
fn head_of(channel: ChannelId, list: ListId, number: u64, count: u8) -> [u8; HEAD]
    ensures { result ≡ 1 ∷ channel ∷ list ∷ (to_le_bytes w64 number ++ count ∷ []) }
{
    let (channel, list) = (channel.byte(), list.byte());
    let [a, b, c, d, e, f, g, h] = number.to_le_bytes();
    [SAMPLE, channel, list, a, b, c, d, e, f, g, h, count]
}

/// Writes the record of a sample over the first places, and returns its length.
#[tactic(auto, unfolding(crate::specs::Records::record_of))]
pub(crate) fn write_sample(
    out: &mut [u8; MAX_RECORD],
    channel: ChannelId,
    list: ListId,
    number: u64,
    packets: &Packets,
) -> usize
    requires some { 0 < length packets.now }
    ensures bytes { take result out.new ≡ record_of (sample_item channel list number packets.now) }
    ensures item { IsItem (sample_item channel list number packets.now) }
    ensures limit { result ≤ MAX_RECORD }
{
    let body = packets.body();
    let end = HEAD + body.len();
    out[..HEAD].copy_from_slice(&head_of(channel, list, number, packets.len() as u8));
    out[HEAD..end].copy_from_slice(body);
    end
}

/// Writes the record of an item over the first places, and returns its length.
#[tactic(auto, unfolding(crate::specs::Records::record_of))]
pub(crate) fn write_record(out: &mut [u8; MAX_RECORD], item: &Item) -> usize
    ensures bytes { take result out.new ≡ record_of item.now }
    ensures item { IsItem item.now }
    ensures limit { result ≤ MAX_RECORD }
{
    match item {
        Item::Sample(sample) => {
            let channel = ChannelId::at(sample.channel() as usize);
            let list = ListId::at(sample.list() as u16);
            write_sample(out, channel, list, sample.number(), sample.packets())
        }
        Item::Marker(marker) => {
            let bytes = [MARKER, marker.channel(), marker.list()];
            out[..MARKER_LEN].copy_from_slice(&bytes);
            MARKER_LEN
        }
    }
}
