//! Records, read again.
ghost use Rattle.std.specs.Prelude.{◌≡◌, ◌≢◌, ℕ, ◌<◌, ◌≤◌, List, length, slice_index, true, false};
ghost use Rattle.xcp_base.specs.Bodies.{IsBodyOf};
ghost use Rattle.xcp_base.specs.declared.item.Item.{Item};
ghost use Rattle.xcp_base.specs.declared.limits.TheConstants.{MAX_CHANNELS, MAX_LISTS};
ghost use Rattle.byte_ring.specs.Records.{IsItem, record_of};
ghost use Rattle.byte_ring.specs.Reads.{IsSampleRead};

use crate::record::{HEAD, MARKER, MARKER_LEN, SAMPLE};
use xcp_base::{ChannelId, Item, ListId, Packets, Sample, StopMark};

/// Any stop marker.
pub(crate) fn any_marker() -> Item {
    Item::Marker(StopMark::new(0, 0))
}

/// Any sample.
fn any_sample() -> Sample {
    let mut packets = Packets::new();
    let Ok(()) = packets.push(&[0]) else {
        unreachable!();
    };
    Sample::new(0, 0, 0, packets)
}

/// Puts a sample in the place of a stop marker, or of any item: it is moved once more than if a
/// sample is there.
fn put_sample(
    item: &mut Item,
    channel: ChannelId,
    list: ListId,
    number: u64,
    count: u8,
    body: &[u8],
) -> bool
    ensures yes { result ≡ true → IsSampleRead channel list number count body.now item.new }
    ensures no { result ≡ false
        → (qs : List (List ℕ)) → 0 < length qs → ¬ IsBodyOf count body.now qs }
{
    let mut sample = any_sample();
    let is_read = sample.read(channel, list, number, count, body);
    *item = Item::Sample(sample);
    is_read
}

/// Reads a sample in the place of an item.
fn read_into(
    item: &mut Item,
    channel: ChannelId,
    list: ListId,
    number: u64,
    count: u8,
    body: &[u8],
) -> bool
    ensures yes { result ≡ true → IsSampleRead channel list number count body.now item.new }
    ensures no { result ≡ false
        → (qs : List (List ℕ)) → 0 < length qs → ¬ IsBodyOf count body.now qs }
{
    match item {
        Item::Sample(sample) => sample.read(channel, list, number, count, body),
        Item::Marker(_) => put_sample(item, channel, list, number, count, body),
    }
}

/// Reads the sample whose record these bytes are: its kind, its event channel and its DAQ list were
/// read.
fn read_sample(item: &mut Item, channel: ChannelId, list: ListId, bytes: &[u8]) -> bool
    requires long { 3 ≤ length bytes.now }
    requires kind { slice_index bytes.now 0 ≡ 1 }
    requires channel { (slice_index bytes.now 1 ≡ channel) × (channel < MAX_CHANNELS) }
    requires list { (slice_index bytes.now 2 ≡ list) × (list < MAX_LISTS) }
    ensures yes { result ≡ true → record_of item.new ≡ bytes.now }
    ensures item { result ≡ true → IsItem item.new }
    ensures no { result ≡ false → (x : Item) → IsItem x → record_of x ≢ bytes.now }
{
    if bytes.len() < HEAD {
        return false;
    }
    if bytes[11] == 0 {
        return false;
    }
    let number = u64::from_le_bytes([
        bytes[3], bytes[4], bytes[5], bytes[6], bytes[7], bytes[8], bytes[9], bytes[10],
    ]);
    read_into(item, channel, list, number, bytes[11], &bytes[HEAD..])
}

/// Reads the item whose record these bytes are, in the place of another one; false if they are
/// no record.
pub(crate) fn read_item(item: &mut Item, bytes: &[u8]) -> bool
    ensures yes { result ≡ true → record_of item.new ≡ bytes.now }
    ensures item { result ≡ true → IsItem item.new }
    ensures no { result ≡ false → (x : Item) → IsItem x → record_of x ≢ bytes.now }
{
    if bytes.len() < MARKER_LEN {
        return false;
    }
    let Some(channel) = ChannelId::new(bytes[1]) else {
        return false;
    };
    let Some(list) = ListId::new(bytes[2]) else {
        return false;
    };
    if bytes[0] == SAMPLE {
        return read_sample(item, channel, list, bytes);
    }
    if bytes[0] != MARKER {
        return false;
    }
    if bytes.len() != MARKER_LEN {
        return false;
    }
    *item = Item::Marker(StopMark::of(channel, list));
    true
}
