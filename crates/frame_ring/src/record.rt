//! Items as records: how they are written.
ghost use Rattle.std.specs.Prelude.{◌≡◌, ℕ, ◌+◌, ◌<◌, ◌≤◌, ◌^◌, ◌∷◌, ◌++◌, length, replicate, take};
ghost use Rattle.std.specs.Int.{to_le_bytes, w32, w64};
ghost use Rattle.channel_ring.specs.Ends.{sample_item};
ghost use Rattle.frame_ring.specs.Records.{IsItem, blocks_for, bytes_of, cost};
ghost use Rattle.frame_writer.specs.Frame.{unnumbered};
ghost use Rattle.xcp_base.specs.Samples.{SampleParts};
ghost use Rattle.xcp_base.specs.declared.item.Item.TheVariants.{Marker, Sample};
ghost use Rattle.xcp_base.specs.declared.limits.TheConstants.{SLACK};

use crate::block::BLOCK;
use channel_ring::SampleMaker;
use xcp_base::{ChannelId, ListId, StopMark, put_number};

/// The first byte of a sample's record.
pub(crate) const SAMPLE: u8 = 1;

/// The first byte of a stop marker's record.
const MARKER: u8 = 2;

/// The bytes in front of the frames in the record of a sample.
pub(crate) const HEAD: usize = 16;

/// The blocks of the head.
pub(crate) const HEAD_BLOCKS: usize = HEAD / BLOCK;

/// The blocks that have room for so many bytes.
pub(crate) fn blocks_for(bytes: usize) -> usize
    requires { bytes < 2 ^ 32 }
    ensures { result ≡ blocks_for bytes }
{
    (bytes + BLOCK - 1) / BLOCK
}

/// The blocks that a sample takes up whose frames have so many bytes.
pub fn sample_blocks(frames_len: usize) -> usize
    requires { frames_len < 2 ^ 32 }
    ensures value { result ≡ 2 + blocks_for frames_len }
    ensures cost { (s : SampleParts) → frames_len ≡ length (unnumbered s.packets)
        → result ≡ cost (Sample s) }
{
    HEAD_BLOCKS + blocks_for(frames_len)
}

/// The blocks that a sample takes up.
pub(crate) fn sample_cost<M: SampleMaker>(maker: &M) -> usize
    ensures { (c l n : ℕ) → result ≡ cost (sample_item c l n (M.packets maker.now)) }
{
    sample_blocks(maker.frames_len())
}

/// Writes the head of a sample's record from a place on, as two numbers, and answers where it ends.
#[inline]
fn lay_head(
    out: &mut [u8],
    at: usize,
    channel: ChannelId,
    list: ListId,
    number: u64,
    count: u8,
    len: u32,
) -> usize
    requires room { at + 16 ≤ length out.old }
    ensures bytes { take result out.new ≡ take at out.old
        ++ 1 ∷ channel ∷ list ∷ count ∷ (to_le_bytes w32 len ++ to_le_bytes w64 number) }
    ensures end { result ≡ at + 16 }
    ensures len { length out.new ≡ length out.old }
{
    let [a, b, c, d] = len.to_le_bytes();
    let front = u64::from_le_bytes([SAMPLE, channel.byte(), list.byte(), count, a, b, c, d]);
    put_number(out, at, &front.to_le_bytes());
    put_number(out, at + 8, &number.to_le_bytes());
    at + HEAD
}

/// Writes the record of a sample from a place on. Up to `SLACK` bytes behind it are written over.
pub(crate) fn lay_sample<M: SampleMaker>(
    out: &mut [u8],
    at: usize,
    channel: ChannelId,
    list: ListId,
    number: u64,
    maker: &M,
)
    requires room { at + length (bytes_of (sample_item channel list number (M.packets maker.now)))
        + SLACK ≤ length out.old }
    ensures bytes { take (at
        + length (bytes_of (sample_item channel list number (M.packets maker.now)))) out.new
        ≡ take at out.old ++ bytes_of (sample_item channel list number (M.packets maker.now)) }
    ensures item { IsItem (sample_item channel list number (M.packets maker.now)) }
    ensures len { length out.new ≡ length out.old }
{
    let len = maker.frames_len();
    let behind = lay_head(out, at, channel, list, number, maker.count(), len as u32);
    let end = maker.lay_frames(out, behind);
    lay_fill(out, end);
}

/// Writes a block of 00 from a place on: as much of it as is wanted fills a record's last block.
#[inline]
fn lay_fill(out: &mut [u8], at: usize)
    requires room { at + BLOCK ≤ length out.old }
    ensures bytes { (count : ℕ) → count ≤ BLOCK
        → take (at + count) out.new ≡ take at out.old ++ replicate count 0 }
    ensures len { length out.new ≡ length out.old }
{
    put_number(out, at, &[0; BLOCK]);
}

/// Writes the record of a stop marker from a place on.
pub(crate) fn lay_marker(out: &mut [u8], at: usize, marker: StopMark)
    requires room { at + BLOCK ≤ length out.old }
    ensures bytes { take (at + BLOCK) out.new ≡ take at out.old ++ bytes_of (Marker marker) }
    ensures item { IsItem (Marker marker) }
    ensures len { length out.new ≡ length out.old }
{
    let bytes = [MARKER, marker.channel(), marker.list(), 0, 0, 0, 0, 0];
    put_number(out, at, &bytes);
}
