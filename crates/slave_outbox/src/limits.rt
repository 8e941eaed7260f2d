//! The limits of an outbox.
ghost use Rattle.std.specs.Prelude.{◌≡◌, ◌≤◌};
ghost use Rattle.slave_outbox.specs.Inner.{page_blocks, page_places};

use frame_page::REPLY_BLOCKS;
use frame_ring::sample_blocks;
use xcp_base::limits::{MAX_CTO, MAX_ODTS_IN_ALL, MAX_PACKET};

/// The bytes of samples up to which a measurement lays them out at least.
pub const PAGE: usize = 8192;

/// The most bytes that a page may have: those of the frames of the longest sample.
pub const MAX_PAGE: usize = MAX_ODTS_IN_ALL * (4 + MAX_PACKET);

/// The most replies that wait.
pub const MAX_REPLIES: usize = 16;

/// The frame of a reply at its longest, whatever MAX_CTO is: LEN, CTR and the packet.
pub(crate) const MAX_REPLY: usize = 4 + MAX_CTO;

/// The bytes that wait beside samples are never more.
pub(crate) const REPLIES: usize = MAX_REPLIES * MAX_REPLY;

/// The blocks for a page of so many bytes, and for replies: a sample or a reply takes up three for
/// each five of its bytes at most. There is room beside for one of which only the last frame waits,
/// and for one more reply.
pub(crate) fn page_blocks(room: usize) -> usize
    requires limit { room ≤ MAX_PAGE }
    ensures value { result ≡ page_blocks room }
{
    (3 * (room + REPLIES) + 4) / 5 + sample_blocks(room) + 2 * REPLY_BLOCKS
}

/// The places for the samples of such a page, each of which has a frame of four bytes at least, and
/// for replies.
pub(crate) fn page_places(room: usize) -> usize
    requires limit { room ≤ MAX_PAGE }
    ensures value { result ≡ page_places room }
{
    room / 4 + MAX_REPLIES + 1
}
