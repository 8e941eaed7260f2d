//! The finished send end of a ring of bytes, and how many items it sent.
ghost use Rattle.std.specs.Prelude.{◌≡◌, ◌%◌, ◌^◌, length};
ghost use Rattle.rtrb.specs.Ring.{all_sent};
ghost use Rattle.channel_ring.specs.Names.{name_of};
ghost use Rattle.byte_ring.specs.Reading.{items_in};
ghost use Rattle.byte_ring.specs.Records.{record_len};

use channel_ring::RingEnd;
use rtrb::Finished;

/// What is left of the send end of a ring of bytes once it is finished.
#[derive(Drop)]
pub struct ByteLeft {
    pub(crate) finished: Finished<u8>,
    // The items sent, modulo 2^64.
    pub(crate) count: u64,
    ghost counted: { count ≡ length (items_in (all_sent finished)) % 2 ^ 64 },
}

impl RingEnd for ByteLeft {
    ghost all_sent = { λ f. items_in (all_sent f.finished) };

    ghost ring = { λ f. name_of f.finished.end };

    ghost cost = { record_len };
}
