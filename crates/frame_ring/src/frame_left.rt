//! The finished send end of a ring of frames, and how many items it sent.
ghost use Rattle.rtrb.specs.Ring.{all_sent};
ghost use Rattle.channel_ring.specs.Names.{name_of};
ghost use Rattle.frame_ring.specs.Fronts.{AreRecords};
ghost use Rattle.frame_ring.specs.Inner.{counts};
ghost use Rattle.frame_ring.specs.Reading.{items_in};
ghost use Rattle.frame_ring.specs.Records.{cost, item_props};

use crate::block::{Block, WholeRecords};
use channel_ring::RingEnd;
use rtrb::Finished;
use std::alloc::Global;

/// What is left of the send end of a ring of frames once it is finished.
#[derive(Drop)]
pub struct FrameLeft {
    pub(crate) finished: Finished<Block, Global, WholeRecords>,
    // The items sent, modulo 2^64.
    pub(crate) count: u64,
    // The room in which the records were made: a thread that finishes a send end frees nothing.
    pub(crate) buffer: Vec<u8>,
    ghost whole: { AreRecords (all_sent finished) } by { Prim.hlevel item_props },
    ghost counted: { counts count (all_sent finished) },
}

impl RingEnd for FrameLeft {
    ghost all_sent = { λ l. items_in (all_sent l.finished) };

    ghost ring = { λ l. name_of l.finished.end };

    ghost cost = { cost };
}
