//! What the first block of a record tells.
ghost use Rattle.std.specs.Prelude.{◌≡◌, length};
ghost use Rattle.frame_ring.specs.Heads.{head_blocks, head_of};
ghost use Rattle.frame_ring.specs.Reading.{frames_len};

use crate::block::Block;
use crate::record::{HEAD_BLOCKS, SAMPLE, blocks_for};

/// What stands first in a ring of frames.
#[derive(Clone, Copy, Debug, PartialEq, Eq)]
pub enum Head {
    /// A sample.
    Sample {
        /// Its DAQ list.
        list: u8,
        /// The number of its packets.
        packets: u8,
        /// The bytes of their frames.
        len: u32,
    },
    /// The place at which this DAQ list was stopped.
    Marker {
        /// The list.
        list: u8,
    },
}

/// The length of the frames that the head of a sample tells.
fn frames_len(block: &Block) -> u32
    ensures { result ≡ frames_len block.now }
{
    u32::from_le_bytes([block[4], block[5], block[6], block[7]])
}

/// What a record's first block tells.
#[tactic(auto, unfolding(crate::specs::Heads::head_of))]
pub(crate) fn head_of(block: &Block) -> Head
    ensures value { result ≡ head_of block.now }
    ensures len { length block.now ≡ 8 }
{
    let list = block[2] % 16;
    if block[0] == SAMPLE {
        return Head::Sample {
            list,
            packets: block[3],
            len: frames_len(block),
        };
    }
    Head::Marker { list }
}

impl Head {
    /// The blocks of the record.
    pub fn blocks(self) -> usize
        ensures { result ≡ head_blocks self }
    {
        match self {
            Head::Sample {
                list: _,
                packets: _,
                len,
            } => HEAD_BLOCKS + blocks_for(len as usize),
            Head::Marker { list: _ } => 1,
        }
    }
}
