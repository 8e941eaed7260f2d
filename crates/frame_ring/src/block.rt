//! The unit of a ring of frames, and what the ring's two ends agree on.
ghost use Rattle.std.specs.Prelude.{◌++◌, ◌∷◌, []};
ghost use Rattle.frame_ring.specs.Fronts.{BeginRecords};

use rtrb::Protocol;

/// The unit of a ring of frames: eight bytes of a record.
pub type Block = [u8; BLOCK];

/// The bytes of a block.
pub const BLOCK: usize = 8;

/// What goes through a ring of frames are records, one behind another.
pub struct WholeRecords;

impl Protocol<Block> for WholeRecords {
    ghost allows = { λ past block. BeginRecords (past ++ block ∷ []) };
}
