//! Why the blocks of an A2L text can't be read on.
ghost use Rattle.std.specs.Prelude.{◌≡◌};
ghost use Rattle.a2l_text.specs.declared.block_fault.BlockFault.TheVariants.{Memory};

use crate::WordFault;
use std::alloc::{AllocError, AllocFailed};
use thiserror::Error;

/// Why a text has no next part.
#[derive(Debug, Drop, Error)]
pub enum BlockFault {
    /// Memory ran out.
    #[error("out of memory")]
    Memory,
    /// The text has no next word.
    #[error(transparent)]
    Words(WordFault),
    /// `/include`, but in A2ML: other files aren't read.
    #[error("/include is not supported")]
    Include,
    /// More than 64 blocks are open.
    #[error("more than 64 blocks stand in one another")]
    TooDeep,
    /// No name stands behind `/begin` or `/end`.
    #[error("expected the name of a block")]
    Name,
    /// The innermost open block, whose name this is, isn't ended here.
    #[error("expected /end {0}")]
    End(String),
    /// `/end`, and no block is open.
    #[error("no block is open")]
    Stray,
}

impl From<AllocError> for BlockFault {
    ghost from_gives = { λ _ e. e ≡ Memory };

    fn from(_e: AllocError) -> BlockFault {
        BlockFault::Memory
    }
}

impl<T: Drop> From<AllocFailed<T>> for BlockFault {
    ghost from_gives = { λ _ e. e ≡ Memory };

    fn from(_e: AllocFailed<T>) -> BlockFault {
        BlockFault::Memory
    }
}
