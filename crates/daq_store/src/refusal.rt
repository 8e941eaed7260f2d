//! Why the store refuses: a check that fails, no memory, or numbers out of their limits.
ghost use Rattle.std.specs.Prelude.{◌≡◌};
ghost use Rattle.daq_store.specs.declared.refusal.Refusal.TheVariants.{Code, Memory};

use std::alloc::AllocError;
use std::error::Error;
use std::fmt;
use thiserror::Error;
use xcp_base::ErrCode;

/// Why a call was refused. The store is unchanged.
#[derive(Clone, Copy, Debug, PartialEq, Eq, Error)]
pub enum Refusal {
    /// The first check that failed.
    #[error("refused: {0:?}")]
    Code(ErrCode),
    /// Every check passed, and memory ran out.
    #[error("out of memory")]
    Memory,
}

impl From<ErrCode> for Refusal {
    ghost from_gives = { λ code refusal. refusal ≡ Code code };

    fn from(code: ErrCode) -> Refusal {
        Refusal::Code(code)
    }
}

impl From<AllocError> for Refusal {
    ghost from_gives = { λ _ refusal. refusal ≡ Memory };

    fn from(_error: AllocError) -> Refusal {
        Refusal::Memory
    }
}

/// A command met lack of memory. It isn't carried out, and the store is unchanged.
#[derive(Clone, Copy, Debug, PartialEq, Eq, Error)]
#[error("out of memory")]
pub struct NoMemory;

/// The number of event channels or the length of the images is out of its limits, or there is no
/// timestamp of this size.
#[derive(Clone, Copy, Debug, PartialEq, Eq, Error)]
#[error("event channels, image length or timestamp size out of their limits")]
pub struct BadLimits;
