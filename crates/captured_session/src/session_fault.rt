//! Why a session can't be followed.

use thiserror::Error;

/// Why a session can't be followed.
#[derive(Clone, Copy, Debug, PartialEq, Eq, Error)]
pub enum SessionFault {
    /// Want of memory.
    #[error("want of memory")]
    Memory,
    /// Between two FREE_DAQ there are more facts than `MAX_FACTS`.
    #[error("more than 1,048,576 commands set DAQ lists up")]
    ManyFacts,
}
