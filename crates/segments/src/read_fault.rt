//! Why bytes aren't read.
use std::error::Error;
use std::fmt;
use thiserror::Error;

/// Why bytes aren't read without a DAQ list. The variants stand in the order of the checks.
#[derive(Clone, Copy, Debug, PartialEq, Eq, Error)]
pub enum ReadFault {
    #[error("the bytes lie in no segment")]
    OutOfRange,
    #[error("the segment isn't there")]
    AccessDenied,
}
