//! What can be wrong where a recording breaks off.
use daq_reader::ReadFault;
use thiserror::Error;

/// Why a recording is read no further.
#[derive(Clone, Copy, Debug, PartialEq, Eq, Error)]
pub enum Reason {
    /// The bytes that are left don't begin with the next frame, or its packet is refused.
    #[error("{0}")]
    Read(ReadFault),
    /// The recording is at its end, and a list still wants packets of a sample.
    #[error("a sample isn't whole")]
    WithinSample,
}
