//! What comes of bytes that are fed to a frame reader, and the fault of a bad frame.
use arrayvec::ArrayVec;
use thiserror::Error;
use xcp_base::limits::MAX_CTO;

/// What a reader took of some bytes: how many, and the packet of the frame that they end, if they
/// end one.
#[derive(Drop)]
pub struct Fed {
    pub taken: usize,
    pub packet: Option<ArrayVec<u8, MAX_CTO>>,
}

/// A frame had LEN 0 or over MAX_CTO. What follows it can't be read.
#[derive(Clone, Copy, Debug, PartialEq, Eq, Error)]
#[error("a frame's length is 0 or too great")]
pub struct BadFrame;
