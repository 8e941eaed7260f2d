//! The fault of a recording that breaks off, with its place, as it is printed.
use crate::place::Place;
use crate::reason::Reason;
use thiserror::Error;

/// Where and why a recording breaks off. What stands before the place was read.
#[derive(Clone, Copy, Debug, PartialEq, Eq, Error)]
#[error("recording breaks off at byte {}, frame {}: {why}", .place.byte, .place.frame)]
pub struct BreakOff {
    /// The place of the first frame that isn't read.
    pub place: Place,
    /// What is wrong with it.
    pub why: Reason,
}
