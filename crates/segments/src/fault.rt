//! The limits of segments, one after another.
ghost use Rattle.std.specs.Prelude.{◌≡◌, ◌≤◌};
ghost use Rattle.segments.specs.Faults.{begins_behind, fault_of, follows, has_bad_len};
ghost use Rattle.segments.specs.Faults.{names_unknown, segments_fault};

use crate::limits::{ADDRESSES, MAX_READERS, MAX_SEGMENTS};
use crate::segment::Segment;
use std::error::Error;
use std::fmt;
use thiserror::Error;

/// Which limit segments are out of; all but the first name the segment. The variants stand in the
/// order of the checks, which are made segment by segment.
#[derive(Clone, Copy, Debug, PartialEq, Eq, Error)]
pub enum SegmentFault {
    #[error("there are no segments, or more than 16")]
    Number,
    #[error("segment {0} has no bytes, or more than 2^32")]
    Len(u8),
    #[error("segment {0} ends behind the last address")]
    End(u8),
    #[error("segment {0} doesn't stand behind the one before it")]
    Order(u8),
    #[error("segment {0} is read by an event channel that isn't there")]
    Events(u8),
}

/// The first limit that segments are out of, where there are so many event channels.
pub fn segments_fault(segments: &[Segment], channels: u16) -> Option<SegmentFault>
    requires { channels ≤ MAX_READERS }
    ensures { result ≡ segments_fault channels segments.now }
{
    if segments.is_empty() || segments.len() > MAX_SEGMENTS {
        return Some(SegmentFault::Number);
    }
    let mut before = None;
    let mut i = 0;
    for segment in segments {
        if let Some(fault) = fault_of(channels, i, before, segment) {
            return Some(fault);
        }
        before = Some(*segment);
        i += 1;
    }
    None
}

/// The first limit that a segment is out of, if `before` stands before it.
fn fault_of(
    channels: u16,
    number: u8,
    before: Option<Segment>,
    segment: &Segment,
) -> Option<SegmentFault>
    requires { channels ≤ MAX_READERS }
    ensures { result ≡ fault_of channels number before segment.now }
{
    if has_bad_len(segment) {
        return Some(SegmentFault::Len(number));
    }
    if segment.base as usize + segment.len > ADDRESSES {
        return Some(SegmentFault::End(number));
    }
    if !follows(before, segment) {
        return Some(SegmentFault::Order(number));
    }
    if names_unknown(channels, segment) {
        return Some(SegmentFault::Events(number));
    }
    None
}

/// Whether a segment has no bytes, or too many.
fn has_bad_len(segment: &Segment) -> bool
    ensures value { result ≡ has_bad_len segment.now }
{
    segment.len == 0 || segment.len > ADDRESSES
}

/// Whether a segment stands behind the one before it, if there is one.
fn follows(before: Option<Segment>, segment: &Segment) -> bool
    ensures { result ≡ follows before segment.now }
{
    let Some(before) = before else {
        return true;
    };
    before.extension < segment.extension || begins_behind(before, segment)
}

/// Whether a segment has the extension of another one, and begins at its end or behind it.
fn begins_behind(before: Segment, segment: &Segment) -> bool
    ensures { result ≡ begins_behind before segment.now }
{
    before.extension == segment.extension
        && before.base <= segment.base
        && before.len <= (segment.base - before.base) as usize
}

/// Whether an event channel that isn't there may read a segment.
fn names_unknown(channels: u16, segment: &Segment) -> bool
    requires { channels ≤ MAX_READERS }
    ensures { result ≡ names_unknown channels segment.now }
{
    (channels..MAX_READERS).any(|c| segment.may_read(c as u8))
}
