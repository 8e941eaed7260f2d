//! The times of samples in a measurement file.

use crate::capture_clock::{CaptureClock, NANOSECOND, SampleTime, is_stamped};
use captured_samples::ListSamples;
use mdf_groups::seconds_of;

/// Times in seconds since the file's start: those of the capture's clock, and those of the slave's,
/// whose first timestamp is when it was captured.
#[derive(Clone, Copy)]
pub struct FileClock {
    clock: CaptureClock,
    start: Option<u64>,
    first_stamp: Option<i64>,
}

impl FileClock {
    /// Before the first sample. The file starts at this time of the capture, in nanoseconds since
    /// 1970-01-01, UTC, if that is known.
    pub fn new(start: Option<u64>) -> FileClock {
        FileClock {
            clock: CaptureClock::new(),
            start,
            first_stamp: None,
        }
    }

    /// What follows was captured at this time, in nanoseconds, if that is known.
    pub fn set(&mut self, now: Option<i64>) {
        self.clock.set(now);
    }

    /// The time of the next sample; `None` if neither clock tells it.
    pub fn next(&mut self, sample: &ListSamples) -> Option<f64> {
        let time = self.clock.next(sample)?;
        let first = if is_stamped(sample) {
            self.first_stamp = self.first_stamp.or(self.clock.current);
            self.first_stamp
        } else {
            self.clock.first_captured
        };
        Some(self.since_start(first) + signed_seconds(time))
    }

    /// How long after the file's start that is; 0 if one of them isn't known.
    fn since_start(&self, first: Option<i64>) -> f64 {
        match (first, self.start) {
            (Some(first), Some(start)) => signed_seconds(SampleTime {
                at: first as i128 - start as i128,
                tick: NANOSECOND,
            }),
            _ => 0.0,
        }
    }
}

/// A time in seconds.
fn signed_seconds(time: SampleTime) -> f64 {
    let size = u64::try_from(time.at.unsigned_abs()).unwrap_or(u64::MAX);
    let seconds = seconds_of(size, time.tick);
    if time.at < 0 { -seconds } else { seconds }
}
