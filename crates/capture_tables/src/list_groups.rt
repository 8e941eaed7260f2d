//! The groups of a set-up of a list in a measurement file.
use mdf_groups::{RecordTime, risen};

/// The groups of a set-up of a list.
#[derive(Clone, Copy)]
pub struct ListGroups {
    /// That of the samples whose time is known.
    pub timed: usize,
    /// That of the others.
    pub untimed: usize,
    /// The time of the last sample, as it was written.
    pub last: Option<f64>,
}

impl ListGroups {
    ghost use Rattle.std.specs.Prelude.{◌≡◌};
    ghost use Rattle.capture_tables.specs.FileLists.{group_for, record_time, time_behind};
    ghost use Rattle.capture_tables.specs.FileLists.{with_time};

    /// The group of a sample of this time, if that is known.
    pub fn group_for(self, time: Option<f64>) -> usize
        ensures { result ≡ group_for self time }
    {
        match time {
            Some(_) => self.timed,
            None => self.untimed,
        }
    }

    /// The time of its record.
    pub fn record_time(self, time: Option<f64>) -> RecordTime
        ensures { result ≡ record_time self time }
    {
        match time {
            Some(now) => RecordTime::Seconds(self.time_behind(now)),
            None => RecordTime::Unknown,
        }
    }

    /// The list behind that sample.
    pub fn with_time(self, time: Option<f64>) -> ListGroups
        ensures { result ≡ with_time self time }
    {
        let Some(now) = time else {
            return self;
        };
        ListGroups {
            timed: self.timed,
            untimed: self.untimed,
            last: Some(self.time_behind(now)),
        }
    }

    /// The time of a sample, or that of the one before if it is earlier.
    fn time_behind(self, now: f64) -> f64
        ensures { result ≡ time_behind self.last now }
    {
        risen(self.last.unwrap_or(now), now)
    }
}
