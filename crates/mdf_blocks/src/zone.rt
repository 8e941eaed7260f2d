//! What is known of the time zone of a time.
/// How a time relates to UTC (ASAM MDF 4.1, HD: hd_time_flags).
#[derive(Clone, Copy, Debug, PartialEq, Eq)]
pub enum Zone {
    /// It is UTC, and the offsets of the place aren't known.
    Utc,
    /// It is that of the place, whose offsets aren't known.
    Local,
    /// It is UTC. So many minutes more make the time of the zone, and so many the daylight saving
    /// time.
    Offsets { zone: i16, daylight: i16 },
}
