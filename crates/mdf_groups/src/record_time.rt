//! When a sample was taken.
/// When a sample was taken.
#[derive(Clone, Copy, Debug)]
pub enum RecordTime {
    /// In seconds.
    Seconds(f64),
    /// In ticks.
    Ticks(u64),
    /// It has no time.
    Unknown,
}
