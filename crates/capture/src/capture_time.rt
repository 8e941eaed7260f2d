//! When a packet was captured.

/// When a packet was captured, as its capture tells it: so many parts of a second since
/// 1970-01-01, UTC, and so many whole seconds.
#[derive(Clone, Copy)]
pub struct CaptureTime {
    /// How many parts of a second.
    pub ticks: u64,
    /// Into how many parts a second is divided: a power of ten, or, if the highest bit is set, the
    /// power of two in the bits below it.
    pub resolution: u8,
    /// How many seconds are added.
    pub offset: i64,
}
