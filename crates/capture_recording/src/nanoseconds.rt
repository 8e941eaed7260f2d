//! The time of a captured packet in nanoseconds.

use capture::CaptureTime;

/// Nanoseconds of a second.
const SECOND: u64 = 1_000_000_000;

/// The time of a captured packet: nanoseconds since 1970-01-01, UTC, rounded down; `None` if they
/// are more than 63 bits.
pub fn nanoseconds_of(time: CaptureTime) -> Option<i64> {
    let parts = parts_of(time.resolution)?;
    if parts == 0 {
        return None;
    }
    let seconds = i64::try_from(time.ticks / parts).ok()?;
    let rest = (time.ticks % parts) as u128 * SECOND as u128 / parts as u128;
    let whole = seconds.checked_add(time.offset)?;
    whole
        .checked_mul(SECOND as i64)?
        .checked_add(i64::try_from(rest).ok()?)
}

/// Into how many parts a second is divided, if they are at most 64 bits.
fn parts_of(resolution: u8) -> Option<u64> {
    if resolution >= 128 {
        return 2u64.checked_pow((resolution - 128) as u32);
    }
    10u64.checked_pow(resolution as u32)
}
