//! Times are written in seconds.

use std::fmt::{self, Display};

/// Nanoseconds since the first packet as seconds, with microseconds, rounded down; `-` if they
/// aren't known.
#[derive(Clone, Copy)]
pub struct Seconds {
    pub nanoseconds: Option<i64>,
}

impl Seconds {
    /// A time that isn't known.
    pub const UNKNOWN: Seconds = Seconds { nanoseconds: None };

    /// The time from one place of a capture to another.
    pub fn between(from: Option<i64>, to: Option<i64>) -> Seconds {
        let nanoseconds = match (from, to) {
            (Some(from), Some(to)) => to.checked_sub(from),
            _ => None,
        };
        Seconds { nanoseconds }
    }
}

impl Display for Seconds {
    fn fmt<W: fmt::Write>(&self, f: &mut fmt::Formatter<W>) -> fmt::Result {
        let Some(nanoseconds) = self.nanoseconds else {
            return f.write_str("-");
        };
        let microseconds = nanoseconds.unsigned_abs() / 1_000;
        if nanoseconds < 0 {
            f.write_str("-")?;
        }
        write!(
            f,
            "{}.{:06}",
            microseconds / 1_000_000,
            microseconds % 1_000_000
        )
    }
}
