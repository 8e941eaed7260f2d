//! What the axis counts, in numbers.
ghost use Rattle.std.specs.Prelude.{◌<◌};

use crate::axis::CurveAxis;
use measured_values::Tick;
use sample_picture::push_number;
use std::alloc::AllocError;

/// The powers of ten that a `u64` holds, but for the greatest one.
const POWERS: [u64; 19] = [
    1,
    10,
    100,
    1000,
    10000,
    100000,
    1000000,
    10000000,
    100000000,
    1000000000,
    10000000000,
    100000000000,
    1000000000000,
    10000000000000,
    100000000000000,
    1000000000000000,
    10000000000000000,
    100000000000000000,
    1000000000000000000,
];

/// How places are counted: each has `factor` counts, and so many counts as `unit` says are one.
#[derive(Clone, Copy)]
pub struct Scale {
    factor: u64,
    unit: u64,
    word: &'static str,
    ghost positive: { 0 < unit },
}

impl Scale {
    /// The scale of an axis on which no place is beyond the last one. It counts ticks if their
    /// length in seconds is 0, or if it can't be told in a `u64`.
    pub fn of(axis: CurveAxis, last: u64) -> Scale {
        match axis {
            CurveAxis::Seconds(tick) => seconds(tick, last).unwrap_or(plain("time in ticks")),
            CurveAxis::Ticks => plain("time in ticks"),
            CurveAxis::Samples => plain("number of the sample"),
        }
    }

    /// The counts of a place.
    pub fn count(&self, at: u64) -> u64 {
        at.saturating_mul(self.factor)
    }

    /// What is counted, in words.
    pub fn word(&self) -> &'static str {
        self.word
    }

    /// Writes a number of counts, as 1,728.71.
    pub fn push(&self, text: &mut String, count: u64) -> Result<(), AllocError> {
        push_number(text, count / self.unit)?;
        let mut rest = count % self.unit;
        if rest == 0 {
            return Ok(());
        }
        text.push_str(".")?;
        for power in POWERS.iter().rev() {
            let power = *power;
            if power == 0 || power >= self.unit || rest == 0 {
                continue;
            }
            let digit = rest / power;
            write!(text, "{digit}")?;
            rest %= power;
        }
        Ok(())
    }
}

/// Each place is one.
fn plain(word: &'static str) -> Scale {
    Scale {
        factor: 1,
        unit: 1,
        word,
    }
}

/// The scale in seconds of ticks of this length.
fn seconds(tick: Tick, last: u64) -> Option<Scale> {
    let power = *POWERS.get(usize::from(tick.exponent.unsigned_abs()))?;
    let mantissa = u64::from(tick.mantissa);
    let (above, below) = if tick.exponent < 0 {
        (1, power)
    } else {
        (power, 1)
    };
    let factor = mantissa.checked_mul(above)?;
    // the last place has to fit in counts
    let _ = last.checked_mul(factor)?;
    if factor == 0 || below == 0 {
        return None;
    }
    Some(Scale {
        factor,
        unit: below,
        word: "time in seconds",
    })
}
