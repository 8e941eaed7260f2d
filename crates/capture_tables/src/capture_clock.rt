//! The times of samples, from the first one that is shown.
ghost use Rattle.std.specs.Prelude.{◌≡◌, ◌*◌, ◌^◌, ◌<◌, ◌≤◌, IfSome, None, Option, Some, pos};
ghost use Rattle.capture_tables.specs.CaptureTimes.{IsBehind, IsCaptured, IsFirst, passed_in};
ghost use Rattle.capture_tables.specs.declared.capture_clock.LastStamp.{LastStamp};

use crate::passed::Passed;
use crate::sample_time::{picoseconds_of, tick_of, wrap_of};
use crate::unwound::{passed_between, unwound};
use captured_samples::ListSamples;
use measured_values::Tick;

/// A wrap of over 0.2 s, in picoseconds, is seen by the capture's clock.
const LONG_WRAP: u128 = 200_000_000_000;

/// The first timestamp counts from here on, so that later ones may stand before it.
const START: u64 = 9_223_372_036_854_775_808;

/// A tick of the capture's clock.
pub const NANOSECOND: Tick = Tick {
    mantissa: 1,
    exponent: -9,
};

/// When a sample was taken, since the first one that is shown, or captured, since 1970-01-01, UTC.
#[derive(Clone, Copy)]
pub struct SampleTime {
    /// Ticks.
    pub at: i128,
    /// How long a tick is.
    pub tick: Tick,
}

/// How the timestamps of a list count.
#[derive(Clone, Copy)]
pub struct StampForm {
    /// How long a tick is.
    pub tick: Tick,
    /// The same in picoseconds.
    pub picoseconds: u64,
    /// How many ticks they count before they wrap.
    pub wrap: u64,
}

/// The last timestamp of the slave's clock.
#[derive(Clone, Copy)]
pub struct LastStamp {
    /// Its ticks, without wraps.
    pub ticks: u64,
    /// When it was captured.
    pub captured: Option<i64>,
}

/// The slave's clock and the capture's: the time of a sample is that of its timestamp, whose wraps
/// are unwound, or that of its capture if it has none.
#[derive(Clone, Copy)]
pub struct CaptureClock {
    pub current: Option<i64>,
    pub first_stamp: u64,
    pub last: Option<LastStamp>,
    pub first_captured: Option<i64>,
}

impl CaptureClock {
    /// Before the first sample.
    pub fn new() -> CaptureClock
        ensures stamp { result.last ≡ None }
        ensures captured { result.first_captured ≡ None }
    {
        CaptureClock {
            current: None,
            first_stamp: 0,
            last: None,
            first_captured: None,
        }
    }

    /// What follows was captured at this time, in nanoseconds, if that is known.
    pub fn set(&mut self, now: Option<i64>)
        ensures { self.new ≡ record self.old { current = now } }
    {
        self.current = now;
    }

    /// When what follows was captured, since 1970-01-01, UTC, if that is known.
    pub fn captured(&self) -> Option<SampleTime> {
        Some(SampleTime {
            at: self.current? as i128,
            tick: NANOSECOND,
        })
    }

    /// The time of the next sample; `None` if neither clock tells it.
    pub fn next(&mut self, sample: &ListSamples) -> Option<SampleTime> {
        match (sample.ticks(), form_of(sample)) {
            (Some(ticks), Some(form)) => self.next_stamp(ticks, form),
            _ => self.next_captured(),
        }
    }

    /// By the capture's clock: since the first sample that it told the time of.
    fn next_captured(&mut self) -> Option<SampleTime>
        ensures { IfSome result (λ time. IsCaptured self.old self.new time.at) }
    {
        let now = self.current?;
        let first = self.first_captured.unwrap_or(now);
        self.first_captured = Some(first);
        Some(SampleTime {
            at: now as i128 - first as i128,
            tick: NANOSECOND,
        })
    }

    /// By a timestamp: since the first one.
    fn next_stamp(&mut self, ticks: u32, form: StampForm) -> Option<SampleTime>
        requires some { 0 < form.wrap }
        requires limit { form.wrap ≤ 2 ^ 32 }
        requires tick { 0 < form.picoseconds }
        ensures first { self.old.last ≡ None
            → IfSome result (λ time. IsFirst self.old ticks self.new time.at) }
        ensures behind { (last : LastStamp) → self.old.last ≡ Some last
            → IfSome result (λ time. IsBehind self.old form last ticks self.new time.at) }
        ensures tick { IfSome result (λ time. time.tick ≡ form.tick) }
    {
        let Some(last) = self.last else {
            self.first_stamp = START + ticks as u64;
            self.note(START + ticks as u64);
            return Some(SampleTime {
                at: 0,
                tick: form.tick,
            });
        };
        let at = unwound(last.ticks, ticks, form.wrap, self.passed(last, form))?;
        self.note(at);
        Some(SampleTime {
            at: at as i128 - self.first_stamp as i128,
            tick: form.tick,
        })
    }

    /// The last timestamp is now this one.
    fn note(&mut self, ticks: u64)
        ensures { self.new ≡ record self.old {
          last = Some (record { ticks = ticks; captured = self.old.current });
        } }
    {
        self.last = Some(LastStamp {
            ticks,
            captured: self.current,
        });
    }

    /// What the capture's clock says of the time since the last timestamp; `None` if it isn't
    /// known, or if a wrap isn't long.
    fn passed(&self, last: LastStamp, form: StampForm) -> Option<Passed>
        requires { form.wrap ≤ 2 ^ 32 }
        ensures value { result ≡ passed_in last.captured self.now.current form }
        ensures tick { IfSome result (λ p. p.tick ≡ form.picoseconds) }
        ensures few { IfSome result (λ p. p.picoseconds < 2 ^ 80) }
    {
        if form.wrap as u128 * form.picoseconds as u128 <= LONG_WRAP {
            return None;
        }
        Some(Passed {
            tick: form.picoseconds,
            picoseconds: passed_between(last.captured?, self.current?),
        })
    }
}

/// Whether the time of a sample is that of its timestamp.
pub fn is_stamped(sample: &ListSamples) -> bool {
    sample.ticks().is_some() && form_of(sample).is_some()
}

/// How the timestamps of a sample's list count, if the slave tells that.
fn form_of(sample: &ListSamples) -> Option<StampForm>
    ensures some { IfSome result (λ form. 0 < form.wrap) }
    ensures limit { IfSome result (λ form. form.wrap ≤ 2 ^ 32) }
    ensures tick { IfSome result (λ form. 0 < form.picoseconds) }
{
    let list = sample.list();
    Some(StampForm {
        tick: tick_of(list.form())?,
        picoseconds: picoseconds_of(list.form())?,
        wrap: wrap_of(list.stamp_len()),
    })
}
