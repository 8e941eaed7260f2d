//! How the counter of a slave's frame goes on from the last one.
ghost use Rattle.std.specs.Prelude.{◌≡◌};
ghost use Rattle.captured_samples.specs.Counters.{step_behind};

/// How the counter of a slave's frame goes on from the last one that counted (ASAM MCD-1 XCP,
/// transport layer for Ethernet, CTR).
#[derive(Clone, Copy, Debug, PartialEq, Eq)]
pub enum CounterStep {
    /// It is the first.
    First,
    /// It is the next.
    Next,
    /// Frames are missing in front of it.
    Jump,
    /// It is a late one, or a copy.
    Behind,
}

/// How a counter goes on from the last one: as far as 32,767 ahead, frames are missing.
pub fn counter_step(last: Option<u16>, counter: u16) -> CounterStep
    ensures { result ≡ step_behind last counter }
{
    let Some(last) = last else {
        return CounterStep::First;
    };
    let ahead = counter.wrapping_sub(last);
    if ahead == 1 {
        return CounterStep::Next;
    }
    if ahead == 0 || ahead >= 32_768 {
        return CounterStep::Behind;
    }
    CounterStep::Jump
}
