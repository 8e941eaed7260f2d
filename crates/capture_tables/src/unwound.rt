//! Timestamps without their wraps.
ghost use Rattle.std.specs.Prelude.{◌≡◌, ◌+◌, ◌*◌, ◌/◌, ◌^◌, ◌<◌, ◌≤◌, IfSome, IsSome, None};
ghost use Rattle.capture_tables.specs.Clocks.{HasTicks, IsNearest, IsUnwound};
ghost use Rattle.capture_tables.specs.Clocks.{passed_between};

use crate::passed::Passed;

/// The time of ticks behind the last one, in ticks: by the capture's clock the nearest, and without
/// it the least; `None` if that is below 0, or 2^64 or more.
pub fn unwound(last: u64, ticks: u32, wrap: u64, passed: Option<Passed>) -> Option<u64>
    requires some { 0 < wrap }
    requires limit { wrap ≤ 2 ^ 32 }
    requires tick { IfSome passed (λ p. 0 < p.tick) }
    requires few { IfSome passed (λ p. p.picoseconds < 2 ^ 80) }
    ensures at { IfSome result (λ at. IsUnwound last ticks wrap passed at) }
    ensures known { passed ≡ None → last + wrap ≤ 2 ^ 64 → IsSome result }
{
    let ahead = ahead_of(last, ticks, wrap);
    match passed {
        Some(passed) => nearest(last, ahead, wrap, passed),
        None => last.checked_add(ahead),
    }
}

/// How many ticks ahead of the last time the next one is that stands for these ticks.
fn ahead_of(last: u64, ticks: u32, wrap: u64) -> u64
    requires some { 0 < wrap }
    requires limit { wrap ≤ 2 ^ 32 }
    ensures less { result < wrap }
    ensures same { HasTicks ticks wrap (last + result) }
{
    let from = last % wrap;
    let to = ticks as u64 % wrap;
    if from <= to {
        return to - from;
    }
    to + wrap - from
}

/// Of the times that are whole wraps from one so many ticks ahead, the one that is nearest to what
/// the capture's clock says.
fn nearest(last: u64, ahead: u64, wrap: u64, passed: Passed) -> Option<u64>
    requires ahead { ahead < wrap }
    requires limit { wrap ≤ 2 ^ 32 }
    requires tick { 0 < passed.tick }
    requires few { passed.picoseconds < 2 ^ 80 }
    ensures { IfSome result (λ at. IsNearest last (last + ahead) wrap passed at) }
{
    let wraps = wraps_to(wrap - ahead, wrap, passed);
    let at = (last as u128 + ahead as u128 + wraps * wrap as u128).checked_sub(wrap as u128)?;
    match u64::try_from(at) {
        Ok(at) => Some(at),
        Err(_) => None,
    }
}

/// How many wraps it is further than a time before the last one by so many ticks: the time is at
/// most half a wrap behind what passed, and less than half a wrap before it.
fn wraps_to(back: u64, wrap: u64, passed: Passed) -> u128
    requires back { back ≤ wrap }
    requires some { 0 < wrap }
    requires limit { wrap ≤ 2 ^ 32 }
    requires tick { 0 < passed.tick }
    requires few { passed.picoseconds < 2 ^ 80 }
    ensures least { result * (wrap * passed.tick)
        ≤ passed.picoseconds + back * passed.tick + wrap * passed.tick / 2 }
    ensures most { passed.picoseconds + back * passed.tick + wrap * passed.tick / 2
        < result * (wrap * passed.tick) + wrap * passed.tick }
    ensures few { result < 2 ^ 81 }
{
    let whole = wrap as u128 * passed.tick as u128;
    let before = back as u128 * passed.tick as u128;
    (passed.picoseconds + before + whole / 2) / whole
}

/// How many picoseconds passed between two times of the capture, in nanoseconds.
pub fn passed_between(last: i64, now: i64) -> u128
    ensures value { result ≡ passed_between last now }
    ensures few { result < 2 ^ 80 }
{
    if now < last {
        return 0;
    }
    1000 * now.abs_diff(last) as u128
}
