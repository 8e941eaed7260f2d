//! The times of samples: the ticks of their timestamps, with those that wrapped.
ghost use Rattle.std.specs.Prelude.{◌≡◌, ◌<◌, ◌≤◌, [], ℕ, List, IfOk, IfSome, length, replicate};
ghost use Rattle.sample_tables.specs.declared.times.Stand.{Stand};
ghost use Rattle.sample_tables.specs.Times.{KnowsLast, later, nearest, stands_with};
ghost use Rattle.sample_tables.specs.Times.{ticks_on, time_at, time_behind};

use std::alloc::{AllocError, Global};
use xcp_base::StampSize;

/// The ticks of a timestamp, and the time that they stand for.
#[derive(Clone, Copy)]
pub struct Stand {
    /// The ticks, as they stand in the packet.
    pub ticks: u32,
    /// The time, in ticks.
    pub at: u64,
}

/// The times of the samples of several DAQ lists, one after another.
///
/// In a list each timestamp is less than one wrap behind the one before. The first one of a list is
/// nearest to the last one of any list.
#[derive(Drop)]
pub struct Times {
    last: Option<Stand>,
    lists: Vec<Option<Stand>>,
}

impl Times {
    /// Before the first sample of so many lists. Lack of memory is the only fault.
    pub fn new(alloc: Global, lists: usize) -> Result<Times, AllocError>
        ensures lists { IfOk result (λ times. length times.lists.items ≡ lists) }
        ensures knows { IfOk result (λ times. KnowsLast times []) }
    {
        let stands = no_stands(alloc, lists)?;
        Ok(Times {
            last: None,
            lists: stands,
        })
    }

    /// The number of lists.
    pub fn lists(&self) -> usize
        ensures { result ≡ length self.now.lists.items }
    {
        self.lists.len()
    }

    /// The time of a timestamp of the list at a place, if there is one.
    pub fn next(&mut self, place: usize, size: StampSize, stamp: Option<u32>) -> Option<u64>
        requires { place < length self.old.lists.items }
        ensures time { (earlier : List (ℕ × Stand)) → KnowsLast self.old earlier
            → result ≡ time_at size place earlier stamp }
        ensures knows { (earlier : List (ℕ × Stand)) → KnowsLast self.old earlier
            → KnowsLast self.new (stands_with size place earlier stamp) }
        ensures lists { length self.new.lists.items ≡ length self.old.lists.items }
    {
        let Some(ticks) = stamp else {
            return None;
        };
        let own = self.lists[place];
        let at = time_behind(size, own, self.last, ticks);
        let stand = Stand { ticks, at };
        self.last = Some(stand);
        self.lists[place] = Some(stand);
        Some(at)
    }
}

/// So many lists of which no ticks came.
fn no_stands(alloc: Global, lists: usize) -> Result<Vec<Option<Stand>>, AllocError>
    ensures { IfOk result (λ stands. stands.items ≡ replicate lists None) }
{
    let mut stands = Vec::with_capacity(alloc, lists)?;
    for _ in 0..lists {
        stands.push_reserved(None);
    }
    Ok(stands)
}

/// The time of ticks behind the last ones of their list, and those of any list.
fn time_behind(size: StampSize, own: Option<Stand>, any: Option<Stand>, ticks: u32) -> u64
    ensures value { result ≡ time_behind size own any ticks }
    ensures not_back { IfSome own (λ own. own.at ≤ result) }
{
    if let Some(own) = own {
        return later(own.at, ticks_on(size, own.ticks, ticks));
    }
    match any {
        Some(any) => nearest(size, any, ticks),
        None => ticks as u64,
    }
}

/// The time of ticks that is nearest to where others stand; the later one if there is none
/// before.
fn nearest(size: StampSize, other: Stand, ticks: u32) -> u64
    ensures { result ≡ nearest size other ticks }
{
    let on = ticks_on(size, other.ticks, ticks);
    let back = ticks_on(size, ticks, other.ticks);
    if back < on && back <= other.at {
        return other.at - back;
    }
    later(other.at, on)
}

/// So many ticks behind a time.
fn later(at: u64, ticks: u64) -> u64
    ensures value { result ≡ later at ticks }
    ensures not_back { at ≤ result }
{
    at.saturating_add(ticks)
}

/// The ticks from some to others, modulo what a timestamp counts.
fn ticks_on(size: StampSize, from: u32, to: u32) -> u64
    ensures { result ≡ ticks_on size from to }
{
    let ticks = to.wrapping_sub(from) as u64;
    match size {
        StampSize::One => ticks % 256,
        StampSize::Two => ticks % 65_536,
        StampSize::Four => ticks,
    }
}
