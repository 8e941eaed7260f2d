//! A gate that knows of each telling of which pump it is.
use crate::threads::turns::reaches;
use daq_run::Gate;
use std::sync::atomic::{AtomicU64, Ordering};
use transmitter::Pumped;

/// Lets a step go once it is told of a pump that took nothing, and holds that pump until the step
/// is answered: so what it is told next is of the pump that finds what the step sent.
///
/// `wanted` has what the pump behind each step answers. Further steps go once all of these were
/// told, and what is told of them isn't looked at.
#[derive(Drop)]
pub struct OneByOne<'a> {
    wanted: &'a [Pumped],
    going: AtomicU64,
    done: AtomicU64,
    told: AtomicU64,
    other: AtomicU64,
}

impl<'a> OneByOne<'a> {
    pub fn of(wanted: &'a [Pumped]) -> OneByOne<'a> {
        OneByOne {
            wanted,
            going: AtomicU64::new(0),
            done: AtomicU64::new(0),
            told: AtomicU64::new(0),
            other: AtomicU64::new(0),
        }
    }

    /// How many pumps were told, each behind its step, and how often it was told other than what is
    /// wanted, or a step wasn't answered.
    pub fn told(&self) -> (u64, u64) {
        let told = self.told.load(Ordering::SeqCst);
        (told, self.other.load(Ordering::SeqCst))
    }

    /// Counts what isn't as it should be.
    fn expect(&self, holds: bool) {
        if !holds {
            self.other.fetch_add(1, Ordering::SeqCst);
        }
    }

    /// Behind so many that were told, a pump is the one that is wanted next if its step was let go,
    /// and takes nothing if not. Answers how many were told then.
    fn tell(&self, told: u64, pumped: &Pumped, wanted: &Pumped) -> u64 {
        if told >= self.going.load(Ordering::SeqCst) {
            self.expect(pumped.taken == 0);
            return told;
        }
        self.expect(pumped == wanted);
        let told = told.saturating_add(1);
        self.told.store(told, Ordering::SeqCst);
        told
    }

    /// Lets the next step go, and waits until it is answered.
    fn let_go(&self, next: u64) {
        self.going.store(next, Ordering::SeqCst);
        self.expect(reaches(&self.done, next));
    }
}

impl Gate for OneByOne<'_> {
    fn before(&self, _channel: u8, step: usize) {
        let all = self.wanted.len();
        if step < all {
            self.expect(reaches(&self.going, step as u64 + 1));
        } else {
            self.expect(reaches(&self.told, all as u64));
        }
    }

    fn answered(&self, _channel: u8, _step: usize) {
        self.done.fetch_add(1, Ordering::SeqCst);
    }

    fn pumped(&self, pumped: &Pumped) {
        let told = self.told.load(Ordering::SeqCst);
        let Some(wanted) = self.wanted.get(told as usize) else {
            return;
        };
        let told = self.tell(told, pumped, wanted);
        if pumped.taken == 0 && told < self.wanted.len() as u64 {
            self.let_go(told.saturating_add(1));
        }
    }
}
