//! A gate that lets the steps go one after another, and looks at what the pumps write around each.
use crate::threads::turns::reaches;
use daq_run::Gate;
use std::process::Abort;
use std::sync::atomic::{AtomicU64, Ordering};
use transmitter::Pumped;

/// How many pumps may follow the last answer before all threads have ended.
const PUMPS: u64 = 10_000_000;

/// What a call of the gate found that it should not have found; the first of them counts.
#[derive(Clone, Copy, Debug, PartialEq, Eq)]
pub enum Wrong {
    Nothing,
    /// A step that isn't the next one of its event channel, or comes twice.
    OtherStep,
    /// A step whose turn never came.
    NoTurn,
    /// The gate is told of no pump that took nothing.
    NoEmptyPump,
    /// Before a step other frames than those of the steps before it.
    OtherFrames,
    /// Behind a step no frame of its sample.
    NoFrame,
}

/// Lets steps go in an order, each of which sends a sample of so many packets. Before a step it
/// waits for two pumps that take nothing, and behind it for the frames of its sample.
#[derive(Drop)]
pub struct InOrder<'a, R> {
    rt: &'a R,
    order: &'a [(u8, usize)],
    packets: u64,
    begun: AtomicU64,
    done: AtomicU64,
    empty: AtomicU64,
    frames: AtomicU64,
    late: AtomicU64,
    wrong: AtomicU64,
}

impl<'a, R> InOrder<'a, R> {
    pub fn of(rt: &'a R, order: &'a [(u8, usize)], packets: u64) -> InOrder<'a, R> {
        InOrder {
            rt,
            order,
            packets,
            begun: AtomicU64::new(0),
            done: AtomicU64::new(0),
            empty: AtomicU64::new(0),
            frames: AtomicU64::new(0),
            late: AtomicU64::new(0),
            wrong: AtomicU64::new(0),
        }
    }

    /// What was wrong first, and how many steps were let through and answered.
    pub fn told(&self) -> (Wrong, u64, u64) {
        let wrong = match self.wrong.load(Ordering::SeqCst) {
            0 => Wrong::Nothing,
            1 => Wrong::OtherStep,
            2 => Wrong::NoTurn,
            3 => Wrong::NoEmptyPump,
            4 => Wrong::OtherFrames,
            _ => Wrong::NoFrame,
        };
        let begun = self.begun.load(Ordering::SeqCst);
        (wrong, begun, self.done.load(Ordering::SeqCst))
    }

    /// Notes what is wrong, if nothing was before.
    fn expect(&self, holds: bool, wrong: Wrong) {
        if !holds && self.wrong.load(Ordering::SeqCst) == 0 {
            self.wrong.store(wrong as u64, Ordering::SeqCst);
        }
    }

    /// Waits until a number has come so far, if nothing was wrong before.
    fn wait_for(&self, number: &AtomicU64, least: u64, wrong: Wrong) {
        if self.wrong.load(Ordering::SeqCst) == 0 {
            self.expect(reaches(number, least), wrong);
        }
    }

    /// The place of a step in the order.
    fn place_of(&self, channel: u8, step: usize) -> u64 {
        let mut place: u64 = 0;
        for own in self.order {
            if *own == (channel, step) {
                return place;
            }
            place = place.saturating_add(1);
        }
        place
    }
}

impl<R: Abort> Gate for InOrder<'_, R> {
    fn before(&self, channel: u8, step: usize) {
        let place = self.place_of(channel, step);
        self.wait_for(&self.done, place, Wrong::NoTurn);
        let empty = self.empty.load(Ordering::SeqCst);
        self.wait_for(&self.empty, empty.saturating_add(2), Wrong::NoEmptyPump);
        let frames = self.frames.load(Ordering::SeqCst);
        let before = place.saturating_mul(self.packets);
        self.expect(frames == before, Wrong::OtherFrames);
        let begun = self.begun.fetch_add(1, Ordering::SeqCst);
        self.expect(begun == place, Wrong::OtherStep);
    }

    fn answered(&self, channel: u8, step: usize) {
        let next = self.place_of(channel, step).saturating_add(1);
        let begun = self.begun.load(Ordering::SeqCst);
        self.expect(begun == next, Wrong::OtherStep);
        let frames = next.saturating_mul(self.packets);
        self.wait_for(&self.frames, frames, Wrong::NoFrame);
        self.done.fetch_add(1, Ordering::SeqCst);
    }

    fn pumped(&self, pumped: &Pumped) {
        if pumped.taken == 0 {
            self.empty.fetch_add(1, Ordering::SeqCst);
        }
        self.frames
            .fetch_add(pumped.frames as u64, Ordering::SeqCst);
        let all = self.done.load(Ordering::SeqCst) >= self.order.len() as u64;
        if all && self.late.fetch_add(1, Ordering::SeqCst) > PUMPS {
            let rt = self.rt;
            panic!(rt; "the pumps go on, though all threads have ended");
        }
    }
}
