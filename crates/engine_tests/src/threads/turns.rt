//! Waiting for a bounded number of turns.
use std::sync::atomic::{AtomicU64, Ordering};
use std::thread::yield_now;

/// How many turns a number is awaited at most: some seconds, so that a body for which it is awaited
/// in vain fails by an answer and not by running out of time.
const TURNS: u64 = 50_000_000;

/// Whether a number reaches another one within the turns that a step is held.
pub fn reaches(number: &AtomicU64, least: u64) -> bool {
    for turn in 0..TURNS {
        if number.load(Ordering::SeqCst) >= least {
            return true;
        }
        if turn % 16 == 0 {
            yield_now();
        }
    }
    false
}
