//! What a gate is told of pumps: the whole answer of each, once.
use crate::same::same;
use crate::threads::one_by_one::OneByOne;
use crate::threads::outcomes::outcome_of;
use crate::threads::text::{TWO_LISTS, TWO_PLACES, TWO_RINGS_OF_BYTES, run_of};
use std::alloc::Global;
use std::process::Abort;
use std::sync::Wait;
use std::thread::Threads;
use transmitter::Pumped;

/// Steps of one event channel. The last isn't looked at, since its thread may have ended before a
/// pump finds what it sent.
const STEPS: &str =
    "steps = ['trigger 0 0 a0', 'stop 0 0', 'start 0 0', 'trigger 0 0 a1', 'trigger 0 0 a2']\n";

/// A sample of one packet, the marker of list 0, nothing, and a sample.
const WANTED: [Pumped; 4] = [
    Pumped {
        taken: 1,
        frames: 1,
        stopped: 0,
    },
    Pumped {
        taken: 1,
        frames: 0,
        stopped: 1,
    },
    Pumped {
        taken: 0,
        frames: 0,
        stopped: 0,
    },
    Pumped {
        taken: 1,
        frames: 1,
        stopped: 0,
    },
];

/// Runs the steps over these rings, and compares what the gate was told.
fn pumps_are_told<R: Threads + Wait + Sync + Abort>(rt: &R, alloc: Global, rings: &str) {
    let run = run_of(rt, alloc, &[rings, TWO_LISTS, STEPS]);
    let gate = OneByOne::of(&WANTED);
    let _outcome = outcome_of(rt, alloc, &run, &gate);
    same(rt, gate.told(), (4, 0), rings, "told, otherwise");
}

#[test]
fn each_pump_is_told_once_with_its_whole_answer(rt: HostRuntime) {
    pumps_are_told(&rt, rt.alloc(), TWO_PLACES);
    pumps_are_told(&rt, rt.alloc(), TWO_RINGS_OF_BYTES);
}
