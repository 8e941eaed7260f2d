//! What comes of runs with threads that end well.
use daq_run::{Gate, Outcome, run_threads};
use frame_writer::VecOut;
use run_file::Run;
use std::alloc::Global;
use std::process::Abort;
use std::sync::Wait;
use std::thread::Threads;

/// What comes of a run by a gate, which writes into memory.
pub fn outcome_of<R: Threads + Wait + Sync + Abort, G: Gate + Sync>(
    rt: &R,
    alloc: Global,
    run: &Run,
    gate: &G,
) -> Outcome<VecOut<Global>> {
    match run_threads(rt, alloc, run, VecOut::new(alloc), gate) {
        Ok(outcome) => outcome,
        Err((fault, _)) => panic!(rt; "{fault}"),
    }
}
