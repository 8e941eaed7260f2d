//! From images to frames, by a fixed DAQ list.
use crate::same::same;
use daq_run::fixed_run;
use frame_writer::{FuseOut, WriteFault};
use std::alloc::Global;
use std::process::Abort;

const TWO_IMAGES: [[u8; 2]; 2] = [[0xAA, 0xBB], [0xCC, 0xDD]];

/// What is written of them.
const TWO_FRAMES: [u8; 14] = [
    0x03, 0x00, 0x00, 0x00, 0x00, 0xAA, 0xBB, 0x03, 0x00, 0x01, 0x00, 0x00, 0xCC, 0xDD,
];

/// The writer that comes back from a run, and the fault if it has one.
fn ended<O>(run: Result<O, (WriteFault, O)>) -> (Option<WriteFault>, O) {
    match run {
        Ok(out) => (None, out),
        Err((fault, out)) => (Some(fault), out),
    }
}

/// A run: its images, how many bytes the writer takes a call and in all, whether it fails, and what
/// is written.
type Run = (
    &'static str,
    &'static [[u8; 2]],
    usize,
    usize,
    Option<WriteFault>,
    &'static [u8],
);

const RUNS: &[Run] = &[
    (
        "two images are two frames",
        &TWO_IMAGES,
        64,
        14,
        None,
        &TWO_FRAMES,
    ),
    ("a byte a call", &TWO_IMAGES, 1, 14, None, &TWO_FRAMES),
    ("without images nothing is written", &[], 1, 8, None, &[]),
    (
        "it stops within a frame",
        &TWO_IMAGES,
        1,
        8,
        Some(WriteFault::Failed),
        &[0x03, 0x00, 0x00, 0x00, 0x00, 0xAA, 0xBB, 0x03],
    ),
    (
        "it stops before the first",
        &TWO_IMAGES,
        0,
        8,
        Some(WriteFault::Failed),
        &[],
    ),
];

/// Compares the fault and what is written of a run.
fn writes(rt: &impl Abort, alloc: Global, run: Run) {
    let (name, images, chunk, good, wanted, bytes) = run;
    let (fault, out) = ended(fixed_run(images, FuseOut::new(alloc, chunk, good)));
    same(
        rt,
        (fault, out.bytes()),
        (wanted, bytes),
        name,
        "fault, bytes",
    );
}

#[test]
fn a_run_writes_the_frames_of_its_images(rt: HostRuntime) {
    for run in RUNS {
        writes(&rt, rt.alloc(), *run);
    }
}
