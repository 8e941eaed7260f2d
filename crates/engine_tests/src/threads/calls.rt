//! What threads show of each other, by a gate that lets one step go after another; and in which
//! order the gate is called, beside the steps and the pumps.
use crate::same::same;
use crate::threads::in_order::{InOrder, Wrong};
use crate::threads::outcomes::outcome_of;
use crate::threads::text::{
    BIG_LIST, ONE_BIG_PLACE, TWO_LISTS, TWO_PLACES, TWO_RINGS_OF_BYTES, ZEROS_31, ZEROS_32, run_of,
};
use run_file::Run;
use std::alloc::Global;
use std::process::Abort;
use std::sync::Wait;
use std::thread::Threads;

/// Two triggers of each of two event channels.
const TWO_TRIGGERS_EACH: &str =
    "steps = ['trigger 0 0 a0', 'trigger 0 0 a1', 'trigger 1 0 b0', 'trigger 1 0 b1']\n";

/// The order in which these go: event channel 0 ends before the last of the other one.
const ORDER: &[(u8, usize)] = &[(1, 0), (0, 0), (0, 1), (1, 1)];

/// The frames behind the replies, in this order.
const FRAMES: &[u8] = &[
    2, 0, 14, 0, 1, 0xB0, 2, 0, 15, 0, 0, 0xA0, 2, 0, 16, 0, 0, 0xA1, 2, 0, 17, 0, 1, 0xB1,
];

/// The parts of a text, the order in which the steps go, how many packets a sample has, how many
/// bytes the replies have and how many stand behind them, and with what these begin.
#[derive(Clone, Copy)]
struct Row<'a> {
    name: &'a str,
    parts: &'a [&'a str],
    order: &'a [(u8, usize)],
    packets: u64,
    replies: usize,
    written: usize,
    frames: &'a [u8],
}

/// In a ring of one place, and in one of bytes that a sample fills, a step sees the place that the
/// pump freed.
const ROWS: &[Row] = &[
    Row {
        name: "rings of one place",
        parts: &[TWO_PLACES, TWO_LISTS, TWO_TRIGGERS_EACH],
        order: ORDER,
        packets: 1,
        replies: 72,
        written: 24,
        frames: FRAMES,
    },
    Row {
        name: "rings of bytes",
        parts: &[TWO_RINGS_OF_BYTES, TWO_LISTS, TWO_TRIGGERS_EACH],
        order: ORDER,
        packets: 1,
        replies: 72,
        written: 24,
        frames: FRAMES,
    },
    Row {
        name: "a ring of bytes that a sample fills",
        parts: &[
            ONE_BIG_PLACE,
            BIG_LIST,
            "steps = ['trigger 0 0 ",
            ZEROS_31,
            ZEROS_32,
            "', 'trigger 0 0 ",
            ZEROS_31,
            ZEROS_32,
            "']\n",
        ],
        order: &[(0, 0), (0, 1)],
        packets: 8,
        replies: 146,
        written: 1088,
        frames: &[64, 0, 29, 0, 0],
    },
];

/// Compares what stands behind the replies with the frames that are wanted.
fn frames_are(rt: &impl Abort, bytes: &[u8], row: Row<'_>) {
    let behind = bytes.get(row.replies..).unwrap_or(&[]);
    let front = behind.get(..row.frames.len());
    let wanted = (row.written, Some(row.frames));
    same(rt, (behind.len(), front), wanted, row.name, "the frames");
}

/// Runs the run of a row, and compares what its gate was told and what is written.
fn goes_in_order<R: Threads + Wait + Sync + Abort>(rt: &R, alloc: Global, run: &Run, row: Row<'_>) {
    let gate = InOrder::of(rt, row.order, row.packets);
    let outcome = outcome_of(rt, alloc, run, &gate);
    let steps = row.order.len() as u64;
    let told = (Wrong::Nothing, steps, steps);
    same(rt, gate.told(), told, row.name, "the calls");
    frames_are(rt, outcome.out.bytes(), row);
}

/// Reads the run of a row, which then goes in order.
fn runs_in_order<R: Threads + Wait + Sync + Abort>(rt: &R, alloc: Global, row: Row<'_>) {
    let run = run_of(rt, alloc, row.parts);
    goes_in_order(rt, alloc, &run, row);
}

#[test]
fn each_step_stands_between_its_calls_and_each_pump_is_told(rt: HostRuntime) {
    for row in ROWS {
        runs_in_order(&rt, rt.alloc(), *row);
    }
}
