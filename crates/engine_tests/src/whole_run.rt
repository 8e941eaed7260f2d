//! A whole run in one thread, over any writer and any kind of ring: it has the headline, with its
//! history by name.
ghost use Rattle.std.specs.Prelude.{IfOk};
ghost use Rattle.frame_writer.specs.Shown.{shown};
ghost use Rattle.daq_engine.specs.Engines.{Stands, Standing, engine_state};
ghost use Rattle.engine_tests.specs.WholeRun.{RecordsOnce, RunsOnce};

use crate::same::same;
use crate::stores::two_lists;
use channel_ring::{Beside, ItemTake, RingEnd, SendEnd, SendHalf, SendLeft, TakeEnd};
use daq_engine::{Engine, ListReport, Report, open_bytes};
use daq_store::Store;
use frame_writer::{FrameWriter, Out, VecOut};
use std::alloc::Global;
use std::test::Fail;

/// Takes a trigger of event channel 0, pumps, stops list 0 and starts it again, and closes the
/// engine once its rings are drained.
fn run_once<O: Out + Drop, T: Beside + ItemTake>(
    alloc: Global,
    engine: Engine<O, T>,
    image: &[u8],
    stamp: u32,
) -> Result<(Report, O), Fail>
where
    T::Send: SendEnd<End = T::End>,
    ensures { IfOk result (λ r. (st : Standing) →
        Stands T.Send.SendEnd T.End.RingEnd (engine_state O.Out T.TakeEnd engine) st →
        RunsOnce T.Send.SendEnd T.End.RingEnd (engine_state O.Out T.TakeEnd engine) st
        image.now stamp r.0 (shown O.Out r.1)) }
{
    let mut engine = engine;
    let Ok(_) = engine.trigger(0, image, stamp) else {
        return Err(Fail::from("a trigger that is refused"));
    };
    let _ = engine.pump();
    let Ok(()) = engine.stop(0, 0) else {
        return Err(Fail::from("a stop that is refused"));
    };
    let Ok(()) = engine.start(0, 0) else {
        return Err(Fail::from("a start that is refused"));
    };
    match engine.close(alloc, true) {
        Ok(closed) => Ok(closed),
        Err(_) => Err(Fail::from("not closed")),
    }
}

/// The same of an engine that is opened over any store, and writes to any writer.
fn record_once<O: Out + Drop>(
    alloc: Global,
    store: &Store,
    caps: &[usize],
    out: O,
    image: &[u8],
    stamp: u32,
) -> Result<(Report, O), Fail>
    ensures { IfOk result (λ r.
        RecordsOnce ⟦<SendHalf as SendEnd>⟧ ⟦<SendLeft as RingEnd>⟧ store.now caps.now
        (shown O.Out out) image.now stamp r.0 (shown O.Out r.1)) }
{
    match Engine::open(alloc, store, caps, FrameWriter::new(out)) {
        Ok(engine) => run_once(alloc, engine, image, stamp),
        Err((fault, _)) => Err(Fail::from(fault)),
    }
}

#[test]
fn each_sample_of_a_whole_run_is_written(rt: HostRuntime) -> Result<(), Fail> {
    let row = "a whole run";
    let store = two_lists(&rt, rt.alloc());
    let out = VecOut::new(rt.alloc());
    let (report, out) = record_once(rt.alloc(), &store, &[16, 16], out, &[7, 8], 0)?;
    let line = |list, due| ListReport {
        list,
        due,
        written: due,
        dropped: 0,
        left: 0,
    };
    same(
        &rt,
        report.lists.as_slice(),
        &[line(0, 1), line(1, 0)],
        row,
        "account",
    );
    same(&rt, out.bytes(), &[3, 0, 0, 0, 0, 7, 8], row, "bytes");
    same(&rt, report.failed, false, row, "whether the writer failed");
    Ok(())
}

/// Whether an engine over rings of bytes opens.
fn is_engine_open(alloc: Global, store: &Store, caps: &[usize]) -> bool {
    let writer = FrameWriter::new(VecOut::new(alloc));
    Engine::open_bytes(alloc, store, caps, writer).is_ok()
}

/// Whether the parts of one open.
fn are_parts_open(alloc: Global, store: &Store, caps: &[usize]) -> bool {
    let writer = FrameWriter::new(VecOut::new(alloc));
    open_bytes(alloc, store, caps, writer).is_ok()
}

#[test]
fn engines_open_over_rings_of_bytes(rt: HostRuntime) {
    let store = two_lists(&rt, rt.alloc());
    let caps = [532, 532];
    let engine = is_engine_open(rt.alloc(), &store, &caps);
    let parts = are_parts_open(rt.alloc(), &store, &caps);
    same(&rt, (engine, parts), (true, true), "532 bytes", "opened");
}
