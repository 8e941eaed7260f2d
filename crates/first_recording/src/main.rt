//! One DAQ list, from its set-up to the frames of its samples, in one thread.
#![tactic(auto)]

use anyhow::{Result, bail};
use daq_engine::{Engine, Report};
use daq_store::Store;
use frame_writer::{FrameWriter, VecOut};
use std::alloc::Global;

fn main(rt: HostRuntime) -> Result<()> {
    let store = set_up(rt.alloc())?;
    let (report, out) = record(rt.alloc(), &store)?;
    println!(rt; "{}", hex::encode(rt.alloc(), out.bytes())?)?;
    for line in report.lists.iter() {
        println!(rt;
            "list {}: {} due, {} written, {} dropped, {} left",
            line.list, line.due, line.written, line.dropped, line.left
        )?;
    }
    Ok(())
}

/// One event channel and images of two bytes. Of its one DAQ list, which runs, the one entry is the
/// whole image.
fn set_up(alloc: Global) -> Result<Store> {
    let mut store = Store::new(alloc, 1, 2)?;
    store.alloc_daq(1)?;
    store.alloc_odt(0, 1)?;
    store.alloc_odt_entry(0, 0, 1)?;
    store.set_ptr(0, 0, 0)?;
    store.write(0xFF, 2, 0, 0)?;
    store.set_mode(0x00, 0, 0, 1, 0)?;
    store.start_stop(1, 0)?;
    Ok(store)
}

/// Samples three images through a ring of one place.
fn record(alloc: Global, store: &Store) -> Result<(Report, VecOut)> {
    let writer = FrameWriter::new(VecOut::new(alloc));
    let Ok(mut engine) = Engine::open(alloc, store, &[1], writer) else {
        bail!("the engine was not opened");
    };

    // the second sample finds no room: it is dropped, and the third one says so
    engine.trigger(0, &[0xAA, 0xBB], 0)?;
    engine.trigger(0, &[0xCC, 0xDD], 1)?;
    engine.pump()?;
    engine.trigger(0, &[0xEE, 0xFF], 2)?;

    // what is left in the ring is written
    match engine.close(alloc, true) {
        Ok(closed) => Ok(closed),
        Err(_) => bail!("the engine was not closed"),
    }
}
