//! A run's set-up, and the opening of its engine.
ghost use Rattle.std.specs.Prelude.{◌≡◌, IfErr, IfOk, IsOk, [], false, true};
ghost use Rattle.std.specs.List.{list_all};
ghost use Rattle.daq_store.specs.Standing.{StoreStandsAfter};
ghost use Rattle.frame_writer.specs.Shown.{shown};
ghost use Rattle.frame_writer.specs.Writing.{state_of};
ghost use Rattle.daq_engine.specs.Engines.{engine_state};
ghost use Rattle.daq_run.specs.Faults.{StandsAtFault};
ghost use Rattle.daq_run.specs.Inner.Opened.{IsRunOpened};
ghost use Rattle.daq_run.specs.SetUps.{IsSetUp, profile_of};

use crate::carry_all;
use crate::sim_fault::SimFault;
use channel_ring::{RingEnd, SendEnd, TakeEnd};
use daq_engine::{Engine, OpenFault, Ring, engine_over};
use daq_store::{BadLimits, Store};
use frame_writer::{FrameWriter, Out};
use run_file::Run;
use std::alloc::Global;

/// The fresh store of a run.
fn store_of(alloc: Global, run: &Run) -> Result<Store, BadLimits>
    ensures succeeds { IsOk result }
    ensures profile { IfOk result (λ s. s.profile ≡ profile_of run.now) }
    ensures fresh { IfOk result (λ s. StoreStandsAfter s []) }
{
    let form = run.form();
    Store::with_form(
        alloc,
        run.channels(),
        run.image_len(),
        form.id,
        form.stamp.bytes(),
    )
}

/// Carries the command packets of a run out on a fresh store, and writes the replies as the first
/// frames.
pub fn set_up<O: Out>(
    alloc: Global,
    run: &Run,
    out: O,
) -> Result<(Store, FrameWriter<O>), (SimFault, O)>
    ensures ok { IfOk result (λ made.
        IsSetUp run.now (shown O.Out out) made.0 (state_of O.Out made.1)) }
    ensures is_open { IfOk result (λ made. (state_of O.Out made.1).closed ≡ false) }
    ensures fault { IfErr result (λ e.
        StandsAtFault run.now (shown O.Out out) (shown O.Out e.1) e.0) }
{
    let Ok(mut store) = store_of(alloc, run) else {
        unreachable!()
    };
    let mut writer = FrameWriter::new(out);
    match carry_all(&mut store, run.setup(), &mut writer) {
        Ok(()) => Ok((store, writer)),
        Err(fault) => Err((SimFault::from(fault), writer.into_out())),
    }
}

/// Sets a run up, and opens its engine on the same frame writer, over rings of one kind.
pub fn opened<K: Ring, O: Out>(
    alloc: Global,
    run: &Run,
    out: O,
) -> Result<Engine<O, K::Take>, (SimFault, O)>
    requires caps { list_all K.is_cap run.now.caps ≡ true }
    ensures ok { IfOk result (λ engine.
        IsRunOpened K.Send.SendEnd K.Send.End.RingEnd run.now (shown O.Out out)
        (engine_state O.Out K.Take.TakeEnd engine)) }
    ensures fault { IfErr result (λ e.
        StandsAtFault run.now (shown O.Out out) (shown O.Out e.1) e.0) }
{
    let (store, writer) = set_up(alloc, run, out)?;
    match engine_over::<K, O>(alloc, &store, run.caps(), writer) {
        Ok(engine) => Ok(engine),
        Err((OpenFault::NothingRunning, writer)) => {
            Err((SimFault::NothingRunning, writer.into_out()))
        }
        Err((OpenFault::Memory, writer)) => Err((SimFault::Memory, writer.into_out())),
        Err((OpenFault::BadCaps, _)) => unreachable!(),
    }
}
