//! The account of an engine whose samplers were all finished.

ghost use Rattle.std.specs.Prelude.{◌≡◌, ◌≤◌, IfErr, OnOk, Some, length};
ghost use Rattle.xcp_base.specs.declared.limits.TheConstants.{MAX_LISTS as MOST_LISTS};
ghost use Rattle.daq_engine.specs.declared.report.Report.{Report as ReportOf};
ghost use Rattle.c_engine.specs.Ends.{ClosesBy, IsAccountOf, MayClose, MayCloseHeld};
ghost use Rattle.c_engine.specs.Ends.{StaysHeld, StaysOpen, status_of_close};
ghost use Rattle.c_engine.specs.Lendings.{AreBack};

use crate::content::Content;
use crate::handle::Handle;
use crate::held_engine::HeldEngine;
use crate::held_ring::HeldRing;
use crate::lending::Lending;
use crate::report_out::ReportOut;
use crate::status::Status;
use crate::taken_back::TakenBack;
use crate::taken_samplers::TakenSamplers;
use byte_ring::ByteRing;
use channel_ring::{SampleRing, SendEnd, TakeEnd};
use daq_engine::{ListReport, Ring, account};
use frame_writer::{Out, SinkOut};
use std::alloc::Global;
use std::snapshot::Snapshot;
use xcp_base::limits::MAX_LISTS;

/// Closes an engine, and tells its account; what is left of its samplers is answered.
fn close<R: Ring>(
    engine: HeldEngine<R>,
    lines: &mut [ListReport],
    report: &mut ReportOut,
) -> TakenSamplers<R>
    requires back { AreBack R.Send.SendEnd R.Send.End.RingEnd engine.lending }
    requires room { MOST_LISTS ≤ length lines.old }
    ensures account { (told : ReportOf) × IsAccountOf ⟦<SinkOut as Out>⟧ R.Take.TakeEnd
        R.Send.SendEnd R.Send.End.RingEnd engine
        (record { lines = lines.old; report = report.old })
        (record { lines = lines.new; report = report.new }) told }
    ensures taken { result ≡ engine.lending.ends }
{
    let HeldEngine {
        transmitter,
        lending,
        lines: room,
    } = engine;
    let Lending {
        samplers: _,
        ways: _,
        ends,
        began: _,
    } = lending;
    let taken = Snapshot::of(&ends);
    let (told, _) = account(room, transmitter, ends);
    let len = told.lists.len();
    lines[..len].copy_from_slice(told.lists.as_slice());
    *report = ReportOut {
        lines: len,
        failed: told.failed,
    };
    TakenSamplers { ends: taken }
}

/// Whether an engine may be closed with so much room for lines, since all its samplers came back;
/// or why not.
fn may_close<R: Ring>(engine: &mut HeldEngine<R>, room: usize) -> Result<(), Status>
    ensures ok { OnOk result
        (MayClose R.Send.SendEnd R.Send.End.RingEnd engine.old engine.new room) }
    ensures err { IfErr result (StaysOpen engine.old engine.new room) }
{
    if room < MAX_LISTS as usize {
        return Err(Status::SmallBuffer);
    }
    if !engine.lending.collect() {
        return Err(Status::Unfinished);
    }
    Ok(())
}

/// Whether what is held is an engine that may be closed with so much room for lines; or why not.
fn may_close_in(content: &mut Content, room: usize) -> Result<(), Status>
    ensures ok { OnOk result
        (MayCloseHeld ⟦<SampleRing as HeldRing>⟧.rings ⟦<ByteRing as HeldRing>⟧.rings
        content.old content.new room) }
    ensures err { IfErr result (StaysHeld (Some content.old) (Some content.new) room) }
{
    match content {
        Content::Engine(engine) => may_close(engine, room),
        Content::ByteEngine(engine) => may_close(engine, room),
        _ => Err(Status::Empty),
    }
}

/// Closes the engine of a handle, and tells its account: answers what came back, of which the
/// account is; or why the engine stays.
pub fn close_by(
    alloc: Global,
    handle: &mut Handle,
    lines: &mut [ListReport],
    report: &mut ReportOut,
) -> Result<TakenBack, Status>
    ensures { ClosesBy ⟦<SampleRing as HeldRing>⟧.rings ⟦<ByteRing as HeldRing>⟧.rings
        handle.old.held handle.new.held
        (record { lines = lines.old; report = report.old })
        (record { lines = lines.new; report = report.new }) result }
{
    let Some(mut held) = handle.take(alloc) else {
        return Err(Status::Empty);
    };
    if let Err(status) = may_close_in(held.as_mut(), lines.len()) {
        handle.put(alloc, held);
        return Err(status);
    }
    match Box::into_inner(held) {
        Content::Engine(engine) => Ok(TakenBack::Items(close(engine, lines, report))),
        Content::ByteEngine(engine) => Ok(TakenBack::Bytes(close(engine, lines, report))),
        _ => unreachable!(),
    }
}

/// What a close is to C.
pub fn status_of_close(close: Result<TakenBack, Status>) -> Status
    ensures { result ≡ status_of_close close }
{
    match close {
        Ok(_taken) => Status::Ok,
        Err(status) => status,
    }
}
