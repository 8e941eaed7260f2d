//! The calls with which an engine ends.

ghost use Rattle.std.specs.Prelude.{◌≡◌};
ghost use Rattle.c_engine.specs.Ends.{Closes, Drains};
ghost use Rattle.c_engine.specs.Samplers.{Finishes};
ghost use Rattle.c_engine.specs.Statuses.{number_of};
ghost use Rattle.c_engine.specs.declared.status.Status.{Status as StatusOf};

use byte_ring::ByteRing;
use c_engine::{
    Handle, HeldRing, PumpedOut, ReportOut, close_by, drain_by, finish_by, status_of_close,
    status_of_finish,
};
use channel_ring::SampleRing;
use daq_engine::ListReport;
use std::alloc::Global;

/// Finishes a sampler, and gives what is left of it back to its engine. The handle is empty then.
///
/// Refused if there is no sampler. If the engine was freed, what is left of the
/// sampler is given up, and so is answered.
#[unsafe(no_mangle)]
pub extern "C" fn ng_finish(alloc: Global, sampler: &mut Handle) -> u32
    ensures { (status : StatusOf) × (result ≡ number_of status)
        × Finishes ⟦<SampleRing as HeldRing>⟧.rings ⟦<ByteRing as HeldRing>⟧.rings
        sampler.old.held sampler.new.held status }
{
    status_of_finish(finish_by(alloc, sampler)).number()
}

/// Looks at all that was sent, and pumps if something is left.
///
/// Refused in this order: no engine, a buffer of less than 4352 bytes, a sampler that wasn't
/// finished; if something is left, as `ng_pump`.
#[unsafe(no_mangle)]
pub extern "C" fn ng_drain(
    alloc: Global,
    engine: &mut Handle,
    buffer: &mut [u8],
    len: &mut usize,
    pumped: &mut PumpedOut,
    left: &mut bool,
) -> u32
    ensures { (status : StatusOf) × (result ≡ number_of status)
        × Drains ⟦<SampleRing as HeldRing>⟧.rings ⟦<ByteRing as HeldRing>⟧.rings
        engine.old.held engine.new.held
        (record {
          frames = record { buffer = buffer.old; len = len.old; pumped = pumped.old };
          left = left.old;
        })
        (record {
          frames = record { buffer = buffer.new; len = len.new; pumped = pumped.new };
          left = left.new;
        })
        status }
{
    drain_by(alloc, engine, buffer, len, pumped, left).number()
}

/// Closes an engine, and tells its account: a line for each DAQ list that it had, into the front
/// of `lines`. The handle is empty then.
///
/// Refused in this order: no engine, room for less than 16 lines, a sampler that wasn't
/// finished.
#[unsafe(no_mangle)]
pub extern "C" fn ng_close(
    alloc: Global,
    engine: &mut Handle,
    lines: &mut [ListReport],
    report: &mut ReportOut,
) -> u32
    ensures { (status : StatusOf) × (result ≡ number_of status)
        × Closes ⟦<SampleRing as HeldRing>⟧.rings ⟦<ByteRing as HeldRing>⟧.rings
        engine.old.held engine.new.held
        (record { lines = lines.old; report = report.old })
        (record { lines = lines.new; report = report.new }) status }
{
    status_of_close(close_by(alloc, engine, lines, report)).number()
}
