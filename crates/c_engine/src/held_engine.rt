//! The engine behind a handle of C, with room for its account.
use crate::lending::Lending;
use channel_ring::TakeEnd;
use daq_engine::{ListReport, Ring};
use frame_writer::SinkOut;
use std::marker::Model;
use transmitter::Transmitter;

/// An engine that was opened over rings of one kind: its transmitter, its samplers, and the room
/// for the lines of its report.
#[derive(Drop)]
pub struct HeldEngine<R: Ring> {
    pub(crate) transmitter: Transmitter<SinkOut, R::Take>,
    pub(crate) lending: Lending<R>,
    pub(crate) lines: Vec<ListReport>,
}

impl<R: Ring> Model for HeldEngine<R> {
    ghost use Rattle.std.specs.Prelude.{◌≡◌, ◌≤◌, false, length, vec_capacity, vec_len};
    ghost use Rattle.xcp_base.specs.declared.limits.TheConstants.{MAX_LISTS};
    ghost use Rattle.transmitter.specs.Sinks.{sink_transmitter};
    ghost use Rattle.daq_engine.specs.Configuration.{upto};
    ghost use Rattle.c_engine.specs.Lendings.{WasOpened, channels_in, rings_in};
    ghost use Rattle.c_engine.specs.States.{EngineState};

    ghost Value = { EngineState R.Send R.Take R.Send.End };

    ghost view = { λ e. record {
      transmitter = e.transmitter;
      lending = e.lending;
      lines = e.lines;
    } };

    ghost invariant = { λ e.
        (rings_in R.Send.SendEnd e.lending.began
        ≡ (sink_transmitter R.Take.TakeEnd e.transmitter).rings)
        × (channels_in e.lending.began ≡ upto 0 (length e.lending.began))
        × ((sink_transmitter R.Take.TakeEnd e.transmitter).writer.closed ≡ false)
        × (vec_len e.lines ≡ 0)
        × (MAX_LISTS ≤ vec_capacity e.lines)
        × WasOpened R.Send.SendEnd R.Send.End.RingEnd e.lending.began
        (sink_transmitter R.Take.TakeEnd e.transmitter) };
}
