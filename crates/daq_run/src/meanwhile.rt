//! What the caller's thread does while others run.
ghost use Rattle.std.specs.Prelude.{◌≡◌};
ghost use Rattle.transmitter.specs.Written.{transmission};
ghost use Rattle.daq_run.specs.Inner.Workers.{KeepsTaking};

use crate::gate::Gate;
use channel_ring::{ItemTake, TakeEnd};
use frame_writer::Out;
use std::sync::Wait;
use std::sync::atomic::{AtomicBool, Ordering};
use std::thread;
use transmitter::Transmitter;
use xcp_base::limits::RUN_CHANNELS;

/// One flag for each thread that there may be: whether it has ended.
pub type Flags = [AtomicBool; RUN_CHANNELS as usize];

/// What is done while threads run, in the thread that joins them.
///
/// A scope's closure can't say what it left behind a `&mut`; it can say what a value of a type
/// parameter gives back.
pub trait Meanwhile {
    /// What comes of it.
    type Output;

    ghost gives: { Self → Self.Output → Type 0 };

    /// Goes on until the first `threads` have ended.
    fn run(self, threads: usize) -> Self::Output
        ensures { gives self result };
}

/// Pumps, and tells a gate of each pump.
#[derive(Drop)]
pub struct Pumping<'a, R, O, T, G> {
    pub rt: &'a R,
    pub transmitter: &'a mut Transmitter<O, T>,
    pub gate: &'a G,
    pub ended: &'a Flags,
}

impl<'a, R: Wait, O: Out, T: ItemTake, G: Gate> Meanwhile for Pumping<'a, R, O, T, G> {
    type Output = &'a mut Transmitter<O, T>;

    ghost gives = { λ p lent. (lent.ghost_name ≡ p.transmitter.ghost_name)
        × KeepsTaking (transmission O.Out T.TakeEnd p.transmitter.now)
        (transmission O.Out T.TakeEnd lent.now) };

    fn run(self, threads: usize) -> &'a mut Transmitter<O, T> {
        let Pumping {
            rt,
            transmitter,
            gate,
            ended,
        } = self;
        pump_until(rt, transmitter, gate, ended, threads);
        transmitter
    }
}

/// Pumps until the first `threads` have ended.
fn pump_until<R: Wait, O: Out, T: ItemTake, G: Gate>(
    rt: &R,
    transmitter: &mut Transmitter<O, T>,
    gate: &G,
    ended: &Flags,
    threads: usize,
)
    ensures { KeepsTaking (transmission O.Out T.TakeEnd transmitter.old)
        (transmission O.Out T.TakeEnd transmitter.new) }
{
    for _ in rt.forever() {
        if have_ended(ended, threads) {
            break;
        }
        if !pumps_some(transmitter, gate) {
            thread::yield_now();
        }
    }
}

/// Pumps once, tells the gate if that answered Ok, and returns whether anything was taken.
fn pumps_some<O: Out, T: ItemTake, G: Gate>(transmitter: &mut Transmitter<O, T>, gate: &G) -> bool
    ensures { KeepsTaking (transmission O.Out T.TakeEnd transmitter.old)
        (transmission O.Out T.TakeEnd transmitter.new) }
{
    match transmitter.pump() {
        Ok(pumped) => {
            gate.pumped(&pumped);
            pumped.taken > 0
        }
        Err(_) => false,
    }
}

/// Whether the first `threads` have ended.
fn have_ended(ended: &Flags, threads: usize) -> bool {
    ended
        .iter()
        .take(threads)
        .all(|flag| flag.load(Ordering::SeqCst))
}

/// Ties a reference that came back to what lent it.
pub fn take_back<T>(x: &mut T)
    ensures { x.new ≡ x.old }
{}
