//! The sink of one slave.

use capture_recording::{CaptureSink, Sinks, is_same_address};
use captured_samples::{ListSamples, Mark, SampleSink};
use captured_session::CapturedList;
use std::alloc::AllocError;
use std::net::IpAddr;

/// A sink that says nothing of what it was told.
#[derive(Drop)]
pub struct Unsaid<S: CaptureSink + Drop> {
    /// The sink.
    pub sink: S,
}

impl<S: CaptureSink + Drop> SampleSink for Unsaid<S> {
    fn begin(&mut self, number: usize, list: &CapturedList) -> Result<(), AllocError> {
        self.sink.begin(number, list)
    }

    fn hand(&mut self, number: usize, sample: &ListSamples, mark: Mark) {
        self.sink.hand(number, sample, mark);
    }
}

impl<S: CaptureSink + Drop> CaptureSink for Unsaid<S> {
    fn set_time(&mut self, nanoseconds: Option<i64>) {
        self.sink.set_time(nanoseconds);
    }

    fn frame(&mut self, is_of_master: bool, counter: u16, packet: &[u8]) {
        self.sink.frame(is_of_master, counter, packet);
    }
}

/// The sink of one slave.
#[derive(Drop)]
pub struct OneSink<S: CaptureSink + Drop> {
    slave: IpAddr,
    sink: Option<Unsaid<S>>,
}

impl<S: CaptureSink + Drop> OneSink<S> {
    /// It is that of the slave at this address.
    pub fn new(slave: IpAddr, sink: S) -> OneSink<S> {
        OneSink {
            slave,
            sink: Some(Unsaid { sink }),
        }
    }
}

impl<S: CaptureSink + Drop> Sinks for OneSink<S> {
    ghost use Rattle.std.specs.Prelude.{◌≡◌, IsSome};

    type Sink = Unsaid<S>;

    ghost reads = { λ one address. (address ≡ one.slave) × IsSome one.sink };

    fn sink_of(&mut self, address: IpAddr) -> Option<Unsaid<S>> {
        if !is_same_address(address, self.slave) {
            return None;
        }
        self.sink.take()
    }
}
