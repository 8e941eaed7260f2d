//! Why an engine in one thread wasn't closed, with what comes back of it.
use crate::engine::Engine;
use channel_ring::Beside;
use frame_writer::{FrameWriter, Out};
use std::fmt;
use std::fmt::{Debug, Formatter};
use thiserror::Error;

/// Why an engine was not closed.
#[derive(Drop, Error)]
pub enum Unclosed<O: Out, T: Beside> {
    /// There was no memory for its closing. The engine is as it was.
    #[error("out of memory")]
    Memory(Engine<O, T>),
    /// What is left of a sampler didn't come back from its ring; the frame writer shows what it
    /// showed. No ring of these crates does so while its transmitter is there.
    #[error("a ring did not give its end back")]
    Lost(FrameWriter<O>),
}

impl<O: Out, T: Beside> Debug for Unclosed<O, T> {
    fn fmt<W: fmt::Write>(&self, f: &mut Formatter<W>) -> fmt::Result {
        match self {
            Unclosed::Memory(_) => f.write_str("Memory(..)"),
            Unclosed::Lost(_) => f.write_str("Lost(..)"),
        }
    }
}
