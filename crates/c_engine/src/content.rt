//! All that a handle of C may hold, over both kinds of rings.
ghost use Rattle.std.specs.Prelude.{◌≡◌, IfErr, IfOk};

use crate::held_engine::HeldEngine;
use crate::lent::Lent;
use crate::status::Status;
use byte_ring::ByteRing;
use channel_ring::SampleRing;
use daq_store::Store;
use std::alloc::Global;

/// What a handle of a store, of an engine or of its samplers may hold.
#[derive(Drop)]
pub enum Content {
    /// A store.
    Store(Store),
    /// The sampler of an event channel, over a ring of items.
    Sampler(Lent<SampleRing>),
    /// An engine over rings of items.
    Engine(HeldEngine<SampleRing>),
    /// The sampler of an event channel, over a ring of bytes.
    ByteSampler(Lent<ByteRing>),
    /// An engine over rings of bytes.
    ByteEngine(HeldEngine<ByteRing>),
}

impl Content {
    /// The same on the heap.
    pub fn boxed(self, alloc: Global) -> Result<Box<Content>, Status>
        ensures ok { IfOk result (λ it. it.value ≡ self) }
        ensures err { IfErr result (λ status. status ≡ Status.Memory) }
    {
        match Box::new(alloc, self) {
            Ok(boxed) => Ok(boxed),
            Err(failed) => {
                // for the proof: what is lost is dropped as a content, whose drop is proved once
                let _lost = failed.value;
                Err(Status::Memory)
            }
        }
    }
}
