//! The samplers of an engine, handed out one after another.

ghost use Rattle.std.specs.Prelude.{◌≡◌, IfErr, IfOk, None, OnErr, OnOk, Some};
ghost use Rattle.c_engine.specs.declared.content.Content.TheVariants as held;
ghost use Rattle.c_engine.specs.Engines.{GivesSampler, HandsSampler, LendsNone, LendsOut};
ghost use Rattle.c_engine.specs.Engines.{OnEngine};
ghost use Rattle.c_engine.specs.States.{EngineState};

use crate::content::Content;
use crate::handle::Handle;
use crate::held_engine::HeldEngine;
use crate::lent::Lent;
use crate::status::Status;
use byte_ring::ByteRing;
use channel_ring::SampleRing;
use daq_engine::Ring;
use std::alloc::Global;

/// The next sampler of an engine, which is out then.
fn next_of<R: Ring>(alloc: Global, engine: &mut HeldEngine<R>) -> Result<Lent<R>, Status>
    ensures ok { IfOk result (LendsOut engine.old engine.new) }
    ensures err { IfErr result (LendsNone engine.old engine.new) }
{
    match engine.lending.next(alloc) {
        Ok(Some(lent)) => Ok(lent),
        Ok(None) => Err(Status::NoSampler),
        Err(_) => Err(Status::Memory),
    }
}

/// Takes the sampler back that an engine handed out last.
fn take_back<R: Ring>(engine: &mut HeldEngine<R>, lent: Lent<R>)
    requires { (before : EngineState R.Send R.Take R.Send.End)
        × LendsOut before engine.old lent }
    ensures { (before : EngineState R.Send R.Take R.Send.End) →
        LendsOut before engine.old lent → engine.new ≡ before }
{
    engine.lending.take_back(lent);
}

/// Puts what is given into an empty handle, or gives it back if there is no memory.
fn put_boxed(alloc: Global, given: Content, handle: &mut Handle) -> Result<(), Content>
    ensures ok { OnOk result (handle.new.held ≡ Some given) }
    ensures back { IfErr result (λ back. back ≡ given) }
    ensures err { OnErr result (handle.new.held ≡ handle.old.held) }
{
    match Box::new(alloc, given) {
        Ok(content) => {
            handle.put(alloc, content);
            Ok(())
        }
        Err(failed) => Err(failed.value),
    }
}

/// Hands the next sampler over a ring of items out, into an empty handle.
fn hand_out(alloc: Global, engine: &mut HeldEngine<SampleRing>, sampler: &mut Handle) -> Status
    requires empty { sampler.old.held ≡ None }
    ensures { HandsSampler held.Sampler engine.old engine.new sampler.new.held result }
{
    let lent = match next_of(alloc, engine) {
        Ok(lent) => lent,
        Err(status) => return status,
    };
    match put_boxed(alloc, Content::Sampler(lent), sampler) {
        Ok(()) => Status::Ok,
        Err(back) => {
            let Content::Sampler(lent) = back else {
                unreachable!()
            };
            take_back(engine, lent);
            Status::Memory
        }
    }
}

/// Hands the next sampler over a ring of bytes out, into an empty handle.
fn hand_out_bytes(alloc: Global, engine: &mut HeldEngine<ByteRing>, sampler: &mut Handle) -> Status
    requires empty { sampler.old.held ≡ None }
    ensures { HandsSampler held.ByteSampler engine.old engine.new sampler.new.held result }
{
    let lent = match next_of(alloc, engine) {
        Ok(lent) => lent,
        Err(status) => return status,
    };
    match put_boxed(alloc, Content::ByteSampler(lent), sampler) {
        Ok(()) => Status::Ok,
        Err(back) => {
            let Content::ByteSampler(lent) = back else {
                unreachable!()
            };
            take_back(engine, lent);
            Status::Memory
        }
    }
}

/// Hands the next sampler of what is held out, if it is an engine.
fn hand_out_of(alloc: Global, content: &mut Content, sampler: &mut Handle) -> Status
    requires empty { sampler.old.held ≡ None }
    ensures { OnEngine (Some content.old) (Some content.new) result (sampler.new.held ≡ None)
        (λ s t. HandsSampler held.Sampler s t sampler.new.held result)
        (λ s t. HandsSampler held.ByteSampler s t sampler.new.held result) }
{
    match content {
        Content::Engine(engine) => hand_out(alloc, engine, sampler),
        Content::ByteEngine(engine) => hand_out_bytes(alloc, engine, sampler),
        _ => Status::Empty,
    }
}

/// Hands the next sampler of the engine of a handle out, into an empty handle.
pub fn give_sampler(alloc: Global, engine: &mut Handle, sampler: &mut Handle) -> Status
    ensures { GivesSampler engine.old.held engine.new.held
        sampler.old.held sampler.new.held result }
{
    if let Some(held) = sampler.take(alloc) {
        sampler.put(alloc, held);
        return Status::InUse;
    }
    let Some(mut held) = engine.take(alloc) else {
        return Status::Empty;
    };
    let status = hand_out_of(alloc, held.as_mut(), sampler);
    engine.put(alloc, held);
    status
}
