//! A value gets a way back of its own before it goes to another thread.
ghost use Rattle.std.specs.Prelude.{◌≡◌, [], ◌<◌, IfErr, IfOk};
ghost use Rattle.rtrb.specs.Ring.{IsPair, known_free, received, sent};

use crate::coming_back::ComingBack;
use crate::returns::{Return, Returns};
use crate::rule::Rule;
use crate::way_back::WayBack;
use rtrb::{Consumer, Producer, RingBuffer};
use std::alloc::Global;
use std::snapshot::Snapshot;

/// A value that is to go, with both ends of its way back; or the value itself, if there is no
/// memory.
pub fn hand_over<T: Drop, L: Drop, R: Rule<T, L>>(
    alloc: Global,
    value: T,
) -> Result<(T, WayBack<T, L, R>, ComingBack<T, L, R>), T>
    ensures value { IfOk result (λ gone. gone.0 ≡ value) }
    ensures way { IfOk result (λ gone. gone.1 ≡ value) }
    ensures coming { IfOk result (λ gone. gone.2 ≡ value) }
    ensures back { IfErr result (λ back. back ≡ value) }
{
    match RingBuffer::with_protocol::<Global, Returns<R>>(alloc, 1) {
        Ok((producer, consumer)) => Ok(over(producer, consumer, value)),
        Err(_) => Err(value),
    }
}

/// A value with both ends of this way back, on which nothing went yet.
fn over<T: Drop, L: Drop, R: Rule<T, L>>(
    mut producer: Producer<Return<T, L>, Global, Returns<R>>,
    mut consumer: Consumer<Return<T, L>, Global, Returns<R>>,
    value: T,
) -> (T, WayBack<T, L, R>, ComingBack<T, L, R>)
    requires pair { IsPair producer consumer }
    requires room { 0 < known_free producer }
    requires nothing_sent { sent producer ≡ [] }
    requires nothing_received { received consumer ≡ [] }
    ensures value { result.0 ≡ value }
    ensures way { result.1 ≡ value }
    ensures coming { result.2 ≡ value }
{
    let went = Snapshot::of(&value);
    let kept = Snapshot::of(&value);
    // for the proof: pushed and popped at once, so that both ends of the way know the value
    producer.push_reserved(Return::Went(value));
    let _ = consumer.slots_beside(&mut producer);
    let Return::Went(value) = consumer.pop_known() else {
        unreachable!()
    };
    // for the proof: the place on the way is known to be free again
    let _ = producer.slots_beside(&mut consumer);
    let way = WayBack { producer, went };
    let coming = ComingBack {
        consumer,
        went: kept,
    };
    (value, way, coming)
}
