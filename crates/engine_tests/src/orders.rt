//! Orders through a control ring, and a stop that waits for room.
ghost use Rattle.std.specs.Prelude.{◌≡◌};

use crate::same::same;
use crate::stores::one_list;
use channel_ring::{ControlRing, ControlSend, ControlTake, Order, SendHalf, TakeHalf};
use daq_engine::open;
use frame_writer::{FrameWriter, VecOut};
use sampler::{Polled, Sampler};
use std::alloc::Global;
use std::process::Abort;
use transmitter::Transmitter;

/// A stop of the list that runs.
const STOP: Order = Order::Stop(0);

/// A start of a list that isn't there.
const START: Order = Order::Start(9);

/// The sampler of a list that runs, whose ring has one place, and its transmitter.
fn sampler_of(
    rt: &impl Abort,
    alloc: Global,
) -> (Sampler<SendHalf>, Transmitter<VecOut<Global>, TakeHalf>) {
    let store = one_list(rt, alloc);
    let writer = FrameWriter::new(VecOut::new(alloc));
    let Ok((mut samplers, transmitter)) = open(alloc, &store, &[1], writer) else {
        panic!(rt; "not opened");
    };
    let sampler = samplers.pop().expect(rt, "a sampler");
    (sampler, transmitter)
}

/// A stop that finds no room in a full ring waits, and an order behind it finds no place.
fn a_stop_waits(
    rt: &impl Abort,
    sampler: &mut Sampler<SendHalf>,
    send: &mut ControlSend,
    take: &mut ControlTake,
)
    ensures send_stays { send.new.ring ≡ send.old.ring }
    ensures take_stays { take.new.ring ≡ take.old.ring }
{
    let _ = sampler.trigger(&[1, 1], 0);
    let sent = (send.send(STOP), send.send(START));
    let polled = (sampler.poll_control(take), sampler.running());
    let wanted = ((Ok(()), Err(START)), (Polled::Waiting(STOP), 1));
    same(rt, (sent, polled), wanted, "full rings", "orders, answer");
}

/// Behind a pump the stop is carried out, and the order behind it finds a place and is refused.
fn a_stop_goes_on(
    rt: &impl Abort,
    sampler: &mut Sampler<SendHalf>,
    send: &mut ControlSend,
    take: &mut ControlTake,
)
    ensures send_stays { send.new.ring ≡ send.old.ring }
    ensures take_stays { take.new.ring ≡ take.old.ring }
{
    let polled = (sampler.poll_control(take), sampler.running());
    let sent = send.send(START);
    let behind = (sampler.poll_control(take), sampler.poll_control(take));
    let wanted = (Polled::Refused(START), Polled::Nothing);
    let wanted = ((Polled::Done(STOP), 0), Ok(()), wanted);
    same(
        rt,
        (polled, sent, behind),
        wanted,
        "freed places",
        "answers",
    );
}

/// An order that was sent before the send end is finished is left to the take end.
fn an_order_is_left(rt: &impl Abort, send: ControlSend, take: &mut ControlTake)
    requires one_ring { send.ring ≡ take.old.ring }
{
    let mut send = send;
    let left = send.send(STOP);
    let mut ended = send.finish().expect(rt, "a finished end");
    let shown = (left, take.after(&mut ended), take.front());
    same(
        rt,
        shown,
        (Ok(()), 1, Some(STOP)),
        "at the end",
        "what is left",
    );
}

/// Sends a stop of the list and a start of none through a control ring of one place.
fn orders_wait_for_room(
    rt: &impl Abort,
    alloc: Global,
    sampler: &mut Sampler<SendHalf>,
    transmitter: &mut Transmitter<VecOut<Global>, TakeHalf>,
) {
    let (mut send, mut take) = ControlRing::new(alloc, 1).expect(rt, "a ring");
    a_stop_waits(rt, sampler, &mut send, &mut take);
    let _ = transmitter.pump();
    a_stop_goes_on(rt, sampler, &mut send, &mut take);
    an_order_is_left(rt, send, &mut take);
}

#[test]
fn a_stop_waits_for_room_and_an_order_behind_it_for_a_place(rt: HostRuntime) {
    let (mut sampler, mut transmitter) = sampler_of(&rt, rt.alloc());
    orders_wait_for_room(&rt, rt.alloc(), &mut sampler, &mut transmitter);
}
