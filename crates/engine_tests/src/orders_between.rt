//! Orders through a control ring, from another thread than the sampler's.
ghost use Rattle.std.specs.Prelude.{◌≡◌, [], ◌∷◌, IfSome, Some};
ghost use Rattle.transmitter.specs.Written.{transmission};

use crate::same::same;
use crate::stores::one_list;
use crate::wrong_ends::closed;
use byte_ring::ByteRing;
use channel_ring::{
    ControlEnded, ControlRing, ControlSend, ControlTake, ItemTake, Order, RingEnd, SampleRing,
    SendEnd, TakeEnd,
};
use daq_engine::{Report, Ring, close, open_over};
use frame_writer::{FrameWriter, Out, VecOut};
use sampler::{Polled, Sampler, SamplerEnd};
use std::alloc::Global;
use std::process::Abort;
use std::thread::{self, Threads};
use transmitter::Transmitter;

/// How often the master tries to send an order.
const TRIES: usize = 50;

/// What comes back of a sampler's thread: what is left of the sampler, its end of the control ring,
/// and the orders that it answered.
type Sampled<E> = (Option<SamplerEnd<E>>, ControlTake, Vec<Order>);

/// What comes back of a master's: what is left of its end of the control ring, the transmitter, and
/// the orders that it sent.
type Ordered<T> = (
    Option<ControlEnded>,
    Transmitter<VecOut<Global>, T>,
    Vec<Order>,
);

/// The order that a look at the control ring took off.
fn answered(polled: Polled) -> Option<Order> {
    match polled {
        Polled::Done(order) => Some(order),
        Polled::Refused(order) => Some(order),
        Polled::Nothing => None,
        Polled::Waiting(_) => None,
    }
}

/// A thousand triggers with a look at the control ring behind each; then the sampler is finished.
/// Appends the orders that were answered.
fn sample_all<S: SendEnd>(
    sampler: Sampler<S>,
    ctl: ControlTake,
    orders: Vec<Order>,
) -> Sampled<S::End>
    ensures end { IfSome result.0 (λ end. S.End.ring end.end ≡ S.ring sampler.end) }
    ensures control { result.1.ring ≡ ctl.ring }
{
    let mut sampler = sampler;
    let mut ctl = ctl;
    let mut orders = orders;
    for number in 0..1000u16 {
        let _ = sampler.trigger(&number.to_le_bytes(), 0);
        if let Some(order) = answered(sampler.poll_control(&mut ctl)) {
            let _ = orders.push(order);
        }
    }
    (sampler.finish(), ctl, orders)
}

/// The order that is sent behind so many: a stop and a start of list 0 in turn.
fn next_order(sent: usize) -> Order {
    if sent % 2 == 0 {
        Order::Stop(0)
    } else {
        Order::Start(0)
    }
}

/// Tries to send the next order, and pumps behind each try. Appends the orders that were sent.
fn order_all<T: ItemTake>(
    send: ControlSend,
    transmitter: Transmitter<VecOut<Global>, T>,
    orders: Vec<Order>,
) -> Ordered<T>
    ensures control { IfSome result.0 (λ end. end.ring ≡ send.ring) }
    ensures rings { (transmission ⟦<VecOut<Global> as Out>⟧ T.TakeEnd result.1).rings
        ≡ (transmission ⟦<VecOut<Global> as Out>⟧ T.TakeEnd transmitter).rings }
{
    let mut send = send;
    let mut transmitter = transmitter;
    let mut orders = orders;
    for _ in 0..TRIES {
        let order = next_order(orders.len());
        if send.send(order).is_ok() {
            let _ = orders.push(order);
        }
        let _ = transmitter.pump();
    }
    (send.finish(), transmitter, orders)
}

/// Runs a sampler in a thread of its own, and a master's orders beside it.
fn sample_beside<R: Threads, S: SendEnd + Send, T: ItemTake + Send>(
    rt: &R,
    sampling: (Sampler<S>, ControlTake, Vec<Order>),
    ordering: (ControlSend, Transmitter<VecOut<Global>, T>, Vec<Order>),
) -> (Sampled<S::End>, Ordered<T>)
where
    S::End: Send,
    ensures end { IfSome result.0.0 (λ end. S.End.ring end.end ≡ S.ring sampling.0.end) }
    ensures take { result.0.1.ring ≡ sampling.1.ring }
    ensures ended { IfSome result.1.0 (λ end. end.ring ≡ ordering.0.ring) }
    ensures rings { (transmission ⟦<VecOut<Global> as Out>⟧ T.TakeEnd result.1.1).rings
        ≡ (transmission ⟦<VecOut<Global> as Out>⟧ T.TakeEnd ordering.1).rings }
{
    let (sampler, take, answered) = sampling;
    let (send, transmitter, sent) = ordering;
    thread::join(
        rt,
        || sample_all(sampler, take, answered),
        || order_all(send, transmitter, sent),
    )
}

/// Drains the ring of one sampler, and closes its engine.
fn close_one<T: ItemTake>(
    rt: &impl Abort,
    alloc: Global,
    transmitter: Transmitter<VecOut<Global>, T>,
    end: SamplerEnd<T::End>,
) -> Report
    requires rings { (transmission ⟦<VecOut<Global> as Out>⟧ T.TakeEnd transmitter).rings
        ≡ T.End.ring end.end ∷ [] }
{
    let mut transmitter = transmitter;
    let mut ends = Vec::new(alloc);
    ends.push(end).expect(rt, "memory");
    let drained = transmitter.drain(ends.as_mut_slice());
    drained.expect(rt, "a drained ring");
    let (report, _out) = closed(rt, close(alloc, transmitter, ends));
    report
}

/// The orders that were answered, and behind them those that are left.
fn with_left(ctl: ControlTake, end: ControlEnded, answered: Vec<Order>) -> Vec<Order>
    requires one_ring { end.ring ≡ ctl.ring }
{
    let mut ctl = ctl;
    let mut end = end;
    let mut orders = answered;
    let left = ctl.after(&mut end);
    for _ in 0..left {
        if let Some(order) = ctl.take() {
            let _ = orders.push(order);
        }
    }
    orders
}

/// Drains and closes, and compares the account with itself.
fn account_adds_up<T: ItemTake>(
    rt: &impl Abort,
    alloc: Global,
    transmitter: Transmitter<VecOut<Global>, T>,
    end: SamplerEnd<T::End>,
    row: &str,
)
    requires rings { (transmission ⟦<VecOut<Global> as Out>⟧ T.TakeEnd transmitter).rings
        ≡ T.End.ring end.end ∷ [] }
{
    let report = close_one(rt, alloc, transmitter, end);
    let line = report.lists.first().copied().expect(rt, "a line");
    let all = line.written.saturating_add(line.dropped);
    same(rt, (all, line.left), (line.due, 0), row, "the account");
}

/// Compares the orders that were answered and left with those that were sent. The first order is
/// sent before the sampler's first look, so some are answered, however the threads run.
fn orders_are(
    rt: &impl Abort,
    answering: (ControlTake, Vec<Order>),
    ended: ControlEnded,
    sent: &[Order],
    row: &str,
)
    requires one_ring { ended.ring ≡ answering.0.ring }
{
    let (take, answered) = answering;
    let is_empty = answered.is_empty();
    same(rt, is_empty, false, row, "whether none is answered");
    let orders = with_left(take, ended, answered);
    same(rt, orders.as_slice(), sent, row, "the orders");
}

/// Compares the orders, then drains and closes, and compares the account with itself.
fn settle<T: ItemTake>(
    rt: &impl Abort,
    alloc: Global,
    sampled: (SamplerEnd<T::End>, ControlTake, Vec<Order>),
    ordered: (ControlEnded, Transmitter<VecOut<Global>, T>, Vec<Order>),
    row: &str,
)
    requires one_ring { ordered.0.ring ≡ sampled.1.ring }
    requires rings { (transmission ⟦<VecOut<Global> as Out>⟧ T.TakeEnd ordered.1).rings
        ≡ T.End.ring sampled.0.end ∷ [] }
{
    let (end, take, answered) = sampled;
    let (ended, transmitter, sent) = ordered;
    orders_are(rt, (take, answered), ended, sent.as_slice(), row);
    account_adds_up(rt, alloc, transmitter, end, row);
}

/// The orders that were sent and those that were answered: the first one and none, each with room
/// for all that follow.
fn rooms(rt: &impl Abort, alloc: Global, first: Order) -> (Vec<Order>, Vec<Order>) {
    let answered = Vec::with_capacity(alloc, TRIES).expect(rt, "memory");
    let mut sent = Vec::with_capacity(alloc, TRIES).expect(rt, "memory");
    sent.push(first).expect(rt, "memory");
    (sent, answered)
}

/// A control ring of four places in which a stop waits: its send end with the orders that were
/// sent, and its take end with those that were answered.
fn first_order(
    rt: &impl Abort,
    alloc: Global,
    row: &str,
) -> ((ControlSend, Vec<Order>), (ControlTake, Vec<Order>))
    ensures { result.0.0.ring ≡ result.1.0.ring }
{
    let stop = Order::Stop(0);
    let (sent, answered) = rooms(rt, alloc, stop);
    let (mut send, take) = ControlRing::new(alloc, 4).expect(rt, "a ring");
    same(rt, send.send(stop), Ok(()), row, "the first order");
    ((send, sent), (take, answered))
}

/// What came back of a sampler's thread, if the sampler is finished.
fn finished<E: RingEnd>(
    rt: &impl Abort,
    sampled: Sampled<E>,
) -> (SamplerEnd<E>, ControlTake, Vec<Order>)
    ensures end { sampled.0 ≡ Some result.0 }
    ensures take { result.1 ≡ sampled.1 }
{
    let (end, take, answered) = sampled;
    (end.expect(rt, "a finished sampler"), take, answered)
}

/// What came back of a master's, if its end of the control ring is finished.
fn ended<T: ItemTake>(
    rt: &impl Abort,
    ordered: Ordered<T>,
) -> (ControlEnded, Transmitter<VecOut<Global>, T>, Vec<Order>)
    ensures end { ordered.0 ≡ Some result.0 }
    ensures transmitter { result.1 ≡ ordered.1 }
{
    let (end, transmitter, sent) = ordered;
    (end.expect(rt, "a finished end"), transmitter, sent)
}

/// Runs a sampler in a thread of its own, and a master's orders beside it, through a control ring
/// of four places, in which a stop waits before the threads start.
fn orders_come_through<R, S, T>(
    rt: &R,
    alloc: Global,
    sampler: Sampler<S>,
    transmitter: Transmitter<VecOut<Global>, T>,
    row: &str,
)
where
    R: Threads + Abort,
    S: SendEnd + Send,
    T: ItemTake<End = S::End> + Send,
    S::End: Send,
    requires rings { (transmission ⟦<VecOut<Global> as Out>⟧ T.TakeEnd transmitter).rings
        ≡ S.ring sampler.end ∷ [] }
{
    let ((send, sent), (take, answered)) = first_order(rt, alloc, row);
    let sampling = (sampler, take, answered);
    let ordering = (send, transmitter, sent);
    let (sampled, ordered) = sample_beside(rt, sampling, ordering);
    settle(rt, alloc, finished(rt, sampled), ended(rt, ordered), row);
}

/// The sampler of a store of one event channel, and the transmitter of its ring, which has `cap`
/// units.
fn one_of<K: Ring>(
    rt: &impl Abort,
    alloc: Global,
    cap: usize,
) -> (Sampler<K::Send>, Transmitter<VecOut<Global>, K::Take>)
    ensures rings { (transmission ⟦<VecOut<Global> as Out>⟧ K.Take.TakeEnd result.1).rings
        ≡ K.Send.ring result.0.end ∷ [] }
{
    let store = one_list(rt, alloc);
    let writer = FrameWriter::new(VecOut::new(alloc));
    let opened = open_over::<K, VecOut<Global>>(alloc, &store, &[cap], writer);
    let Ok((mut samplers, transmitter)) = opened else {
        panic!(rt; "not opened");
    };
    if samplers.len() != 1 {
        panic!(rt; "other than one sampler");
    }
    let sampler = samplers.pop().expect(rt, "a sampler");
    (sampler, transmitter)
}

#[test]
fn the_orders_of_a_master_come_through(rt: HostRuntime) {
    let (sampler, transmitter) = one_of::<SampleRing>(&rt, rt.alloc(), 4);
    orders_come_through(&rt, rt.alloc(), sampler, transmitter, "4 places");
    let (sampler, transmitter) = one_of::<ByteRing>(&rt, rt.alloc(), 532);
    orders_come_through(&rt, rt.alloc(), sampler, transmitter, "532 bytes");
}
