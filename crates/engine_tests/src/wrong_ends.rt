//! Ends that aren't those of an engine come back, and those that are close it.
ghost use Rattle.std.specs.Prelude.{◌≡◌, Err, map, true};
ghost use Rattle.transmitter.specs.Looks.{AreOfRings};
ghost use Rattle.transmitter.specs.Written.{transmission};
ghost use Rattle.daq_engine.specs.Configuration.{upto};

use crate::same::same;
use crate::stores::two_lists;
use byte_ring::ByteRing;
use channel_ring::{Beside, ItemTake, RingEnd, SampleRing, SendEnd, TakeEnd};
use daq_engine::{CloseFault, Engine, ListReport, Report, Ring, close, engine_over, finish_all};
use frame_writer::{FrameWriter, Out, VecOut};
use sampler::SamplerEnd;
use std::alloc::Global;
use std::process::Abort;
use transmitter::Transmitter;

/// A transmitter that writes into memory.
type Writing<T> = Transmitter<VecOut<Global>, T>;

/// The event channels of ends, or `NONE` where there are fewer than three.
type Channels = [u8; 3];

const NONE: u8 = 0xFF;

/// The frames of the first trigger of each event channel.
const TWO_FRAMES: [u8; 14] = [3, 0, 0, 0, 0, 7, 8, 3, 0, 1, 0, 1, 9, 10];

/// An engine of two event channels, whose rings have `cap` units each.
fn opened<K: Ring>(rt: &impl Abort, alloc: Global, cap: usize) -> Engine<VecOut<Global>, K::Take> {
    let store = two_lists(rt, alloc);
    let writer = FrameWriter::new(VecOut::new(alloc));
    let caps = [cap, cap];
    let Ok(engine) = engine_over::<K, VecOut<Global>>(alloc, &store, &caps, writer) else {
        panic!(rt; "an engine that isn't opened");
    };
    engine
}

/// Such an engine, each event channel of which was triggered and pumped; then the first was
/// triggered once more.
fn triggered<K: Ring>(
    rt: &impl Abort,
    alloc: Global,
    cap: usize,
) -> Engine<VecOut<Global>, K::Take> {
    let mut engine = opened::<K>(rt, alloc, cap);
    trigger_and_pump(rt, &mut engine);
    engine
}

fn trigger_and_pump<T: Beside + ItemTake>(rt: &impl Abort, engine: &mut Engine<VecOut<Global>, T>)
where
    T::Send: SendEnd<End = T::End>,
{
    let first = engine.trigger(0, &[7, 8], 0);
    first.expect(rt, "the first trigger");
    let second = engine.trigger(1, &[9, 10], 0);
    second.expect(rt, "the second trigger");
    engine.pump().expect(rt, "a pump");
    let third = engine.trigger(0, &[11, 12], 1);
    third.expect(rt, "the third trigger");
}

/// What is left of the samplers of an engine, and the transmitter of their rings.
fn finished<T: Beside + ItemTake>(
    rt: &impl Abort,
    alloc: Global,
    engine: Engine<VecOut<Global>, T>,
) -> (Vec<SamplerEnd<T::End>>, Writing<T>)
where
    T::Send: SendEnd<End = T::End>,
    ensures rings { AreOfRings T.End.RingEnd
        (transmission ⟦<VecOut<Global> as Out>⟧ T.TakeEnd result.1) result.0.items }
{
    let (samplers, transmitter) = engine.into_parts();
    let room = Vec::with_capacity(alloc, samplers.len()).expect(rt, "memory");
    let Some(ends) = finish_all(samplers, room) else {
        panic!(rt; "a sampler that isn't finished");
    };
    (ends, transmitter)
}

/// The event channels of at most three ends.
fn channels_of<E>(ends: &[SamplerEnd<E>]) -> Channels {
    let mut channels = [NONE; 3];
    for (place, end) in ends.iter().enumerate() {
        if place < 3 {
            channels[place] = end.channel();
        }
    }
    channels
}

/// Whether ends may be one of each of so many rings: they are as many, and the first is of event
/// channel 0.
fn may_fit<E>(ends: &[SamplerEnd<E>], rings: usize) -> bool
    ensures { map (λ e. e.channel) ends.now ≡ upto 0 rings → result ≡ true }
{
    if ends.len() != rings {
        return false;
    }
    if ends.is_empty() {
        return true;
    }
    ends[0].channel() == 0
}

/// What a close answers that isn't refused.
pub fn closed<R, T: Drop, E: Drop>(rt: &impl Abort, answer: Result<R, (CloseFault, T, E)>) -> R {
    match answer {
        Ok(closed) => closed,
        Err((fault, _, _)) => panic!(rt; "{fault}"),
    }
}

/// What a close answers that is refused: the fault, and what comes back.
fn refusal<R: Drop, B>(rt: &impl Abort, answer: Result<R, B>) -> B
    ensures { answer ≡ Err result }
{
    match answer {
        Ok(_) => panic!(rt; "closed"),
        Err(back) => back,
    }
}

/// Hands ends to `close` that don't fit: compares the fault and the ends that come back.
fn refused<T: ItemTake>(
    rt: &impl Abort,
    alloc: Global,
    transmitter: Writing<T>,
    ends: Vec<SamplerEnd<T::End>>,
    row: &str,
) -> (Writing<T>, Vec<SamplerEnd<T::End>>)
    ensures back { (result.0 ≡ transmitter) × (result.1 ≡ ends) }
{
    let before = channels_of(ends.as_slice());
    if may_fit(ends.as_slice(), transmitter.rings()) {
        panic!(rt; "ends that may fit");
    }
    let (fault, transmitter, ends) = refusal(rt, close(alloc, transmitter, ends));
    let shown = (fault, channels_of(ends.as_slice()));
    let wanted = (CloseFault::WrongEnds, before);
    same(rt, shown, wanted, row, "fault, ends");
    (transmitter, ends)
}

/// Compares the account of an engine of which a sample of each event channel was written, and one
/// of the first is left.
fn has_account(rt: &impl Abort, report: &Report, row: &str) {
    let line = |list, due, left| ListReport {
        list,
        due,
        written: 1,
        dropped: 0,
        left,
    };
    let lines = report.lists.as_slice();
    same(rt, lines, &[line(0, 2, 1), line(1, 1, 0)], row, "account");
    same(rt, report.failed, false, row, "whether the writer failed");
}

/// Closes an engine with its own ends: compares its account and its bytes.
fn closes<T: ItemTake>(
    rt: &impl Abort,
    alloc: Global,
    transmitter: Writing<T>,
    ends: Vec<SamplerEnd<T::End>>,
    row: &str,
)
    requires rings { AreOfRings T.End.RingEnd
        (transmission ⟦<VecOut<Global> as Out>⟧ T.TakeEnd transmitter) ends.items }
{
    let (report, out) = closed(rt, close(alloc, transmitter, ends));
    has_account(rt, &report, row);
    same(rt, out.bytes(), &TWO_FRAMES, row, "bytes");
}

/// Hands `close` no end, and the first of two; the two come back.
fn refuses_few<T: ItemTake>(
    rt: &impl Abort,
    alloc: Global,
    transmitter: Writing<T>,
    ends: Vec<SamplerEnd<T::End>>,
    row: &str,
) -> (Writing<T>, Vec<SamplerEnd<T::End>>)
    ensures back { result.0 ≡ transmitter }
{
    let (transmitter, _) = refused(rt, alloc, transmitter, Vec::new(alloc), row);
    let mut ends = ends;
    let second = ends.pop().expect(rt, "an end");
    let (transmitter, mut ends) = refused(rt, alloc, transmitter, ends, row);
    ends.push(second).expect(rt, "memory");
    (transmitter, ends)
}

/// Hands `close` two ends and one more; the three come back.
fn refuses_three<T: ItemTake>(
    rt: &impl Abort,
    alloc: Global,
    transmitter: Writing<T>,
    ends: Vec<SamplerEnd<T::End>>,
    third: SamplerEnd<T::End>,
    row: &str,
) -> (Writing<T>, Vec<SamplerEnd<T::End>>)
    ensures back { result.0 ≡ transmitter }
{
    let mut ends = ends;
    ends.push(third).expect(rt, "memory");
    refused(rt, alloc, transmitter, ends, row)
}

/// Hands `close` the first two of three ends in falling order, and two of one event channel.
fn refuses_order<T: ItemTake>(
    rt: &impl Abort,
    alloc: Global,
    transmitter: Writing<T>,
    ends: Vec<SamplerEnd<T::End>>,
    row: &str,
) -> Writing<T>
    ensures back { result ≡ transmitter }
{
    let mut ends = ends;
    let third = ends.pop().expect(rt, "an end");
    ends.as_mut_slice().reverse();
    let (transmitter, mut ends) = refused(rt, alloc, transmitter, ends, row);
    let _ = ends.pop();
    ends.push(third).expect(rt, "memory");
    let (transmitter, _) = refused(rt, alloc, transmitter, ends, row);
    transmitter
}

/// Hands an engine's `close` no end, one, three, two in falling order and two of one event channel,
/// all of other engines.
fn refuses_others<T: ItemTake>(
    rt: &impl Abort,
    alloc: Global,
    transmitter: Writing<T>,
    ends: Vec<SamplerEnd<T::End>>,
    third: SamplerEnd<T::End>,
    row: &str,
) -> Writing<T>
    ensures back { result ≡ transmitter }
{
    let (transmitter, ends) = refuses_few(rt, alloc, transmitter, ends, row);
    let (transmitter, ends) = refuses_three(rt, alloc, transmitter, ends, third, row);
    refuses_order(rt, alloc, transmitter, ends, row)
}

/// What is left of the samplers of another engine.
fn other_ends<K: Ring>(
    rt: &impl Abort,
    alloc: Global,
    cap: usize,
) -> Vec<SamplerEnd<<K::Take as TakeEnd>::End>> {
    let engine = triggered::<K>(rt, alloc, cap);
    let (ends, _) = finished(rt, alloc, engine);
    ends
}

/// Hands an engine's `close` ends of other engines.
fn refuses_other_ends<K: Ring>(
    rt: &impl Abort,
    alloc: Global,
    cap: usize,
    transmitter: Writing<K::Take>,
    row: &str,
) -> Writing<K::Take>
    ensures back { result ≡ transmitter }
{
    let third = other_ends::<K>(rt, alloc, cap).pop();
    let third = third.expect(rt, "an end");
    let ends = other_ends::<K>(rt, alloc, cap);
    refuses_others(rt, alloc, transmitter, ends, third, row)
}

/// Hands an engine's `close` ends of other engines, then its own.
fn closes_with_its_own<K: Ring>(rt: &impl Abort, alloc: Global, cap: usize, row: &str) {
    let engine = triggered::<K>(rt, alloc, cap);
    let (own, transmitter) = finished(rt, alloc, engine);
    let transmitter = refuses_other_ends::<K>(rt, alloc, cap, transmitter, row);
    closes(rt, alloc, transmitter, own, row);
}

#[test]
fn ends_of_another_engine_come_back(rt: HostRuntime) {
    closes_with_its_own::<SampleRing>(&rt, rt.alloc(), 8, "a ring of samples");
    closes_with_its_own::<ByteRing>(&rt, rt.alloc(), 532, "a ring of bytes");
}
