//! A turn of a pump at one ring.
ghost use Rattle.std.specs.Prelude.{◌≡◌, ◌<◌, ◌↔◌, [], ◌∷◌, false, IsTrue, length};
ghost use Rattle.std.specs.Prelude.{map, slice_index_or, true, vec_len};
ghost use mathlib.Core.List.{IsPrefix};
ghost use Rattle.transmitter.specs.Merge.{Takes, of_ring};
ghost use Rattle.transmitter.specs.Inner.Turns.{BeginsWithSample, HoldsFirst, TakesFirst};

use crate::place::Place;
use crate::transmitter::Transmitter;
use channel_ring::{ItemTake, TakeEnd};
use frame_writer::Out;
use xcp_base::{Item, Sample};

/// What one turn at a ring came to.
#[derive(Clone, Copy)]
pub enum Turn {
    /// No item was there.
    Nothing,
    /// A sample was written, as so many frames.
    Wrote(u8),
    /// The stop marker of this DAQ list was taken.
    Stopped(u8),
    /// The next item is a sample whose frames weren't all laid out. It is in hand if the writer
    /// failed within them; if they find no room it stays in the ring.
    Stays,
}

impl<O: Out, T: ItemTake> Transmitter<O, T> {
    ghost use Rattle.std.specs.Prelude.{◌≡◌, ◌^◌, ◌<◌, ◌≤◌, None, length, vec_len};
    ghost use Rattle.frame_writer.specs.Writing.{state_of};
    ghost use Rattle.transmitter.specs.Written.{transmission};
    ghost use Rattle.transmitter.specs.Inner.Turns.{TurnLays, TurnMeans};

    /// Takes the next item of ring `c`, if one is there. The frames of a sample go to the place; in
    /// a buffer they stand from `end` on, which is then where they end.
    pub(crate) fn turn<P: Place<O>>(&mut self, c: usize, buffer: &mut [u8], end: &mut usize) -> Turn
        requires ring { c < vec_len self.old.ends }
        requires nothing_in_hand { self.old.hand ≡ None }
        requires taken { self.old.taken < 2 ^ 63 }
        requires inside { end.old ≤ length buffer.old }
        ensures turn { TurnMeans P.may_fail
            (P.no_room buffer.old end.old (state_of O.Out self.old.writer)) c
            (transmission O.Out T.TakeEnd self.old)
            (transmission O.Out T.TakeEnd self.new) result }
        ensures lays { TurnLays (P.lays (state_of O.Out self.old.writer).out
            (state_of O.Out self.new.writer).out buffer.old buffer.new end.old end.new)
            (state_of O.Out self.old.writer).out (state_of O.Out self.new.writer).out
            buffer.old buffer.new end.old end.new result }
        ensures inside { end.new ≤ length buffer.old }
        ensures as_many { vec_len self.new.ends ≡ vec_len self.old.ends }
    {
        if !look_for(&mut self.ends, c) {
            return Turn::Nothing;
        }
        match first_of(&self.ends, c) {
            Item::Marker(marker) => {
                let list = marker.list();
                let_go(&mut self.ends, c);
                self.taken += 1;
                Turn::Stopped(list)
            }
            Item::Sample(sample) => {
                let list = sample.list() as usize;
                let packets = sample.packets();
                let frames = packets.len() as u8;
                let Some(last) = P::lay(&mut self.writer, buffer, *end, packets) else {
                    if self.writer.closed() {
                        hold(&mut self.ends, c, &mut self.hand);
                        self.taken += 1;
                    }
                    return Turn::Stays;
                };
                *end = last;
                let_go(&mut self.ends, c);
                self.taken += 1;
                self.written[list] += 1;
                Turn::Wrote(frames)
            }
        }
    }
}

/// Whether an item of ring `c` is there, which is then known, and was read.
fn look_for<T: ItemTake>(ends: &mut Vec<T>, c: usize) -> bool
    requires within { c < vec_len ends.old }
    ensures value { IsTrue result ↔ (0 < length (of_ring (map T.known ends.new.items) c)) }
    ensures reads { result ≡ true → slice_index_or (map T.ready ends.new.items) c false ≡ true }
    ensures looks { Takes (map T.received ends.old.items) (map T.received ends.new.items)
        (map T.known ends.old.items) (map T.known ends.new.items) [] }
    ensures rings_stay { map T.ring ends.new.items ≡ map T.ring ends.old.items }
    ensures as_many { vec_len ends.new ≡ vec_len ends.old }
{
    ends[c].look()
}

/// The first item of ring `c`, which was read.
fn first_of<T: ItemTake>(ends: &Vec<T>, c: usize) -> &Item
    requires within { c < vec_len ends.now }
    requires ready { slice_index_or (map T.ready ends.now.items) c false ≡ true }
    ensures { IsPrefix (result.now ∷ []) (of_ring (map T.known ends.now.items) c) }
{
    ends[c].first()
}

/// Lets the first item of ring `c` go, which is known to be there.
fn let_go<T: ItemTake>(ends: &mut Vec<T>, c: usize)
    requires within { c < vec_len ends.old }
    requires some { 0 < length (of_ring (map T.known ends.old.items) c) }
    ensures takes { TakesFirst c (map T.received ends.old.items) (map T.received ends.new.items)
        (map T.known ends.old.items) (map T.known ends.new.items) }
    ensures rings_stay { map T.ring ends.new.items ≡ map T.ring ends.old.items }
    ensures as_many { vec_len ends.new ≡ vec_len ends.old }
{
    ends[c].pass();
}

/// Takes the sample that is the first item of ring `c` into the hand.
///
/// It stands out of line, so that a turn doesn't clear the place of a sample that it seldom moves.
#[inline(never)]
fn hold<T: ItemTake>(ends: &mut Vec<T>, c: usize, hand: &mut Option<Sample>)
    requires within { c < vec_len ends.old }
    requires sample { BeginsWithSample (of_ring (map T.known ends.old.items) c) }
    ensures holds { HoldsFirst c (map T.received ends.old.items) (map T.received ends.new.items)
        (map T.known ends.old.items) (map T.known ends.new.items) hand.new }
    ensures rings_stay { map T.ring ends.new.items ≡ map T.ring ends.old.items }
    ensures as_many { vec_len ends.new ≡ vec_len ends.old }
{
    *hand = Some(take_sample(ends, c));
}

/// Takes the sample that is the first item of ring `c`.
fn take_sample<T: ItemTake>(ends: &mut Vec<T>, c: usize) -> Sample
    requires within { c < vec_len ends.old }
    requires sample { BeginsWithSample (of_ring (map T.known ends.old.items) c) }
    ensures takes { Takes (map T.received ends.old.items) (map T.received ends.new.items)
        (map T.known ends.old.items) (map T.known ends.new.items) ((c, Item.Sample result) ∷ []) }
    ensures first { IsPrefix (Item.Sample result ∷ []) (of_ring (map T.known ends.old.items) c) }
    ensures rings_stay { map T.ring ends.new.items ≡ map T.ring ends.old.items }
    ensures as_many { vec_len ends.new ≡ vec_len ends.old }
{
    match ends[c].take() {
        Some(Item::Sample(sample)) => sample,
        _ => unreachable!(),
    }
}
