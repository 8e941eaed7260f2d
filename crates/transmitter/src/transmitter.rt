//! The transmitter: it pumps items off all rings, and counts the samples written of each list.
ghost use Rattle.std.specs.Prelude.{◌≡◌, ℕ, ◌≤◌, is_some, slice_index, vec_len};
ghost use Rattle.xcp_base.specs.declared.limits.TheConstants.{RUN_CHANNELS};
ghost use Rattle.frame_writer.specs.Writing.{is_closed};

use crate::faults::PumpFault;
use crate::place::ToWriter;
use crate::pumped::Pumped;
use crate::pumped_all::NOTHING;
use crate::turn::Turn;
use channel_ring::{Beside, ItemTake, TakeEnd};
use frame_writer::{FrameWriter, Out};
use sampler::Sampler;
use xcp_base::limits::{MAX_LISTS, MAX_TAKEN};
use xcp_base::{Sample, with_list};

/// The places for counts: one for each list that there may be.
const COUNTS: usize = MAX_LISTS as usize;

/// The transmitter: it takes items from the rings of all event channels in turn, and writes the
/// samples as frames.
///
/// Contracts speak of the items that it took: a list of pairs, each the number of a ring and an
/// item.
#[derive(Drop)]
pub struct Transmitter<O, T> {
    pub(crate) writer: FrameWriter<O>,
    pub(crate) ends: Vec<T>,
    pub(crate) hand: Option<Sample>,
    pub(crate) written: [u64; COUNTS],
    pub(crate) taken: u64,
    // The ring at which `pump_all` goes on.
    pub(crate) next: usize,
    ghost few: { vec_len ends ≤ RUN_CHANNELS },
    ghost counted: { (l : ℕ) → slice_index written l ≤ taken },
    ghost held: { is_closed writer ≡ is_some hand },
}

impl<O: Out, T: ItemTake> Transmitter<O, T> {
    ghost use Rattle.std.specs.Prelude.{◌≡◌, ℕ, ◌≤◌, All, List, [], false};
    ghost use Rattle.std.specs.Prelude.{OnOk, length, map, slice_index, vec_len};
    ghost use Rattle.std.specs.Option.{option_copied};
    ghost use Rattle.xcp_base.specs.declared.item.Item.{Item};
    ghost use Rattle.frame_writer.specs.Writing.{WriterState, state_of};
    ghost use Rattle.transmitter.specs.Items.{count_of};
    ghost use Rattle.transmitter.specs.Pumps.{IsPump};
    ghost use Rattle.transmitter.specs.Written.{HasTaken, next_of, transmission, writer_of};

    /// A transmitter that writes to a frame writer, which isn't closed, what it takes from 1 to 8
    /// rings.
    ///
    /// `ends` are the take ends of event channels 0, 1, .., from which nothing was taken.
    pub fn new(writer: FrameWriter<O>, ends: Vec<T>) -> Transmitter<O, T>
        requires some { 1 ≤ vec_len ends }
        requires few { vec_len ends ≤ RUN_CHANNELS }
        requires nothing_taken { All (λ t. T.received t ≡ []) ends.items }
        requires is_open { (state_of O.Out writer).closed ≡ false }
        ensures stands { HasTaken (state_of O.Out writer) (transmission O.Out T.TakeEnd result) [] }
        ensures writer { writer_of result ≡ writer }
        ensures rings { (transmission O.Out T.TakeEnd result).rings ≡ map T.ring ends.items }
        ensures known { (transmission O.Out T.TakeEnd result).known ≡ map T.known ends.items }
        ensures next { next_of result ≡ 0 }
    {
        Transmitter {
            writer,
            ends,
            hand: None,
            written: [0; COUNTS],
            taken: 0,
            next: 0,
        }
    }

    /// Takes at most one item of each ring, in rising number of the event channel, and writes each
    /// sample's packets as frames.
    ///
    /// Refused with `Closed` where the writer failed earlier, with `Spent` once `MAX_TAKEN` items
    /// were taken; then nothing is taken. `Failed` where the writer fails now: the items before are
    /// taken and written, the sample whose frames weren't all written stays in hand, and nothing is
    /// taken from then on.
    pub fn pump(&mut self) -> Result<Pumped, PumpFault>
        ensures pumps { IsPump (transmission O.Out T.TakeEnd self.old)
            (transmission O.Out T.TakeEnd self.new) result }
        ensures next { OnOk result (next_of self.new ≡ 0) }
    {
        if self.writer.closed() {
            return Err(PumpFault::Closed);
        }
        if self.taken >= MAX_TAKEN {
            return Err(PumpFault::Spent);
        }
        let mut pumped = NOTHING;
        for c in 0..self.ends.len() {
            // none of the frames go into a buffer
            match self.turn::<ToWriter>(c, &mut [], &mut 0) {
                Turn::Nothing => {}
                Turn::Wrote(frames) => {
                    pumped.taken += 1;
                    pumped.frames += frames as u64;
                }
                Turn::Stopped(list) => {
                    pumped.taken += 1;
                    pumped.stopped = with_list(pumped.stopped, list);
                }
                Turn::Stays => return Err(PumpFault::Failed),
            }
        }
        self.next = 0;
        Ok(pumped.as_one())
    }

    /// The number of rings, and so of event channels.
    pub fn rings(&self) -> usize
        ensures value { result ≡ length (transmission O.Out T.TakeEnd self.now).rings }
        ensures limit { result ≤ RUN_CHANNELS }
    {
        self.ends.len()
    }

    /// How many samples of a DAQ list were written whole; 0 for a list that never came.
    pub fn written(&self, l: u8) -> u64
        ensures value { result ≡ slice_index (transmission O.Out T.TakeEnd self.now).written l }
        ensures after { (start : WriterState) (ps : List (ℕ × Item)) →
            (taken : HasTaken start (transmission O.Out T.TakeEnd self.now) ps) →
            result ≡ count_of l taken.whole }
    {
        self.written.get(l as usize).copied().unwrap_or(0)
    }

    /// The sample whose frames weren't all written.
    pub fn hand(&self) -> Option<&Sample>
        ensures { option_copied result ≡ (transmission O.Out T.TakeEnd self.now).hand }
    {
        self.hand.as_ref()
    }

    /// The frame writer, as it stands.
    pub fn into_writer(self) -> FrameWriter<O>
        ensures { result ≡ writer_of self }
    {
        self.writer
    }
}

impl<O: Out, T: Beside> Transmitter<O, T> {
    ghost use Rattle.std.specs.Prelude.{◌≡◌, ◌+◌, ◌≤◌, ◌++◌, Some, length, slice_get};
    ghost use Rattle.channel_ring.specs.Room.{units};
    ghost use Rattle.sampler.specs.Stays.{OnlyLooked};
    ghost use Rattle.transmitter.specs.Looks.{LookedAt};
    ghost use Rattle.transmitter.specs.Merge.{of_ring};
    ghost use Rattle.transmitter.specs.Written.{next_of, transmission, writer_of};

    /// Looks at all that a sampler sent, beside it in one thread, and returns how many of its items
    /// are left in the ring.
    ///
    /// The sampler is that of the ring of its event channel. From then on each item left is known,
    /// and the sampler knows each unit to be free that none of them takes up.
    pub fn beside(&mut self, sampler: &mut Sampler<T::Send>) -> usize
        requires one_ring { slice_get
            (transmission O.Out T.TakeEnd self.old).rings sampler.old.channel
            ≡ Some (T.Send.ring sampler.old.end) }
        ensures count { result
            ≡ length (of_ring (transmission O.Out T.TakeEnd self.new).known sampler.old.channel) }
        ensures left { of_ring (transmission O.Out T.TakeEnd self.new).received sampler.old.channel
            ++ of_ring (transmission O.Out T.TakeEnd self.new).known sampler.old.channel
            ≡ T.Send.sent sampler.new.end }
        ensures roomy { T.Send.capacity sampler.new.end ≤ T.Send.free sampler.new.end
            + units T.Send.End.cost
            (of_ring (transmission O.Out T.TakeEnd self.new).known sampler.old.channel) }

        ensures looked { LookedAt sampler.old.channel (transmission O.Out T.TakeEnd self.old)
            (transmission O.Out T.TakeEnd self.new) }
        ensures writer_stays { writer_of self.new ≡ writer_of self.old }
        ensures next_stays { next_of self.new ≡ next_of self.old }
        ensures sampler_looked { OnlyLooked T.Send.SendEnd T.Send.End.RingEnd
            sampler.old sampler.new }
    {
        let c = sampler.channel() as usize;
        let take = &mut self.ends[c];
        sampler.beside(take)
    }
}
