//! Items go into a ring of bytes, each as a whole record or not at all.
ghost use Rattle.std.specs.Prelude.{◌≡◌, ◌+◌, ◌%◌, ◌^◌, ◌≤◌, true, false, [], ◌∷◌, ◌++◌, length};
ghost use Rattle.rtrb.specs.Ring.{SameProducer, sent, known_free, producer_capacity};
ghost use Rattle.channel_ring.specs.Names.{name_of};
ghost use Rattle.byte_ring.specs.Held.{AreRecords};
ghost use Rattle.byte_ring.specs.Reading.{items_in};
ghost use Rattle.byte_ring.specs.Records.{record_len};

use crate::byte_left::ByteLeft;
use crate::record::{MAX_RECORD, record_len, write_record, write_sample};
use channel_ring::{ItemSend, SampleMaker, SendEnd};
use rtrb::Producer;
use xcp_base::{ChannelId, Item, ListId, Packets, StopMark};

/// The send end of a ring of bytes.
#[derive(Drop)]
pub struct ByteSend {
    pub(crate) producer: Producer<u8>,
    // The record of the item that is sent stands first.
    spelled: [u8; MAX_RECORD],
    // The packets of the sample that was made last. Each is made in this place.
    packets: Packets,
    // The items sent, modulo 2^64.
    pub(crate) count: u64,
    // The bytes sent are the records of the items sent, each whole or not at all.
    ghost whole: { AreRecords (sent producer) },
    ghost counted: { count ≡ length (items_in (sent producer)) % 2 ^ 64 },
}

impl ByteSend {
    /// The send end over a producer that has sent nothing.
    pub(crate) fn new(producer: Producer<u8>) -> ByteSend
        requires { sent producer ≡ [] }
        ensures { result.producer ≡ producer }
    {
        ByteSend {
            producer,
            spelled: [0; MAX_RECORD],
            packets: Packets::new(),
            count: 0,
        }
    }

    /// Sends the record of an item, whole, or does nothing; returns which.
    fn push_item(&mut self, item: &Item) -> bool
        ensures ring { SameProducer self.old.producer self.new.producer }
        ensures succeeds { record_len item.now ≤ known_free self.old.producer → result ≡ true }

        ensures sends { result ≡ true → items_in (sent self.new.producer)
            ≡ items_in (sent self.old.producer) ++ item.now ∷ [] }
        ensures spent { result ≡ true
            → known_free self.old.producer ≤ known_free self.new.producer + record_len item.now }

        ensures sent_stays { result ≡ false
            → items_in (sent self.new.producer) ≡ items_in (sent self.old.producer) }
        ensures free_stays { result ≡ false
            → known_free self.old.producer ≤ known_free self.new.producer }
    {
        let len = write_record(&mut self.spelled, item);
        push_whole(&mut self.producer, &mut self.count, &self.spelled[..len])
    }
}

impl SendEnd for ByteSend {
    ghost use Rattle.std.proofs.Common.{arith, ◌+◌, length, refl};
    ghost use Rattle.channel_ring.specs.Making.{by_value};
    ghost use Rattle.byte_ring.specs.Enough.{records_enough};

    type End = ByteLeft;

    ghost sent = { λ s. items_in (sent s.producer) };

    // what is sent is there at once
    ghost held = { λ _. 0 };

    ghost free = { λ s. known_free s.producer };

    ghost capacity = { λ s. producer_capacity s.producer };

    ghost limit = { λ _. by_value };

    ghost ring = { λ s. name_of s.producer.end };

    // that the take end is gone is told by no ring
    ghost is_lost = { λ _. Unit {0} };

    fn offer_sample<M: SampleMaker>(
        &mut self,
        channel: ChannelId,
        list: ListId,
        number: u64,
        maker: &M,
    ) -> bool {
        maker.fill(&mut self.packets);
        let len = write_sample(&mut self.spelled, channel, list, number, &self.packets);
        push_whole(&mut self.producer, &mut self.count, &self.spelled[..len])
    }

    fn offer_marker(&mut self, marker: StopMark) -> bool {
        self.push_item(&Item::Marker(marker))
    }

    fn publish(&mut self) {}

    fn room(&mut self) -> usize {
        self.producer.slots()
    }

    fn capacity(&self) -> usize {
        self.producer.capacity()
    }

    fn finish(self) -> Option<ByteLeft> {
        let ByteSend {
            producer,
            spelled: _,
            packets: _,
            count,
        } = self;
        let finished = producer.finish()?;
        Some(ByteLeft { finished, count })
    }

    ghost enough = { λ s. records_enough (sent s.producer) s.whole (producer_capacity s.producer)
        (known_free s.producer) (Prim.omega (arith, s.producer.counts)) };

    ghost least = { λ _. record {
      count = Prim.omega arith;
      packet = Prim.omega arith;
      frames = Prim.omega arith;
    } };

    ghost nothing_held = { λ _ _. refl };
}

impl ItemSend for ByteSend {
    fn offer(&mut self, item: Item) -> Result<(), Item> {
        if self.push_item(&item) {
            Ok(())
        } else {
            Err(item)
        }
    }

    fn cost(item: &Item) -> usize {
        record_len(item)
    }
}

/// Pushes the bytes of a record, whole, and counts it, or does nothing; returns which.
fn push_whole(producer: &mut Producer<u8>, count: &mut u64, bytes: &[u8]) -> bool
    ensures ring { SameProducer producer.old producer.new }
    ensures succeeds { length bytes.now ≤ known_free producer.old → result ≡ true }

    ensures sends { result ≡ true → sent producer.new ≡ sent producer.old ++ bytes.now }
    ensures spent { result ≡ true
        → known_free producer.old ≤ known_free producer.new + length bytes.now }
    ensures counts { result ≡ true → count.new ≡ (count.old + 1) % 2 ^ 64 }

    ensures sent_stays { result ≡ false → sent producer.new ≡ sent producer.old }
    ensures free_stays { result ≡ false → known_free producer.old ≤ known_free producer.new }
    ensures count_stays { result ≡ false → count.new ≡ count.old }
{
    let Ok(()) = producer.push_entire_slice(bytes) else {
        return false;
    };
    *count = count.wrapping_add(1);
    true
}
