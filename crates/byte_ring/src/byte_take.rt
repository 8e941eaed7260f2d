//! Items come out of a ring of bytes, each once its record is read.
ghost use Rattle.std.specs.Prelude.{◌≡◌, ◌%◌, ◌^◌, [], length};
ghost use Rattle.rtrb.specs.Ring.{received};
ghost use Rattle.channel_ring.specs.Names.{name_of};
ghost use Rattle.byte_ring.specs.Fronts.{IsReady, known_of, part};
ghost use Rattle.byte_ring.specs.Held.{IsHeld};
ghost use Rattle.byte_ring.specs.Reading.{items_in};

use crate::byte_left::ByteLeft;
use crate::byte_send::ByteSend;
use crate::first_record::{nothing, read, take_out};
use crate::front::Front;
use crate::popping::let_go;
use channel_ring::{Beside, ItemTake, TakeEnd};
use rtrb::Consumer;
use xcp_base::Item;

/// The take end of a ring of bytes.
#[derive(Drop)]
pub struct ByteTake {
    consumer: Consumer<u8>,
    // The part that was popped of the record that stands first.
    front: Front,
    // The items received, modulo 2^64.
    count: u64,
    // The bytes popped are the records of the items received, and then what is held.
    ghost held: { IsHeld (received consumer) (part front) },
    ghost ready: { IsReady consumer front },
    ghost counted: { count ≡ length (items_in (received consumer)) % 2 ^ 64 },
}

impl ByteTake {
    /// The take end over a consumer that has popped nothing, and knows nothing.
    pub(crate) fn new(consumer: Consumer<u8>) -> ByteTake
        requires popped { received consumer ≡ [] }
        ensures ring { result.consumer ≡ consumer }
        ensures front { part result.front ≡ [] }
        ensures ahead { result.front.ahead ≡ 0 }
    {
        ByteTake {
            consumer,
            front: nothing(),
            count: 0,
        }
    }
}

impl TakeEnd for ByteTake {
    type End = ByteLeft;

    ghost received = { λ t. items_in (received t.consumer) };

    ghost known = { λ t. known_of t.consumer t.front };

    ghost ring = { λ t. name_of t.consumer.end };

    fn after(&mut self, end: &mut ByteLeft) -> usize {
        self.front.ahead = self.consumer.slots_after(&mut end.finished);
        end.count.wrapping_sub(self.count) as usize
    }
}

impl ItemTake for ByteTake {
    ghost ready = { λ t. t.front.is_ready };

    fn take(&mut self) -> Option<Item> {
        if !self.look() {
            return None;
        }
        let item = take_out(&mut self.front);
        let_go(&mut self.consumer, &mut self.front);
        self.count = self.count.wrapping_add(1);
        Some(item)
    }

    fn look(&mut self) -> bool {
        if read(&mut self.consumer, &mut self.front) {
            return true;
        }
        self.front.ahead = self.consumer.slots();
        read(&mut self.consumer, &mut self.front)
    }

    fn first(&self) -> &Item {
        &self.front.item
    }

    fn pass(&mut self) {
        // an item that is known may not be read yet
        let _ = read(&mut self.consumer, &mut self.front);
        let_go(&mut self.consumer, &mut self.front);
        self.count = self.count.wrapping_add(1);
    }
}

impl Beside for ByteTake {
    type Send = ByteSend;

    fn beside(&mut self, send: &mut ByteSend) -> usize {
        let _ = send.producer.slots_beside(&mut self.consumer);
        self.front.ahead = self.consumer.slots_beside(&mut send.producer);
        send.count.wrapping_sub(self.count) as usize
    }
}
