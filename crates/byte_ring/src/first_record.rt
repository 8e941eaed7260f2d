//! The record that stands first in a ring of bytes, and its item.
ghost use Rattle.std.specs.Prelude.{◌≡◌, ◌↔◌, ◌+◌, ◌<◌, ◌≤◌, IsTrue, [], false, length, take, true};
ghost use Rattle.rtrb.specs.Ring.{SameConsumer, known_items};
ghost use Rattle.byte_ring.specs.Fronts.{IsReady, known_of, part, place_of, seen};
ghost use Rattle.byte_ring.specs.Held.{Pulls, least};
ghost use Rattle.byte_ring.specs.Reading.{items_in};

use crate::decode::{any_marker, read_item};
use crate::front::Front;
use crate::held::least_len;
use crate::popping::hold_more;
use crate::record::MAX_RECORD;
use rtrb::Consumer;
use std::mem::replace;
use xcp_base::Item;

/// Nothing was popped, and nothing is there for sure.
pub(crate) fn nothing() -> Front
    ensures part { part result ≡ [] }
    ensures ahead { result.ahead ≡ 0 }
    ensures is_ready { result.is_ready ≡ false }
{
    Front {
        bytes: [0; MAX_RECORD],
        held: 0,
        ahead: 0,
        item: any_marker(),
        is_ready: false,
    }
}

/// Copies the next byte, which stays in the ring, behind those held, and returns the least length
/// of a record that begins with all of these.
fn see_next(consumer: &Consumer<u8>, front: &mut Front) -> usize
    requires there { front.old.ahead ≤ length (known_items consumer.now) }
    requires some { 0 < front.old.ahead }
    ensures sees { take (front.new.held + 1) front.new.bytes
        ≡ seen (part front.new) (take front.new.ahead (known_items consumer.now)) }
    ensures value { result ≡ least (take (front.new.held + 1) front.new.bytes) }
    ensures limit { result ≤ MAX_RECORD }
    ensures long { length front.new.bytes ≡ MAX_RECORD }
    ensures part { part front.new ≡ part front.old }
    ensures held { front.new.held ≡ front.old.held }
    ensures ahead { front.new.ahead ≡ front.old.ahead }
    ensures ready_stays { front.new.is_ready ≡ front.old.is_ready }
{
    front.bytes[front.held] = *consumer.peek_known();
    least_len(&front.bytes[..front.held + 1])
}

/// A step on the way to the first item, from which the next byte is seen: true if bytes were
/// popped that surely belong to its record, and it goes on; false if the item is ready, or none
/// is known.
fn step(consumer: &mut Consumer<u8>, front: &mut Front) -> bool
    requires there { front.old.ahead ≤ length (known_items consumer.old) }
    requires some { 0 < front.old.ahead }
    requires not_ready { front.old.is_ready ≡ false }
    requires none { items_in (part front.old) ≡ [] }
    ensures ring { SameConsumer consumer.old consumer.new }
    ensures pulls { Pulls (place_of consumer.old front.old) (place_of consumer.new front.new) }
    ensures ready { IsReady consumer.new front.new }
    ensures none { items_in (part front.new) ≡ [] }
    ensures fewer { result ≡ true → front.new.ahead < front.old.ahead }
    ensures goes_on { result ≡ true → front.new.is_ready ≡ false }
    ensures ends { result ≡ false → front.new.is_ready ≡ false
        → known_of consumer.new front.new ≡ [] }
{
    let least = see_next(consumer, front);
    let seen = front.held + 1;
    if least <= seen {
        front.is_ready = read_item(&mut front.item, &front.bytes[..seen]);
        return false;
    }
    let more = least - seen;
    if more >= front.ahead {
        return false;
    }
    hold_more(consumer, front, more);
    true
}

/// Reads the first item, if it is known, and returns whether it is; then it is ready.
///
/// Of its record it pops all but the last byte, and nothing of the records behind: so the item is
/// taken by the pop of that byte.
pub(crate) fn read(consumer: &mut Consumer<u8>, front: &mut Front) -> bool
    requires ready { IsReady consumer.old front.old }
    requires none { items_in (part front.old) ≡ [] }
    ensures ring { SameConsumer consumer.old consumer.new }
    ensures pulls { Pulls (place_of consumer.old front.old) (place_of consumer.new front.new) }
    ensures ready { IsReady consumer.new front.new }
    ensures none { items_in (part front.new) ≡ [] }
    ensures is { result ≡ front.new.is_ready }
    ensures value { IsTrue result ↔ (0 < length (known_of consumer.new front.new)) }
{
    if front.is_ready {
        return true;
    }
    while front.ahead > 0 {
        if !step(consumer, front) {
            return front.is_ready;
        }
    }
    false
}

/// Takes the item out that is ready.
pub(crate) fn take_out(front: &mut Front) -> Item
    ensures item { result ≡ front.old.item }
    ensures part { part front.new ≡ part front.old }
    ensures ahead { front.new.ahead ≡ front.old.ahead }
{
    replace(&mut front.item, any_marker())
}
