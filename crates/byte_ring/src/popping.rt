//! Bytes of the record that stands first, popped behind those that are held.
ghost use Rattle.std.specs.Prelude.{◌≡◌, ◌+◌, ◌<◌, ◌≤◌, ◌++◌, [], drop, false, length, take};
ghost use mathlib.Core.List.{IsPrefix};
ghost use Rattle.rtrb.specs.Ring.{SameConsumer, known_items, received};
ghost use Rattle.byte_ring.specs.Fronts.{part, place_of};
ghost use Rattle.byte_ring.specs.Held.{Pulls};

use crate::front::Front;
use crate::record::MAX_RECORD;
use rtrb::Consumer;

/// The bytes of a short pop: an array of so many is cleared at each.
const SHORT: usize = 64;

/// Pops bytes that are there, by way of `N` bytes of its own.
///
/// A pop into bytes that a caller lent would read where the ring lies anew for each byte, since the
/// code generator can't tell that they aren't a part of the ring's end.
fn pop_by<const N: usize>(consumer: &mut Consumer<u8>, part: &mut [u8])
    requires size { N ≤ MAX_RECORD }
    requires few { length part.old ≤ N }
    requires there { length part.old ≤ length (known_items consumer.old) }
    ensures ring { SameConsumer consumer.old consumer.new }
    ensures popped { received consumer.new ≡ received consumer.old ++ part.new }
    ensures known { IsPrefix (known_items consumer.old) (part.new ++ known_items consumer.new) }
{
    let mut bytes = [0; N];
    let count = part.len();
    let _ = consumer.pop_partial_slice(&mut bytes[..count]);
    part.copy_from_slice(&bytes[..count]);
}

/// Pops bytes that are there.
fn pop_part(consumer: &mut Consumer<u8>, part: &mut [u8])
    requires few { length part.old ≤ MAX_RECORD }
    requires there { length part.old ≤ length (known_items consumer.old) }
    ensures ring { SameConsumer consumer.old consumer.new }
    ensures popped { received consumer.new ≡ received consumer.old ++ part.new }
    ensures known { IsPrefix (known_items consumer.old) (part.new ++ known_items consumer.new) }
{
    if part.len() > SHORT {
        pop_by::<MAX_RECORD>(consumer, part);
    } else {
        pop_by::<SHORT>(consumer, part);
    }
}

/// Pops so many bytes more, which are there for sure, and holds them behind the others.
pub(crate) fn hold_more(consumer: &mut Consumer<u8>, front: &mut Front, count: usize)
    requires there { front.old.ahead ≤ length (known_items consumer.old) }
    requires few { count ≤ front.old.ahead }
    requires room { front.old.held + count < MAX_RECORD }
    ensures ring { SameConsumer consumer.old consumer.new }
    ensures pulls { Pulls (place_of consumer.old front.old) (place_of consumer.new front.new) }
    ensures there { front.new.ahead ≤ length (known_items consumer.new) }
    ensures held { front.new.held ≡ front.old.held + count }
    ensures ahead { front.new.ahead + count ≡ front.old.ahead }
    ensures ready_stays { front.new.is_ready ≡ front.old.is_ready }
{
    let end = front.held + count;
    pop_part(consumer, &mut front.bytes[front.held..end]);
    front.ahead -= count;
    front.held = end;
}

/// Pops the last byte of the record that stands first: all of it is gone then, and nothing is held.
pub(crate) fn let_go(consumer: &mut Consumer<u8>, front: &mut Front)
    requires there { front.old.ahead ≤ length (known_items consumer.old) }
    requires some { 0 < front.old.ahead }
    ensures ring { SameConsumer consumer.old consumer.new }
    ensures popped { received consumer.new
        ≡ received consumer.old ++ take 1 (take front.old.ahead (known_items consumer.old)) }
    ensures ahead { take front.new.ahead (known_items consumer.new)
        ≡ drop 1 (take front.old.ahead (known_items consumer.old)) }
    ensures there { front.new.ahead ≤ length (known_items consumer.new) }
    ensures part { part front.new ≡ [] }
    ensures not_ready { front.new.is_ready ≡ false }
{
    let _ = consumer.pop_known();
    front.ahead -= 1;
    front.held = 0;
    front.is_ready = false;
}
