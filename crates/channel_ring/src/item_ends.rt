//! The traits of the ends of rings that whole items go through by value.
ghost use Rattle.std.specs.Prelude.{◌≡◌, ◌+◌, ◌<◌, ◌≤◌, [], ◌∷◌, ◌++◌, length, IfErr};
ghost use Rattle.std.specs.Prelude.{◌↔◌, Bool, true, IfSome, IsNone, IsOk, IsSome, IsTrue};
ghost use Rattle.std.specs.Prelude.{OnErr, OnOk};
ghost use mathlib.Core.List.{IsPrefix};
ghost use Rattle.channel_ring.specs.Ends.{PassesFirst};

use crate::ends::{SendEnd, TakeEnd};
use xcp_base::Item;

/// A send end through which whole items go by value.
pub trait ItemSend: SendEnd {
    /// Sends an item, or gives it back. It takes no memory.
    ///
    /// It may succeed if nothing is known to be free: the other end may have freed units since.
    fn offer(&mut self, item: Item) -> Result<(), Item>
        ensures succeeds { Self.End.cost item ≤ Self.free self.old → IsOk result }

        ensures ok { OnOk result (Self.sent self.new ≡ Self.sent self.old ++ item ∷ []) }
        ensures spent { OnOk result (Self.free self.old ≤ Self.free self.new + Self.End.cost item) }

        ensures back { IfErr result (λ returned. returned ≡ item) }
        ensures err { OnErr result (Self.sent self.new ≡ Self.sent self.old) }
        ensures err_free { OnErr result (Self.free self.old ≤ Self.free self.new) }

        ensures capacity_stays { Self.capacity self.new ≡ Self.capacity self.old }
        ensures limit_stays { Self.limit self.new ≡ Self.limit self.old }
        ensures ring_stays { Self.ring self.new ≡ Self.ring self.old };

    /// The units that an item takes up.
    fn cost(item: &Item) -> usize
        ensures { result ≡ Self.End.cost item.now };
}

/// A take end out of which whole items come by value.
pub trait ItemTake: TakeEnd {
    /// Whether the first item that is known was read, so that it can be lent.
    ghost ready: { Self → Bool };

    /// Takes the oldest item. It takes no memory.
    ///
    /// It may find an item if none is known: the other end may have sent one since.
    fn take(&mut self) -> Option<Item>
        ensures gives { 0 < length (Self.known self.old) → IsSome result }

        ensures some { IfSome result
            (λ item. Self.received self.new ≡ Self.received self.old ++ item ∷ []) }
        // the first item that is known, and none of the others is forgotten
        ensures first { IfSome result
            (λ item. IsPrefix (Self.known self.old) (item ∷ Self.known self.new)) }

        ensures none { IsNone result → Self.received self.new ≡ Self.received self.old }
        ensures empty { IsNone result → Self.known self.new ≡ [] }

        ensures ring_stays { Self.ring self.new ≡ Self.ring self.old };

    /// Whether an item is there. If so, one is known from then on, and was read.
    ///
    /// It takes nothing: if an item costs its bytes, its place isn't free before it is taken.
    fn look(&mut self) -> bool
        ensures value { IsTrue result ↔ (0 < length (Self.known self.new)) }
        ensures reads { result ≡ true → ready self.new ≡ true }
        ensures grows { IsPrefix (Self.known self.old) (Self.known self.new) }
        ensures received_stays { Self.received self.new ≡ Self.received self.old }
        ensures ring_stays { Self.ring self.new ≡ Self.ring self.old };

    /// The first item that is known, in its place, once a look has found it.
    fn first(&self) -> &Item
        requires { ready self.now ≡ true }
        ensures first { IsPrefix (result.now ∷ []) (Self.known self.now) };

    /// Takes the first item that is known, and lets it go. It takes no memory.
    fn pass(&mut self)
        requires some { 0 < length (Self.known self.old) }
        ensures passes { PassesFirst (Self.received self.old) (Self.received self.new)
            (Self.known self.old) (Self.known self.new) }
        ensures ring_stays { Self.ring self.new ≡ Self.ring self.old };
}
