//! The places that orders about DAQ lists take.
ghost use Rattle.std.specs.Prelude.{◌≡◌};
ghost use Rattle.xcp_base.specs.Lists.{has_list};
ghost use Rattle.tasks.specs.Needs.{places_for};

use xcp_base::ListSet;

/// The places that starts of these lists take, with the stops of all lists that then run and an
/// order to end.
pub fn places_for(running: ListSet, lists: ListSet) -> usize
    ensures { result ≡ places_for (has_list running) (has_list lists) }
{
    1 + lists.len() + running.union(lists).len()
}
