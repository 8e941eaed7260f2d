//! What the first item of a ring comes to, and the frames of a sample.
ghost use Rattle.std.specs.Prelude.{◌≡◌, ◌+◌, ◌<◌, ◌≤◌, length};
ghost use Rattle.xcp_base.specs.declared.limits.TheConstants.{MAX_LISTS};
ghost use Rattle.frame_ring.specs.Ends.{IsFirstHead};
ghost use Rattle.frame_ring.specs.Records.{blocks_for};
ghost use Rattle.frame_ring.specs.States.{take_state};
ghost use Rattle.slave_outbox.specs.IntakeInner.{LetsPass, TakesHead};

use crate::list_intake::ListIntake;
use crate::origin::Origin;
use crate::step::Step;
use frame_page::FramePage;
use frame_ring::{FrameTake, Head};
use xcp_base::{ListId, PerList};

/// Whether the samples of the list with this number are laid out.
fn passes(lists: &PerList<ListIntake>, list: u8) -> bool
    requires { list < MAX_LISTS }
    ensures { LetsPass lists.now list result }
{
    lists.get(ListId::at(list as u16)).passes()
}

/// Takes the first item of a ring, which has this head. A sample is laid out if its list lets it
/// pass and its frames find room in so many bytes, as one that the event channel has in the
/// measurement; if they don't, it stays in the ring.
pub fn take_first(
    end: &mut FrameTake,
    head: Head,
    lists: &PerList<ListIntake>,
    page: &mut FramePage<Origin>,
    room: usize,
    measurement: u64,
    channel: u8,
) -> Step
    requires head { IsFirstHead head (take_state end.old) }
    requires blocks { page.old.used + (2 + blocks_for room) ≤ page.old.blocks }
    requires place { length page.old.waits < page.old.most }
    ensures means { TakesHead (take_state end.old) (take_state end.new) lists.now
        page.old page.new measurement channel room result }
{
    match head {
        Head::Marker { list } => {
            end.pass(head.blocks());
            Step::Marked(list)
        }
        Head::Sample { list, packets, len } => {
            if !passes(lists, list) {
                end.pass(head.blocks());
                return Step::Skipped(list);
            }
            if len as usize > room {
                return Step::Full;
            }
            let origin = Origin::Sample(measurement, channel, list);
            page.take_sample(end, packets, len, origin);
            Step::Wrote(list, len as usize)
        }
    }
}
