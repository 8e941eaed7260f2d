//! Up to how many bytes samples are laid out in a measurement.
ghost use Rattle.std.specs.Prelude.{◌≡◌, ◌<◌, ◌≤◌, length};
ghost use Rattle.slave.specs.Pages.{page_over, ready_frames_of};
ghost use Rattle.slave_outbox.specs.declared.limits.TheConstants.{MAX_PAGE};

use copy_plan::sample_len;
use daq_store::Store;
use slave_outbox::PAGE;

/// The bytes up to which samples are laid out in a measurement that is opened over a store: those
/// of the frames of the longest sample of the lists that are ready, and `PAGE` at least.
pub(crate) fn page_over(store: &Store) -> usize
    ensures value { result ≡ page_over store.now }
    ensures limit { result ≤ MAX_PAGE }
{
    let mut page = PAGE;
    for l in 0..store.lists() {
        page = page.max(ready_frames(store, l));
    }
    page
}

/// The bytes of the frames of a sample of a list, if it is ready; else none.
fn ready_frames(store: &Store, l: u16) -> usize
    requires there { l < length store.now.lists }
    ensures value { result ≡ ready_frames_of store.now l }
    ensures limit { result ≤ MAX_PAGE }
{
    let Some(conf) = store.plan(l) else {
        return 0;
    };
    sample_len(conf)
}
