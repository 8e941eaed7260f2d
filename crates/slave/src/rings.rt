//! Which DAQ lists find no room in their rings.
ghost use Rattle.std.specs.Prelude.{◌≡◌, true, false};
ghost use Rattle.xcp_base.specs.Lists.{has_list};
ghost use Rattle.session.specs.Past.{Past};
ghost use Rattle.session.specs.Standing.{SessionStandsAfter};
ghost use Rattle.slave.specs.Inner.{NoneIsTooLong, OneIsTooLong};
ghost use Rattle.slave.specs.Rings.{is_too_long};

use crate::slave::Slave;
use copy_plan::sample_len;
use frame_ring::{BLOCK, sample_blocks};
use xcp_base::limits::MAX_LISTS;
use xcp_base::{ListId, ListSet};

impl Slave {
    /// Whether one of these lists has a sample that is longer than its ring.
    pub(crate) fn has_too_long(&self, lists: ListSet) -> bool
        ensures yes { result ≡ true → OneIsTooLong self.now.session lists }
        ensures no { result ≡ false → NoneIsTooLong self.now.session lists }
    {
        for l in 0..MAX_LISTS {
            if self.is_too_long_of(lists, ListId::at(l)) {
                return true;
            }
        }
        false
    }

    /// Whether a list has such a sample, if it is one of these.
    fn is_too_long_of(&self, lists: ListSet, l: ListId) -> bool
        ensures yes { result ≡ true → (has_list lists l ≡ true)
            × ((past : Past) → SessionStandsAfter self.now.session past
            → is_too_long self.now.session.profile past l ≡ true) }
        ensures no { result ≡ false → has_list lists l ≡ true
            → (past : Past) → SessionStandsAfter self.now.session past
            → is_too_long self.now.session.profile past l ≡ false }
    {
        if !lists.has_list(l) {
            return false;
        }
        self.is_too_long(l)
    }

    /// Whether a list is there and ready, and its samples are longer than its ring.
    fn is_too_long(&self, l: ListId) -> bool
        ensures { (past : Past) → SessionStandsAfter self.now.session past
            → result ≡ is_too_long self.now.session.profile past l }
    {
        let Some(conf) = self.session.store().plan(l.number()) else {
            return false;
        };
        sample_blocks(sample_len(conf)) * BLOCK > self.caps[conf.channel() as usize]
    }
}
