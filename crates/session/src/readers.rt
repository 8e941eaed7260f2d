//! What a session shows of its DAQ lists.
ghost use Rattle.std.specs.Prelude.{◌≡◌, ℕ, ◌<◌, ◌≤◌};
ghost use Rattle.xcp_base.specs.Lists.{has_list};
ghost use Rattle.xcp_base.specs.declared.limits.TheConstants.{MAX_PACKET};
ghost use Rattle.session.specs.Past.{Past};
ghost use Rattle.session.specs.Profiles.{lists_of};
ghost use Rattle.session.specs.Standing.{SessionStandsAfter};
ghost use Rattle.session.specs.Starts.{is_on, runs, shows_on};

use crate::list_sets;
use crate::session::Session;
use daq_store::Store;
use xcp_base::limits::MAX_LISTS;
use xcp_base::{ChannelId, ListSet};

impl Session {
    /// MAX_CTO, as the profile says.
    pub fn max_cto(&self) -> u8
        ensures value { result ≡ self.now.profile.max_cto }
        ensures least { 8 ≤ result }
    {
        self.profile.max_cto
    }

    /// MAX_DTO, as the profile says.
    pub fn max_dto(&self) -> u16
        ensures value { result ≡ self.now.profile.max_dto }
        ensures most { result ≤ MAX_PACKET }
    {
        self.profile.max_dto
    }

    /// The DAQ lists, as they are set.
    pub fn store(&self) -> &Store
        ensures value { result.now ≡ self.now.store }
        ensures profile { result.now.profile ≡ lists_of self.now.profile }
    {
        &self.store
    }

    /// The set of the DAQ lists that run.
    pub fn running(&self) -> ListSet
        ensures value { (past : Past) → SessionStandsAfter self.now past
            → (l : ℕ) → l < MAX_LISTS → has_list result l ≡ runs past l }
    {
        list_sets::running_of(&self.store)
    }

    /// The set of the DAQ lists that are there, ready, and whose mode names this event channel.
    pub fn lists_on(&self, channel: ChannelId) -> ListSet
        ensures value { (past : Past) → SessionStandsAfter self.now past
            → (l : ℕ) → l < MAX_LISTS
            → has_list result l ≡ is_on self.now.profile past channel l }
        ensures shown { (l : ℕ) → l < MAX_LISTS
            → has_list result l ≡ shows_on self.now.store channel l }
    {
        list_sets::ready_on(&self.store, channel)
    }
}
