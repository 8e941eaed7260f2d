//! A store is made of the numbers with which C asks for it, if they are within their limits.
ghost use Rattle.std.specs.Prelude.{◌↔◌, [], IsSome, IfSome};
ghost use Rattle.daq_store.specs.Standing.{StoreStandsAfter};
ghost use Rattle.c_engine.specs.Answers.{AreLimits, HasAsked};

use crate::kinds::kind_numbered;
use daq_store::Store;
use std::alloc::Global;

/// The numbers that a store is asked for by, of any value.
#[derive(Clone, Copy)]
pub struct StoreNumbers {
    /// How many event channels there are.
    pub channels: u16,
    /// The length of an image, in bytes.
    pub image_len: usize,
    /// The number of the identification field, as in `ng_id_kind`.
    pub id: u32,
    /// The length of a timestamp, in bytes.
    pub stamp_size: u8,
}

impl StoreNumbers {
    /// The store that is asked for, without DAQ lists; `None` exactly if a number is out of its
    /// limits.
    pub fn store(self, alloc: Global) -> Option<Store>
        ensures limits { IsSome result ↔ AreLimits self }
        ensures profile { IfSome result (λ s. HasAsked s self) }
        ensures fresh { IfSome result (λ s. StoreStandsAfter s []) }
    {
        let id = kind_numbered(self.id)?;
        Store::with_form(alloc, self.channels, self.image_len, id, self.stamp_size).ok()
    }
}
