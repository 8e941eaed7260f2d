//! What a take end holds of the record that stands first in its ring.
ghost use Rattle.std.specs.Prelude.{◌<◌};
ghost use Rattle.byte_ring.specs.declared.record.TheConstants.{MAX_RECORD};

use crate::record::MAX_RECORD;
use xcp_base::Item;

/// The part of a record that was popped, and the item of the record that stands first.
#[derive(Drop)]
pub(crate) struct Front {
    // The bytes held stand first. Behind them there is a place for one more byte of the record.
    pub(crate) bytes: [u8; MAX_RECORD],
    pub(crate) held: usize,
    // How many bytes are in the ring for sure, behind those held.
    pub(crate) ahead: usize,
    // The item, once all of its record is held but the last byte, and that is in the ring.
    pub(crate) item: Item,
    pub(crate) is_ready: bool,
    ghost within: { held < MAX_RECORD },
}
