//! What all DAQ packets of a slave share: identification field, size of timestamps, and MAX_DTO.
ghost use Rattle.std.specs.Prelude.{◌≡◌, ◌<◌};
ghost use Rattle.xcp_base.specs.Forms.{form_of, form_with, most_entry};

use crate::id_kind::IdKind;
use crate::limits::{MAX_DTO, MAX_ENTRY_SIZE};
use crate::stamp_size::StampSize;

/// The form of all DAQ packets of a slave: which identification field they begin with, how many
/// bytes a timestamp has, and how many a packet has at most, MAX_DTO.
#[derive(Clone, Copy, Debug, PartialEq, Eq)]
pub struct PacketForm {
    pub id: IdKind,
    pub stamp: StampSize,
    pub max_dto: u16,
}

impl PacketForm {
    /// The form with this field, timestamps of so many bytes, and MAX_DTO of a run; `None` exactly
    /// if the timestamps are not of 1, 2 or 4 bytes.
    pub fn of(id: IdKind, stamp_size: u8) -> Option<PacketForm>
        ensures { result ≡ form_of id stamp_size }
    {
        PacketForm::with(id, stamp_size, MAX_DTO as u16)
    }

    /// The same with this MAX_DTO.
    pub fn with(id: IdKind, stamp_size: u8, max_dto: u16) -> Option<PacketForm>
        ensures { result ≡ form_with id stamp_size max_dto }
    {
        let stamp = StampSize::of(stamp_size)?;
        Some(PacketForm { id, stamp, max_dto })
    }

    /// The most bytes of an ODT entry: a packet has its identification field before it.
    pub fn most_entry(self) -> u8
        requires { 0 < self.max_dto }
        ensures { result ≡ most_entry self }
    {
        (self.max_dto - 1).min(MAX_ENTRY_SIZE as u16) as u8
    }
}
