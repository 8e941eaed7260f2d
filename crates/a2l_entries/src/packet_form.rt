//! How the packets of a slave look, as the A2L file tells it.
ghost use Rattle.std.specs.Prelude.{◌≡◌};
ghost use Rattle.a2l_entries.specs.FormSaid.{form_and, nothing_told};

use crate::told::Told;

/// How the packets of a slave look, as an IF_DATA of XCP or XCPplus tells it. The numbers are those
/// that the slave itself answers to CONNECT, GET_DAQ_PROCESSOR_INFO and GET_DAQ_RESOLUTION_INFO
/// (ASAM MCD-1 XCP, protocol layer).
#[derive(Clone, Copy, Debug, PartialEq, Eq)]
pub struct PacketForm {
    /// BYTE_ORDER: 0 is MSB_LAST, 1 is MSB_FIRST.
    pub order: Told,
    /// ADDRESS_GRANULARITY: how many bytes an address counts, as a power of two.
    pub granularity: Told,
    /// IDENTIFICATION_FIELD_TYPE: 0 is absolute; 1, 2 and 3 are relative with the list as a byte, a
    /// word and an aligned word.
    pub field: Told,
    /// The overload indication: 0 is none, 1 is in the PID, 2 is an event.
    pub overload: Told,
    /// TIMESTAMP_MODE: bits 0 to 2 are the bytes of a timestamp, bit 3 says that every list has
    /// them, bits 4 to 7 are the unit.
    pub stamp: Told,
    /// TIMESTAMP_TICKS: how many units a tick is.
    pub ticks: Told,
}

impl PacketForm {
    /// Nothing is told.
    pub fn nothing() -> PacketForm
        ensures { result ≡ nothing_told }
    {
        PacketForm {
            order: Told::Nothing,
            granularity: Told::Nothing,
            field: Told::Nothing,
            overload: Told::Nothing,
            stamp: Told::Nothing,
            ticks: Told::Nothing,
        }
    }

    /// What two blocks tell together.
    pub fn and(self, other: PacketForm) -> PacketForm
        ensures { result ≡ form_and self other }
    {
        PacketForm {
            order: self.order.and(other.order),
            granularity: self.granularity.and(other.granularity),
            field: self.field.and(other.field),
            overload: self.overload.and(other.overload),
            stamp: self.stamp.and(other.stamp),
            ticks: self.ticks.and(other.ticks),
        }
    }
}
