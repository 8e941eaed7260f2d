//! The profile of a slave, its segments and its event channels, laid out as C gives them.
/// The places for the bytes of a name: one more than a name may have.
pub const NAME_PLACES: usize = 57;

/// What a slave tells of an event channel, of any numbers. In C it is `ng_event`.
#[repr(C)]
#[derive(Clone, Copy)]
pub struct EventIn {
    /// The capacity of its ring, in bytes.
    pub capacity: usize,
    /// Its name, up to the first zero byte.
    pub name: [u8; NAME_PLACES],
    /// The cycle of its triggers, in its unit; 0 if there is none.
    pub cycle: u8,
    /// The unit of the cycle.
    pub cycle_unit: u8,
    /// Its priority.
    pub priority: u8,
}

/// A segment of a slave's memory, of any numbers. In C it is `ng_segment`.
#[repr(C)]
#[derive(Clone, Copy)]
pub struct SegmentIn {
    /// The extension of its addresses.
    pub extension: u8,
    /// The address of its first byte.
    pub base: u32,
    /// How many bytes it has.
    pub len: usize,
    /// The event channels that may read it: bit `c` stands for event channel `c`.
    pub events: u16,
}

/// What a slave is asked for by, of any numbers. In C it is `ng_profile`.
#[repr(C)]
#[derive(Clone, Copy)]
pub struct ProfileIn {
    /// The number of the identification field, as in `ng_id_kind`.
    pub id: u32,
    /// So many units are one tick of a timestamp.
    pub ticks: u16,
    /// MAX_DTO.
    pub max_dto: u16,
    /// The unit of a timestamp.
    pub unit: u8,
    /// The length of a timestamp, in bytes.
    pub stamp_size: u8,
    /// MAX_CTO.
    pub max_cto: u8,
    /// The name of the slave, up to the first zero byte.
    pub name: [u8; NAME_PLACES],
    /// The name of its A2L file, up to the first zero byte.
    pub a2l_name: [u8; NAME_PLACES],
    /// The EPK, up to the first zero byte.
    pub epk: [u8; NAME_PLACES],
}
