//! The two byte orders in which a value may stand.
/// Which byte of a value stands first (ASAM MCD-2 MC, BYTE_ORDER).
#[derive(Clone, Copy, Debug, PartialEq, Eq)]
pub enum ByteOrder {
    /// MSB_LAST: the least significant byte stands first, as Intel has it.
    MsbLast,
    /// MSB_FIRST: the most significant byte stands first, as Motorola has it.
    MsbFirst,
}
