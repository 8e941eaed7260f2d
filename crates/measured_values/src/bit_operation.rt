//! The shifts of a masked value, and the extension of its sign.
/// What is done with the bits of a value behind BIT_MASK (ASAM MCD-2 MC, BIT_OPERATION): they are
/// moved up, then down, and then the sign is extended.
#[derive(Clone, Copy, Debug, PartialEq, Eq)]
pub struct BitOperation {
    /// By how many bits they are moved up (LEFT_SHIFT).
    pub left: u8,
    /// By how many bits they are moved down (RIGHT_SHIFT).
    pub right: u8,
    /// Whether the highest bit of the mask is that of the sign (SIGN_EXTEND).
    pub extends_sign: bool,
}
