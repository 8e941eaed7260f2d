//! The type that C sees in the place of what a handle holds.
/// What a handle points to, to C: no C code reads or writes it.
#[repr(C)]
pub struct Hidden {
    byte: u8,
}
