//! Which lists can be read, and the length of their timestamps.
ghost use Rattle.std.specs.Prelude.{◌≡◌, ◌<◌};
ghost use Rattle.captured_session.specs.Lists.{has_bit, has_pids, is_plain, is_stamp_len, is_told};
ghost use Rattle.captured_session.specs.Lists.{stamp_len};

use crate::form::Form;
use crate::id_field::IdField;
use crate::list_mode::ListMode;

/// The bytes of a timestamp in the first packet of a sample.
pub fn stamp_len(form: Form, mode: ListMode) -> usize
    ensures value { result ≡ stamp_len form mode }
    ensures few { result < 8 }
{
    if has_bit(form.stamp, 8) || has_bit(mode.bits, 16) {
        return (form.stamp % 8) as usize;
    }
    0
}

/// Whether a list of this mode is read.
pub fn is_plain(form: Form, mode: ListMode) -> bool
    ensures { result ≡ is_plain form mode }
{
    !has_bit(mode.bits, 2)
        && !has_bit(mode.bits, 8)
        && !has_bit(mode.bits, 32)
        && form.granularity == 0
        && is_stamp_len(stamp_len(form, mode))
}

/// Whether a timestamp can have so many bytes; 0 is none.
fn is_stamp_len(len: usize) -> bool
    ensures { result ≡ is_stamp_len len }
{
    len == 0 || len == 1 || len == 2 || len == 4
}

/// Whether the slave told how its packets look, and how timestamps look if a list of this mode has
/// them.
pub fn is_told(form: Form, mode: ListMode) -> bool
    ensures { result ≡ is_told form mode }
{
    form.has_order && form.has_field && (form.has_stamp || !has_bit(mode.bits, 16))
}

/// Whether packets with this field can be known as those of a list.
pub fn has_pids(field: IdField, first_pid: Option<u8>) -> bool
    ensures { result ≡ has_pids field first_pid }
{
    match (field, first_pid) {
        (IdField::Absolute, None) => false,
        _ => true,
    }
}

/// Whether the bit of this value is set.
fn has_bit(bits: u8, value: u8) -> bool
    requires { 0 < value }
    ensures { result ≡ has_bit bits value }
{
    bits / value % 2 == 1
}
