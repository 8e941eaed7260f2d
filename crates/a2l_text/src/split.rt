//! What stands before an offset of a text, and what stands behind it.
ghost use Rattle.std.specs.Prelude.{◌≡◌, ◌≤◌, take, drop, length};

/// The bytes before an offset.
#[inline(always)]
pub(crate) fn before(text: &[u8], at: usize) -> &[u8]
    requires { at ≤ length text.now }
    ensures { result.now ≡ take at text.now }
{
    text.split_at(at).0
}

/// The bytes from an offset on.
#[inline(always)]
pub(crate) fn behind(text: &[u8], at: usize) -> &[u8]
    requires { at ≤ length text.now }
    ensures { result.now ≡ drop at text.now }
{
    text.split_at(at).1
}
