//! What stands between two blocks.
ghost use Rattle.std.specs.Prelude.{◌≡◌, ◌≤◌, ◌<◌, ◌++◌, OnErr, OnOk, length, take};
ghost use Rattle.mdf_blocks.specs.Blocks.{fill_len};
ghost use Rattle.mdf_blocks.specs.Numbers.{zeros};

use std::alloc::AllocError;

/// How many bytes of 0 stand behind so many bytes, so that the next block begins at a multiple
/// of 8.
pub fn fill_len(len: u64) -> usize
    ensures value { result ≡ fill_len len }
    ensures limit { result < 8 }
{
    7 - (len.wrapping_add(7) % 8) as usize
}

/// Appends up to eight bytes of 0. If memory is out, nothing is appended.
pub(crate) fn push_zeros(out: &mut Vec<u8>, count: usize) -> Result<(), AllocError>
    requires { count ≤ 8 }
    ensures ok { OnOk result (out.new.items ≡ out.old.items ++ zeros count) }
    ensures err { OnErr result (out.new.items ≡ out.old.items) }
{
    let all = [0; 8];
    out.extend_from_slice(&all[..count])
}
