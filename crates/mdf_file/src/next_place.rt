//! Places of blocks.
ghost use Rattle.std.specs.Prelude.{◌≡◌, ◌+◌, IfOk, length};

use crate::mdf_fault::MdfFault;

/// The place in a file behind bytes that stand from `base` on.
pub fn next_place(base: u64, out: &Vec<u8>) -> Result<u64, MdfFault>
    ensures { IfOk result (λ place. place ≡ base + length out.now.items) }
{
    match base.checked_add(out.len() as u64) {
        Some(place) => Ok(place),
        None => Err(MdfFault::TooLong),
    }
}
