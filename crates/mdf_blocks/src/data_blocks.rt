//! The blocks of records, and the lists of them.
ghost use Rattle.std.specs.Prelude.{◌≡◌, ◌+◌, ◌*◌, ◌^◌, ◌<◌, ◌++◌, ℕ, List, OnErr, OnOk, length};
ghost use Rattle.std.specs.Prelude.{take};
ghost use Rattle.mdf_blocks.specs.Blocks.{block_head};
ghost use Rattle.mdf_blocks.specs.Numbers.{uint64, uint64s};
ghost use Rattle.mdf_blocks.specs.Records.{dl_block, dl_front, dt_block, offsets_of};
ghost use Rattle.mdf_blocks.specs.Records.{places_of};

use crate::block::block_head;
use crate::listed_data::ListedData;
use std::alloc::AllocError;

/// What stands in front of so many bytes of records (ASAM MDF 4.1, DT).
pub fn data_head(records: u64) -> [u8; 24]
    requires { records + 24 < 2 ^ 64 }
    ensures { (bytes : List ℕ) → length bytes ≡ records → result ++ bytes ≡ dt_block bytes }
{
    block_head(b"##DT", 24 + records, 0)
}

/// Appends a list of data blocks, and where the next list stands, or 0 (ASAM MDF 4.1, DL). If
/// memory is out, nothing is appended.
pub fn push_data_list(out: &mut Vec<u8>, next: u64, blocks: &[ListedData]) -> Result<(), AllocError>
    requires { length blocks.now < 2 ^ 32 }
    ensures ok { OnOk result (out.new.items ≡ out.old.items ++ dl_block next blocks.now) }
    ensures err { OnErr result (out.new.items ≡ out.old.items) }
{
    let start = out.len();
    if let Err(fault) = push_parts(out, next, blocks) {
        out.truncate(start);
        return Err(fault);
    }
    Ok(())
}

/// The same, but if memory is out, a part may have been appended.
fn push_parts(out: &mut Vec<u8>, next: u64, blocks: &[ListedData]) -> Result<(), AllocError>
    requires { length blocks.now < 2 ^ 32 }
    ensures ok { OnOk result (out.new.items ≡ out.old.items ++ dl_block next blocks.now) }
    ensures err { OnErr result (take (length out.old.items) out.new.items ≡ out.old.items) }
{
    let count = blocks.len() as u64;
    out.extend_from_slice(&block_head(b"##DL", 40 + 16 * count, 1 + count))?;
    out.extend_from_slice(&next.to_le_bytes())?;
    push_places(out, blocks)?;
    out.extend_from_slice(&list_front(blocks.len() as u32))?;
    push_offsets(out, blocks)
}

/// What stands in front of the offsets of a list.
fn list_front(count: u32) -> [u8; 8]
    ensures { result ≡ dl_front count }
{
    let [a, b, c, d] = count.to_le_bytes();
    [0, 0, 0, 0, a, b, c, d]
}

fn push_places(out: &mut Vec<u8>, blocks: &[ListedData]) -> Result<(), AllocError>
    ensures ok { OnOk result (out.new.items
        ≡ out.old.items ++ uint64s (places_of blocks.now)) }
    ensures err { OnErr result (take (length out.old.items) out.new.items ≡ out.old.items) }
{
    for block in blocks {
        out.extend_from_slice(&block.place.to_le_bytes())?;
    }
    Ok(())
}

fn push_offsets(out: &mut Vec<u8>, blocks: &[ListedData]) -> Result<(), AllocError>
    ensures ok { OnOk result (out.new.items
        ≡ out.old.items ++ uint64s (offsets_of blocks.now)) }
    ensures err { OnErr result (take (length out.old.items) out.new.items ≡ out.old.items) }
{
    for block in blocks {
        out.extend_from_slice(&block.offset.to_le_bytes())?;
    }
    Ok(())
}
