//! The records of a group.
ghost use Rattle.std.specs.Prelude.{◌≡◌, ◌+◌, ◌%◌, ◌<◌, List, ℕ, IfOk, length};
ghost use Rattle.std.specs.Prelude.{◌++◌, OnOk};
ghost use Rattle.mdf_blocks.specs.Blocks.{fill_len, filled};
ghost use Rattle.mdf_blocks.specs.Numbers.{zeros};
ghost use Rattle.mdf_blocks.specs.Records.{dt_block};
ghost use Rattle.mdf_blocks.specs.Told.{AreListed, TellsRecords};
ghost use Rattle.mdf_file.specs.Adding.{Adds, AreSmall};

use crate::mdf_fault::MdfFault;
use crate::next_place::next_place;
use mdf_blocks::{ListedData, data_head, fill_len, push_data_list};
use std::alloc::AllocError;

/// Appends a block of records and its fill.
pub fn push_data(out: &mut Vec<u8>, records: &[u8]) -> Result<(), AllocError>
    ensures { OnOk result (out.new.items ≡ out.old.items ++ filled (dt_block records.now)) }
{
    let len = records.len() as u64;
    out.extend_from_slice(&data_head(len))?;
    out.extend_from_slice(records)?;
    push_fill(out, 24 + len)
}

/// Appends what stands behind a block of so many bytes.
fn push_fill(out: &mut Vec<u8>, len: u64) -> Result<(), AllocError>
    ensures { OnOk result (out.new.items ≡ out.old.items ++ zeros (fill_len len)) }
{
    let all = [0; 8];
    out.extend_from_slice(&all[..fill_len(len)])
}

/// Adds a list of blocks of records, and gives its place, or 0 if there are none.
pub fn add_list(out: &mut Vec<u8>, base: u64, blocks: &[ListedData]) -> Result<u64, MdfFault>
    requires some { 0 < base }
    requires aligned { (base + length out.old.items) % 8 ≡ 0 }
    requires small { AreSmall blocks.now }
    ensures aligned { OnOk result ((base + length out.new.items) % 8 ≡ 0) }
    ensures told { IfOk result (λ link. (place : ℕ) (before records : List ℕ)
        → place + length before ≡ base
        → Adds place (before ++ out.old.items) (before ++ out.old.items)
        (λ bytes. AreListed bytes 0 blocks.now records)
        → Adds place (before ++ out.old.items) (before ++ out.new.items)
        (λ bytes. TellsRecords bytes link records)) }
{
    if blocks.is_empty() {
        return Ok(0);
    }
    if blocks.len() >= 4_294_967_296 {
        return Err(MdfFault::TooLong);
    }
    let place = next_place(base, out)?;
    push_data_list(out, 0, blocks)?;
    Ok(place)
}
