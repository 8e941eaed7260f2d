//! Blocks of records that are written as they come.
ghost use Rattle.std.specs.Prelude.{◌≡◌, ◌≤◌, ◌+◌, ◌++◌, ◌^◌, ◌<◌, IfOk, OnOk, length};
ghost use Rattle.std.specs.Io.KnownBytes.{append_known};
ghost use Rattle.mdf_blocks.specs.Blocks.{fill_len, filled};
ghost use Rattle.mdf_blocks.specs.Numbers.{zeros};
ghost use Rattle.mdf_blocks.specs.Records.{dt_block};
ghost use Rattle.mdf_file.specs.Standing.{HasBlock};

use crate::mdf_fault::MdfFault;
use crate::mdf_out::MdfOut;
use mdf_blocks::{data_head, fill_len};
use std::io;

/// Appends a block of records at a place, and gives where it ends, with its fill.
pub fn append_block<O: MdfOut>(out: &mut O, place: u64, records: &[u8]) -> Result<u64, MdfFault>
    ensures { IfOk result
        (λ next. HasBlock (O.known out.old) (O.known out.new) place next records.now) }
{
    let next = block_end(place, records.len())?;
    append_data(out, records)?;
    Ok(next)
}

/// Appends a block of records and its fill.
fn append_data<O: MdfOut>(out: &mut O, records: &[u8]) -> io::Result<()>
    ensures { OnOk result
        (O.known out.new ≡ append_known (O.known out.old) (filled (dt_block records.now))) }
{
    let len = records.len() as u64;
    out.append(&data_head(len))?;
    out.append(records)?;
    append_fill(out, 24 + len)
}

/// Appends what stands behind a block of so many bytes.
fn append_fill<O: MdfOut>(out: &mut O, len: u64) -> io::Result<()>
    ensures { OnOk result
        (O.known out.new ≡ append_known (O.known out.old) (zeros (fill_len len))) }
{
    let all = [0; 8];
    out.append(&all[..fill_len(len)])
}

/// Where a block of so many bytes of records ends, with its fill.
fn block_end(place: u64, records: usize) -> Result<u64, MdfFault>
    ensures { IfOk result (λ next. next ≡ place + (24 + records + fill_len (24 + records))) }
{
    let Some(len) = (records as u64).checked_add(24) else {
        return Err(MdfFault::TooLong);
    };
    let Some(end) = place.checked_add(len) else {
        return Err(MdfFault::TooLong);
    };
    match end.checked_add(fill_len(len) as u64) {
        Some(next) => Ok(next),
        None => Err(MdfFault::TooLong),
    }
}
