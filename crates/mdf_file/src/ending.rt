//! What ends a file whose records come one after another: behind blocks of records stand the
//! groups.
ghost use Rattle.std.specs.Prelude.{◌≡◌, ◌+◌, ◌%◌, ◌++◌, List, ℕ, IfOk, length};
ghost use Rattle.std.specs.Prelude.{[], ◌≤◌, codes};
ghost use Rattle.mdf_blocks.specs.Blocks.{IsBlockAt};
ghost use Rattle.mdf_blocks.specs.Tables.{hd_block, id_block};
ghost use Rattle.mdf_blocks.specs.Told.{TellsFile, ToldGroup};
ghost use Rattle.mdf_file.specs.Adding.{Adds, Says};
ghost use Rattle.mdf_file.specs.Ending.{AreOf, HoldRecords, told_file};

use crate::about::About;
use crate::ends::FileEnd;
use crate::groups::add_groups;
use crate::history::{add_history, read_time};
use crate::mdf_fault::MdfFault;
use crate::records::push_data;
use crate::streamed_group::StreamedGroup;
use mdf_blocks::{FileHeader, FileState, identification, push_file_header};
use std::alloc::Global;

/// A block of records and its fill, to be written at a multiple of 8.
pub fn data_bytes(alloc: Global, records: &[u8]) -> Result<Vec<u8>, MdfFault>
    ensures { IfOk result (λ block. (place : ℕ) (before : List ℕ)
        → (place + length before) % 8 ≡ 0
        → Adds place before (before ++ block.items)
        (λ bytes. IsBlockAt bytes (place + length before) (codes "##DT") [] records.now)) }
{
    let mut out = Vec::new(alloc);
    push_data(&mut out, records)?;
    Ok(out)
}

/// What ends a file of which so many bytes were written, `base`: its groups, whose records stand in
/// those bytes, and what it begins with, of 168 bytes.
pub fn file_end(
    alloc: Global,
    about: &About,
    base: u64,
    groups: &[StreamedGroup],
) -> Result<FileEnd, MdfFault>
    requires some { 168 ≤ base }
    requires aligned { base % 8 ≡ 0 }
    ensures front { IfOk result (λ end. length end.front.items ≡ 168) }
    ensures told { IfOk result (λ end. (before : List ℕ) (told : List ToldGroup)
        → 168 + length before ≡ base → AreOf groups.now told
        → Says 168 before (λ bytes. HoldRecords bytes groups.now told)
        → TellsFile (end.front.items ++ before ++ end.behind.items)
        (told_file about.now told)) }
{
    read_time(about.start);
    let mut behind = Vec::new(alloc);
    let first_history = add_history(&mut behind, base, about.start, &about.comment)?;
    let first_group = add_groups(alloc, &mut behind, base, groups)?;
    let header = FileHeader {
        first_group,
        first_history,
        comment: 0,
        start: about.start,
    };
    let front = front_bytes(alloc, FileState::Finished, &about.program, &header)?;
    Ok(FileEnd { front, behind })
}

/// What a file begins with.
pub fn front_bytes(
    alloc: Global,
    state: FileState,
    program: &[u8; 8],
    header: &FileHeader,
) -> Result<Vec<u8>, MdfFault>
    ensures { IfOk result (λ front. (length program.now ≡ 8)
        × (front.items ≡ id_block state program.now ++ hd_block header.now)) }
{
    let mut out = Vec::new(alloc);
    out.extend_from_slice(&identification(state, program))?;
    push_file_header(&mut out, header)?;
    Ok(out)
}
