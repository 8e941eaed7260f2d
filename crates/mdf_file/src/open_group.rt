//! A group that takes records.
ghost use Rattle.std.specs.Prelude.{◌≡◌, ◌++◌, ◌∷◌, [], OnErr, OnOk};
ghost use Rattle.mdf_file.specs.Standing.{IsListedAt, seen};

use crate::mdf_fault::MdfFault;
use crate::new_channel::NewChannel;
use crate::record_log::RecordLog;
use crate::streamed_group::StreamedGroup;
use mdf_blocks::ListedData;
use std::alloc::Global;

/// A group that takes records: those in blocks are told, and the others wait in a buffer.
#[derive(Drop)]
pub struct OpenGroup {
    pub told: StreamedGroup,
    pub buffer: Vec<u8>,
    /// All its records. At run time it is nothing.
    pub log: RecordLog,
}

impl OpenGroup {
    /// A group without records.
    pub fn new(
        alloc: Global,
        name: String,
        channels: Vec<NewChannel>,
        record_bytes: u32,
    ) -> OpenGroup
        ensures name { result.told.name ≡ name }
        ensures channels { result.told.channels ≡ channels }
        ensures record_bytes { result.told.record_bytes ≡ record_bytes }
        ensures blocks { result.told.blocks.items ≡ [] }
        ensures len { result.told.len ≡ 0 }
        ensures buffer { result.buffer.items ≡ [] }
        ensures records { result.log.records ≡ [] }
    {
        OpenGroup {
            told: StreamedGroup {
                name,
                channels,
                record_bytes,
                blocks: Vec::new(alloc),
                len: 0,
            },
            buffer: Vec::new(alloc),
            log: RecordLog::new(),
        }
    }

    /// One record more, in the buffer.
    pub fn push(&mut self, record: &[u8]) -> Result<(), MdfFault>
        ensures told { self.new.told ≡ self.old.told }
        ensures buffer { OnOk result
            (self.new.buffer.items ≡ self.old.buffer.items ++ «record».now) }
        ensures records { OnOk result
            (self.new.log.records ≡ self.old.log.records ++ «record».now ∷ []) }
        ensures err { OnErr result (self.new.log.records ≡ self.old.log.records) }
    {
        self.buffer.extend_from_slice(record)?;
        self.log.note(record);
        Ok(())
    }

    /// The records in the buffer stand in a block now, at this place.
    pub fn list_block(&mut self, alloc: Global, place: u64) -> Result<(), MdfFault>
        ensures ok { OnOk result (IsListedAt self.old self.new place) }
        ensures same { seen self.new ≡ seen self.old }
    {
        let Some(len) = self.told.len.checked_add(self.buffer.len() as u64) else {
            return Err(MdfFault::TooLong);
        };
        self.told.blocks.push(ListedData {
            place,
            offset: self.told.len,
        })?;
        self.told.len = len;
        self.buffer = Vec::new(alloc);
        Ok(())
    }

    /// Whether a buffer has no place for so many bytes more.
    pub fn is_full(&self, more: usize, limit: usize) -> bool {
        match self.buffer.len().checked_add(more) {
            Some(len) => len > limit,
            None => true,
        }
    }
}
