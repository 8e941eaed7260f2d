//! Laws of records: each is the contract of a function that does nothing.
ghost use Rattle.frame_ring.specs.Laws.{ItemsAreReadOffRecords, RecordsArePrefixFree};
ghost use Rattle.frame_ring.specs.Laws.{RecordsTellItems};

/// No record is a proper prefix of another.
pub fn records_are_prefix_free()
    ensures { RecordsArePrefixFree }
{}

/// Records, one behind another, are those of at most one list of items.
pub fn records_tell_items()
    ensures { RecordsTellItems }
{}

/// What is read off the blocks that were taken are the items of the records that stand there.
pub fn items_are_read_off_records()
    ensures { ItemsAreReadOffRecords }
{}
