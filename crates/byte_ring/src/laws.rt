//! Laws of records: each is the contract of a function that does nothing.
ghost use Rattle.byte_ring.specs.Laws.{ItemsAreLongest, RecordsArePrefixFree, RecordsTellItems};

/// No record is a proper prefix of another.
pub fn records_are_prefix_free()
    ensures { RecordsArePrefixFree }
{}

/// Records, one behind another, are those of at most one list of items.
pub fn records_tell_items()
    ensures { RecordsTellItems }
{}

/// What the ends of a ring of bytes read off its bytes is the longest list of items whose records
/// stand at the front.
pub fn items_are_longest()
    ensures { ItemsAreLongest }
{}
