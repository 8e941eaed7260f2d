//! The records that a group was handed, which only clauses read. At run time it is nothing.
ghost use Rattle.std.specs.Prelude.{◌≡◌, ◌++◌, ◌∷◌, List, [], ℕ};
ghost use Rattle.std.specs.Borrow.{ftrue};

use std::marker::{Model, PhantomData};

/// A list of records of which no byte is kept.
#[derive(Drop)]
pub struct RecordLog {
    marker: PhantomData<u8>,
    pub ghost records: { List (List ℕ) },
}

impl Model for RecordLog {
    ghost also_owns = { λ _. ftrue };
}

impl RecordLog {
    /// No records.
    pub fn new() -> RecordLog
        ensures { result.records ≡ [] }
    {
        RecordLog {
            marker: PhantomData,
        }
    }

    /// This record was handed over too.
    pub fn note(&mut self, _bytes: &[u8])
        ensures { self.new.records ≡ self.old.records ++ _bytes.now ∷ [] }
    {}
}
