//! The bytes that were sent, and those that a peek showed, which only clauses read.
ghost use Rattle.std.specs.Prelude.{◌≡◌, ◌++◌, List, [], ℕ};
ghost use Rattle.std.specs.Borrow.{ftrue};

use std::marker::{Model, PhantomData};

/// Bytes that were sent, and others that were shown since, of which no byte is kept. At run time it
/// is nothing.
#[derive(Drop)]
pub struct SentLog {
    marker: PhantomData<u8>,
    pub ghost sent: { List ℕ },
    pub ghost shown: { List ℕ },
}

impl Model for SentLog {
    ghost also_owns = { λ _. ftrue };
}

impl SentLog {
    /// Nothing was sent or shown.
    pub fn new() -> SentLog
        ensures { (result.sent ≡ []) × (result.shown ≡ []) }
    {
        SentLog {
            marker: PhantomData,
        }
    }

    /// These bytes are shown, in place of those before.
    pub fn show(&mut self, _bytes: &[u8])
        ensures { (self.new.sent ≡ self.old.sent) × (self.new.shown ≡ _bytes.now) }
    {}

    /// Those that are shown were sent. `_none` is read by nobody.
    pub fn sent(&mut self, _none: &[u8])
        ensures { (self.new.sent ≡ self.old.sent ++ self.old.shown) × (self.new.shown ≡ []) }
    {}
}
