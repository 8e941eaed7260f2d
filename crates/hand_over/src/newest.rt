//! The last two values are kept: with one more, the newest becomes the older.
ghost use Rattle.std.specs.Prelude.{◌≡◌, Some};
ghost use Rattle.hand_over.specs.Newest.{one_before};

/// Keeps another one as the newest, before which the newest is the older.
pub fn keep_newest<T: Drop>(older: &mut Option<T>, newer: &mut Option<T>, another: T)
    ensures newer { newer.new ≡ Some another }
    ensures older { older.new ≡ one_before older.old newer.old }
{
    if let Some(before) = newer.replace(another) {
        *older = Some(before);
    }
}
