//! The comparison that all tables of tests call.
use std::fmt::Debug;
use std::process::Abort;

/// Compares what is shown with what is wanted, in a row of a table. A test has one call of this for
/// each comparison, since a macro in its own body is proved anew at each place.
pub fn same<T: Copy + Debug + PartialEq>(
    rt: &impl Abort,
    shown: T,
    wanted: T,
    row: &str,
    what: &str,
) {
    assert_eq!(rt; shown, wanted, "{row}: {what}");
}
