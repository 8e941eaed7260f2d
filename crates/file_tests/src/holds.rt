//! The assertion that all tests call.
ghost use Rattle.std.specs.Prelude.{◌≡◌, true};

use std::process::Abort;

/// That something holds, and else what doesn't. A test calls this for each of its assertions, since
/// a macro in its own body is proved anew at each place.
pub fn holds(rt: &impl Abort, is_so: bool, what: &str)
    ensures { is_so ≡ true }
{
    assert!(rt; is_so, "{what}");
}
