//! Texts of run files, from parts.
use run_file::Run;
use std::alloc::Global;
use std::process::Abort;

/// Two event channels, images of one byte, and a ring of one place for each.
pub const TWO_PLACES: &str = "channels = 2\nimage_len = 1\ncaps = [1, 1]\n";

/// The same with a ring of 532 bytes for each.
pub const TWO_RINGS_OF_BYTES: &str =
    "channels = 2\nimage_len = 1\nring = 'bytes'\ncaps = [532, 532]\n";

/// One event channel, images of 63 bytes, and a ring of 532 bytes, in which one item of a list of
/// eight ODTs with the whole image has room.
pub const ONE_BIG_PLACE: &str = "channels = 1\nimage_len = 63\nring = 'bytes'\ncaps = [532]\n";

/// The set-up of such a list, which then runs.
pub const BIG_LIST: &str = "setup = ['d6', 'd5000100', 'd400000008',
  'd30000000001', 'd30000000101', 'd30000000201', 'd30000000301',
  'd30000000401', 'd30000000501', 'd30000000601', 'd30000000701',
  'e20000000000', 'e1ff3f0000000000',
  'e20000000100', 'e1ff3f0000000000',
  'e20000000200', 'e1ff3f0000000000',
  'e20000000300', 'e1ff3f0000000000',
  'e20000000400', 'e1ff3f0000000000',
  'e20000000500', 'e1ff3f0000000000',
  'e20000000600', 'e1ff3f0000000000',
  'e20000000700', 'e1ff3f0000000000',
  'e000000000000100', 'de010000']\n";

/// The set-up of two lists of one entry of one byte, each on an event channel of its own, which
/// then run.
pub const TWO_LISTS: &str = "setup = ['d6', 'd5000200', 'd400000001', 'd400010001',
  'd30000000001', 'd30001000001',
  'e20000000000', 'e1ff010000000000', 'e000000000000100',
  'e20001000000', 'e1ff010000000000', 'e000010001000100',
  'de010000', 'de010100']\n";

/// 31 and 32 bytes of an image.
pub const ZEROS_31: &str = "00000000000000000000000000000000000000000000000000000000000000";

pub const ZEROS_32: &str = "0000000000000000000000000000000000000000000000000000000000000000";

/// The run of some parts of a text, one behind another.
pub fn run_of(rt: &impl Abort, alloc: Global, parts: &[&str]) -> Run {
    let text = parts.concat(alloc).expect(rt, "memory");
    Run::read(alloc, &text).expect(rt, "a run")
}
