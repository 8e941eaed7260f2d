//! The frames in a record that was taken.
ghost use Rattle.std.specs.Prelude.{◌≡◌, ◌+◌, ◌*◌, ◌≤◌, length};
ghost use Rattle.frame_ring.specs.Records.{record_of};
ghost use Rattle.frame_writer.specs.Frame.{unnumbered};
ghost use Rattle.xcp_base.specs.Samples.{SampleParts};
ghost use Rattle.xcp_base.specs.declared.item.Item.TheVariants.{Sample};

use crate::block::Block;
use crate::record::HEAD;

/// The frames in the record of a sample, one behind another, each with a CTR of 0; they have `len`
/// bytes, as its head tells.
pub fn frames_of(blocks: &[Block], len: usize) -> &[u8]
    requires { 16 + len ≤ 8 * length blocks.now }
    ensures { (s : SampleParts) → blocks.now ≡ record_of (Sample s)
        → len ≡ length (unnumbered s.packets) → result.now ≡ unnumbered s.packets }
{
    &blocks.as_flattened()[HEAD..HEAD + len]
}
