//! The numbers by which C names identification fields and kinds of rings.
ghost use Rattle.std.specs.Prelude.{◌≡◌};
ghost use Rattle.c_engine.specs.Kinds.{kind_of, ring_of};

use xcp_base::{IdKind, RingKind};

/// The identification field with this number, which is that of `ng_id_kind` in `nerthogal.h`; there
/// are those of 0, 1 and 2.
pub fn kind_numbered(number: u32) -> Option<IdKind>
    ensures { result ≡ kind_of number }
{
    match number {
        0 => Some(IdKind::Absolute),
        1 => Some(IdKind::RelativeByte),
        2 => Some(IdKind::RelativeWord),
        _ => None,
    }
}

/// The kind of ring with this number, which is that of `ng_ring` in `nerthogal.h`; there are those
/// of 0 and 1.
pub fn ring_numbered(number: u32) -> Option<RingKind>
    ensures { result ≡ ring_of number }
{
    match number {
        0 => Some(RingKind::Samples),
        1 => Some(RingKind::Bytes),
        _ => None,
    }
}
