//! The packets of a sample, one after another, without a copy.
use std::marker::Model;

/// The packets of a sample that are still to come, in order.
#[derive(Debug, Drop)]
pub struct PacketIter<'a> {
    pub(crate) rest: &'a [u8],
}

impl<'a> Model for PacketIter<'a> {
    ghost use Rattle.std.specs.Prelude.{List, ℕ};
    ghost use Rattle.xcp_base.specs.Inner.{IsWholeBody, packets_in};

    ghost Value = { List (List ℕ) };

    ghost view = { λ a. packets_in a.rest.now };

    ghost invariant = { λ a. IsWholeBody a.rest.now };
}

impl<'a> Iterator for PacketIter<'a> {
    ghost use Rattle.std.specs.Iterator.{YieldsFirstRef, item_count};

    type Item = &'a [u8];

    ghost next_gives = { YieldsFirstRef (λ packets. packets) };

    ghost remaining = { item_count (λ packets. packets) };

    #[inline]
    fn next(&mut self) -> Option<&'a [u8]> {
        let Some((len, behind)) = self.rest.split_first() else {
            return None;
        };
        let (packet, rest) = behind.split_at(*len as usize);
        self.rest = rest;
        Some(packet)
    }
}
