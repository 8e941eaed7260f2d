//! The links whose frames are read.

/// What a link type says how an IP packet stands in a frame (LINKTYPE of tcpdump.org).
#[derive(Clone, Copy)]
pub enum Link {
    /// Ethernet, with VLAN tags or without: 1.
    Ethernet,
    /// Linux cooked capture, version 1: 113.
    Cooked1,
    /// Linux cooked capture, version 2: 276.
    Cooked2,
    /// The packet itself: 101, 12 or 14, 228, 229.
    Raw,
    /// A loopback interface, with a protocol family in the byte order of the machine: 0.
    Null,
    /// One with the most significant byte first: 108.
    Loop,
    /// Another link, whose frames aren't read.
    Other,
}

impl Link {
    ghost use Rattle.std.specs.Prelude.{◌≡◌};
    ghost use Rattle.datagrams.specs.LinkTypes.{link_of};

    /// The link of a type.
    pub fn of(link_type: u16) -> Link
        ensures { result ≡ link_of link_type }
    {
        match link_type {
            0 => Link::Null,
            1 => Link::Ethernet,
            12 | 14 | 101 | 228 | 229 => Link::Raw,
            108 => Link::Loop,
            113 => Link::Cooked1,
            276 => Link::Cooked2,
            _ => Link::Other,
        }
    }
}
