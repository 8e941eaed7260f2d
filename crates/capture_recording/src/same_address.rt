//! Whether two addresses are one.
ghost use Rattle.std.specs.Prelude.{◌≡◌, ◌↔◌, IsTrue};
ghost use Rattle.std.specs.declared.net.ip_addr.IpAddr.TheVariants.{V4, V6};

use std::net::{IpAddr, Ipv4Addr, Ipv6Addr};

/// Whether two addresses are one.
pub fn is_same_address(a: IpAddr, b: IpAddr) -> bool
    ensures { IsTrue result ↔ (a ≡ b) }
{
    match a {
        IpAddr::V4(a) => is_v4(b, a),
        IpAddr::V6(a) => is_v6(b, a),
    }
}

/// Whether an address is this one of version 4.
fn is_v4(a: IpAddr, own: Ipv4Addr) -> bool
    ensures { IsTrue result ↔ (V4 own ≡ a) }
{
    match a {
        IpAddr::V4(a) => a.octets() == own.octets(),
        IpAddr::V6(_) => false,
    }
}

/// Whether an address is this one of version 6.
fn is_v6(a: IpAddr, own: Ipv6Addr) -> bool
    ensures { IsTrue result ↔ (V6 own ≡ a) }
{
    match a {
        IpAddr::V4(_) => false,
        IpAddr::V6(a) => a.segments() == own.segments(),
    }
}
