//! The trait of whoever makes sinks for slaves.

use crate::capture_sink::CaptureSink;
use std::net::IpAddr;

/// Who makes a sink for each slave.
pub trait Sinks {
    ghost use Rattle.std.specs.Prelude.{◌≢◌, ◌↔◌, [], IfSome, IsNone};
    ghost use Rattle.std.specs.declared.net.ip_addr.IpAddr.{IpAddr};

    /// What is handed the samples of a slave.
    type Sink: CaptureSink + Drop;

    /// Whether the samples of the slave at an address are to be read, of one that wasn't met.
    ghost reads: { Self → IpAddr → Type 0 };

    /// The sink of a slave that is met for the first time; `None`: its samples aren't read.
    fn sink_of(&mut self, address: IpAddr) -> Option<Self::Sink>
        ensures some { IfSome result (λ _. reads self.old address) }
        ensures none { IsNone result → reads self.old address → ⊥ }
        ensures unread { IsNone result → (a : IpAddr) → reads self.new a ↔ reads self.old a }
        ensures others { (a : IpAddr) → a ≢ address → reads self.new a ↔ reads self.old a }
        ensures untold { IfSome result (λ sink. Self.Sink.told sink []) };
}
