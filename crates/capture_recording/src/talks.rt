//! Who talks to whom.
ghost use Rattle.std.specs.Prelude.{IfSome, IsNone};
ghost use Rattle.capture_recording.specs.Talks.{IsTalk, data_of};
ghost use Rattle.capture_recording.specs.declared.talks.Talk.{Talk};

use crate::ip_data::{IpData, address_of};
use std::net::{IpAddr, SocketAddr};

/// A master and a slave that talk.
#[derive(Clone, Copy)]
pub struct Talk {
    /// The slave's address.
    pub slave: IpAddr,
    /// The master.
    pub master: SocketAddr,
    /// Whether the master sends.
    pub is_of_master: bool,
}

/// Who talks, of whom the slave has this port: who sends to it is a master. What is sent to several
/// receivers takes no part.
pub fn talk_of(carried: &IpData<'_>, port: u16) -> Option<Talk>
    ensures some { IfSome result (IsTalk port (data_of carried.now)) }
    ensures none { IsNone result → (talk : Talk) → IsTalk port (data_of carried.now) talk → ⊥ }
{
    let (from_port, to_port) = carried.ports()?;
    let from = address_of(carried.from)?;
    let to = address_of(carried.to)?;
    if to.is_multicast() {
        return None;
    }
    if to_port == port {
        return Some(Talk {
            slave: to,
            master: SocketAddr::new(from, from_port),
            is_of_master: true,
        });
    }
    if from_port != port {
        return None;
    }
    Some(Talk {
        slave: from,
        master: SocketAddr::new(to, to_port),
        is_of_master: false,
    })
}
