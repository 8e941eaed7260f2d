//! A slave and its tasks are opened with a profile.
ghost use Rattle.std.specs.Prelude.{◌≡◌, [], IfErr, IfOk, OnOk, length, map};
ghost use Rattle.slave.specs.Openings.{capacities_in};
ghost use Rattle.slave.specs.Refusals.{CanOpen, IsOpenRefusal};
ghost use Rattle.slave.specs.Standing.{SlaveStandsAfter};
ghost use Rattle.slave_channels.specs.Calls.{rings_of};
ghost use Rattle.tasks.specs.Tasks.{just_begun};

use crate::plan::Plan;
use crate::slave::Slave;
use frame_ring::FrameSend;
use session::{EventChannel, Profile, ProfileFault, Session};
use slave_channels::{Account, Channels};
use slave_outbox::Outbox;
use std::alloc::{AllocError, Global};
use tasks::Task;
use thiserror::Error;

/// Why a slave was not opened.
#[derive(Clone, Copy, Debug, PartialEq, Eq, Error)]
pub enum OpenFault {
    /// The profile is out of a limit.
    #[error("{0}")]
    Profile(ProfileFault),
    /// There is no memory.
    #[error("out of memory")]
    Memory,
}

/// The capacities of event channels.
fn capacities(alloc: Global, events: &[EventChannel]) -> Result<Vec<usize>, AllocError>
    ensures value { IfOk result (λ caps. caps.items ≡ capacities_in events.now) }
{
    let mut caps = Vec::new(alloc);
    for c in 0..events.len() {
        caps.push(events[c].capacity)?;
    }
    Ok(caps)
}

impl Slave {
    /// A slave with this profile, and the tasks of its event channels, in their order, each on a
    /// line with this slave. No master is connected, there is no DAQ list, and nothing waits.
    ///
    /// Refused with `Profile` if the profile is out of a limit, with the first of them; else with
    /// `Memory` if there is no memory.
    pub fn open(alloc: Global, profile: Profile) -> Result<(Slave, Vec<Task<FrameSend>>), OpenFault>
        ensures can { OnOk result (CanOpen profile) }
        ensures refusal { IfErr result (IsOpenRefusal profile) }
        ensures profile { IfOk result (λ made. made.0.session.profile ≡ profile) }
        ensures stands { IfOk result (λ made. SlaveStandsAfter profile made.0 []) }
        ensures counts { IfOk result (λ made. made.0.acts ≡ 0) }
        ensures next { IfOk result (λ made. made.0.next ≡ 0) }
        ensures none_shown { IfOk result (λ made. made.0.outbox.shown ≡ 0) }
        ensures channels { IfOk result
            (λ made. length made.0.channels ≡ length profile.events.items) }
        ensures tasks { IfOk result
            (λ made. made.1.items ≡ map just_begun (rings_of made.0.channels)) }
    {
        if let Some(fault) = profile.fault() {
            return Err(OpenFault::Profile(fault));
        }
        let Ok(caps) = capacities(alloc, &profile.events) else {
            return Err(OpenFault::Memory);
        };
        let Ok(session) = Session::open(alloc, profile) else {
            unreachable!()
        };
        let Ok(outbox) = Outbox::new(alloc) else {
            return Err(OpenFault::Memory);
        };
        let Ok((channels, tasks)) = Channels::new(alloc, caps.len()) else {
            return Err(OpenFault::Memory);
        };
        let slave = Slave {
            session,
            outbox,
            channels,
            caps,
            plan: Plan::none(alloc),
            number: 0,
            account: Account::new(),
            acts: 0,
            next: 0,
        };
        Ok((slave, tasks))
    }
}
