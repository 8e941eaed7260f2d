//! The session of a master and a slave.
ghost use Rattle.std.specs.Prelude.{◌≡◌, IfOk};
ghost use Rattle.captured_session.specs.Exchanges.{is_command, is_lone, is_missing, is_reply};
ghost use Rattle.captured_session.specs.Exchanges.{asked_by, is_synched, left_by};

use crate::form::Form;
use crate::session_fault::SessionFault;
use crate::set_up::SetUp;
use crate::side::Side;
use std::alloc::{AllocError, Global};
use std::marker::Model;

/// The session of a master and a slave, learnt from their packets.
#[derive(Drop)]
pub struct CapturedSession {
    alloc: Global,
    set_up: SetUp,
    waiting: Option<Vec<u8>>,
    to_come: usize,
}

impl Model for CapturedSession {
    ghost use Rattle.std.specs.Prelude.{option_map};
    ghost use Rattle.captured_session.specs.SetUps.{Session};

    ghost Value = { Session };

    ghost view = { λ a. record {
      set_up = a.set_up;
      waiting = option_map (λ v. v.items) a.waiting;
      to_come = a.to_come;
    } };
}

impl CapturedSession {
    ghost use Rattle.std.specs.Prelude.{◌≡◌, ◌∷◌, [], ◌+◌, ◌<◌, List, Err, None, OnErr, OnOk, Some};
    ghost use Rattle.std.specs.Prelude.{length, Option};
    ghost use Rattle.std.specs.Option.{option_copied};
    ghost use Rattle.captured_session.specs.Exchanges.{Heard, awaited};
    ghost use Rattle.captured_session.specs.Inner.{answers, gives_up, hears, misses};
    ghost use Rattle.captured_session.specs.SetUps.{session_after};
    ghost use Rattle.captured_session.specs.declared.form.Form.{Form};
    ghost use Rattle.captured_session.specs.declared.limits.TheConstants.{MAX_FACTS};
    ghost use Rattle.captured_session.specs.declared.session_fault.SessionFault.TheVariants.{
      ManyFacts,
    };

    /// Nothing was heard. Packets look like this until the slave says otherwise.
    pub fn new(alloc: Global, form: Form) -> CapturedSession
        ensures { result ≡ session_after form [] }
    {
        CapturedSession {
            alloc,
            set_up: SetUp::new(alloc, form),
            waiting: None,
            to_come: 0,
        }
    }

    /// What is known of the slave's set-up.
    pub fn set_up(&self) -> &SetUp
        ensures { result.now ≡ self.now.set_up }
    {
        &self.set_up
    }

    /// The command that waits for its reply, if there is one.
    pub fn waiting(&self) -> Option<&[u8]>
        ensures { option_copied result ≡ self.now.waiting }
    {
        match &self.waiting {
            Some(command) => Some(command),
            None => None,
        }
    }

    /// How many bytes of an UPLOAD are still to come, which more replies bring.
    pub fn to_come(&self) -> usize
        ensures { result ≡ self.now.to_come }
    {
        self.to_come
    }

    /// The next packet, in the order in which they were sent; each once. A reply that no command
    /// waits for is one to a command that is missing, so that no list is known any longer; but not
    /// if it brings more of an UPLOAD, or is one to SYNCH.
    ///
    /// Refused if there is no memory, or if more than `MAX_FACTS` would be kept; then nothing
    /// changes.
    pub fn hear(&mut self, side: Side, packet: &[u8]) -> Result<(), SessionFault>
        ensures ok { (given : Form) (before : List Heard) → self.old ≡ session_after given before
            → OnOk result (self.new ≡ session_after given ((side, packet.now) ∷ before)) }
        ensures stays { OnErr result (self.new ≡ self.old) }
        ensures many { result ≡ Err ManyFacts → MAX_FACTS < length self.old.set_up.facts + 256 }
    {
        match side {
            Side::Master => self.hear_master(packet),
            Side::Slave => self.hear_slave(packet),
        }
    }

    /// Commands may be missing here, with their replies or without: no list is known any longer.
    /// Of the master a packet without bytes says the same.
    pub fn miss(&mut self)
        ensures { (given : Form) (before : List Heard) → self.old ≡ session_after given before
            → self.new ≡ session_after given ((Side.Master, []) ∷ before) }
    {
        self.lose();
    }

    /// A packet of the master.
    fn hear_master(&mut self, packet: &[u8]) -> Result<(), SessionFault>
        ensures ok { OnOk result (self.new ≡ hears Side.Master packet.now self.old) }
        ensures stays { OnErr result (self.new ≡ self.old) }
        ensures many { result ≡ Err ManyFacts → MAX_FACTS < length self.old.set_up.facts + 256 }
    {
        if is_missing(packet) {
            self.lose();
            return Ok(());
        }
        if !is_command(packet) {
            return Ok(());
        }
        let Ok(next) = copied(self.alloc, packet) else {
            return Err(SessionFault::Memory);
        };
        self.give_up()?;
        self.waiting = Some(next);
        self.to_come = 0;
        Ok(())
    }

    /// Commands may be missing.
    fn lose(&mut self)
        ensures { self.new ≡ misses self.old }
    {
        self.set_up.forget();
        self.waiting = None;
        self.to_come = 0;
    }

    /// A packet of the slave.
    fn hear_slave(&mut self, packet: &[u8]) -> Result<(), SessionFault>
        ensures ok { OnOk result (self.new ≡ hears Side.Slave packet.now self.old) }
        ensures stays { OnErr result (self.new ≡ self.old) }
        ensures many { result ≡ Err ManyFacts → MAX_FACTS < length self.old.set_up.facts + 256 }
    {
        if !is_reply(packet) {
            return Ok(());
        }
        let left = left_by(packet, self.awaited());
        self.answer(packet)?;
        self.waiting = None;
        self.to_come = left;
        Ok(())
    }

    /// The command that waits, if there is one, has no reply.
    fn give_up(&mut self) -> Result<(), SessionFault>
        ensures ok { OnOk result (self.new ≡ record self.old {
          set_up = gives_up self.old.waiting self.old.set_up;
        }) }
        ensures stays { OnErr result (self.new ≡ self.old) }
        ensures many { result ≡ Err ManyFacts → MAX_FACTS < length self.old.set_up.facts + 256 }
    {
        match &self.waiting {
            Some(command) => self.set_up.go_on(command, None),
            None => Ok(()),
        }
    }

    /// It has this reply. If none waits, one may be missing.
    fn answer(&mut self, reply: &[u8]) -> Result<(), SessionFault>
        ensures ok { OnOk result (self.new ≡ record self.old {
          set_up = answers self.old.waiting self.old.to_come reply.now self.old.set_up;
        }) }
        ensures stays { OnErr result (self.new ≡ self.old) }
        ensures many { result ≡ Err ManyFacts → MAX_FACTS < length self.old.set_up.facts + 256 }
    {
        match &self.waiting {
            Some(command) => self.set_up.go_on(command, Some(reply)),
            None => {
                self.answer_none(reply);
                Ok(())
            }
        }
    }

    /// A reply that no command waits for.
    fn answer_none(&mut self, reply: &[u8])
        ensures { self.new ≡ record self.old {
          set_up = answers None self.old.to_come reply.now self.old.set_up;
        } }
    {
        if is_lone(self.to_come, reply) {
            self.set_up.forget();
        }
    }

    /// How many bytes of an UPLOAD the next reply may bring.
    fn awaited(&self) -> usize
        ensures { result ≡ awaited self.now.waiting self.now.to_come }
    {
        match &self.waiting {
            Some(command) => asked_by(command),
            None => self.to_come,
        }
    }
}

/// A copy of some bytes.
fn copied(alloc: Global, bytes: &[u8]) -> Result<Vec<u8>, AllocError>
    ensures { IfOk result (λ copy. copy.items ≡ bytes.now) }
{
    let mut copy = Vec::new(alloc);
    copy.extend_from_slice(bytes)?;
    Ok(copy)
}

/// Whether a packet of a master is a command.
fn is_command(packet: &[u8]) -> bool
    ensures { result ≡ is_command packet.now }
{
    matches!(packet, [0xC0..=0xFF, ..])
}

/// Whether a packet stands where commands may be missing.
fn is_missing(packet: &[u8]) -> bool
    ensures { result ≡ is_missing packet.now }
{
    matches!(packet, [])
}

/// Whether a packet of a slave is a reply.
fn is_reply(packet: &[u8]) -> bool
    ensures { result ≡ is_reply packet.now }
{
    matches!(packet, [0xFE..=0xFF, ..])
}

/// Whether a reply that no command waits for is one to a command that is missing, if so many bytes
/// of an UPLOAD are still to come.
pub fn is_lone(to_come: usize, reply: &[u8]) -> bool
    ensures { result ≡ is_lone to_come reply.now }
{
    to_come == 0 && !is_synched(reply)
}

/// Whether a reply is the one to SYNCH.
fn is_synched(reply: &[u8]) -> bool
    ensures { result ≡ is_synched reply.now }
{
    matches!(reply, [0xFE, 0, ..])
}

/// How many bytes a command asks for, if it is UPLOAD: a slave may send them in several replies.
fn asked_by(command: &[u8]) -> usize
    ensures { result ≡ asked_by command.now }
{
    match command {
        [0xF5, n, ..] => *n as usize,
        _ => 0,
    }
}

/// How many of so many bytes are still to come behind a reply.
fn left_by(reply: &[u8], n: usize) -> usize
    ensures { result ≡ left_by reply.now n }
{
    match reply {
        [0xFF, bytes @ ..] => n.saturating_sub(bytes.len()),
        _ => 0,
    }
}
