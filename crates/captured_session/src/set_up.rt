//! What is known of a slave's set-up.
ghost use Rattle.std.specs.Prelude.{◌≡◌};
ghost use Rattle.std.specs.Option.{option_copied};
ghost use Rattle.captured_session.specs.SetUps.{reply_of};

use crate::command::{Command, command_in};
use crate::fact::Fact;
use crate::facts::{frees, push_facts};
use crate::form::Form;
use crate::limits::MAX_FACTS;
use crate::outcome::Outcome;
use crate::outcomes::outcome_of;
use crate::pointer::Pointer;
use crate::pointers::pointer_behind;
use crate::session_fault::SessionFault;
use crate::told_forms::form_behind;
use std::alloc::Global;
use std::marker::Model;

/// What is known of a slave's set-up: how its packets look, where the next entry is written, and
/// what is known of the DAQ lists.
#[derive(Drop)]
pub struct SetUp {
    form: Form,
    pointer: Pointer,
    facts: Vec<Fact>,
}

impl Model for SetUp {
    ghost use Rattle.captured_session.specs.SetUps.{SetUp};

    ghost Value = { SetUp };

    ghost view = { λ a. record { form = a.form; pointer = a.pointer; facts = a.facts.items } };
}

impl SetUp {
    ghost use Rattle.std.specs.Prelude.{◌≡◌, ◌∷◌, ◌++◌, [], ℕ, ◌+◌, ◌<◌, List, Err, OnErr, OnOk};
    ghost use Rattle.std.specs.Prelude.{length, if◌then◌else◌, Option};
    ghost use Rattle.std.specs.Option.{option_copied};
    ghost use Rattle.captured_session.specs.Exchanges.{Exchange};
    ghost use Rattle.captured_session.specs.Inner.{behind};
    ghost use Rattle.captured_session.specs.SetUps.{facts_of, frees, set_up_after};
    ghost use Rattle.captured_session.specs.declared.form.Form.{Form};
    ghost use Rattle.captured_session.specs.declared.limits.TheConstants.{MAX_FACTS};
    ghost use Rattle.captured_session.specs.declared.session_fault.SessionFault.TheVariants.{
      ManyFacts,
    };

    /// Nothing is known but how packets look.
    pub fn new(alloc: Global, form: Form) -> SetUp
        ensures { result ≡ set_up_after form [] }
    {
        SetUp {
            form,
            pointer: Pointer::Unknown,
            facts: Vec::new(alloc),
        }
    }

    /// How the packets look.
    pub fn form(&self) -> Form
        ensures { result ≡ self.now.form }
    {
        self.form
    }

    /// What is known of the DAQ lists, with the newest at the end.
    pub fn facts(&self) -> &[Fact]
        ensures { result.now ≡ self.now.facts }
    {
        &self.facts
    }

    /// A command ended: with this reply, or with none before the next command. Refused if there is
    /// no memory, or if more than `MAX_FACTS` would be kept; then nothing changes.
    pub fn take(&mut self, packet: &[u8], reply: Option<&[u8]>) -> Result<(), SessionFault>
        ensures ok { (given : Form) (before : List Exchange) → self.old ≡ set_up_after given before
            → OnOk result (self.new
            ≡ set_up_after given ((packet.now, option_copied reply.entry) ∷ before)) }
        ensures stays { OnErr result (self.new ≡ self.old) }
        ensures many { result ≡ Err ManyFacts → MAX_FACTS < length self.old.facts + 256 }
    {
        self.go_on(packet, reply)
    }

    /// The same, of what stands.
    pub(crate) fn go_on(&mut self, packet: &[u8], reply: Option<&[u8]>) -> Result<(), SessionFault>
        ensures ok { OnOk result
            (self.new ≡ behind self.old packet.now (option_copied reply.entry)) }
        ensures stays { OnErr result (self.new ≡ self.old) }
        ensures many { result ≡ Err ManyFacts → MAX_FACTS < length self.old.facts + 256 }
    {
        let command = command_in(self.form.order, packet);
        let outcome = outcome_of(reply);
        let told = bytes_of(reply);
        self.note(packet, told, outcome, command)?;
        self.pointer = pointer_behind(command, outcome, self.pointer);
        self.form = form_behind(command, outcome, told, self.form);
        Ok(())
    }

    /// Commands may be missing in the capture: nothing is known but how packets look.
    pub(crate) fn forget(&mut self)
        ensures { self.new ≡ behind self.old [] None }
    {
        self.pointer = Pointer::Unknown;
        self.facts.clear();
    }

    /// What a command tells of the DAQ lists.
    fn note(
        &mut self,
        packet: &[u8],
        reply: &[u8],
        outcome: Outcome,
        command: Command,
    ) -> Result<(), SessionFault>
        ensures ok { OnOk result (self.new ≡ record self.old {
          facts = (if frees command outcome then [] else self.old.facts)
              ++ facts_of self.old.form.order self.old.pointer packet.now reply.now command outcome;
        }) }
        ensures stays { OnErr result (self.new ≡ self.old) }
        ensures many { result ≡ Err ManyFacts → MAX_FACTS < length self.old.facts + 256 }
    {
        if frees(command, outcome) {
            self.facts.clear();
            return Ok(());
        }
        self.add(packet, reply, outcome, command)
    }

    /// The same, of a command that doesn't begin a set-up anew.
    fn add(
        &mut self,
        packet: &[u8],
        reply: &[u8],
        outcome: Outcome,
        command: Command,
    ) -> Result<(), SessionFault>
        ensures ok { OnOk result (self.new ≡ record self.old {
          facts = self.old.facts
              ++ facts_of self.old.form.order self.old.pointer packet.now reply.now command outcome;
        }) }
        ensures stays { OnErr result (self.new ≡ self.old) }
        ensures many { result ≡ Err ManyFacts → MAX_FACTS < length self.old.facts + 256 }
    {
        let before = self.facts.len();
        if before + 255 > MAX_FACTS {
            return Err(SessionFault::ManyFacts);
        }
        let order = self.form.order;
        let facts = &mut self.facts;
        if push_facts(facts, order, self.pointer, packet, reply, outcome, command).is_err() {
            self.facts.truncate(before);
            return Err(SessionFault::Memory);
        }
        Ok(())
    }
}

/// The bytes of a reply; without one there are none.
fn bytes_of(reply: Option<&[u8]>) -> &[u8]
    ensures { result.now ≡ reply_of (option_copied reply.entry) }
{
    reply.unwrap_or(&[])
}
