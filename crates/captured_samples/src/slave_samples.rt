//! The samples of a slave.
ghost use Rattle.std.specs.Prelude.{◌≡◌, length, true};
ghost use Rattle.std.specs.Option.{option_copied};
ghost use Rattle.captured_samples.specs.Frames.{is_connect, is_connected, is_sample};

use crate::counter_steps::{CounterStep, counter_step};
use crate::last_command::LastCommand;
use crate::list_states::ListStates;
use crate::sample_sink::SampleSink;
use crate::taken::Taken;
use crate::tallies::Tallies;
use captured_session::{CapturedSession, Form, SessionFault, SetUp, Side, is_same_form};
use std::alloc::{AllocError, Global};
use std::marker::Model;

/// Reads the samples of a slave off the frames that it and its master send.
#[derive(Drop)]
pub struct SlaveSamples {
    session: CapturedSession,
    lists: ListStates,
    is_changed: bool,
    counter: Option<u16>,
    command: LastCommand,
    tallies: Tallies,
}

impl Model for SlaveSamples {
    ghost use Rattle.captured_samples.specs.Slaves.{SlaveOf};

    ghost Value = { SlaveOf };

    ghost view = { λ a. record {
      session = a.session;
      lists = a.lists;
      is_changed = a.is_changed;
      counter = a.counter;
      command = a.command;
      tallies = a.tallies;
    } };
}

impl SlaveSamples {
    ghost use Rattle.std.specs.Prelude.{◌≡◌, ◌≢◌, ◌∷◌, ◌++◌, [], Err, List, OnOk};
    ghost use Rattle.captured_session.specs.Exchanges.{Heard, waiting};
    ghost use Rattle.captured_session.specs.declared.session_fault.SessionFault.TheVariants.{
      ManyFacts,
    };
    ghost use Rattle.captured_samples.specs.Frames.{Came, ReadOf, anew, heard_with, jumps};
    ghost use Rattle.captured_samples.specs.Frames.{of_master, of_slave, with_missing};
    ghost use Rattle.captured_samples.specs.Frames.{read_of, step_of, with_frame};
    ghost use Rattle.captured_samples.specs.Inner.{SameCounters};
    ghost use Rattle.captured_samples.specs.Slaves.{AllRead, IsFull, Keeps, StandsAfter, StandsBy};
    ghost use Rattle.captured_samples.specs.Slaves.{Tells, lists_in};
    ghost use Rattle.captured_samples.specs.Standing.{ListsIn, Start, begins_anew, come_to};
    ghost use Rattle.captured_samples.specs.Standing.{for_each, hands};
    ghost use Rattle.captured_samples.specs.Standing.{lists_of, marked, read_anew, set_up_by};
    ghost use Rattle.captured_samples.specs.Standing.{set_up_of};
    ghost use Rattle.captured_samples.specs.Standing.{told_at_gap, told_by, told_of_packet};
    ghost use Rattle.captured_samples.specs.Standing.{with_any};
    ghost use Rattle.captured_samples.specs.Standing.{with_packet, with_slave};
    ghost use Rattle.captured_samples.specs.declared.counter_steps.CounterStep.TheVariants.{Behind};

    /// Nothing was heard. Packets look like this until the slave says otherwise.
    pub fn new(alloc: Global, form: Form) -> SlaveSamples
        ensures { (start : Start) → start.given ≡ form → StandsAfter start [] result }
    {
        SlaveSamples {
            session: CapturedSession::new(alloc, form),
            lists: ListStates::new(alloc),
            is_changed: false,
            counter: None,
            command: LastCommand::new(alloc),
            tallies: Tallies::NONE,
        }
    }

    /// What became of the frames of the slave.
    pub fn tallies(&self) -> Tallies
        ensures { result ≡ self.now.tallies }
    {
        self.tallies
    }

    /// How the slave's packets look.
    pub fn form(&self) -> Form
        ensures { result ≡ self.now.session.set_up.form }
    {
        self.session.set_up().form()
    }

    /// The master's next frame. A copy of its last one changes nothing. If its counter jumps,
    /// commands may be missing in front of it, so that no list is known any longer.
    ///
    /// Refused if what the commands told may be more than `MAX_FACTS`, and for want of memory.
    pub fn hear_master(&mut self, counter: u16, packet: &[u8]) -> Result<(), SessionFault>
        ensures stands { (start : Start) (h : List Came) → StandsAfter start h self.old
            → OnOk result (StandsAfter start (of_master counter packet.now ∷ h) self.new) }
        ensures many { (start : Start) (h : List Came) → StandsAfter start h self.old
            → result ≡ Err ManyFacts → IsFull (set_up_of start h) }
    {
        if self.command.is_copy(counter, packet) {
            return Ok(());
        }
        self.miss_commands(counter, packet);
        self.hear(Side::Master, packet)?;
        let Ok(()) = self.command.note(counter, packet) else {
            return Err(SessionFault::Memory);
        };
        Ok(())
    }

    /// In front of the master's next frame commands may be missing.
    fn miss_commands(&mut self, counter: u16, packet: &[u8])
        ensures stands { (start : Start) (heard : List Heard) (ls : ListsIn)
            → Keeps start heard ls self.old
            → Keeps start (with_missing (jumps self.old.command counter packet.now) heard) ls
            self.new }
        ensures stays { SameCounters self.old self.new }
    {
        if self.command.jumps(counter, packet) {
            self.session.miss();
            self.is_changed = true;
        }
    }

    /// The slave's next frame: a reply, or a packet of a sample. One that is late, or a copy,
    /// changes nothing; behind missing ones each list's next sample is marked. Refused as the
    /// master's are.
    pub fn hear_slave<S: SampleSink>(
        &mut self,
        counter: u16,
        packet: &[u8],
        sink: &mut S,
    ) -> Result<(), SessionFault>
        ensures stands { (start : Start) (h : List Came) → StandsAfter start h self.old
            → OnOk result (StandsAfter start (of_slave counter packet.now ∷ h) self.new) }
        ensures told { (start : Start) (h : List Came) → StandsAfter start h self.old
            → OnOk result (Tells (S.told sink.old) (S.told sink.new)
            (told_by start (set_up_of start h) (step_of (read_of h) counter packet.now) packet.now
            (lists_of start h))) }
        ensures many { (start : Start) (h : List Came) → StandsAfter start h self.old
            → result ≡ Err ManyFacts → IsFull (set_up_of start h) }
    {
        match self.step_of(counter, packet) {
            CounterStep::Behind => {
                self.tallies.behind = self.tallies.behind.saturating_add(1);
                Ok(())
            }
            step => self.hear_next(step, counter, packet, sink),
        }
    }

    /// A new connection: the slave counts anew.
    pub fn begin_anew(&mut self)
        ensures { (start : Start) (h : List Came) → StandsAfter start h self.old
            → StandsAfter start (anew ∷ h) self.new }
    {
        self.counter = None;
        self.lists.break_all();
    }

    /// How a frame's counter goes on: behind CONNECT the slave counts anew.
    fn step_of(&self, counter: u16, packet: &[u8]) -> CounterStep
        ensures { (r : ReadOf) → self.now.counter ≡ r.counter
            → self.now.session.waiting ≡ waiting r.heard
            → result ≡ step_of r counter packet.now }
    {
        if is_connected(packet) && is_connect(self.session.waiting()) {
            return CounterStep::First;
        }
        counter_step(self.counter, counter)
    }

    /// The slave's next frame, which isn't behind.
    fn hear_next<S: SampleSink>(
        &mut self,
        step: CounterStep,
        counter: u16,
        packet: &[u8],
        sink: &mut S,
    ) -> Result<(), SessionFault>
        requires { step ≢ Behind }
        ensures stands { (start : Start) (r : ReadOf) (ls : ListsIn) → StandsBy start r ls self.old
            → OnOk result (StandsBy start (with_frame r counter packet.now step)
            (with_slave start (set_up_by start r.heard) step packet.now ls) self.new) }
        ensures told { (start : Start) (r : ReadOf) (ls : ListsIn) → StandsBy start r ls self.old
            → OnOk result (Tells (S.told sink.old) (S.told sink.new)
            (told_by start (set_up_by start r.heard) step packet.now ls)) }
        ensures many { (start : Start) (r : ReadOf) (ls : ListsIn) → StandsBy start r ls self.old
            → result ≡ Err ManyFacts → IsFull (set_up_by start r.heard) }
    {
        let Ok(()) = self.come_to(step, sink) else {
            return Err(SessionFault::Memory);
        };
        self.counter = Some(counter);
        self.tallies.frames = self.tallies.frames.saturating_add(1);
        self.look_at(packet, sink)
    }

    /// The packet of the slave's next frame.
    fn look_at<S: SampleSink>(&mut self, packet: &[u8], sink: &mut S) -> Result<(), SessionFault>
        ensures stands { (start : Start) (heard : List Heard) (ls : ListsIn)
            → Keeps start heard ls self.old
            → OnOk result (Keeps start (heard_with packet.now heard)
            (with_any start (set_up_by start heard) packet.now ls) self.new) }
        ensures stays { OnOk result (SameCounters self.old self.new) }
        ensures told { (start : Start) (heard : List Heard) (ls : ListsIn)
            → Keeps start heard ls self.old
            → OnOk result (Tells (S.told sink.old) (S.told sink.new)
            (told_of_packet start (set_up_by start heard) packet.now ls)) }
        ensures many { (start : Start) (heard : List Heard) (ls : ListsIn)
            → Keeps start heard ls self.old
            → result ≡ Err ManyFacts → IsFull (set_up_by start heard) }
    {
        if is_sample(packet) {
            return self.take(packet, sink);
        }
        self.hear(Side::Slave, packet)
    }

    /// Goes on to the next frame of the slave, before its packet is looked at.
    fn come_to<S: SampleSink>(&mut self, step: CounterStep, sink: &mut S) -> Result<(), AllocError>
        ensures stands { (start : Start) (heard : List Heard) (ls : ListsIn)
            → Keeps start heard ls self.old
            → OnOk result (Keeps start heard (come_to start (set_up_by start heard) step ls)
            self.new) }
        ensures stays { OnOk result (SameCounters self.old self.new) }
        ensures told { (start : Start) (heard : List Heard) (ls : ListsIn)
            → Keeps start heard ls self.old
            → OnOk result (Tells (S.told sink.old) (S.told sink.new)
            (told_at_gap start (set_up_by start heard) step ls)) }
    {
        match step {
            CounterStep::First => {
                self.lists.break_all();
                Ok(())
            }
            CounterStep::Jump => self.meet_gap(sink),
            CounterStep::Next | CounterStep::Behind => Ok(()),
        }
    }

    /// Frames are missing.
    fn meet_gap<S: SampleSink>(&mut self, sink: &mut S) -> Result<(), AllocError>
        ensures stands { (start : Start) (heard : List Heard) (ls : ListsIn)
            → Keeps start heard ls self.old
            → OnOk result (Keeps start heard
            (for_each marked (read_anew start (set_up_by start heard) ls)) self.new) }
        ensures stays { OnOk result (SameCounters self.old self.new) }
        ensures told { (start : Start) (heard : List Heard) (ls : ListsIn)
            → Keeps start heard ls self.old
            → OnOk result (Tells (S.told sink.old) (S.told sink.new)
            (begins_anew start (set_up_by start heard) ls)) }
    {
        self.read_lists(sink)?;
        self.lists.mark_all();
        self.tallies.gaps = self.tallies.gaps.saturating_add(1);
        Ok(())
    }

    /// A packet of the session. The set-up may change with a reply, and with a command too, if the
    /// one before has none.
    fn hear(&mut self, side: Side, packet: &[u8]) -> Result<(), SessionFault>
        ensures stands { (start : Start) (heard : List Heard) (ls : ListsIn)
            → Keeps start heard ls self.old
            → OnOk result (Keeps start ((side, packet.now) ∷ heard) ls self.new) }
        ensures stays { OnOk result (SameCounters self.old self.new) }
        ensures many { (start : Start) (heard : List Heard) (ls : ListsIn)
            → Keeps start heard ls self.old
            → result ≡ Err ManyFacts → IsFull (set_up_by start heard) }
    {
        let many = self.session.set_up().facts().len();
        let form = self.session.set_up().form();
        self.session.hear(side, packet)?;
        if !is_alike(self.session.set_up(), many, form) {
            self.is_changed = true;
        }
        Ok(())
    }

    /// A packet of a sample.
    fn take<S: SampleSink>(&mut self, packet: &[u8], sink: &mut S) -> Result<(), SessionFault>
        ensures stands { (start : Start) (heard : List Heard) (ls : ListsIn)
            → Keeps start heard ls self.old
            → OnOk result (Keeps start heard
            (with_packet start (set_up_by start heard) packet.now ls) self.new) }
        ensures stays { OnOk result (SameCounters self.old self.new) }
        ensures told { (start : Start) (heard : List Heard) (ls : ListsIn)
            → Keeps start heard ls self.old
            → OnOk result (Tells (S.told sink.old) (S.told sink.new)
            (begins_anew start (set_up_by start heard) ls
            ++ hands packet.now (read_anew start (set_up_by start heard) ls).lists)) }
        ensures few { result ≡ Err ManyFacts → ⊥ }
    {
        let Ok(()) = self.read_lists(sink) else {
            return Err(SessionFault::Memory);
        };
        match self.lists.take(packet, sink) {
            Ok(taken) => {
                self.tallies = self.tallies.with(taken);
                Ok(())
            }
            Err(_) => Err(SessionFault::Memory),
        }
    }

    /// Reads the lists of the set-up as it stands, if it may have changed.
    fn read_lists<S: SampleSink>(&mut self, sink: &mut S) -> Result<(), AllocError>
        ensures stands { (start : Start) (heard : List Heard) (ls : ListsIn)
            → Keeps start heard ls self.old
            → OnOk result (Keeps start heard
            (read_anew start (set_up_by start heard) ls) self.new) }
        ensures read { (start : Start) (heard : List Heard) (ls : ListsIn)
            → Keeps start heard ls self.old
            → OnOk result (AllRead start (set_up_by start heard)
            (lists_in (read_anew start (set_up_by start heard) ls))) }
        ensures stays { OnOk result (SameCounters self.old self.new) }
        ensures told { (start : Start) (heard : List Heard) (ls : ListsIn)
            → Keeps start heard ls self.old
            → OnOk result (Tells (S.told sink.old) (S.told sink.new)
            (begins_anew start (set_up_by start heard) ls)) }
    {
        if !self.is_changed {
            return Ok(());
        }
        self.lists.read(self.session.set_up(), sink)?;
        self.is_changed = false;
        Ok(())
    }
}

/// Whether a set-up has so many facts and this form.
fn is_alike(set_up: &SetUp, many: usize, form: Form) -> bool
    ensures many { result ≡ true → length set_up.now.facts ≡ many }
    ensures form { result ≡ true → set_up.now.form ≡ form }
{
    set_up.facts().len() == many && is_same_form(set_up.form(), form)
}

/// Whether a packet of a slave is one of a sample.
fn is_sample(packet: &[u8]) -> bool
    ensures { result ≡ is_sample packet.now }
{
    matches!(packet, [0x00..=0xFB, ..])
}

/// Whether a packet may be the reply to CONNECT.
fn is_connected(packet: &[u8]) -> bool
    ensures { result ≡ is_connected packet.now }
{
    match packet {
        [code, rest @ ..] => *code == 0xFF && rest.len() >= 7,
        [] => false,
    }
}

/// Whether the command that waits for its reply is CONNECT.
fn is_connect(waiting: Option<&[u8]>) -> bool
    ensures { result ≡ is_connect (option_copied waiting.entry) }
{
    match waiting {
        Some([code, ..]) => *code == 0xFF,
        _ => false,
    }
}
