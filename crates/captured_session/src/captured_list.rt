//! A DAQ list of a captured session.
ghost use Rattle.std.specs.Prelude.{◌≡◌, ◌↔◌, IsTrue, map};
ghost use Rattle.captured_session.specs.Alike.{SamePids};

use crate::element::Element;
use crate::form::Form;
use crate::id_field::IdField;
use crate::list_mode::ListMode;
use crate::stamps::stamp_len;
use std::marker::Model;

/// A DAQ list of a captured session whose packets can be read: its mode, and its entries, which are
/// all known, ODT by ODT.
#[derive(Drop)]
pub struct CapturedList {
    pub(crate) list: u16,
    pub(crate) form: Form,
    pub(crate) mode: ListMode,
    pub(crate) first_pid: Option<u8>,
    pub(crate) odts: Vec<Vec<Element>>,
}

impl Model for CapturedList {
    ghost use Rattle.std.specs.Prelude.{◌≤◌, All, length, map};
    ghost use Rattle.captured_session.specs.Lists.{ListOf};

    ghost Value = { ListOf };

    ghost view = { λ a. record {
      list = a.list;
      form = a.form;
      mode = a.mode;
      first_pid = a.first_pid;
      odts = map (λ v. v.items) a.odts.items;
    } };

    ghost invariant = { λ a. (length a.odts.items ≤ 255)
        × All (λ xs. length xs.items ≤ 255) a.odts.items };
}

impl CapturedList {
    ghost use Rattle.std.specs.Prelude.{◌≡◌, ◌<◌, ◌≤◌, ◌↔◌, IsTrue, length, slice_index_or, []};
    ghost use Rattle.captured_session.specs.Alike.{ReadsAlike};
    ghost use Rattle.captured_session.specs.Lists.{stamp_len};

    /// The number of the list.
    pub fn list(&self) -> u16
        ensures { result ≡ self.now.list }
    {
        self.list
    }

    /// How the packets of the slave look.
    pub fn form(&self) -> Form
        ensures { result ≡ self.now.form }
    {
        self.form
    }

    /// The mode of the list.
    pub fn mode(&self) -> ListMode
        ensures { result ≡ self.now.mode }
    {
        self.mode
    }

    /// With which PID those of the list begin, if that was told.
    pub fn first_pid(&self) -> Option<u8>
        ensures { result ≡ self.now.first_pid }
    {
        self.first_pid
    }

    /// The bytes of a timestamp, in the first packet of a sample.
    pub fn stamp_len(&self) -> usize
        ensures value { result ≡ stamp_len self.now.form self.now.mode }
        ensures few { result < 8 }
    {
        stamp_len(self.form, self.mode)
    }

    /// The number of ODTs.
    pub fn odts(&self) -> usize
        ensures value { result ≡ length self.now.odts }
        ensures few { result ≤ 255 }
    {
        self.odts.len()
    }

    /// The entries of an ODT, in their order.
    pub fn entries(&self, odt: usize) -> &[Element]
        requires { odt < length self.now.odts }
        ensures value { result.now ≡ slice_index_or self.now.odts odt [] }
        ensures few { length result.now ≤ 255 }
    {
        &self.odts[odt]
    }

    /// Whether packets are read in the same way by another one. Where packets name their list, it
    /// doesn't matter with which PID those of the list begin.
    pub fn is_same(&self, other: &CapturedList) -> bool
        ensures { IsTrue result ↔ ReadsAlike self.now other.now }
    {
        self.list == other.list
            && is_same_form(self.form, other.form)
            && is_same_mode(self.mode, other.mode)
            && has_same_pids(self.form.field, self.first_pid, other.first_pid)
            && has_same_odts(&self.odts, &other.odts)
    }
}

/// Whether the packets of two slaves look the same.
pub fn is_same_form(a: Form, b: Form) -> bool
    ensures { IsTrue result ↔ (a ≡ b) }
{
    a == b
}

/// Whether two modes are the same.
fn is_same_mode(a: ListMode, b: ListMode) -> bool
    ensures { IsTrue result ↔ (a ≡ b) }
{
    a == b
}

/// Whether the PIDs of two lists begin with the same one, or packets name their list.
fn has_same_pids(field: IdField, a: Option<u8>, b: Option<u8>) -> bool
    ensures { IsTrue result ↔ SamePids field a b }
{
    match field {
        IdField::Absolute => a == b,
        _ => true,
    }
}

/// Whether the ODTs of two lists have the same entries.
fn has_same_odts(a: &[Vec<Element>], b: &[Vec<Element>]) -> bool
    ensures { IsTrue result ↔ (map (λ v. v.items) a.now ≡ map (λ v. v.items) b.now) }
{
    a == b
}
