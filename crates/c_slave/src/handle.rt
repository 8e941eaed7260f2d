//! The handle of a slave or a task, which C owns.
ghost use Rattle.std.specs.Prelude.{◌≡◌, MatchOption};
ghost use Rattle.std.specs.Borrow.{sem};
ghost use Rattle.std.specs.Option.{option_copied_mut};
ghost use Rattle.std.specs.declared.option.Option.{Option};
ghost use Rattle.std.specs.declared.option.Option.TheVariants.{None, Some};
ghost use Rattle.c_slave.specs.declared.content.Content.{Content as ContentOf};
ghost use Rattle.c_slave.specs.Owned.{coded_held};

use crate::content::Content;
use c_engine::{Hidden, Parts};
use std::alloc::Global;
use std::marker::Model;
use std::mem::replace;

/// A handle of a slave or of one of its tasks, that C owns: something behind a pointer, or nothing.
/// In C it is `ng_slave` and `ng_task`. An engine's handle is a type of its own, since no type that
/// is generic in what is held goes to C.
///
/// Contracts speak of what is `held`. C keeps the two fields as the calls leave them; an empty
/// handle is one whose `full` is false.
#[repr(C)]
pub struct Handle {
    at: *mut Hidden,
    full: bool,
    pub ghost held: { Option ContentOf } by { coded_held },
}

impl Model for Handle {
    ghost use Rattle.c_slave.specs.Owned.{owns_held};

    ghost also_owns = { λ h. owns_held h.full h.at h.held };
}

impl Handle {
    ghost use Rattle.c_slave.specs.HandleLends.{lends_held};

    /// An empty handle.
    fn none() -> Handle
        ensures { result.held ≡ None }
    {
        Handle {
            at: std::ptr::null_mut(),
            full: false,
        }
    }

    /// A handle that holds what these are the parts of.
    fn of_parts(parts: Parts<Content, Global>) -> Handle
        ensures { result.held ≡ Some parts.value }
    {
        let Parts { ptr, alloc: _ } = parts;
        Handle {
            at: ptr as *mut Hidden,
            full: true,
        }
    }

    /// The parts of what is held.
    fn into_parts(self, alloc: Global) -> Option<Parts<Content, Global>>
        ensures { MatchOption result (self.held ≡ None) (λ parts. self.held ≡ Some parts.value) }
    {
        let Handle { at, full } = self;
        if full {
            return Some(Parts {
                ptr: at as *mut Content,
                alloc,
            });
        }
        None
    }

    /// A handle that holds this.
    fn of(content: Box<Content>) -> Handle
        ensures { result.held ≡ Some content.value }
    {
        Handle::of_parts(Parts::of(content))
    }

    /// What is held.
    fn into_box(self, alloc: Global) -> Option<Box<Content>>
        ensures { MatchOption result (self.held ≡ None)
            (λ content. self.held ≡ Some content.value) }
    {
        let parts = self.into_parts(alloc)?;
        Some(parts.into_box())
    }

    /// What is held, to work on in its place; or nothing, if the handle is empty.
    pub fn content(&mut self) -> Option<&mut Content>
        ensures* writes_back { sem 𝓛 (lends_held self.entry result) }
        ensures value { option_copied_mut result ≡ self.old.held }
    {
        if !self.full {
            return None;
        }
        Some(unsafe { &mut *(self.at as *mut Content) })
    }

    /// Takes out what is held, and leaves the handle empty.
    pub fn take(&mut self, alloc: Global) -> Option<Box<Content>>
        ensures taken { MatchOption result (self.old.held ≡ None)
            (λ content. self.old.held ≡ Some content.value) }
        ensures left { self.new.held ≡ None }
    {
        replace(self, Handle::none()).into_box(alloc)
    }

    /// Puts this in. What the handle held is given up.
    pub fn put(&mut self, alloc: Global, content: Box<Content>)
        ensures { self.new.held ≡ Some content.value }
    {
        if let Some(parts) = replace(self, Handle::of(content)).into_parts(alloc) {
            give_up(parts);
        }
    }
}

/// Gives up what a handle held. It stands out of line: a call puts into an empty handle, so there
/// is nothing to give up.
#[inline(never)]
fn give_up(parts: Parts<Content, Global>) {
    let _given_up = parts.into_box();
}

unsafe impl Send for Handle {}
