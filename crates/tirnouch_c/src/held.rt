//! What C holds: a session behind a pointer whose type it doesn't see.

ghost use Rattle.std.specs.Prelude.{◌≡◌, Option, None, Some, is_some, true};
ghost use Rattle.std.specs.Option.{option_map};
ghost use Rattle.tirnouch_c.specs.Slots.{slot_owns};
ghost use Rattle.tirnouch_c.specs.declared.session.Session.{Session};
ghost use Rattle.tirnouch_c.specs.contracts.session.Session.{the_row};

use crate::loose::Loose;
use crate::session::Session;
use std::alloc::Global;
use std::marker::Model;
use std::mem;
use std::ptr::null_mut;

#[repr(C)]
pub struct Held {
    at: *mut u8,
    pub ghost value: { Option Session },
}

impl Model for Held {
    ghost also_owns = { λ h. slot_owns the_row h.at h.value };
}

unsafe impl Send for Held {}

impl Held {
    fn of(loose: Loose<Session, Global>) -> Held
        ensures { result.value ≡ Some loose.value }
    {
        let Loose { at, alloc: _ } = loose;
        Held { at: at as *mut u8 }
    }

    fn empty() -> Held
        ensures { result.value ≡ None }
    {
        Held { at: null_mut() }
    }

    fn gone(self)
        requires { self.value ≡ None }
    {
        let Held { at: _ } = self;
    }

    fn into_loose(self, alloc: Global) -> Loose<Session, Global>
        requires { is_some self.value ≡ true }
        ensures { self.value ≡ Some result.value }
    {
        let Held { at } = self;
        Loose {
            at: at as *mut Session,
            alloc,
        }
    }
}

/// What C holds: nothing, or a box.
#[repr(C)]
pub struct Slot {
    pub held: Held,
    there: bool,
    ghost told: { there ≡ is_some held.value },
}

impl Slot {
    fn empty() -> Slot
        ensures { result.held.value ≡ None }
    {
        Slot {
            held: Held::empty(),
            there: false,
        }
    }

    fn full(kept: Box<Session>) -> Slot
        ensures { result.held.value ≡ Some kept.value }
    {
        Slot {
            held: Held::of(Loose::of(kept)),
            there: true,
        }
    }

    fn into_box(self, alloc: Global) -> Option<Box<Session>>
        ensures { option_map (λ x. x.value) result ≡ self.held.value }
    {
        let Slot { held, there } = self;
        if there {
            Some(held.into_loose(alloc).into_box())
        } else {
            held.gone();
            None
        }
    }

    /// Whether it holds a session.
    pub fn is_full(&self) -> bool
        ensures { result ≡ is_some self.now.held.value }
    {
        self.there
    }

    /// Takes the session out, if there is one.
    pub fn take(&mut self, alloc: Global) -> Option<Box<Session>>
        ensures { (self.new.held.value ≡ None) × (option_map (λ x. x.value) result ≡ self.old.held.value) }
    {
        mem::replace(self, Slot::empty()).into_box(alloc)
    }

    /// Puts a session in. One that is there is freed.
    pub fn put(&mut self, alloc: Global, kept: Box<Session>)
        ensures { self.new.held.value ≡ Some kept.value }
    {
        let _ = mem::replace(self, Slot::full(kept)).into_box(alloc);
    }
}

/// Whether values of a type may go to another thread.
fn goes_to_threads<T: Send>(_value: &T) {}

/// A slot may: C calls from several threads, one at a time.
pub fn slot_goes_to_threads(slot: &Slot) {
    goes_to_threads(slot);
}
