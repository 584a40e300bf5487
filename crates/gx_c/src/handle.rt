//! What C keeps of an index.
ghost use Rattle.std.specs.Prelude.{◌≡◌, None, Some, Option};
ghost use Rattle.gx_c.specs.declared.held.Held.{Held};
ghost use Rattle.gx_c.specs.Owned.{owns_held};

use crate::held::Held;
use crate::loose::Loose;
use std::alloc::Global;
use std::marker::Model;
use std::{mem, ptr};

/// What C keeps of an index: a pointer to what the handle has, if it has something.
#[repr(C)]
#[derive(Drop)]
pub struct Handle {
    at: *mut u8,
    alloc: Global,
    pub(crate) ghost held: { Option Held },
}

impl Model for Handle {
    ghost also_owns = { λ h. owns_held h.alloc h.at h.held };
}

// A pointer to nothing.
fn null() -> *mut u8 {
    ptr::null_mut()
}

impl Handle {
    // A handle that has nothing, with any pointer.
    fn none(at: *mut u8, alloc: Global) -> Handle
        ensures { result.held ≡ None }
    {
        Handle { at, alloc }
    }

    // The handle of a box's pointer.
    fn of_loose(loose: Loose<Held>) -> Handle
        ensures { result.held ≡ Some loose.value }
    {
        let Loose { at, alloc } = loose;
        Handle {
            at: at as *mut u8,
            alloc,
        }
    }

    // The box's pointer of a handle.
    fn into_loose(self) -> Loose<Held>
        requires { (x : Held) × (self.held ≡ Some x) }
        ensures { self.held ≡ Some result.value }
    {
        let Handle { at, alloc } = self;
        Loose {
            at: at as *mut Held,
            alloc,
        }
    }

    /// What the handle has, in its box. The handle has nothing then.
    pub(crate) fn take(&mut self, alloc: Global) -> Box<Held>
        requires { (x : Held) × (self.old.held ≡ Some x) }
        ensures had { self.old.held ≡ Some result.value }
        ensures left { self.new.held ≡ None }
    {
        let none = Handle::none(null(), alloc);
        let had = mem::replace(self, none);
        let loose = had.into_loose();
        loose.into_box()
    }

    /// Gives what was taken, or is new, to the handle.
    pub(crate) fn put(&mut self, held: Box<Held>)
        requires { self.old.held ≡ None }
        ensures { self.new.held ≡ Some held.value }
    {
        *self = Handle::of_loose(Loose::of(held));
    }
}
