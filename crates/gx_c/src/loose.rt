//! A box as its pointer.
ghost use Rattle.std.specs.Prelude.{◌≡◌};
ghost use Rattle.gx_c.specs.Loose.{owns_loose};

use std::alloc::Global;
use std::marker::Model;

/// A box as its pointer.
pub(crate) struct Loose<T> {
    pub(crate) at: *mut T,
    pub(crate) alloc: Global,
    pub(crate) ghost value: { T },
}

impl<T> Model for Loose<T> {
    ghost also_owns = { λ l. owns_loose T.row l.alloc l.at l.value };
}

impl<T: Drop> Loose<T> {
    /// The pointer of a box.
    pub(crate) fn of(value: Box<T>) -> Loose<T>
        ensures { result.value ≡ value.value }
    {
        let (at, alloc) = Box::into_raw_with_allocator(value);
        Loose { at, alloc }
    }

    /// The box of a pointer.
    pub(crate) fn into_box(self) -> Box<T>
        ensures { result.value ≡ self.value }
    {
        let Loose { at, alloc } = self;
        unsafe { Box::from_raw(alloc, at) }
    }
}
