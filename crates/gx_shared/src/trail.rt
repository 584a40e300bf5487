//! A list of notes that only contracts read.
ghost use Rattle.std.specs.Prelude.{◌≡◌, ◌∷◌, [], List};
ghost use base.Fml.{ftrue};

use std::marker::{Model, PhantomData};

/// The notes so far, the last first. The value takes no bytes and owns nothing, so it may grow without bound.
pub(crate) struct Trail<T> {
    marker: PhantomData<T>,
    pub(crate) ghost noted: { List T },
}

impl<T> Model for Trail<T> {
    ghost also_owns = { λ _. ftrue };
}

// It owns nothing.
unsafe impl<T> Send for Trail<T> {}

impl<T> Trail<T> {
    /// Nothing was noted.
    pub(crate) fn none() -> Trail<T>
        ensures { result.noted ≡ [] }
    {
        Trail {
            marker: PhantomData,
        }
    }

    /// The trail with the referenced value noted after it.
    pub(crate) fn after(&self, x: &T) -> Trail<T>
        ensures { result.noted ≡ x.now ∷ self.now.noted }
    {
        let _ = x;
        Trail {
            marker: PhantomData,
        }
    }
}

impl<T> Drop for Trail<T> {
    fn drop(self) {
        let Self { marker: _ } = self;
    }
}
