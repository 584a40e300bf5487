//! The line that was begun.
ghost use Rattle.std.specs.Prelude.{◌≡◌, ◌+◌, ◌++◌, ◌≤◌, [], ◌==◌, length};
ghost use Rattle.gx_script.specs.Steps.{kept};

use arrayvec::ArrayVec;
use std::marker::Model;

/// How many bytes of a line are kept: those that it may have, its carriage return and one that shows that it is
/// too long.
const KEPT: usize = 1026;

/// The line that was begun; of one that is too long, its front.
#[derive(Drop)]
pub(crate) struct LineBuffer {
    bytes: ArrayVec<u8, KEPT>,
}

impl Model for LineBuffer {
    ghost use Rattle.std.specs.Prelude.{ℕ, List};

    ghost Value = { List ℕ };

    ghost view = { λ l. l.bytes.items };
}

impl LineBuffer {
    /// A line without bytes.
    pub(crate) fn new() -> Self
        ensures { result ≡ [] }
    {
        LineBuffer {
            bytes: ArrayVec::new(),
        }
    }

    /// Adds bytes at the end, as far as they are kept.
    pub(crate) fn keep(&mut self, bytes: &[u8])
        ensures { self.new ≡ kept (self.old ++ bytes.now) }
    {
        let room = self.bytes.remaining_capacity();
        self.add(bytes.split_at(bytes.len().min(room)).0);
    }

    fn add(&mut self, bytes: &[u8])
        requires { length self.old + length bytes.now ≤ KEPT }
        ensures { self.new ≡ self.old ++ bytes.now }
    {
        let _ = self.bytes.try_extend_from_slice(bytes);
    }

    /// The bytes that are kept.
    pub(crate) fn as_slice(&self) -> &[u8]
        ensures { result.now ≡ self.now }
    {
        self.bytes.as_slice()
    }

    /// Whether the line has no byte.
    pub(crate) fn is_empty(&self) -> bool
        ensures { result ≡ (length self.now == 0) }
    {
        self.bytes.is_empty()
    }

    /// Begins the next line.
    pub(crate) fn clear(&mut self)
        ensures { self.new ≡ [] }
    {
        self.bytes.clear();
    }
}
