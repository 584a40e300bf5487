//! What is left of the entries that a search found.
ghost use Rattle.std.specs.Prelude.{◌≡◌, ◌≤◌, [], drop, length};

use gx_machine::{Entries, Entry};
use std::alloc::Global;
use std::marker::Model;

/// The entries that a session's last search found, without those that C has had.
#[derive(Drop)]
pub(crate) struct Rest<B> {
    entries: Entries<B>,
    // how many C has had
    had: usize,
}

impl<B> Model for Rest<B> {
    ghost use Rattle.std.specs.Prelude.{List, drop, length, ◌≤◌};
    ghost use Rattle.gx_machine.specs.declared.entry.Entry.{Entry};

    ghost Value = { List (Entry B) };

    ghost view = { λ m. drop m.had m.entries };

    ghost invariant = { λ m. m.had ≤ length m.entries };
}

impl<B> Rest<B> {
    /// All of these entries.
    pub(crate) fn of(entries: Entries<B>) -> Rest<B>
        ensures { result ≡ entries }
    {
        Rest { entries, had: 0 }
    }

    /// No entry.
    pub(crate) fn none(alloc: Global) -> Rest<B>
        ensures { result ≡ [] }
    {
        Rest::of(Entries::new(Vec::new(alloc)))
    }
}

impl<B: Copy> Rest<B> {
    /// The entries that are left.
    pub(crate) fn left(&self) -> &[Entry<B>]
        ensures { result.now ≡ self.now }
    {
        &self.entries.as_slice()[self.had..]
    }

    /// Takes so many away in front.
    pub(crate) fn skip(&mut self, count: usize)
        requires { count ≤ length self.old }
        ensures { self.new ≡ drop count self.old }
    {
        let all = self.entries.as_slice().len();
        self.had = all - (all - self.had - count);
    }
}
