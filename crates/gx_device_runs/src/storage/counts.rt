//! How often each thing was done.
use crate::fault::RunFault;

/// What is counted.
#[derive(Clone, Copy)]
pub(crate) enum Done {
    Descents,
    Widened,
    Again,
    Added,
    Marked,
    Cleared,
    Right,
    Swept,
    Split,
    RootSplit,
    Commits,
    Ends,
    Records,
    LogHelps,
    WriteHelps,
    Faults,
    Batches,
    Written,
    Turns,
    Calls,
}

/// How many things are counted.
const KINDS: usize = 20;

/// How each is printed, in the order of `Done`.
const NAMES: [&str; KINDS] = [
    "descents",
    "widened",
    "again",
    "added",
    "marked",
    "cleared",
    "right",
    "swept",
    "split",
    "root",
    "commits",
    "ends",
    "records",
    "log helps",
    "write helps",
    "faults",
    "batches",
    "pages written",
    "turns",
    "calls",
];

/// How often each thing was done in a run.
#[derive(Clone, Copy)]
pub(crate) struct Counts {
    numbers: [u64; KINDS],
}

impl Counts {
    /// Nothing was done.
    pub(crate) fn new() -> Counts {
        Counts {
            numbers: [0; KINDS],
        }
    }

    /// Counts one more.
    pub(crate) fn count(&mut self, done: Done) {
        if let Some(number) = self.numbers.get_mut(done as usize) {
            *number = number.saturating_add(1);
        }
    }

    /// How often a thing was done.
    pub(crate) fn of(&self, done: Done) -> u64 {
        self.numbers.get(done as usize).copied().unwrap_or(0)
    }

    /// Prints each by its name.
    pub(crate) fn print<R: Print>(&self, rt: &R) -> Result<(), RunFault> {
        for (name, number) in NAMES.iter().zip(self.numbers.iter()) {
            print!(rt; ", {name} {number}")?;
        }
        Ok(())
    }
}
