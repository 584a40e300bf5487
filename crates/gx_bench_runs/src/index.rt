//! An index of random boxes on a device in memory, by the events of one session. `inserts`: so many boxes in a new
//! index, in transactions of a hundred. `queries`: so many windows looked for in an index of a hundred thousand boxes,
//! in transactions of sixteen, each aborted at its end. `marks`: so many of its pairs deleted, in transactions of a
//! hundred. `undo`: so many boxes in a new index, deleted in transactions of 512, each aborted at its end. `commits`:
//! so many boxes in a new index, each with a separate commit. The boxes and windows are those of the benchmark `tree`.
//!
//! `index` has the sum of what was done: the pages in use, the rows that were found, or the pairs that were deleted. In
//! its place `asks`, `moves`, `helps`, `log-steps`, `page-writes` and `checkpoint-steps` count the events of a kind
//! from the new index on, of which `helps` are those that had to wait for another, and `bytes` what was written to the
//! device.

mod counted;
mod driven;
mod works;

use driven::Index;
use std::alloc::Global;
use works::{delete_many, insert_many, query_many, undo_many};

/// How many boxes the index has in which is looked.
const BOXES: u64 = 100_000;

/// How many writes a transaction has.
const WRITES: u64 = 100;

/// What is asked.
#[derive(Clone, Copy)]
pub(crate) enum Kind {
    /// Boxes inserted in a new index.
    Inserts,
    /// Windows looked for.
    Queries,
    /// Pairs deleted.
    Marks,
    /// Pairs deleted, and each delete undone.
    Undo,
    /// Boxes inserted in a new index, each with its commit.
    Commits,
}

impl Kind {
    /// The one of this name.
    pub(crate) fn named(word: &str) -> Option<Kind> {
        match word {
            "inserts" => Some(Kind::Inserts),
            "queries" => Some(Kind::Queries),
            "marks" => Some(Kind::Marks),
            "undo" => Some(Kind::Undo),
            "commits" => Some(Kind::Commits),
            _ => None,
        }
    }

    /// Does so often what is asked, and returns the sum.
    fn work(self, alloc: Global, index: &mut Index, count: u64) -> Option<u64> {
        match self {
            Kind::Inserts => {
                insert_many(alloc, index, count, WRITES)?;
                Some(u64::from(index.used()))
            }
            Kind::Commits => {
                insert_many(alloc, index, count, 1)?;
                Some(u64::from(index.used()))
            }
            Kind::Queries => {
                insert_many(alloc, index, BOXES, WRITES)?;
                query_many(index, count)
            }
            Kind::Marks => {
                let entries = insert_many(alloc, index, BOXES, WRITES)?;
                if entries.is_empty() {
                    return None;
                }
                delete_many(index, entries.as_slice(), count, WRITES)
            }
            Kind::Undo => {
                let entries = insert_many(alloc, index, count, WRITES)?;
                undo_many(index, entries.as_slice())
            }
        }
    }
}

/// What is printed of it.
#[derive(Clone, Copy)]
pub(crate) enum Told {
    /// The sum of what was done.
    Sum,
    /// How many calls were asked.
    Asks,
    /// How many moves there were.
    Moves,
    /// How many events had to wait for another.
    Helps,
    /// How many steps of the log there were.
    LogSteps,
    /// How many pages were written alone.
    PageWrites,
    /// How many steps of a checkpoint there were.
    CheckpointSteps,
    /// How many bytes were written to the device.
    Bytes,
}

impl Told {
    /// The one of this name.
    pub(crate) fn named(word: &str) -> Option<Told> {
        match word {
            "index" => Some(Told::Sum),
            "asks" => Some(Told::Asks),
            "moves" => Some(Told::Moves),
            "helps" => Some(Told::Helps),
            "log-steps" => Some(Told::LogSteps),
            "page-writes" => Some(Told::PageWrites),
            "checkpoint-steps" => Some(Told::CheckpointSteps),
            "bytes" => Some(Told::Bytes),
            _ => None,
        }
    }
}

/// Does so often what is asked, and returns what is printed of it. `None` if memory is refused or a call isn't answered
/// as it should be.
pub(crate) fn run(alloc: Global, told: Told, kind: Kind, count: u64) -> Option<u64> {
    let mut index = Index::fresh(alloc)?;
    let sum = kind.work(alloc, &mut index, count)?;
    let tally = index.tally();
    match told {
        Told::Sum => Some(sum),
        Told::Asks => Some(tally.asks),
        Told::Moves => Some(tally.moves),
        Told::Helps => Some(tally.helps),
        Told::LogSteps => Some(tally.log_steps),
        Told::PageWrites => Some(tally.page_writes),
        Told::CheckpointSteps => Some(tally.checkpoint_steps),
        Told::Bytes => Some(index.written()),
    }
}
