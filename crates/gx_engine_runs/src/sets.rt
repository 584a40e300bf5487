//! What is committed, as plain lists.
use crate::fault::RunFault;
use gx_plain_reader::Entry;
use std::alloc::Global;

/// What a session's transaction did to an entry.
#[derive(Clone, Copy)]
struct Write {
    session: u8,
    entry: Entry,
    live: bool,
}

/// What open transactions have written, in order, and the sets that were committed, by their numbers.
#[derive(Drop)]
pub(crate) struct Sets {
    alloc: Global,
    written: Vec<Write>,
    committed: Vec<Vec<Entry>>,
}

/// What entries are ordered by: row, then key.
fn order(entry: &Entry) -> (u64, i64, i64, i64, i64) {
    let Entry { row, key } = entry;
    (*row, key.x1, key.y1, key.x2, key.y2)
}

/// A set with an entry, or without it.
fn with_write(alloc: Global, set: &[Entry], write: Write) -> Result<Vec<Entry>, RunFault> {
    let mut next = Vec::new(alloc);
    for entry in set
        .iter()
        .filter(|entry| order(entry) < order(&write.entry))
    {
        next.push(*entry)?;
    }
    if write.live {
        next.push(write.entry)?;
    }
    for entry in set
        .iter()
        .filter(|entry| order(entry) > order(&write.entry))
    {
        next.push(*entry)?;
    }
    Ok(next)
}

impl Sets {
    /// Nothing is committed.
    pub(crate) fn new(alloc: Global) -> Result<Sets, RunFault> {
        let mut committed = Vec::new(alloc);
        committed.push(Vec::new(alloc))?;
        Ok(Sets {
            alloc,
            written: Vec::new(alloc),
            committed,
        })
    }

    /// A session has inserted an entry, or deleted it.
    pub(crate) fn write(&mut self, session: u8, entry: Entry, live: bool) -> Result<(), RunFault> {
        self.written.push(Write {
            session,
            entry,
            live,
        })?;
        Ok(())
    }

    /// A session's transaction ends, and what it wrote is dropped.
    pub(crate) fn drop_writes(&mut self, session: u8) -> Result<(), RunFault> {
        let mut left = Vec::new(self.alloc);
        for write in self.written.iter().filter(|write| write.session != session) {
            left.push(*write)?;
        }
        self.written = left;
        Ok(())
    }

    /// A session's commit is sealed.
    pub(crate) fn seal(&mut self, session: u8) -> Result<(), RunFault> {
        let mut set = Vec::new(self.alloc);
        if let Some(last) = self.committed.last() {
            set.extend_from_slice(last)?;
        }
        for write in self.written.iter().filter(|write| write.session == session) {
            set = with_write(self.alloc, &set, *write)?;
        }
        self.committed.push(set)?;
        self.drop_writes(session)
    }

    /// Whether this is the set of that number.
    pub(crate) fn stands(&self, number: u64, found: &[Entry]) -> Result<(), RunFault> {
        let place = usize::try_from(number).unwrap_or(usize::MAX);
        match self.committed.get(place) {
            Some(set) if set.as_slice() == found => Ok(()),
            _ => Err(RunFault::Set(number)),
        }
    }
}
