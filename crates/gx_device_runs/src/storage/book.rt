//! Rows and sessions: which entry is live, and who claims it.
use crate::storage::draw::below;
use crate::storage::fault::{StorageFault, What};
use crate::storage::snapshot::corners;
use gx_geom::Box2;
use gx_machine::Entry;
use gx_memory_tree::DescentPlace;
use gx_plain_reader::Entry as PlainEntry;
use rand_pcg::Pcg32;
use std::alloc::Global;

/// How many sessions there are.
pub(crate) const SESSIONS: usize = 4;

/// A row, with its one key.
#[derive(Clone, Copy)]
pub(crate) struct Row {
    pub(crate) key: Box2,
    /// The leaf on which it was last written, 0 if it never was.
    pub(crate) leaf: u32,
    pub(crate) live: bool,
    /// Whether it was live when the last transaction that wrote it had ended.
    pub(crate) settled: bool,
    /// The session that claims it.
    pub(crate) owner: Option<usize>,
    /// Whether its owner has written it.
    pub(crate) touched: bool,
}

/// An insert on its way down.
#[derive(Clone, Copy)]
pub(crate) struct Coming {
    pub(crate) row: usize,
    pub(crate) place: DescentPlace,
}

/// A session.
#[derive(Clone, Copy)]
pub(crate) struct Session {
    pub(crate) transaction: Option<u64>,
    pub(crate) is_aborting: bool,
    pub(crate) coming: Option<Coming>,
}

/// The session that does nothing.
const IDLE: Session = Session {
    transaction: None,
    is_aborting: false,
    coming: None,
};

/// All rows and sessions.
#[derive(Drop)]
pub(crate) struct Book {
    pub(crate) rows: Vec<Row>,
    pub(crate) sessions: Vec<Session>,
    /// The last commit's number.
    pub(crate) number: u64,
    /// The greatest number of a transaction that has begun.
    pub(crate) begun: u64,
    /// The next transaction's number, by the records.
    pub(crate) next: u64,
}

/// A coordinate, or a width.
fn coordinate(draw: &mut Pcg32, bound: usize) -> i32 {
    i32::try_from(below(draw, bound)).unwrap_or(0)
}

fn draw_box(draw: &mut Pcg32) -> Result<Box2, StorageFault> {
    let x = coordinate(draw, 1_000).saturating_sub(500);
    let y = coordinate(draw, 1_000).saturating_sub(500);
    let right = x.saturating_add(coordinate(draw, 60));
    let upper = y.saturating_add(coordinate(draw, 60));
    Ok(Box2::new(x, y, right, upper)?)
}

impl Book {
    /// So many rows, none of them in the tree.
    pub(crate) fn new(alloc: Global, count: usize, draw: &mut Pcg32) -> Result<Book, StorageFault> {
        let mut rows = Vec::new(alloc);
        for _row in 0..count {
            rows.push(Row {
                key: draw_box(draw)?,
                leaf: 0,
                live: false,
                settled: false,
                owner: None,
                touched: false,
            })?;
        }
        let mut sessions = Vec::new(alloc);
        sessions.resize(SESSIONS, IDLE)?;
        Ok(Book {
            rows,
            sessions,
            number: 0,
            begun: 0,
            next: 1,
        })
    }

    pub(crate) fn row(&self, row: usize) -> Result<Row, StorageFault> {
        let found = self.rows.get(row).copied();
        found.ok_or(StorageFault::Unexpected(What::Row))
    }

    pub(crate) fn session(&self, session: usize) -> Result<Session, StorageFault> {
        let found = self.sessions.get(session).copied();
        found.ok_or(StorageFault::Unexpected(What::Row))
    }

    /// A session begins to undo.
    pub(crate) fn abort(&mut self, number: usize) {
        if let Some(session) = self.sessions.get_mut(number) {
            session.is_aborting = true;
        }
    }

    /// Where an insert is on its way.
    pub(crate) fn set_coming(&mut self, number: usize, coming: Option<Coming>) {
        if let Some(session) = self.sessions.get_mut(number) {
            session.coming = coming;
        }
    }

    /// A row's entry.
    pub(crate) fn entry(&self, row: usize) -> Result<Entry<Box2>, StorageFault> {
        let key = self.row(row)?.key;
        Ok(Entry {
            row: row as u64,
            key,
        })
    }

    /// The transaction of a session, which begins one if it has none.
    pub(crate) fn transaction(&mut self, number: usize) -> Result<u64, StorageFault> {
        if let Some(transaction) = self.session(number)?.transaction {
            return Ok(transaction);
        }
        let begun = self.begun.saturating_add(1);
        self.begun = begun;
        if let Some(session) = self.sessions.get_mut(number) {
            session.transaction = Some(begun);
        }
        Ok(begun)
    }

    /// A session claims a row.
    pub(crate) fn claim(&mut self, number: usize, row: usize) {
        if let Some(row) = self.rows.get_mut(row) {
            row.owner = Some(number);
        }
    }

    /// A transaction has a record in the log.
    fn has_record(&mut self, transaction: u64) {
        self.next = self.next.max(transaction.saturating_add(1));
    }

    /// A row was written on a leaf by the session that claims it.
    pub(crate) fn wrote(&mut self, transaction: u64, row: usize, leaf: u32, live: bool) {
        self.has_record(transaction);
        if let Some(row) = self.rows.get_mut(row) {
            row.leaf = leaf;
            row.live = live;
            row.touched = true;
        }
    }

    /// A session's transaction has ended: what it wrote is settled.
    pub(crate) fn close(&mut self, number: usize, transaction: u64) {
        self.has_record(transaction);
        if let Some(session) = self.sessions.get_mut(number) {
            *session = IDLE;
        }
        for row in self.rows.iter_mut() {
            if row.owner == Some(number) {
                row.owner = None;
                row.touched = false;
                row.settled = row.live;
            }
        }
    }

    /// A row that a session has yet to undo.
    pub(crate) fn to_undo(&self, number: usize) -> Option<usize> {
        for (place, row) in self.rows.iter().enumerate() {
            if row.owner == Some(number) && row.touched && row.live != row.settled {
                return Some(place);
            }
        }
        None
    }

    /// The session whose transaction has the least number above this one, and that number.
    pub(crate) fn session_after(&self, last: u64) -> Option<(usize, u64)> {
        let mut least = None;
        for (place, session) in self.sessions.iter().enumerate() {
            let transaction = session.transaction.unwrap_or(0);
            let is_less = match least {
                Some((_, other)) => transaction < other,
                None => true,
            };
            if transaction > last && is_less {
                least = Some((place, transaction));
            }
        }
        least
    }

    /// The entries of the set.
    pub(crate) fn set(&self, alloc: Global) -> Result<Vec<PlainEntry>, StorageFault> {
        let mut set = Vec::new(alloc);
        for (place, row) in self.rows.iter().enumerate() {
            if row.settled {
                set.push(PlainEntry {
                    row: place as u64,
                    key: corners(&row.key),
                })?;
            }
        }
        Ok(set)
    }
}

/// Whether a session claims an entry.
pub(crate) fn is_claimed(rows: &[Row], entry: &Entry<Box2>) -> bool {
    let mut place = 0_u64;
    for row in rows.iter() {
        if place == entry.row {
            return row.owner.is_some();
        }
        place = place.saturating_add(1);
    }
    false
}
