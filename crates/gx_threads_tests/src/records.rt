//! Records of calls: what they show of sessions in threads, and what the plain index makes of them.
use crate::asserts::{got, holds};
use crate::callers::{entry, overlap};
use gx_geom::{Box2, Refusal};
use gx_machine::{Call, Entries, Item, Reply};
use gx_plain::PlainIndex;
use gx_storm::{Mismatch, replay};
use std::alloc::Global;
use std::process::Abort;

/// How many calls were asked between another session's ask and the reply to it.
pub(crate) fn overlaps(calls: &[Item<Box2>]) -> u64 {
    let mut open = 0;
    let mut count: u64 = 0;
    for item in calls {
        match item {
            Item::Asked(session, _) => {
                if open != 0 && open != *session {
                    count = count.saturating_add(1);
                }
                open = *session;
            }
            Item::Replied(session, _) if *session == open => open = 0,
            Item::Sealed(..) | Item::Replied(..) => {}
        }
    }
    count
}

/// A call of a written record, with the reply to it.
#[derive(Clone, Copy)]
enum Line {
    Begin,
    /// The row.
    Insert(u64),
    /// The rows that it finds.
    Search(&'static [u64]),
    /// The number under which it is sealed, and that of the reply.
    Commit(u64, u64),
    /// A call that is refused: a begin, or the insert of row 1.
    Refused(bool, Refusal),
}

/// Records, and where the plain index replies otherwise. An item counts from 0.
static RECORDS: [(&[Line], Option<u64>); 12] = [
    (
        &[
            Line::Begin,
            Line::Insert(1),
            Line::Search(&[1]),
            Line::Commit(1, 1),
        ],
        None,
    ),
    // another row, one too few, one too many
    (&[Line::Begin, Line::Insert(1), Line::Search(&[2])], Some(5)),
    (&[Line::Begin, Line::Insert(1), Line::Search(&[])], Some(5)),
    (
        &[
            Line::Begin,
            Line::Insert(1),
            Line::Insert(2),
            Line::Search(&[1, 3]),
        ],
        Some(7),
    ),
    (
        &[
            Line::Begin,
            Line::Search(&[]),
            Line::Commit(1, 1),
            Line::Begin,
            Line::Search(&[1]),
        ],
        Some(10),
    ),
    // other numbers of a commit
    (&[Line::Begin, Line::Insert(1), Line::Commit(2, 2)], Some(5)),
    (&[Line::Begin, Line::Insert(1), Line::Commit(1, 2)], Some(6)),
    // faults close the call, and change no set
    (
        &[
            Line::Begin,
            Line::Refused(true, Refusal::Device),
            Line::Search(&[]),
        ],
        None,
    ),
    (
        &[
            Line::Begin,
            Line::Refused(true, Refusal::Failed),
            Line::Search(&[]),
        ],
        None,
    ),
    (
        &[
            Line::Begin,
            Line::Refused(true, Refusal::Damaged),
            Line::Search(&[1]),
        ],
        Some(5),
    ),
    (
        &[
            Line::Refused(false, Refusal::Failed),
            Line::Refused(false, Refusal::Failed),
        ],
        None,
    ),
    // no open call is given that
    (
        &[Line::Begin, Line::Refused(true, Refusal::NoCall)],
        Some(3),
    ),
];

/// Puts an item after the last.
fn add(rt: &impl Abort, items: &mut Vec<Item<Box2>>, item: Item<Box2>) {
    got(rt, items.push(item), "no memory for a record");
}

/// Puts a call of session 1 and its reply after the last item.
fn add_line(rt: &impl Abort, items: &mut Vec<Item<Box2>>, line: Line) {
    let alloc = *items.allocator();
    let (call, reply) = match line {
        Line::Begin => (Call::Begin, Reply::Ok),
        Line::Insert(row) => (Call::Insert(entry(row, 0, 0)), Reply::Inserted),
        Line::Search(rows) => {
            let mut found = Vec::new(alloc);
            for row in rows {
                got(rt, found.push(entry(*row, 0, 0)), "no memory for a record");
            }
            (
                overlap(Box2::point(0, 0)),
                Reply::Found(Entries::new(found)),
            )
        }
        Line::Commit(_, number) => (Call::Commit, Reply::Committed(number)),
        Line::Refused(false, why) => (Call::Begin, Reply::Refused(why)),
        Line::Refused(true, why) => (Call::Insert(entry(1, 0, 0)), Reply::Refused(why)),
    };
    add(rt, items, Item::Asked(1, call));
    if let Line::Commit(number, _) = line {
        add(rt, items, Item::Sealed(1, number));
    }
    add(rt, items, Item::Replied(1, reply));
}

/// Fails unless the plain index replies otherwise just where it is said of each record.
pub(crate) fn replays(rt: &impl Abort, alloc: Global) {
    for (lines, wanted) in &RECORDS {
        let mut items = Vec::new(alloc);
        for line in *lines {
            add_line(rt, &mut items, *line);
        }
        let mut index = got(rt, PlainIndex::new(alloc), "no memory for an index");
        let told = match replay(items.as_slice(), &mut index) {
            Ok(()) => None,
            Err(Mismatch::At(place)) => Some(place),
            Err(Mismatch::Memory) => Some(u64::MAX),
        };
        holds(rt, told == *wanted, "a record is replayed otherwise");
    }
}
