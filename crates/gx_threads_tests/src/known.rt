//! The record of a storm of one session, which its seed alone decides.
use crate::asserts::holds;
use Drawn::{Abort, Begin, Commit, Delete, Equal, Insert, Overlap, Within};
use Told::{Aborted, Committed, Done, Found, No};
use gx_geom::{Box2, Refusal};
use gx_machine::{Call, Entry, Item, Query, Reply};
use std::process;

/// A random call of a session; a box by its corners.
#[derive(Clone, Copy)]
enum Drawn {
    Begin,
    Commit,
    Abort,
    Insert(u64, [i32; 4]),
    Delete(u64, [i32; 4]),
    Overlap([i32; 4]),
    Within([i32; 4]),
    Equal([i32; 4]),
}

/// What it is answered.
#[derive(Clone, Copy)]
enum Told {
    /// It was done.
    Done,
    /// It was refused so.
    No(Refusal),
    /// So many entries were found.
    Found(usize),
    /// The number, under which the commit was sealed too.
    Committed(u64),
    Aborted,
}

/// The first calls of session 1 in a storm of seed 1.
static FIRST: [(Drawn, Told); 25] = [
    (Begin, Done),
    (Insert(3, [4, 8, 9, 8]), Done),
    (Insert(2, [22, 25, 23, 27]), Done),
    (Equal([46, 47, 50, 48]), Found(0)),
    (Insert(3, [34, 12, 38, 14]), Done),
    (Overlap([44, 17, 48, 19]), Found(0)),
    (Insert(1, [36, 31, 38, 35]), Done),
    (Delete(3, [28, 29, 33, 29]), No(Refusal::Absent)),
    (Within([1, 3, 5, 3]), Found(0)),
    (Commit, Committed(1)),
    (Begin, Done),
    (Delete(2, [40, 15, 43, 17]), No(Refusal::Absent)),
    (Delete(0, [38, 41, 41, 43]), No(Refusal::Absent)),
    (Insert(0, [33, 12, 36, 13]), Done),
    (Commit, Committed(2)),
    (Begin, Done),
    (Abort, Aborted),
    (Begin, Done),
    (Equal([37, 10, 39, 14]), Found(0)),
    (Within([19, 30, 20, 33]), Found(0)),
    (Insert(0, [6, 41, 11, 42]), Done),
    (Overlap([38, 35, 38, 37]), Found(1)),
    (Within([45, 11, 48, 14]), Found(0)),
    (Insert(0, [25, 13, 28, 14]), Done),
    (Begin, No(Refusal::InTransaction)),
];

/// How many calls a storm has at least for this.
pub(crate) const FIRST_CALLS: u32 = 25;

/// The box with these corners.
fn key(corners: [i32; 4]) -> Box2 {
    match Box2::new(corners[0], corners[1], corners[2], corners[3]) {
        Ok(key) => key,
        Err(_) => Box2::point(0, 0),
    }
}

/// The random call.
fn call(drawn: Drawn) -> Call<Box2> {
    match drawn {
        Begin => Call::Begin,
        Commit => Call::Commit,
        Abort => Call::Abort,
        Insert(row, corners) => Call::Insert(Entry {
            row,
            key: key(corners),
        }),
        Delete(row, corners) => Call::Delete(Entry {
            row,
            key: key(corners),
        }),
        Overlap(corners) => Call::Search(Query::Overlap(key(corners))),
        Within(corners) => Call::Search(Query::Within(key(corners))),
        Equal(corners) => Call::Search(Query::Equal(key(corners))),
    }
}

/// Whether a reply is the one that is expected.
fn is_told(told: Told, reply: &Reply<Box2>) -> bool {
    match (told, reply) {
        (Done, Reply::Ok | Reply::Inserted | Reply::Deleted) => true,
        (No(wanted), Reply::Refused(why)) => wanted == *why,
        (Found(count), Reply::Found(entries)) => entries.as_slice().len() == count,
        (Committed(wanted), Reply::Committed(number)) => wanted == *number,
        (Aborted, Reply::Aborted) => true,
        _ => false,
    }
}

/// Whether an item is one of a call with its expected reply.
fn fits(row: (Drawn, Told), item: &Item<Box2>) -> bool {
    match (item, row.1) {
        (Item::Asked(1, asked), _) => *asked == call(row.0),
        (Item::Sealed(1, number), Committed(wanted)) => *number == wanted,
        (Item::Replied(1, reply), told) => is_told(told, reply),
        _ => false,
    }
}

/// Fails unless a record begins with these calls and their expected replies.
pub(crate) fn begins_as_known(rt: &impl process::Abort, calls: &[Item<Box2>]) {
    let mut place = 0;
    let mut known = 0_usize;
    for item in calls {
        if place < FIRST.len() && fits(FIRST[place], item) {
            known = known.saturating_add(1);
        }
        if matches!(item, Item::Replied(..)) {
            place = place.saturating_add(1);
        }
    }
    holds(rt, known == 52, "the calls of a seed are others");
}
