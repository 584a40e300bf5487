//! Scripts and indexes of thousands.
use crate::asserts::{holds, same};
use crate::boxes::make_box;
use crate::plain::{fresh, runs};
use gx_geom::Box2;
use gx_plain::{Call, Entry, PlainIndex, Query, Reply};
use std::io::{self, Read};
use std::process::Abort;

const ROWS: u64 = 3000;

// The box of a row: rows are in a line, and none touches another.
fn place(row: u64) -> Option<Box2> {
    let x = 10 * i32::from(u16::try_from(row).ok()?);
    Box2::new(x, 0, x + 1, 1).ok()
}

// Inserts the rows in transactions of 500, and returns whether each was.
fn fill(index: &mut PlainIndex<Box2>) -> bool {
    let mut all = true;
    for row in 0..ROWS {
        let Some(key) = place(row) else {
            return false;
        };
        if row % 500 == 0 {
            all &= matches!(index.call(1, Call::Begin), Reply::Ok);
        }
        all &= matches!(
            index.call(1, Call::Insert(Entry { row, key })),
            Reply::Inserted
        );
        if row % 500 == 499 {
            all &= matches!(index.call(1, Call::Commit), Reply::Committed(_));
        }
    }
    all
}

// How many entries there are, and whether they come in order of rows from the first on.
fn in_order(entries: &[Entry<Box2>], first: u64) -> (usize, bool) {
    let mut next = first;
    let mut rising = true;
    for entry in entries {
        rising &= entry.row == next;
        next = next.saturating_add(1);
    }
    (entries.len(), rising)
}

// How many entries the box overlaps, and whether they come in order of rows from the first on.
fn found(
    index: &mut PlainIndex<Box2>,
    session: u8,
    key: Box2,
    first: u64,
) -> Option<(usize, bool)> {
    match index.call(session, Call::Search(Query::Overlap(key))) {
        Reply::Found(entries) => Some(in_order(entries.as_slice(), first)),
        _ => None,
    }
}

// Fails unless a session finds so many in order between two places, from the first on.
fn finds(
    rt: &impl Abort,
    index: &mut PlainIndex<Box2>,
    session: u8,
    (left, right): (i32, i32),
    (first, count): (u64, usize),
) {
    let key = make_box(rt, (left, 0, right, 1));
    same(rt, &found(index, session, key, first), &Some((count, true)));
}

// Fails unless the session begins.
fn begins(rt: &impl Abort, index: &mut PlainIndex<Box2>, session: u8) {
    holds(rt, matches!(index.call(session, Call::Begin), Reply::Ok));
}

// An index with all rows.
fn filled<R: Abort + AllocGlobal>(rt: &R) -> PlainIndex<Box2> {
    let mut index = fresh(rt);
    holds(rt, fill(&mut index));
    index
}

#[test]
fn an_index_of_thousands(rt: HostRuntime) {
    let mut index = filled(&rt);
    begins(&rt, &mut index, 2);
    finds(&rt, &mut index, 2, (0, 100_000), (0, 3000));
    finds(&rt, &mut index, 2, (10_000, 20_000), (1000, 1001));
}

// Whether session 1 deletes the row.
fn deletes(index: &mut PlainIndex<Box2>, row: u64) -> bool {
    match place(row) {
        Some(key) => matches!(
            index.call(1, Call::Delete(Entry { row, key })),
            Reply::Deleted
        ),
        None => false,
    }
}

// Fails unless session 1 deletes the first 500 rows.
fn deletes_many(rt: &impl Abort, index: &mut PlainIndex<Box2>) {
    for row in 0..500 {
        holds(rt, deletes(index, row));
    }
}

#[test]
fn a_transaction_that_deletes_hundreds(rt: HostRuntime) {
    let mut index = filled(&rt);
    begins(&rt, &mut index, 1);
    deletes_many(&rt, &mut index);
    finds(&rt, &mut index, 1, (0, 100_000), (500, 2500));
    let committed = index.call(1, Call::Commit);
    holds(&rt, matches!(committed, Reply::Committed(7)));
    begins(&rt, &mut index, 1);
    finds(&rt, &mut index, 1, (0, 100_000), (500, 2500));
}

// Line feeds, one a read, and then the end.
#[derive(Drop)]
struct Feeds(u64);

impl Read for Feeds {
    fn read(&mut self, buffer: &mut [u8]) -> io::Result<usize> {
        match buffer.first_mut() {
            Some(place) if self.0 > 0 => {
                self.0 -= 1;
                *place = b'\n';
                Ok(1)
            }
            _ => Ok(0),
        }
    }
}

#[test]
fn a_script_of_two_million_reads(rt: HostRuntime) {
    let mut writer = Vec::new(rt.alloc());
    runs(&rt, &mut Feeds(2_200_000), &mut writer);
    holds(&rt, writer.is_empty());
}
