//! What a session does.
ghost use Rattle.std.specs.Prelude.{◌≤◌, length};

use crate::drawn::RandomKeys;
use crate::index::driven::Index;
use gx_class::Box2Class;
use gx_geom::Box2;
use gx_machine::{Call, Entry, MAX_CLAIMS, MAX_PREDICATES, Query, Reply};
use std::alloc::Global;

/// How many places lie between a pair that is deleted and the next one: a number that has no divisor in common with how
/// many there are.
const STRIDE: u64 = 61_813;

/// Opens the session's transaction.
fn begin_transaction(index: &mut Index) -> Option<()> {
    match index.call(Call::Begin)? {
        Reply::Ok => Some(()),
        _ => None,
    }
}

/// Ends the session's transaction, whose changes are kept.
fn commit(index: &mut Index) -> Option<()> {
    match index.call(Call::Commit)? {
        Reply::Committed(_) => Some(()),
        _ => None,
    }
}

/// Ends the session's transaction, whose changes are undone.
fn abort(index: &mut Index) -> Option<()> {
    match index.call(Call::Abort)? {
        Reply::Aborted => Some(()),
        _ => None,
    }
}

/// Adds a pair.
fn insert(index: &mut Index, entry: &Entry<Box2>) -> Option<()> {
    match index.call(Call::Insert(*entry))? {
        Reply::Inserted => Some(()),
        _ => None,
    }
}

/// Takes a pair away.
fn delete(index: &mut Index, entry: &Entry<Box2>) -> Option<()> {
    match index.call(Call::Delete(*entry))? {
        Reply::Deleted => Some(()),
        _ => None,
    }
}

/// Inserts so many random boxes, `each` in a transaction, and returns the pairs.
pub(crate) fn insert_many(
    alloc: Global,
    index: &mut Index,
    boxes: u64,
    each: u64,
) -> Option<Vec<Entry<Box2>>>
    requires { 1 ≤ each }
{
    let mut entries = Vec::new(alloc);
    let mut state = 7;
    for row in 0..boxes {
        if row % each == 0 {
            begin_transaction(index)?;
        }
        let key = Box2Class::draw_key(&mut state)?;
        let entry = Entry { row, key };
        insert(index, &entry)?;
        entries.push(entry).ok()?;
        if row % each == each - 1 || row == boxes - 1 {
            commit(index)?;
        }
    }
    Some(entries)
}

/// Looks for boxes that overlap a window: how many there are, and their rows, all added up.
fn query(index: &mut Index, window: Box2) -> Option<u64> {
    let Reply::Found(found) = index.call(Call::Search(Query::Overlap(window)))? else {
        return None;
    };
    let mut sum: u64 = 0;
    for entry in found.as_slice() {
        sum = sum.wrapping_add(entry.row).wrapping_add(1);
    }
    Some(sum)
}

/// Makes so many queries of random windows, as many in a transaction as it may make, and returns the sum.
pub(crate) fn query_many(index: &mut Index, queries: u64) -> Option<u64> {
    let each = MAX_PREDICATES as u64;
    let mut state = 11;
    let mut sum: u64 = 0;
    for number in 0..queries {
        if number % each == 0 {
            begin_transaction(index)?;
        }
        let window = Box2Class::draw_window(&mut state)?;
        sum = sum.wrapping_add(query(index, window)?);
        if number % each == each - 1 || number == queries - 1 {
            abort(index)?;
        }
    }
    Some(sum)
}

/// Deletes so many of these pairs, `each` in a transaction, and returns how many that were.
pub(crate) fn delete_many(
    index: &mut Index,
    entries: &[Entry<Box2>],
    marks: u64,
    each: u64,
) -> Option<u64>
    requires pairs { 1 ≤ length entries.now }
    requires each { 1 ≤ each }
{
    for number in 0..marks {
        if number % each == 0 {
            begin_transaction(index)?;
        }
        let place = number.wrapping_mul(STRIDE) % entries.len() as u64;
        delete(index, &entries[place as usize])?;
        if number % each == each - 1 || number == marks - 1 {
            commit(index)?;
        }
    }
    Some(marks)
}

/// Deletes these pairs, as many in a transaction as it may write, undoes each transaction, and returns how many deletes
/// that were.
pub(crate) fn undo_many(index: &mut Index, entries: &[Entry<Box2>]) -> Option<u64> {
    let each = MAX_CLAIMS as u64;
    let mut deleted: u64 = 0;
    for entry in entries {
        if deleted % each == 0 {
            begin_transaction(index)?;
        }
        delete(index, entry)?;
        deleted = deleted.wrapping_add(1);
        if deleted % each == 0 || deleted == entries.len() as u64 {
            abort(index)?;
        }
    }
    Some(deleted)
}
