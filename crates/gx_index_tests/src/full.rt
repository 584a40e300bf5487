//! An index of which no page is left: inserts are refused, and deletes go on.
use crate::asserts::{got, holds};
use crate::devices::fresh;
use gx_class::Box2Class;
use gx_disk::MemDisk;
use gx_geom::{Box2, Refusal};
use gx_machine::{Call, Entry, Reply};
use gx_restart::Index;
use std::process::Abort;

// A row with another box.
fn entry(row: u8) -> Option<Entry<Box2>> {
    let corner = i32::from(row);
    let key = Box2::new(corner, corner, corner, corner).ok()?;
    let row = u64::from(row);
    Some(Entry { row, key })
}

// How many rows are inserted before one is refused since no page is left.
fn filled(index: &mut Index<MemDisk, Box2Class>) -> Option<u8> {
    for row in 0..100u8 {
        match index.call(1, Call::Insert(entry(row)?)) {
            Reply::Inserted => {}
            Reply::Refused(Refusal::PagesFull) => return Some(row),
            _ => return None,
        }
    }
    None
}

// Whether so many rows are deleted.
fn emptied(index: &mut Index<MemDisk, Box2Class>, rows: u8) -> Option<bool> {
    for row in 0..rows {
        if !matches!(index.call(1, Call::Delete(entry(row)?)), Reply::Deleted) {
            return Some(false);
        }
    }
    Some(true)
}

// Whether an index is filled, and each of its rows can be deleted then.
fn deletes(index: &mut Index<MemDisk, Box2Class>) -> Option<bool> {
    let begun = matches!(index.call(1, Call::Begin), Reply::Ok);
    let rows = filled(index)?;
    let emptied = emptied(index, rows)?;
    let committed = matches!(index.call(1, Call::Commit), Reply::Committed(1));
    Some(begun && rows > 16 && emptied && committed)
}

#[test]
fn deletes_go_on(rt: HostRuntime) {
    let mut index = got(&rt, fresh(rt.alloc()));
    holds(&rt, deletes(&mut index) == Some(true));
}
