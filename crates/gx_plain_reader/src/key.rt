//! Keys of both classes, and entries.
use crate::bytes::{i32_at, i64_at};

/// How many bytes a key takes.
pub(crate) const KEY: usize = 16;

/// A key by its corners: a box, or an interval from `x1` to `x2`, whose other corners are 0.
#[derive(Clone, Copy, PartialEq, Eq)]
pub struct Key {
    pub x1: i64,
    pub y1: i64,
    pub x2: i64,
    pub y2: i64,
}

/// An entry: a row and its key.
#[derive(Clone, Copy, PartialEq, Eq)]
pub struct Entry {
    pub row: u64,
    pub key: Key,
}

/// A box's corners: `x1 y1 x2 y2`.
fn box_at(bytes: &[u8]) -> Option<Key> {
    Some(Key {
        x1: i32_at(bytes, 0)?,
        y1: i32_at(bytes, 4)?,
        x2: i32_at(bytes, 8)?,
        y2: i32_at(bytes, 12)?,
    })
}

/// An interval's ends: `lo hi`.
fn interval_at(bytes: &[u8]) -> Option<Key> {
    Some(Key {
        x1: i64_at(bytes, 0)?,
        y1: 0,
        x2: i64_at(bytes, 8)?,
        y2: 0,
    })
}

/// The key of the class that these bytes spell: its corners are in order.
pub(crate) fn key_of(class: u16, bytes: &[u8]) -> Option<Key> {
    let key = match class {
        1 => box_at(bytes)?,
        _ => interval_at(bytes)?,
    };
    if key.x1 <= key.x2 && key.y1 <= key.y2 {
        Some(key)
    } else {
        None
    }
}

/// Whether a key covers another.
pub(crate) fn covers(outer: &Key, inner: &Key) -> bool {
    outer.x1 <= inner.x1 && inner.x2 <= outer.x2 && outer.y1 <= inner.y1 && inner.y2 <= outer.y2
}
