//! Boxes and entries as C has them.
ghost use Rattle.std.specs.Prelude.{◌≡◌};
ghost use Rattle.gx_c.specs.Sent.{IsBoxOf, IsSolidOf, sent_box, sent_entry, sent_entry3, sent_solid};
ghost use Rattle.gx_c.specs.Sent.{query_of};

use gx_geom::{Box2, Box3, Refusal};
use gx_machine::{Entry, Query};

/// A box of the plane.
#[repr(C)]
#[derive(Clone, Copy)]
pub struct SentBox {
    pub x1: i32,
    pub y1: i32,
    pub x2: i32,
    pub y2: i32,
}

/// A box of space.
#[repr(C)]
#[derive(Clone, Copy)]
pub struct SentBox3 {
    pub x1: i32,
    pub y1: i32,
    pub z1: i32,
    pub x2: i32,
    pub y2: i32,
    pub z2: i32,
}

/// A row with its box.
#[repr(C)]
#[derive(Clone, Copy)]
pub struct SentEntry {
    pub row: u64,
    pub key: SentBox,
}

/// A row with its box of space.
#[repr(C)]
#[derive(Clone, Copy)]
pub struct SentEntry3 {
    pub row: u64,
    pub key: SentBox3,
}

/// How many entries a session had found that C hadn't had, and how many of them C has now.
#[repr(C)]
#[derive(Clone, Copy)]
pub struct SentCount {
    pub found: usize,
    pub told: usize,
}

/// Nothing was found, and nothing written.
pub(crate) const UNTOLD: SentCount = SentCount { found: 0, told: 0 };

/// The box with these corners.
pub(crate) fn box_of(sent: &SentBox) -> Result<Box2, Refusal>
    ensures { IsBoxOf sent.now result }
{
    Box2::new(sent.x1, sent.y1, sent.x2, sent.y2)
}

/// The box of space with these corners.
pub(crate) fn solid_of(sent: &SentBox3) -> Result<Box3, Refusal>
    ensures { IsSolidOf sent.now result }
{
    Box3::new(sent.x1, sent.y1, sent.z1, sent.x2, sent.y2, sent.z2)
}

/// An entry as C has it.
pub(crate) fn sent_entry(entry: &Entry<Box2>) -> SentEntry
    ensures { result ≡ sent_entry entry.now }
{
    let key = &entry.key;
    let (x1, y1, x2, y2) = (key.x1(), key.y1(), key.x2(), key.y2());
    SentEntry {
        row: entry.row,
        key: SentBox { x1, y1, x2, y2 },
    }
}

/// An entry of space as C has it.
pub(crate) fn sent_entry3(entry: &Entry<Box3>) -> SentEntry3
    ensures { result ≡ sent_entry3 entry.now }
{
    let key = &entry.key;
    let (x1, y1, z1) = (key.x1(), key.y1(), key.z1());
    let (x2, y2, z2) = (key.x2(), key.y2(), key.z2());
    SentEntry3 {
        row: entry.row,
        key: SentBox3 {
            x1,
            y1,
            z1,
            x2,
            y2,
            z2,
        },
    }
}

/// The query of a kind, by number: overlap, within, equal, covers.
pub(crate) fn query_of<B: Copy>(kind: u8, key: B) -> Option<Query<B>>
    ensures { result ≡ query_of kind key }
{
    if kind == 0 {
        Some(Query::Overlap(key))
    } else if kind == 1 {
        Some(Query::Within(key))
    } else if kind == 2 {
        Some(Query::Equal(key))
    } else if kind == 3 {
        Some(Query::Covers(key))
    } else {
        None
    }
}
