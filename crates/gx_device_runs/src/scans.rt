//! The scan of nodes beside a plain filter, as each of two compilers builds it: every query on pages of so many
//! entries, whose boxes have the ends of an `i32` among their corners, touch each other and are points.

mod compare;
mod pages;

use crate::fault::RunFault;
use crate::words::Part::{Number, Text};
use crate::words::{Line, say_parts, to_usize};
use compare::{Found, compare};
use gx_class::Box2Class;
use gx_geom::Box2;
use gx_machine::Query;
use gx_node::{Inner, Leaf};
use pages::{BOXES, Boxes, Pages};
use std::alloc::Global;

/// A query on a box.
#[derive(Clone, Copy)]
enum Kind {
    Overlap,
    Within,
    Equal,
    Covers,
}

impl Kind {
    fn query(self, wanted: Box2) -> Query<Box2> {
        match self {
            Kind::Overlap => Query::Overlap(wanted),
            Kind::Within => Query::Within(wanted),
            Kind::Equal => Query::Equal(wanted),
            Kind::Covers => Query::Covers(wanted),
        }
    }
}

/// A kind by its name.
fn kind_by(name: &str) -> Kind {
    match name {
        "overlap" => Kind::Overlap,
        "within" => Kind::Within,
        "equal" => Kind::Equal,
        _ => Kind::Covers,
    }
}

/// All queries of a kind on a leaf and an inner node.
fn found_by(
    leaf: &Leaf<'_, Box2Class>,
    inner: &Inner<'_, Box2Class>,
    boxes: &Boxes,
    kind: Kind,
) -> Option<Found> {
    let mut all = Found::NONE;
    for n in 0..BOXES {
        all = all.with(compare(leaf, inner, &kind.query(boxes.get(n)))?);
    }
    Some(all)
}

/// The same on pages that were made. `None` if they aren't nodes too.
fn found_on(pages: &Pages, boxes: &Boxes, kind: Kind) -> Option<Found> {
    let leaf = Leaf::<Box2Class>::read(&pages.leaf).ok()?;
    let inner = Inner::<Box2Class>::read(&pages.inner, 1).ok()?;
    found_by(&leaf, &inner, boxes, kind)
}

/// All queries of a kind on pages with all boxes, so many on each. `None` if a scan and the filter differ, and if
/// memory is refused.
fn found_on_pages(alloc: Global, kind: Kind, count: usize) -> Option<Found> {
    let boxes = Boxes::new();
    let mut all = Found::NONE;
    for page in 0..8 {
        let pages = Pages::new(alloc, &boxes, 100 * page, count)?;
        all = all.with(found_on(&pages, &boxes, kind)?);
    }
    Some(all)
}

/// A line that asks for the queries of a kind on pages of so many entries: how many keys match, how many of those are
/// of live pairs, and how many bounds may have a match below them.
pub(crate) fn call<R: Print>(rt: &R, alloc: Global, line: &Line<'_>) -> Result<(), RunFault> {
    let kind = kind_by(line.asked());
    let Some(found) = found_on_pages(alloc, kind, to_usize(line.numbers[1])) else {
        return Err(RunFault::Unexpected);
    };
    say_parts(
        rt,
        &[
            Number(found.keys),
            Text(" keys,"),
            Number(found.live),
            Text(" of them live,"),
            Number(found.bounds),
            Text(" bounds"),
        ],
    )
}
