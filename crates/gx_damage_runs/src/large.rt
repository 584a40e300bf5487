//! A large tree of boxes on a file, with a log that has as many pages as a log can have.
use crate::base::Body;
use crate::bytes::{FIRST_OF_BODIES, FIRST_OF_PAGES, lay, sector};
use crate::draw::below;
use crate::fault::RunFault;
use gx_class::Box2Class;
use gx_disk::{FileDisk, SectorDisk};
use gx_format::MAGIC;
use gx_geom::Box2;
use gx_machine::Entry;
use gx_memory_tree::{DescentPlace, MemoryPages, insert_step};
use gx_page::Page;
use gx_tree::Pages;
use rand_pcg::Pcg32;
use std::alloc::Global;
use std::fs::{File, Files};

/// How many entries a node has at most.
pub(crate) const MOST: usize = 100;

/// How many bodies of the log have pages, and how many each: a log has at most 889 pages.
const BODIES: usize = 127;

const IN_BODY: usize = 7;

/// The last page that the log has.
const LOGGED: u32 = 889;

/// How many steps an insert takes at most.
const STEPS: u32 = 1000;

/// How many pages a device has at most.
const MOST_PAGES: usize = 65_536;

type Tree = MemoryPages<Box2Class>;

/// A number of a plane of 2^20 by 2^20, or an offset in it.
fn draw_number(draw: &mut Pcg32, bound: usize) -> i32 {
    i32::try_from(below(draw, bound)).unwrap_or(0)
}

/// A box of the plane, at most 1,024 long each way.
fn draw_box(draw: &mut Pcg32) -> Result<Box2, RunFault> {
    let (x, y) = (draw_number(draw, 1_048_576), draw_number(draw, 1_048_576));
    let (wide, high) = (draw_number(draw, 1024), draw_number(draw, 1024));
    let drawn = Box2::new(x, y, x.saturating_add(wide), y.saturating_add(high))?;
    Ok(drawn)
}

/// A root over an empty leaf, and so many pages that can be taken.
fn fresh_tree(alloc: Global, room: usize) -> Result<Tree, RunFault> {
    let mut root = Page::fresh(alloc, 1, 1)?;
    let mut child = [0; 20];
    child[19] = 2;
    if !root.insert(0, &child) {
        return Err(RunFault::Unexpected);
    }
    let mut pages = Vec::new(alloc);
    pages.push(root)?;
    pages.push(Page::fresh(alloc, 0, 2)?)?;
    let mut spare = Vec::new(alloc);
    for _ in 0..room.min(MOST_PAGES) {
        spare.push(Page::fresh(alloc, 0, 0)?)?;
    }
    let tree = MemoryPages::new(pages, spare, 0)?;
    Ok(tree)
}

/// Inserts a pair.
fn insert(tree: &mut Tree, entry: &Entry<Box2>, keys: &mut [Box2; MOST]) -> Result<(), RunFault> {
    let mut place = DescentPlace::top(tree);
    for _ in 0..STEPS {
        match insert_step(tree, place, entry, MOST, keys) {
            Ok(Some(next)) => place = next,
            Ok(None) => return Ok(()),
            Err(_) => return Err(RunFault::Unexpected),
        }
    }
    Err(RunFault::Unexpected)
}

/// A tree of so many random boxes.
fn draw_tree(alloc: Global, pairs: u64) -> Result<Tree, RunFault> {
    let room = usize::try_from(pairs / 40).unwrap_or(0).saturating_add(64);
    let mut tree = fresh_tree(alloc, room)?;
    let mut draw = Pcg32::new(1, 7);
    let mut keys = [Box2::point(0, 0); MOST];
    for row in 0..pairs {
        let key = draw_box(&mut draw)?;
        insert(&mut tree, &Entry { row, key }, &mut keys)?;
    }
    Ok(tree)
}

/// The counters that a log begins with, after one commit.
fn head(alloc: Global, counter: u64, used: u32) -> Result<Body, RunFault> {
    let mut body = Body::new(alloc);
    body.begin_record(5, 1)?;
    body.put_bytes(&counter.to_be_bytes())?;
    body.put_bytes(&used.to_be_bytes())?;
    body.put_bytes(&[0, 0, 0, 0, 0, 0, 0, 2])?;
    Ok(body)
}

/// A body with a record for each of these pages.
fn given(alloc: Global, counter: u64, used: u32, pages: &[&Page]) -> Result<Body, RunFault> {
    let mut body = Body::new(alloc);
    for page in pages {
        body.put_bytes(&[1])?;
        body.put_bytes(&counter.to_be_bytes())?;
        body.put_bytes(&used.to_be_bytes())?;
        body.put_bytes(&[1])?;
        body.put_bytes(&page.number().to_be_bytes())?;
        body.put_bytes(page.image())?;
    }
    Ok(body)
}

/// Lays a body and its open gate.
fn lay_body(bytes: &mut [u8], body: &Body, place: usize) {
    let at = sector(place.saturating_mul(64).saturating_add(FIRST_OF_BODIES));
    let size = u32::try_from(body.bytes.len()).unwrap_or(0);
    lay(bytes, at, &size.to_be_bytes());
    lay(bytes, at.saturating_add(4), &body.bytes);
    lay(bytes, sector(place.saturating_add(8)), &[0xA7]);
}

/// Lays the log: the counters, and bodies that have the first pages.
fn lay_log(alloc: Global, bytes: &mut [u8], tree: &Tree) -> Result<(), RunFault> {
    let (counter, used) = (tree.counter(), tree.used());
    lay_body(bytes, &head(alloc, counter, used)?, 0);
    for place in 0..BODIES {
        let mut pages = Vec::new(alloc);
        for next in 0..IN_BODY {
            let before = place.saturating_mul(IN_BODY).saturating_add(next);
            let number = u32::try_from(before).unwrap_or(0).saturating_add(1);
            if number > 0 && number <= used {
                pages.push(tree.page(number))?;
            }
        }
        if pages.is_empty() {
            break;
        }
        let body = given(alloc, counter, used, &pages)?;
        lay_body(bytes, &body, place.saturating_add(1));
    }
    Ok(())
}

/// The bytes of a device that has this tree and no room for more: each page in the log alone or in its place alone.
fn image(alloc: Global, tree: &Tree) -> Result<Vec<u8>, RunFault> {
    let used = tree.used();
    let sectors = (used as usize)
        .saturating_mul(8)
        .saturating_add(FIRST_OF_PAGES);
    let mut bytes = Vec::new(alloc);
    bytes.resize(sector(sectors), 0)?;
    lay(&mut bytes, 0, &MAGIC);
    lay(&mut bytes, 512, &used.to_be_bytes());
    lay(&mut bytes, 516, &100u16.to_be_bytes());
    lay(&mut bytes, 518, &1u16.to_be_bytes());
    for number in 1..=used {
        if number > LOGGED {
            let before = (number as usize).saturating_sub(1);
            let at = sector(before.saturating_mul(8).saturating_add(FIRST_OF_PAGES));
            lay(&mut bytes, at, tree.page(number).image());
        }
    }
    lay_log(alloc, &mut bytes, tree)?;
    Ok(bytes)
}

/// Makes a file with a tree of so many boxes and its log. Returns how many pages it has.
pub(crate) fn make<R: AllocGlobal + Files<File = File>>(
    rt: &R,
    path: &str,
    pairs: u64,
) -> Result<u32, RunFault> {
    let tree = draw_tree(rt.alloc(), pairs)?;
    let bytes = image(rt.alloc(), &tree)?;
    let sectors = bytes.len() as u64 / 512;
    let Ok(mut disk) = FileDisk::create(rt, path, sectors) else {
        return Err(RunFault::Stream);
    };
    if bytes.is_empty() || bytes.len() % 512 != 0 || disk.write(0, &bytes).is_err() {
        return Err(RunFault::Stream);
    }
    Ok(tree.used())
}
