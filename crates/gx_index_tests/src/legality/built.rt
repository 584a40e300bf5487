//! Trees of boxes that are built by hand, page by page: in memory, and on a device.
use gx_class::{Box2Class, KeyClass};
use gx_disk::{MemDisk, SectorDisk};
use gx_geom::Box2;
use gx_memory_tree::MemoryPages;
use gx_page::Page;
use gx_pool::Pool;
use gx_store::laws::a_store_starts;
use gx_store::{NodeTest, PageStore};
use std::process::Abort;
use std::test::Fail;

/// A box by its corners x1, y1, x2 and y2.
pub(crate) type Corners = (i32, i32, i32, i32);

/// A page of a tree: level, sequence number and rightlink, and each box with a leaf's row or an inner node's child.
pub(crate) type Node<'a> = ((u16, u64, u32), &'a [(u32, Corners)]);

/// How many pages there is room for.
const ROOM: u32 = 16;

/// Where the pages begin on a device, in bytes.
const PAGES_AT: usize = 16_648 * 512;

pub(crate) fn a_box(rt: &impl Abort, corners: Corners) -> Box2 {
    let (x1, y1, x2, y2) = corners;
    Box2::new(x1, y1, x2, y2).ok().expect(rt, "a box")
}

/// Puts an item after the others of a page.
fn put_item(rt: &impl Abort, page: &mut Page, item: &[u8]) {
    assert!(rt; !item.is_empty() && item.len() <= 4060);
    let slot = page.count();
    assert!(rt; page.insert(slot, item));
}

/// A live row's bytes.
fn pair_item(row: u64, key: Box2) -> [u8; 25] {
    let mut item = [0; 25];
    Box2Class::encode(key, &mut item[..16]);
    item[16..24].copy_from_slice(&row.to_be_bytes());
    item
}

/// A child's bytes.
fn child_item(child: u32, key: Box2) -> [u8; 20] {
    let mut item = [0; 20];
    Box2Class::encode(key, &mut item[..16]);
    item[16..].copy_from_slice(&child.to_be_bytes());
    item
}

/// Puts a live row on a leaf, or a child on another node.
fn put_entry(rt: &impl Abort, page: &mut Page, number: u32, corners: Corners) {
    let key = a_box(rt, corners);
    if page.level() == 0 {
        put_item(rt, page, &pair_item(u64::from(number), key));
    } else {
        put_item(rt, page, &child_item(number, key));
    }
}

/// The next page of a tree.
fn add_node<R: Abort + AllocGlobal>(
    rt: &R,
    pages: &mut Vec<Page>,
    node: &Node,
) -> Result<(), Fail> {
    let ((level, nsn, right), entries) = node;
    assert!(rt; pages.len() < 1000);
    let mut page = Page::fresh(rt.alloc(), *level, pages.len() as u32 + 1)?;
    page.set_nsn(*nsn);
    page.set_right(*right);
    for (number, corners) in *entries {
        put_entry(rt, &mut page, *number, *corners);
    }
    pages.push(page)?;
    Ok(())
}

/// The pages of a tree, page 1 first.
fn pages_of<R: Abort + AllocGlobal>(rt: &R, nodes: &[Node]) -> Result<Vec<Page>, Fail> {
    let mut pages = Vec::new(rt.alloc());
    for node in nodes {
        add_node(rt, &mut pages, node)?;
    }
    Ok(pages)
}

/// A tree in memory with so many splits made, and as many pages more that can be taken.
pub(crate) fn in_memory<R: Abort + AllocGlobal>(
    rt: &R,
    counter: u64,
    nodes: &[Node],
) -> Result<MemoryPages<Box2Class>, Fail> {
    let mut spare = Vec::new(rt.alloc());
    for _ in nodes {
        spare.push(Page::fresh(rt.alloc(), 9, 9)?)?;
    }
    let tree = MemoryPages::new(pages_of(rt, nodes)?, spare, counter);
    Ok(tree.ok().expect(rt, "a tree"))
}

/// The bytes of a device that has these pages.
fn device_of<R: Abort + AllocGlobal>(rt: &R, nodes: &[Node]) -> Result<Vec<u8>, Fail> {
    let mut bytes = Vec::from_elem(rt.alloc(), 0u8, PAGES_AT)?;
    for page in pages_of(rt, nodes)?.iter() {
        bytes.extend_from_slice(page.image())?;
    }
    for _ in nodes.len()..ROOM as usize {
        bytes.extend_from_slice(&[0; 4096])?;
    }
    Ok(bytes)
}

/// The same tree on a device, read by sixteen frames.
pub(crate) fn on_device<R: Abort + AllocGlobal>(
    rt: &R,
    counter: u64,
    nodes: &[Node],
) -> Result<PageStore<MemDisk, Box2Class>, Fail> {
    a_store_starts::<MemDisk, Box2Class>();
    let bytes = device_of(rt, nodes)?;
    assert!(rt; bytes.len() % 512 == 0 && nodes.len() <= ROOM as usize);
    let disk = MemDisk::from_bytes(rt.alloc(), bytes);
    assert!(rt; disk.sectors() >= 16_776);
    let pool = Pool::with_capacity(rt.alloc(), 16, NodeTest::new(ROOM));
    let pool = pool.ok().expect(rt, "a pool");
    Ok(PageStore::new(disk, pool, nodes.len() as u32, counter, ROOM))
}
