//! A page's 4,096 bytes: one spelling of a header and a list of entries.
use crate::Damage;
use crate::bytes::{are_zeros, span, u16_at, u32_at, u64_at};
use crate::key::{Entry, KEY, Key, key_of};
use std::alloc::Global;

/// How many bytes a page has.
pub(crate) const PAGE: usize = 4096;

/// Where the directory begins.
const DIRECTORY: usize = 32;

/// An entry of a leaf, live or marked.
#[derive(Clone, Copy)]
pub struct Pair {
    pub entry: Entry,
    pub marked: bool,
}

/// An entry of an inner node: a page, and a key that covers what is below it.
#[derive(Clone, Copy)]
pub struct Child {
    pub key: Key,
    pub page: u32,
}

/// A page of the tree. A leaf, of level 0, has no children; an inner node has no pairs.
#[derive(Drop)]
pub struct Node {
    pub level: u16,
    pub nsn: u64,
    /// The page to the right, 0 if there is none.
    pub right: u32,
    pub pairs: Vec<Pair>,
    pub children: Vec<Child>,
}

/// Where a slot's bytes begin and how many there are, as the directory has it.
fn slot(page: &[u8], number: usize) -> Option<(usize, usize)> {
    let at = number.checked_mul(4)?.checked_add(DIRECTORY)?;
    let offset = u16_at(page, at)?;
    let length = u16_at(page, at.checked_add(2)?)?;
    Some((usize::from(offset), usize::from(length)))
}

/// How many slots a page has.
fn count(page: &[u8]) -> Option<usize> {
    Some(usize::from(u16_at(page, 2)?))
}

/// Where the slots' bytes begin, if each ends where those of the slot before begin, the first one's with the page.
fn heap_start(page: &[u8]) -> Option<usize> {
    let mut start = PAGE;
    for number in 0..count(page)? {
        let (offset, length) = slot(page, number)?;
        if length == 0 || offset.checked_add(length)? != start {
            return None;
        }
        start = offset;
    }
    Some(start)
}

/// Whether a page has the only bytes that spell its header and its slots.
fn is_spelling(page: &[u8]) -> Option<bool> {
    let start = heap_start(page)?;
    let free = count(page)?.checked_mul(4)?.checked_add(DIRECTORY)?;
    let size = start.checked_sub(free)?;
    Some(
        usize::from(u16_at(page, 4)?) == start
            && are_zeros(span(page, 6, 2))
            && are_zeros(span(page, 24, 8))
            && are_zeros(span(page, free, size)),
    )
}

/// The bytes of a page at a place of the image, if they spell one.
pub(crate) fn page_at(image: &[u8], at: usize) -> Result<&[u8], Damage> {
    let page = span(image, at, PAGE).ok_or(Damage::Page)?;
    match is_spelling(page) {
        Some(true) => Ok(page),
        _ => Err(Damage::Page),
    }
}

/// The number that a page has as its own.
pub(crate) fn own_number(page: &[u8]) -> Result<u32, Damage> {
    u32_at(page, 20).ok_or(Damage::Page)
}

/// The bytes of a slot.
fn item(page: &[u8], number: usize) -> Option<&[u8]> {
    let (offset, length) = slot(page, number)?;
    span(page, offset, length)
}

/// The key at the front of these bytes.
fn front_key(class: u16, item: &[u8]) -> Result<Key, Damage> {
    let bytes = span(item, 0, KEY).ok_or(Damage::Entry)?;
    key_of(class, bytes).ok_or(Damage::Key)
}

/// A leaf's entry: key, row, mark.
fn pair_of(class: u16, item: &[u8]) -> Result<Pair, Damage> {
    let row = u64_at(item, 16).ok_or(Damage::Entry)?;
    let marked = match span(item, 24, item.len().saturating_sub(24)) {
        Some([0]) => false,
        Some([1]) => true,
        _ => return Err(Damage::Entry),
    };
    let key = front_key(class, item)?;
    Ok(Pair {
        entry: Entry { row, key },
        marked,
    })
}

/// Whether an inner node's entry may name a page, on a device of so many pages; if that isn't known, any.
fn may_name(pages: Option<u32>, page: u32) -> bool {
    match pages {
        Some(pages) => page > 0 && page <= pages,
        None => true,
    }
}

/// An inner node's entry: key, child.
fn child_of(class: u16, pages: Option<u32>, item: &[u8]) -> Result<Child, Damage> {
    let page = u32_at(item, 16).ok_or(Damage::Entry)?;
    if item.len() != 20 || !may_name(pages, page) {
        return Err(Damage::Entry);
    }
    let key = front_key(class, item)?;
    Ok(Child { key, page })
}

fn pairs_of(alloc: Global, class: u16, page: &[u8]) -> Result<Vec<Pair>, Damage> {
    let mut pairs = Vec::new(alloc);
    for number in 0..count(page).ok_or(Damage::Page)? {
        let item = item(page, number).ok_or(Damage::Page)?;
        pairs.push(pair_of(class, item)?)?;
    }
    Ok(pairs)
}

fn children_of(
    alloc: Global,
    class: u16,
    pages: Option<u32>,
    page: &[u8],
) -> Result<Vec<Child>, Damage> {
    let mut children = Vec::new(alloc);
    for number in 0..count(page).ok_or(Damage::Page)? {
        let item = item(page, number).ok_or(Damage::Page)?;
        children.push(child_of(class, pages, item)?)?;
    }
    Ok(children)
}

/// The node that a page's bytes spell, on a device of so many pages; if that isn't known, it may name any.
pub(crate) fn node_of(
    alloc: Global,
    class: u16,
    pages: Option<u32>,
    page: &[u8],
) -> Result<Node, Damage> {
    let level = u16_at(page, 0).ok_or(Damage::Page)?;
    let nsn = u64_at(page, 8).ok_or(Damage::Page)?;
    let right = u32_at(page, 16).ok_or(Damage::Page)?;
    let mut pairs = Vec::new(alloc);
    let mut children = Vec::new(alloc);
    if level == 0 {
        pairs = pairs_of(alloc, class, page)?;
    } else {
        children = children_of(alloc, class, pages, page)?;
    }
    Ok(Node {
        level,
        nsn,
        right,
        pairs,
        children,
    })
}
