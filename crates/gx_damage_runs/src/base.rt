//! An image to be damaged: nine rows in seven pages, four entries a node, and a log of three bodies that has some of
//! these pages.
use crate::bytes::{FIRST_OF_BODIES, FIRST_OF_PAGES, lay, sector};
use crate::draw::{below, one_in};
use crate::fault::RunFault;
use gx_format::MAGIC;
use gx_page::Page;
use rand_pcg::Pcg32;
use std::alloc::Global;

/// How many pages the device has room for, and how many of them are in use.
pub(crate) const PAGES: u32 = 16;

pub(crate) const USED: usize = 7;

/// How many entries a node may have.
pub(crate) const MOST: u16 = 4;

/// How many sectors the device has.
pub(crate) const SECTORS: usize = FIRST_OF_PAGES + 8 * PAGES as usize;

/// A page of the tree: level, sequence number, rightlink, and of each entry the row or the child, and the first and the
/// last of the rows that its key covers.
type Node = (u16, u64, u32, &'static [(u8, u8, u8)]);

/// The pages, page 1 first. Row `i` has the key from `10 i` to `10 i + 1`.
const NODES: [Node; USED] = [
    (2, 0, 0, &[(6, 1, 4), (7, 5, 9)]),
    (0, 1, 3, &[(1, 1, 1), (2, 2, 2)]),
    (0, 2, 4, &[(3, 3, 3), (4, 4, 4)]),
    (0, 3, 5, &[(5, 5, 5), (6, 6, 6)]),
    (0, 0, 0, &[(7, 7, 7), (8, 8, 8), (9, 9, 9)]),
    (1, 0, 7, &[(2, 1, 2), (3, 3, 4)]),
    (1, 0, 0, &[(4, 5, 6), (5, 7, 9)]),
];

/// An image, and where the bytes of each page are that an opening takes, page 1 first.
#[derive(Drop)]
pub(crate) struct Base {
    pub(crate) bytes: Vec<u8>,
    pub(crate) places: Vec<usize>,
    /// How many bodies have open gates.
    pub(crate) bodies: usize,
}

/// The key from the first row's start to the last row's end, of boxes (1) or intervals (2).
pub(crate) fn key(class: u16, first: u8, last: u8) -> [u8; 16] {
    let low = first.saturating_mul(10);
    let high = last.saturating_mul(10).saturating_add(1);
    let mut key = [0; 16];
    if class == 1 {
        key[3] = low;
        key[11] = high;
        key[15] = 1;
    } else {
        key[7] = low;
        key[15] = high;
    }
    key
}

/// An entry's bytes.
fn item(alloc: Global, class: u16, level: u16, entry: (u8, u8, u8)) -> Result<Vec<u8>, RunFault> {
    let (number, first, last) = entry;
    let mut item = Vec::new(alloc);
    item.extend_from_slice(&key(class, first, last))?;
    if level == 0 {
        item.extend_from_slice(&[0, 0, 0, 0, 0, 0, 0, number, 0])?;
    } else {
        item.extend_from_slice(&[0, 0, 0, number])?;
    }
    Ok(item)
}

/// A page's bytes.
fn page(alloc: Global, class: u16, number: u32, node: Node) -> Result<Page, RunFault> {
    let (level, nsn, right, entries) = node;
    let mut page = Page::fresh(alloc, level, number)?;
    page.set_nsn(nsn);
    page.set_right(right);
    for entry in entries {
        let item = item(alloc, class, level, *entry)?;
        let slot = page.count();
        if item.is_empty() || item.len() > 4060 || !page.insert(slot, &item) {
            return Err(RunFault::Unexpected);
        }
    }
    Ok(page)
}

/// A body's records, and where its images of pages are.
#[derive(Drop)]
pub(crate) struct Body {
    pub(crate) bytes: Vec<u8>,
    images: Vec<(usize, usize)>,
}

impl Body {
    pub(crate) fn new(alloc: Global) -> Body {
        Body {
            bytes: Vec::new(alloc),
            images: Vec::new(alloc),
        }
    }

    pub(crate) fn put_bytes(&mut self, bytes: &[u8]) -> Result<(), RunFault> {
        self.bytes.extend_from_slice(bytes)?;
        Ok(())
    }

    /// A page's number and its image.
    fn image(&mut self, pages: &[Page], number: u8) -> Result<(), RunFault> {
        self.put_bytes(&[0, 0, 0, number])?;
        let Some(page) = pages.get(usize::from(number).saturating_sub(1)) else {
            return Err(RunFault::Unexpected);
        };
        self.images.push((usize::from(number), self.bytes.len()))?;
        self.put_bytes(page.image())
    }

    /// A record's tag and a transaction.
    pub(crate) fn begin_record(&mut self, tag: u8, transaction: u8) -> Result<(), RunFault> {
        self.put_bytes(&[tag, 0, 0, 0, 0, 0, 0, 0, transaction])
    }

    /// A row and its key.
    fn entry(&mut self, class: u16, row: u8) -> Result<(), RunFault> {
        self.put_bytes(&[0, 0, 0, 0, 0, 0, 0, row])?;
        self.put_bytes(&key(class, row, row))
    }

    fn note(&mut self, class: u16, transaction: u8, row: u8, leaf: u8) -> Result<(), RunFault> {
        self.begin_record(6, transaction)?;
        self.entry(class, row)?;
        self.put_bytes(&[row % 2, 0, 0, 0, leaf])
    }

    /// The counters, and notes of what three open transactions have touched.
    fn head(&mut self, class: u16) -> Result<(), RunFault> {
        self.begin_record(5, 1)?;
        self.put_bytes(&[0, 0, 0, 0, 0, 0, 0, 3, 0, 0, 0, 7, 0, 0, 0, 0, 0, 0, 0, 2])?;
        self.note(class, 5, 3, 2)?;
        self.note(class, 5, 9, 5)?;
        self.note(class, 6, 1, 2)?;
        self.note(class, 8, 6, 4)
    }

    /// One of the records of the other bodies.
    fn other(&mut self, class: u16, pages: &[Page], which: usize) -> Result<(), RunFault> {
        match which {
            0 => {
                self.begin_record(2, 7)?;
                self.entry(class, 8)?;
                self.put_bytes(&[0, 0])?;
                self.image(pages, 5)
            }
            1 => self.closing(3, 7, 2),
            2 => self.begin_record(4, 5),
            3 => {
                self.put_bytes(&[1, 0, 0, 0, 0, 0, 0, 0, 3, 0, 0, 0, 7, 2])?;
                self.image(pages, 1)?;
                self.image(pages, 6)
            }
            4 => {
                self.begin_record(2, 9)?;
                self.entry(class, 2)?;
                self.put_bytes(&[1, 0])?;
                self.image(pages, 2)
            }
            _ => self.closing(3, 6, 3),
        }
    }

    /// A commit.
    fn closing(&mut self, tag: u8, transaction: u8, number: u8) -> Result<(), RunFault> {
        self.begin_record(tag, transaction)?;
        self.put_bytes(&[0, 0, 0, 0, 0, 0, 0, number])
    }
}

/// Writes a body and its open gate, and notes where its images are.
fn lay_body(base: &mut Base, body: &Body, place: usize) {
    let at = sector(place.saturating_mul(64).saturating_add(FIRST_OF_BODIES));
    let size = u32::try_from(body.bytes.len()).unwrap_or(0);
    lay(&mut base.bytes, at, &size.to_be_bytes());
    let at = at.saturating_add(4);
    lay(&mut base.bytes, at, &body.bytes);
    lay(&mut base.bytes, sector(place.saturating_add(8)), &[0xA7]);
    for (page, offset) in body.images.iter() {
        if let Some(known) = base.places.get_mut(page.saturating_sub(1)) {
            *known = at.saturating_add(*offset);
        }
    }
}

/// The records of the two other bodies, three each, in their order, or now and then with two of them exchanged.
fn order(draw: &mut Pcg32) -> [usize; 6] {
    let mut order = [0, 1, 2, 3, 4, 5];
    if one_in(draw, 4) {
        let (one, other) = (below(draw, 6), below(draw, 6));
        order.swap(one, other);
    }
    order
}

/// The pages of the tree.
fn pages(alloc: Global, class: u16) -> Result<Vec<Page>, RunFault> {
    let mut pages = Vec::new(alloc);
    let mut number = 0_u32;
    for node in NODES {
        number = number.saturating_add(1);
        pages.push(page(alloc, class, number, node)?)?;
    }
    Ok(pages)
}

/// A device's bytes with these pages, and no log.
fn bare(alloc: Global, class: u16, pages: &[Page]) -> Result<Base, RunFault> {
    let mut bytes = Vec::new(alloc);
    bytes.resize(sector(SECTORS), 0)?;
    lay(&mut bytes, 0, &MAGIC);
    lay(&mut bytes, 512, &PAGES.to_be_bytes());
    lay(&mut bytes, 516, &MOST.to_be_bytes());
    lay(&mut bytes, 518, &class.to_be_bytes());
    let mut places = Vec::new(alloc);
    for (before, page) in pages.iter().enumerate() {
        let at = sector(before.saturating_mul(8).saturating_add(FIRST_OF_PAGES));
        lay(&mut bytes, at, page.image());
        places.push(at)?;
    }
    Ok(Base {
        bytes,
        places,
        bodies: 1,
    })
}

/// An image of a random class: of its log only the head is gated, or one or two bodies more.
pub(crate) fn make_base(alloc: Global, class: u16, draw: &mut Pcg32) -> Result<Base, RunFault> {
    let pages = pages(alloc, class)?;
    let mut base = bare(alloc, class, &pages)?;
    let mut head = Body::new(alloc);
    head.head(class)?;
    lay_body(&mut base, &head, 0);
    let order = order(draw);
    let more = below(draw, 3);
    base.bodies = more.saturating_add(1);
    for (place, records) in order.chunks(3).enumerate() {
        if place >= more {
            break;
        }
        let mut body = Body::new(alloc);
        for which in records {
            body.other(class, &pages, *which)?;
        }
        lay_body(&mut base, &body, place.saturating_add(1));
    }
    Ok(base)
}
