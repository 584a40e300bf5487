//! The records of bodies, one after another.
use crate::bytes::{sector, span, u16_at, u32_at, u64_at};
use crate::key::{Entry, KEY, Key, key_of};
use crate::log::{Image, Log};
use crate::page::{PAGE, own_number, page_at};
use crate::small::{SLOTS, Slots, Small};
use crate::{Damage, rules};
use std::alloc::Global;

/// How many bytes of records a body may have.
const MOST: u32 = 32_764;

/// What a record says that a transaction wrote. The entry is `None` if its key is none of the class.
#[derive(Clone, Copy)]
pub(crate) struct Touching {
    pub(crate) transaction: u64,
    pub(crate) entry: Option<Entry>,
    pub(crate) before: bool,
    pub(crate) leaf: u32,
}

/// A record.
#[derive(Clone, Copy)]
pub(crate) enum Logged {
    /// Counter, pages in use, and one to three pages by rising number.
    Pages {
        counter: u64,
        used: u32,
        images: [Option<Image>; 3],
    },
    /// What was written, and the leaf's image.
    Write(Touching, Image),
    /// Transaction, number.
    Commit(u64, u64),
    /// Transaction.
    End(u64),
    /// The last commit's number, counter, pages in use, the next transaction's number.
    Counters {
        number: u64,
        counter: u64,
        used: u32,
        next: u64,
    },
    Note(Touching),
    /// What was written, and the mark after it.
    Bit(Touching, bool),
    /// What was written: a pair is added.
    Add(Touching),
    /// A page, and the small change of it; `None` if its key is none of the class.
    Adjust(u32, Option<Small>),
}

/// How far a record is read.
#[derive(Drop)]
struct Cursor<'a> {
    image: &'a [u8],
    at: usize,
    /// Where the body's records end.
    end: usize,
}

impl<'a> Cursor<'a> {
    /// Goes so many bytes on, and returns where they begin.
    fn step(&mut self, size: usize) -> Option<usize> {
        let at = self.at;
        let after = at.checked_add(size)?;
        if after > self.end {
            return None;
        }
        self.at = after;
        Some(at)
    }

    fn byte(&mut self) -> Option<u8> {
        let at = self.step(1)?;
        self.image.get(at).copied()
    }

    fn mark(&mut self) -> Option<bool> {
        match self.byte()? {
            0 => Some(false),
            1 => Some(true),
            _ => None,
        }
    }

    fn number16(&mut self) -> Option<u16> {
        let at = self.step(2)?;
        u16_at(self.image, at)
    }

    fn number32(&mut self) -> Option<u32> {
        let at = self.step(4)?;
        u32_at(self.image, at)
    }

    fn number64(&mut self) -> Option<u64> {
        let at = self.step(8)?;
        u64_at(self.image, at)
    }

    /// A key, if it is one of the class.
    fn key(&mut self, class: u16) -> Option<Option<Key>> {
        let at = self.step(KEY)?;
        let bytes = span(self.image, at, KEY)?;
        Some(key_of(class, bytes))
    }

    /// The entry of a row, by its key's bytes.
    fn entry(&mut self, class: u16, row: u64) -> Option<Option<Entry>> {
        Some(self.key(class)?.map(|key| Entry { row, key }))
    }

    /// The number of a page that is changed, which isn't 0.
    fn page(&mut self) -> Option<u32> {
        match self.number32()? {
            0 => None,
            page => Some(page),
        }
    }

    /// A page's number and its image, which has that number as its own.
    fn image(&mut self) -> Option<Image> {
        let page = self.number32()?;
        let at = self.step(PAGE)?;
        let bytes = page_at(self.image, at).ok()?;
        if own_number(bytes).ok()? == page {
            Some(Image { page, at })
        } else {
            None
        }
    }
}

/// The images of a `Pages`, whose numbers rise.
fn images(cursor: &mut Cursor<'_>) -> Option<[Option<Image>; 3]> {
    let count = usize::from(cursor.byte()?);
    let mut images = [None; 3];
    if count < 1 || count > 3 {
        return None;
    }
    let mut last = None;
    for place in images.iter_mut().take(count) {
        let image = cursor.image()?;
        if last >= Some(image.page) {
            return None;
        }
        last = Some(image.page);
        *place = Some(image);
    }
    Some(images)
}

fn pages(cursor: &mut Cursor<'_>) -> Option<Logged> {
    Some(Logged::Pages {
        counter: cursor.number64()?,
        used: cursor.number32()?,
        images: images(cursor)?,
    })
}

/// A write: transaction, row, key, marks before and after, leaf, the leaf's image.
fn write(class: u16, cursor: &mut Cursor<'_>) -> Option<Logged> {
    let transaction = cursor.number64()?;
    let row = cursor.number64()?;
    let entry = cursor.entry(class, row)?;
    let before = cursor.mark()?;
    let _after = cursor.mark()?;
    let image = cursor.image()?;
    let touching = Touching {
        transaction,
        entry,
        before,
        leaf: image.page,
    };
    Some(Logged::Write(touching, image))
}

fn counters(cursor: &mut Cursor<'_>) -> Option<Logged> {
    Some(Logged::Counters {
        number: cursor.number64()?,
        counter: cursor.number64()?,
        used: cursor.number32()?,
        next: cursor.number64()?,
    })
}

/// A note: transaction, row, key, mark before, leaf.
fn note(class: u16, cursor: &mut Cursor<'_>) -> Option<Logged> {
    let transaction = cursor.number64()?;
    let row = cursor.number64()?;
    let entry = cursor.entry(class, row)?;
    let before = cursor.mark()?;
    let leaf = cursor.number32()?;
    Some(Logged::Note(Touching {
        transaction,
        entry,
        before,
        leaf,
    }))
}

/// A mark set: transaction, row, key, marks before and after, leaf.
fn bit(class: u16, cursor: &mut Cursor<'_>) -> Option<Logged> {
    let transaction = cursor.number64()?;
    let row = cursor.number64()?;
    let entry = cursor.entry(class, row)?;
    let before = cursor.mark()?;
    let after = cursor.mark()?;
    let leaf = cursor.page()?;
    let touching = Touching {
        transaction,
        entry,
        before,
        leaf,
    };
    Some(Logged::Bit(touching, after))
}

/// An entry added, which was absent before: transaction, row, key, leaf.
fn add(class: u16, cursor: &mut Cursor<'_>) -> Option<Logged> {
    let transaction = cursor.number64()?;
    let row = cursor.number64()?;
    let entry = cursor.entry(class, row)?;
    let leaf = cursor.page()?;
    let touching = Touching {
        transaction,
        entry,
        before: true,
        leaf,
    };
    Some(Logged::Add(touching))
}

/// A bound widened: page, slot, key.
fn widen(class: u16, cursor: &mut Cursor<'_>) -> Option<Logged> {
    let page = cursor.page()?;
    let slot = cursor.number16()?;
    let key = cursor.key(class)?;
    Some(Logged::Adjust(page, key.map(|key| Small::Bound(slot, key))))
}

/// The slots of a sweep, after their count.
fn slots(cursor: &mut Cursor<'_>) -> Option<Slots> {
    let count = usize::from(cursor.byte()?);
    if count < 1 || count > SLOTS {
        return None;
    }
    let mut numbers = [0; SLOTS];
    let mut last = None;
    for place in numbers.iter_mut().take(count) {
        let slot = cursor.number16()?;
        if last >= Some(slot) {
            return None;
        }
        last = Some(slot);
        *place = slot;
    }
    Some(Slots { numbers, count })
}

fn sweep(cursor: &mut Cursor<'_>) -> Option<Logged> {
    let page = cursor.page()?;
    Some(Logged::Adjust(page, Some(Small::Sweep(slots(cursor)?))))
}

/// The record that begins there. `None` if none does that is whole.
fn record_at(class: u16, cursor: &mut Cursor<'_>) -> Option<Logged> {
    match cursor.byte()? {
        1 => pages(cursor),
        2 => write(class, cursor),
        3 => Some(Logged::Commit(cursor.number64()?, cursor.number64()?)),
        4 => Some(Logged::End(cursor.number64()?)),
        5 => counters(cursor),
        6 => note(class, cursor),
        7 => bit(class, cursor),
        8 => add(class, cursor),
        9 => widen(class, cursor),
        10 => sweep(cursor),
        _ => None,
    }
}

/// Whether a record may be there: the first body has counters at its start and then notes, and another one neither.
fn may_stand(body: usize, at: usize, logged: &Logged) -> bool {
    match logged {
        Logged::Counters { .. } => body == 0 && at == 0,
        Logged::Note(_) => body == 0 && at > 0,
        _ => body > 0,
    }
}

/// A body: how many bytes of records it has, and those records, whole.
fn take_body(alloc: Global, log: &mut Log, image: &[u8], at: usize) -> Result<(), Damage> {
    log.at = 0;
    let size = u32_at(image, at).unwrap_or(0);
    if size < 1 || size > MOST {
        return log.test(false, rules::BODY_SIZE);
    }
    let start = at.saturating_add(4);
    let end = start.saturating_add(size as usize);
    let mut cursor = Cursor {
        image,
        at: start,
        end,
    };
    for _ in 0..size {
        if cursor.at >= end || !log.found.is_none() {
            break;
        }
        log.at = cursor.at.saturating_sub(start);
        match record_at(log.parameters.class, &mut cursor) {
            Some(logged) => {
                let may = may_stand(log.body, log.at, &logged);
                log.test(may, rules::MISPLACED)?;
                log.take(alloc, image, &logged)?;
            }
            None => log.test(false, rules::SPELLING)?,
        }
    }
    Ok(())
}

/// How many places an extent has: so many gates, of a sector each, and after them as many bodies, of 64 each.
const PLACES: usize = 128;

/// The records after the leading open gates of an extent that begins at this sector, up to one that may not be there.
pub(crate) fn take_extent(
    alloc: Global,
    log: &mut Log,
    image: &[u8],
    first: usize,
) -> Result<(), Damage> {
    for place in 0..PLACES {
        log.body = place;
        let gate = sector(first.saturating_add(place));
        if image.get(gate).copied() != Some(0xA7) {
            return log.test(place > 0, rules::FIRST_GATE);
        }
        let body = sector(first.saturating_add(PLACES + 64 * place));
        take_body(alloc, log, image, body)?;
        if !log.found.is_none() {
            break;
        }
    }
    Ok(())
}
