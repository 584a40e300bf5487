//! Reading a record from the front of bytes, field by field. Each function returns what it read and the bytes after it.
ghost use Rattle.std.specs.Prelude.{◌≡◌, ◌≤◌};
ghost use Rattle.gx_record.specs.Reading.{Reads, bytes_at, number_8_at, number_4_at, number_2_at, mark_at, page_at};
ghost use Rattle.gx_record.specs.Reading.{is_image_of, image_at, numbered_at, rising_at, images_at, pages_at};
ghost use Rattle.gx_record.specs.Reading.{entry_at, write_at, commit_at, end_at, counters_at, note_at, record_at};
ghost use Rattle.gx_record.specs.Reading.{bit_at, add_at, widen_at, rising_slots_at, slots_at, sweep_at};
ghost use Rattle.gx_record.specs.Seen.{is_marked, numbered, images, slots as slots_of, rec_of};

use crate::mark::Mark;
use crate::pages::{PageImage, PageImages};
use crate::record::Record;
use crate::sizes::{MOST_SLOTS, SLOT_NUMBER};
use crate::slots::Slots;
use crate::tags::{ADD, BIT, COMMIT, COUNTERS, END, NOTE, PAGES, SWEEP, WIDEN, WRITE};
use gx_page::{PAGE_SIZE, Page};

fn bytes_at(bytes: &[u8], size: usize) -> Option<(&[u8], &[u8])>
    ensures { Reads (λ x. (x.0.now, x.1.now)) result (bytes_at size bytes.now) }
{
    if bytes.len() < size {
        return None;
    }
    Some(bytes.split_at(size))
}

#[tactic(auto, unfolding(crate::specs::Reading::number_8_at, crate::specs::Bytes::u64_of))]
fn u64_at(bytes: &[u8]) -> Option<(u64, &[u8])>
    ensures { Reads (λ x. (x.0, x.1.now)) result (number_8_at bytes.now) }
{
    let (front, rest) = bytes_at(bytes, 8)?;
    Some((u64::from_be_bytes(*front.first_chunk::<8>()?), rest))
}

#[tactic(auto, unfolding(crate::specs::Reading::number_4_at, crate::specs::Bytes::u32_of))]
fn u32_at(bytes: &[u8]) -> Option<(u32, &[u8])>
    ensures { Reads (λ x. (x.0, x.1.now)) result (number_4_at bytes.now) }
{
    let (front, rest) = bytes_at(bytes, 4)?;
    Some((u32::from_be_bytes(*front.first_chunk::<4>()?), rest))
}

#[tactic(auto, unfolding(crate::specs::Reading::number_2_at, crate::specs::Bytes::u16_of))]
fn u16_at(bytes: &[u8]) -> Option<(u16, &[u8])>
    ensures { Reads (λ x. (x.0, x.1.now)) result (number_2_at bytes.now) }
{
    let (front, rest) = bytes_at(bytes, 2)?;
    Some((u16::from_be_bytes(*front.first_chunk::<2>()?), rest))
}

#[tactic(auto, unfolding(crate::specs::Reading::mark_at))]
fn mark_at(bytes: &[u8]) -> Option<(Mark, &[u8])>
    ensures { Reads (λ x. (is_marked x.0, x.1.now)) result (mark_at bytes.now) }
{
    match bytes {
        [0, rest @ ..] => Some((Mark::Live, rest)),
        [1, rest @ ..] => Some((Mark::Marked, rest)),
        _ => None,
    }
}

/// A page number from a least one on.
#[tactic(auto, unfolding(crate::specs::Reading::page_at))]
fn page_at(bytes: &[u8], least: u64) -> Option<(u32, &[u8])>
    ensures { Reads (λ x. (x.0, x.1.now)) result (page_at least bytes.now) }
{
    let (page, rest) = u32_at(bytes)?;
    if u64::from(page) < least {
        return None;
    }
    Some((page, rest))
}

/// Whether the bytes are the image of a page of that number.
#[tactic(auto, unfolding(crate::specs::Reading::is_image_of))]
fn is_image_of(image: &[u8], page: u32) -> bool
    ensures { result ≡ is_image_of page image.now }
{
    match Page::check(image) {
        Ok(number) => number == page,
        Err(_) => false,
    }
}

#[tactic(auto, unfolding(crate::specs::Reading::image_at))]
fn image_at(bytes: &[u8], page: u32) -> Option<(&[u8], &[u8])>
    ensures { Reads (λ x. (x.0.now, x.1.now)) result (image_at page bytes.now) }
{
    let (image, rest) = bytes_at(bytes, PAGE_SIZE)?;
    if !is_image_of(image, page) {
        return None;
    }
    Some((image, rest))
}

/// A page with its image, of a number from a least one on.
#[tactic(auto, unfolding(crate::specs::Reading::numbered_at))]
fn numbered_at(bytes: &[u8], least: u64) -> Option<(PageImage<'_>, &[u8])>
    ensures { Reads (λ x. (numbered x.0, x.1.now)) result (numbered_at least bytes.now) }
{
    let (page, rest) = page_at(bytes, least)?;
    let (image, rest) = image_at(rest, page)?;
    Some((PageImage { page, image }, rest))
}

#[tactic(auto, unfolding(crate::specs::Reading::rising_at))]
fn one_at(bytes: &[u8]) -> Option<(PageImages<'_>, &[u8])>
    ensures { Reads (λ x. (images x.0, x.1.now)) result (rising_at 1 0 bytes.now) }
{
    let (first, rest) = numbered_at(bytes, 0)?;
    Some((PageImages::One(first), rest))
}

#[tactic(auto, unfolding(crate::specs::Reading::rising_at))]
fn two_at(bytes: &[u8]) -> Option<(PageImages<'_>, &[u8])>
    ensures { Reads (λ x. (images x.0, x.1.now)) result (rising_at 2 0 bytes.now) }
{
    let (first, rest) = numbered_at(bytes, 0)?;
    let (second, rest) = numbered_at(rest, u64::from(first.page) + 1)?;
    Some((PageImages::Two(first, second), rest))
}

#[tactic(auto, unfolding(crate::specs::Reading::rising_at))]
fn three_at(bytes: &[u8]) -> Option<(PageImages<'_>, &[u8])>
    ensures { Reads (λ x. (images x.0, x.1.now)) result (rising_at 3 0 bytes.now) }
{
    let (first, rest) = numbered_at(bytes, 0)?;
    let (second, rest) = numbered_at(rest, u64::from(first.page) + 1)?;
    let (third, rest) = numbered_at(rest, u64::from(second.page) + 1)?;
    Some((PageImages::Three(first, second, third), rest))
}

/// One to three pages, after their count.
#[tactic(auto, unfolding(crate::specs::Reading::images_at))]
fn images_at(bytes: &[u8]) -> Option<(PageImages<'_>, &[u8])>
    ensures { Reads (λ x. (images x.0, x.1.now)) result (images_at bytes.now) }
{
    match bytes {
        [1, rest @ ..] => one_at(rest),
        [2, rest @ ..] => two_at(rest),
        [3, rest @ ..] => three_at(rest),
        _ => None,
    }
}

#[tactic(auto, unfolding(crate::specs::Reading::pages_at))]
fn pages_at(bytes: &[u8]) -> Option<(Record<'_>, &[u8])>
    ensures { Reads (λ x. (rec_of x.0, x.1.now)) result (pages_at bytes.now) }
{
    let (counter, rest) = u64_at(bytes)?;
    let (used, rest) = u32_at(rest)?;
    let (pages, rest) = images_at(rest)?;
    let record = Record::Pages {
        counter,
        used,
        pages,
    };
    Some((record, rest))
}

/// Whose write of which entry it is.
struct Entry<'a> {
    tx: u64,
    row: u64,
    key: &'a [u8],
}

#[tactic(auto, unfolding(crate::specs::Reading::entry_at))]
fn entry_at(bytes: &[u8], size: usize) -> Option<(Entry<'_>, &[u8])>
    ensures { Reads (λ x. ((x.0.tx, x.0.row, x.0.key.now), x.1.now)) result (entry_at size bytes.now) }
{
    let (tx, rest) = u64_at(bytes)?;
    let (row, rest) = u64_at(rest)?;
    let (key, rest) = bytes_at(rest, size)?;
    Some((Entry { tx, row, key }, rest))
}

#[tactic(auto, unfolding(crate::specs::Reading::write_at))]
fn write_at(bytes: &[u8], size: usize) -> Option<(Record<'_>, &[u8])>
    ensures { Reads (λ x. (rec_of x.0, x.1.now)) result (write_at size bytes.now) }
{
    let (Entry { tx, row, key }, rest) = entry_at(bytes, size)?;
    let (before, rest) = mark_at(rest)?;
    let (after, rest) = mark_at(rest)?;
    let (leaf, rest) = numbered_at(rest, 0)?;
    let record = Record::Write {
        tx,
        row,
        key,
        before,
        after,
        leaf: leaf.page,
        image: leaf.image,
    };
    Some((record, rest))
}

#[tactic(auto, unfolding(crate::specs::Reading::commit_at))]
fn commit_at(bytes: &[u8]) -> Option<(Record<'_>, &[u8])>
    ensures { Reads (λ x. (rec_of x.0, x.1.now)) result (commit_at bytes.now) }
{
    let (tx, rest) = u64_at(bytes)?;
    let (n, rest) = u64_at(rest)?;
    Some((Record::Commit { tx, n }, rest))
}

#[tactic(auto, unfolding(crate::specs::Reading::end_at))]
fn end_at(bytes: &[u8]) -> Option<(Record<'_>, &[u8])>
    ensures { Reads (λ x. (rec_of x.0, x.1.now)) result (end_at bytes.now) }
{
    let (tx, rest) = u64_at(bytes)?;
    Some((Record::End { tx }, rest))
}

#[tactic(auto, unfolding(crate::specs::Reading::counters_at))]
fn counters_at(bytes: &[u8]) -> Option<(Record<'_>, &[u8])>
    ensures { Reads (λ x. (rec_of x.0, x.1.now)) result (counters_at bytes.now) }
{
    let (n, rest) = u64_at(bytes)?;
    let (counter, rest) = u64_at(rest)?;
    let (used, rest) = u32_at(rest)?;
    let (next, rest) = u64_at(rest)?;
    let record = Record::Counters {
        n,
        counter,
        used,
        next,
    };
    Some((record, rest))
}

#[tactic(auto, unfolding(crate::specs::Reading::note_at))]
fn note_at(bytes: &[u8], size: usize) -> Option<(Record<'_>, &[u8])>
    ensures { Reads (λ x. (rec_of x.0, x.1.now)) result (note_at size bytes.now) }
{
    let (Entry { tx, row, key }, rest) = entry_at(bytes, size)?;
    let (before, rest) = mark_at(rest)?;
    let (leaf, rest) = page_at(rest, 0)?;
    let record = Record::Note {
        tx,
        row,
        key,
        before,
        leaf,
    };
    Some((record, rest))
}

#[tactic(auto, unfolding(crate::specs::Reading::bit_at))]
fn bit_at(bytes: &[u8], size: usize) -> Option<(Record<'_>, &[u8])>
    ensures { Reads (λ x. (rec_of x.0, x.1.now)) result (bit_at size bytes.now) }
{
    let (Entry { tx, row, key }, rest) = entry_at(bytes, size)?;
    let (before, rest) = mark_at(rest)?;
    let (after, rest) = mark_at(rest)?;
    let (leaf, rest) = page_at(rest, 1)?;
    let record = Record::Bit {
        tx,
        row,
        key,
        before,
        after,
        leaf,
    };
    Some((record, rest))
}

#[tactic(auto, unfolding(crate::specs::Reading::add_at))]
fn add_at(bytes: &[u8], size: usize) -> Option<(Record<'_>, &[u8])>
    ensures { Reads (λ x. (rec_of x.0, x.1.now)) result (add_at size bytes.now) }
{
    let (Entry { tx, row, key }, rest) = entry_at(bytes, size)?;
    let (leaf, rest) = page_at(rest, 1)?;
    let record = Record::Add { tx, row, key, leaf };
    Some((record, rest))
}

#[tactic(auto, unfolding(crate::specs::Reading::widen_at))]
fn widen_at(bytes: &[u8], size: usize) -> Option<(Record<'_>, &[u8])>
    ensures { Reads (λ x. (rec_of x.0, x.1.now)) result (widen_at size bytes.now) }
{
    let (page, rest) = page_at(bytes, 1)?;
    let (slot, rest) = u16_at(rest)?;
    let (key, behind) = bytes_at(rest, size)?;
    Some((Record::Widen { page, slot, key }, behind))
}

/// So many slots, which rise.
#[tactic(auto, unfolding(crate::specs::Reading::rising_slots_at))]
fn rising_slots_at(bytes: &[u8], count: usize) -> Option<(Slots<'_>, &[u8])>
    requires { count ≤ MOST_SLOTS }
    ensures { Reads (λ x. (slots_of x.0, x.1.now)) result (rising_slots_at count bytes.now) }
{
    let (bytes, rest) = bytes_at(bytes, SLOT_NUMBER * count)?;
    let slots = Slots { bytes };
    if !slots.rise() {
        return None;
    }
    Some((slots, rest))
}

/// One slot to the most, after their count.
#[tactic(auto, unfolding(crate::specs::Reading::slots_at))]
fn slots_at(bytes: &[u8]) -> Option<(Slots<'_>, &[u8])>
    ensures { Reads (λ x. (slots_of x.0, x.1.now)) result (slots_at bytes.now) }
{
    let [count, rest @ ..] = bytes else {
        return None;
    };
    let count = usize::from(*count);
    if count < 1 || MOST_SLOTS < count {
        return None;
    }
    rising_slots_at(rest, count)
}

#[tactic(auto, unfolding(crate::specs::Reading::sweep_at))]
fn sweep_at(bytes: &[u8]) -> Option<(Record<'_>, &[u8])>
    ensures { Reads (λ x. (rec_of x.0, x.1.now)) result (sweep_at bytes.now) }
{
    let (leaf, rest) = page_at(bytes, 1)?;
    let (slots, rest) = slots_at(rest)?;
    Some((Record::Sweep { page: leaf, slots }, rest))
}

/// The record at the front, with a key of `size` bytes, and the bytes after it.
#[tactic(auto, unfolding(crate::specs::Reading::record_at, crate::specs::Reading::fields_at))]
pub(crate) fn record_at(bytes: &[u8], size: usize) -> Option<(Record<'_>, &[u8])>
    ensures { Reads (λ x. (rec_of x.0, x.1.now)) result (record_at size bytes.now) }
{
    let [tag, rest @ ..] = bytes else {
        return None;
    };
    match *tag {
        PAGES => pages_at(rest),
        WRITE => write_at(rest, size),
        COMMIT => commit_at(rest),
        END => end_at(rest),
        COUNTERS => counters_at(rest),
        NOTE => note_at(rest, size),
        BIT => bit_at(rest, size),
        ADD => add_at(rest, size),
        WIDEN => widen_at(rest, size),
        SWEEP => sweep_at(rest),
        _ => None,
    }
}
