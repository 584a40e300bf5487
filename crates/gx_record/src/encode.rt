//! Writing a record's spelling, field by field. Each function that writes returns the place after what it wrote.
ghost use Rattle.std.specs.Prelude.{◌≡◌, ◌+◌, ◌≤◌, ◌++◌, ◌∷◌, ◌*◌, [], length};
ghost use Rattle.std.specs.List.{AllByRecursion};
ghost use Rattle.gx_record.specs.Bytes.{u64_bytes, u32_bytes, u16_bytes, mark_byte};
ghost use Rattle.gx_record.specs.Format.{entry_bytes, pages_bytes, spelling};
ghost use Rattle.gx_record.specs.Rec.{Pages, Write, Commit, Counters, Note, Bit, Add, Widen, Sweep};
ghost use Rattle.gx_record.specs.Seen.{is_marked, images, slots as slots_of, rec_of};
ghost use Rattle.gx_record.specs.Slots.{slots_bytes};
ghost use Rattle.gx_record.specs.Writing.{Wrote, size_of, IsWhole, IsSized};

use crate::mark::Mark;
use crate::pages::{PageImage, PageImages};
use crate::record::Record;
use crate::sizes::{
    ADD_BESIDE_KEY, BIT_BESIDE_KEY, COMMIT_RECORD, COUNTERS_RECORD, END_RECORD, MOST_SLOTS,
    NOTE_BESIDE_KEY, NUMBERED_IMAGE, PAGES_HEAD, SLOT_NUMBER, SWEEP_BESIDE_SLOTS, WIDEN_BESIDE_KEY,
    WRITE_BESIDE_KEY,
};
use crate::slots::{Slots, whole_slots};
use crate::tags::{ADD, BIT, COMMIT, COUNTERS, END, NOTE, PAGES, SWEEP, WIDEN, WRITE};
use gx_page::PAGE_SIZE;

/// How many bytes the spelling has.
pub(crate) fn length_of(logged: &Record<'_>) -> usize
    requires { IsSized (rec_of logged.now) }
    ensures { result ≡ size_of (rec_of logged.now) }
{
    match logged {
        Record::Pages { pages, .. } => PAGES_HEAD + NUMBERED_IMAGE * pages.count(),
        Record::Write { key, .. } => WRITE_BESIDE_KEY + key.len(),
        Record::Commit { .. } => COMMIT_RECORD,
        Record::End { .. } => END_RECORD,
        Record::Counters { .. } => COUNTERS_RECORD,
        Record::Note { key, .. } => NOTE_BESIDE_KEY + key.len(),
        Record::Bit { key, .. } => BIT_BESIDE_KEY + key.len(),
        Record::Add { key, .. } => ADD_BESIDE_KEY + key.len(),
        Record::Widen { key, .. } => WIDEN_BESIDE_KEY + key.len(),
        Record::Sweep { slots, .. } => SWEEP_BESIDE_SLOTS + SLOT_NUMBER * slots.count(),
    }
}

/// Writes bytes from a place on.
fn put_bytes(out: &mut [u8], at: usize, bytes: &[u8]) -> usize
    requires { at + length bytes.now ≤ length out.old }
    ensures wrote { Wrote out.old out.new at bytes.now result }
    ensures behind { result ≡ at + length bytes.now }
{
    let end = at + bytes.len();
    out[at..end].copy_from_slice(bytes);
    end
}

#[tactic(auto, unfolding(crate::specs::Bytes::u64_bytes))]
fn put_u64(out: &mut [u8], at: usize, number: u64) -> usize
    requires { at + 8 ≤ length out.old }
    ensures wrote { Wrote out.old out.new at (u64_bytes number) result }
    ensures behind { result ≡ at + 8 }
{
    put_bytes(out, at, &number.to_be_bytes())
}

#[tactic(auto, unfolding(crate::specs::Bytes::u32_bytes))]
fn put_u32(out: &mut [u8], at: usize, number: u32) -> usize
    requires { at + 4 ≤ length out.old }
    ensures wrote { Wrote out.old out.new at (u32_bytes number) result }
    ensures behind { result ≡ at + 4 }
{
    put_bytes(out, at, &number.to_be_bytes())
}

#[tactic(auto, unfolding(crate::specs::Bytes::u16_bytes))]
fn put_u16(out: &mut [u8], at: usize, number: u16) -> usize
    requires { at + 2 ≤ length out.old }
    ensures wrote { Wrote out.old out.new at (u16_bytes number) result }
    ensures behind { result ≡ at + 2 }
{
    put_bytes(out, at, &number.to_be_bytes())
}

fn put_mark(out: &mut [u8], at: usize, mark: Mark) -> usize
    requires { at + 1 ≤ length out.old }
    ensures wrote { Wrote out.old out.new at (mark_byte (is_marked mark) ∷ []) result }
    ensures behind { result ≡ at + 1 }
{
    match mark {
        Mark::Live => put_bytes(out, at, &[0]),
        Mark::Marked => put_bytes(out, at, &[1]),
    }
}

/// Writes whose write of which entry it is.
fn put_entry(out: &mut [u8], at: usize, tx: u64, row: u64, key: &[u8]) -> usize
    requires { at + (16 + length key.now) ≤ length out.old }
    ensures wrote { Wrote out.old out.new at (entry_bytes tx row key.now) result }
    ensures behind { result ≡ at + (16 + length key.now) }
{
    let at = put_u64(out, at, tx);
    let at = put_u64(out, at, row);
    put_bytes(out, at, key)
}

/// Writes a page's number and its image.
fn put_page(out: &mut [u8], at: usize, page: u32, image: &[u8]) -> usize
    requires room { at + NUMBERED_IMAGE ≤ length out.old }
    requires whole { length image.now ≡ PAGE_SIZE }
    ensures wrote { Wrote out.old out.new at (u32_bytes page ++ image.now) result }
    ensures behind { result ≡ at + NUMBERED_IMAGE }
{
    let at = put_u32(out, at, page);
    put_bytes(out, at, image)
}

/// Writes pages after their count.
fn put_pages(out: &mut [u8], at: usize, pages: &PageImages<'_>) -> usize
    requires room { at + (1 + NUMBERED_IMAGE * length (images pages.now)) ≤ length out.old }
    requires whole { AllByRecursion IsWhole (images pages.now) }
    ensures wrote { Wrote out.old out.new at (length (images pages.now) ∷ pages_bytes (images pages.now)) result }
    ensures behind { result ≡ at + (1 + NUMBERED_IMAGE * length (images pages.now)) }
{
    match *pages {
        PageImages::One(first) => {
            let at = put_bytes(out, at, &[1]);
            put_page(out, at, first.page, first.image)
        }
        PageImages::Two(first, second) => {
            let at = put_bytes(out, at, &[2]);
            let at = put_page(out, at, first.page, first.image);
            put_page(out, at, second.page, second.image)
        }
        PageImages::Three(first, second, third) => {
            let at = put_bytes(out, at, &[3]);
            let at = put_page(out, at, first.page, first.image);
            let at = put_page(out, at, second.page, second.image);
            put_page(out, at, third.page, third.image)
        }
    }
}

/// Writes a record of pages at the front. This function, and the other that writes an image, are separate from the
/// short records, which would otherwise save the registers that a copy takes.
#[inline(never)]
fn write_pages(out: &mut [u8], counter: u64, used: u32, pages: &PageImages<'_>) -> usize
    requires whole { AllByRecursion IsWhole (images pages.now) }
    requires room { PAGES_HEAD + NUMBERED_IMAGE * length (images pages.now) ≤ length out.old }
    ensures { Wrote out.old out.new 0 (spelling (Pages counter used (images pages.now))) result }
{
    let at = put_bytes(out, 0, &[PAGES]);
    let at = put_u64(out, at, counter);
    let at = put_u32(out, at, used);
    put_pages(out, at, pages)
}

/// Writes a write's record at the front: the mark before it, and the mark after it.
#[inline(never)]
fn write_write(
    out: &mut [u8],
    tx: u64,
    row: u64,
    key: &[u8],
    marks: (Mark, Mark),
    leaf: u32,
    image: &[u8],
) -> usize
    requires whole { length image.now ≡ PAGE_SIZE }
    requires room { WRITE_BESIDE_KEY + length key.now ≤ length out.old }
    ensures { Wrote out.old out.new 0
        (spelling (Write tx row key.now (is_marked marks.0) (is_marked marks.1) leaf image.now)) result }
{
    let at = put_bytes(out, 0, &[WRITE]);
    let at = put_entry(out, at, tx, row, key);
    let at = put_mark(out, at, marks.0);
    let at = put_mark(out, at, marks.1);
    put_page(out, at, leaf, image)
}

/// Writes a note's record at the front.
fn write_note(out: &mut [u8], tx: u64, row: u64, key: &[u8], before: Mark, leaf: u32) -> usize
    requires { NOTE_BESIDE_KEY + length key.now ≤ length out.old }
    ensures { Wrote out.old out.new 0 (spelling (Note tx row key.now (is_marked before) leaf)) result }
{
    let at = put_bytes(out, 0, &[NOTE]);
    let at = put_entry(out, at, tx, row, key);
    let at = put_mark(out, at, before);
    put_u32(out, at, leaf)
}

/// Writes the record of a bit at the front: the mark before it, and the mark after it.
fn write_bit(out: &mut [u8], tx: u64, row: u64, key: &[u8], marks: (Mark, Mark), leaf: u32) -> usize
    requires { BIT_BESIDE_KEY + length key.now ≤ length out.old }
    ensures { Wrote out.old out.new 0
        (spelling (Bit tx row key.now (is_marked marks.0) (is_marked marks.1) leaf)) result }
{
    let at = put_bytes(out, 0, &[BIT]);
    let at = put_entry(out, at, tx, row, key);
    let at = put_mark(out, at, marks.0);
    let at = put_mark(out, at, marks.1);
    put_u32(out, at, leaf)
}

/// Writes the record of an entry added at the front.
fn write_add(out: &mut [u8], tx: u64, row: u64, key: &[u8], leaf: u32) -> usize
    requires { ADD_BESIDE_KEY + length key.now ≤ length out.old }
    ensures { Wrote out.old out.new 0 (spelling (Add tx row key.now leaf)) result }
{
    let at = put_bytes(out, 0, &[ADD]);
    let at = put_entry(out, at, tx, row, key);
    put_u32(out, at, leaf)
}

/// Writes the record of a key widened at the front.
fn write_widen(out: &mut [u8], page: u32, slot: u16, key: &[u8]) -> usize
    requires { WIDEN_BESIDE_KEY + length key.now ≤ length out.old }
    ensures { Wrote out.old out.new 0 (spelling (Widen page slot key.now)) result }
{
    let at = put_bytes(out, 0, &[WIDEN]);
    let at = put_u32(out, at, page);
    let at = put_u16(out, at, slot);
    put_bytes(out, at, key)
}

/// Writes slots after their count.
fn put_slots(out: &mut [u8], at: usize, slots: &Slots<'_>) -> usize
    requires few { length (slots_of slots.now) ≤ MOST_SLOTS }
    requires room { at + (1 + SLOT_NUMBER * length (slots_of slots.now)) ≤ length out.old }
    ensures { Wrote out.old out.new at (length (slots_of slots.now) ∷ slots_bytes (slots_of slots.now)) result }
{
    let at = put_bytes(out, at, &[slots.count() as u8]);
    put_bytes(out, at, whole_slots(slots.bytes))
}

/// Writes a sweep's record at the front.
fn write_sweep(out: &mut [u8], page: u32, slots: &Slots<'_>) -> usize
    requires few { length (slots_of slots.now) ≤ MOST_SLOTS }
    requires room { SWEEP_BESIDE_SLOTS + SLOT_NUMBER * length (slots_of slots.now) ≤ length out.old }
    ensures { Wrote out.old out.new 0 (spelling (Sweep page (slots_of slots.now))) result }
{
    let at = put_bytes(out, 0, &[SWEEP]);
    let at = put_u32(out, at, page);
    put_slots(out, at, slots)
}

/// Writes a commit's record at the front.
fn write_commit(out: &mut [u8], tx: u64, n: u64) -> usize
    requires { COMMIT_RECORD ≤ length out.old }
    ensures { Wrote out.old out.new 0 (spelling (Commit tx n)) result }
{
    let at = put_bytes(out, 0, &[COMMIT]);
    let at = put_u64(out, at, tx);
    put_u64(out, at, n)
}

/// Writes a record of counters at the front.
fn write_counters(out: &mut [u8], n: u64, counter: u64, used: u32, next: u64) -> usize
    requires { COUNTERS_RECORD ≤ length out.old }
    ensures { Wrote out.old out.new 0 (spelling (Counters n counter used next)) result }
{
    let at = put_bytes(out, 0, &[COUNTERS]);
    let at = put_u64(out, at, n);
    let at = put_u64(out, at, counter);
    let at = put_u32(out, at, used);
    put_u64(out, at, next)
}

/// Writes the spelling at the front.
pub(crate) fn write(logged: &Record<'_>, out: &mut [u8]) -> usize
    requires sized { IsSized (rec_of logged.now) }
    requires room { size_of (rec_of logged.now) ≤ length out.old }
    ensures { Wrote out.old out.new 0 (spelling (rec_of logged.now)) result }
{
    match *logged {
        Record::Pages {
            counter,
            used,
            pages,
        } => write_pages(out, counter, used, &pages),
        Record::Write {
            tx,
            row,
            key,
            before,
            after,
            leaf,
            image,
        } => write_write(out, tx, row, key, (before, after), leaf, image),
        Record::Commit { tx, n } => write_commit(out, tx, n),
        Record::End { tx } => {
            let at = put_bytes(out, 0, &[END]);
            put_u64(out, at, tx)
        }
        Record::Counters {
            n,
            counter,
            used,
            next,
        } => write_counters(out, n, counter, used, next),
        Record::Note {
            tx,
            row,
            key,
            before,
            leaf,
        } => write_note(out, tx, row, key, before, leaf),
        Record::Bit {
            tx,
            row,
            key,
            before,
            after,
            leaf,
        } => write_bit(out, tx, row, key, (before, after), leaf),
        Record::Add { tx, row, key, leaf } => write_add(out, tx, row, key, leaf),
        Record::Widen { page, slot, key } => write_widen(out, page, slot, key),
        Record::Sweep { page, slots } => write_sweep(out, page, &slots),
    }
}
