//! One record of a log, taken by an analysis.
ghost use Rattle.std.specs.Prelude.{◌≡◌, ◌+◌, ◌<◌, ◌≤◌, true, false, length, is_some, Err, IfErr, IfSome};
ghost use Rattle.gx_record.specs.Format.{IsRecord};
ghost use Rattle.gx_record.specs.Seen.{is_marked, rec_of, images};
ghost use Rattle.gx_recovery.specs.Known.{Limits};
ghost use Rattle.gx_recovery.specs.Kept.{may_give, with_pages, Takes};
ghost use Rattle.gx_recovery.specs.Broken.{refused, breaks_pages};
ghost use Rattle.gx_recovery.specs.declared.closed.TheConstants.{CLOSINGS};
ghost use Rattle.gx_found_log.specs.Told.{page_numbers, closings, RecordTold, touched, TakesWrite};
ghost use Rattle.gx_found_log.specs.Broken.{BreaksWrite, RecordBreaks};

use crate::head::{on_counters, on_note};
use crate::{Part, Readable};
use gx_record::{Mark, PageImages, Record};
use gx_recovery::{Analysis, LogRule, Touch};

/// Passes the pages of a record to the analysis.
fn on_pages<E: Copy + Ord>(
    analysis: &mut Analysis<E>,
    counter: u64,
    used: u32,
    pages: &PageImages<'_>,
) -> Result<(), LogRule>
    ensures takes { Takes (may_give counter used (page_numbers (images pages.now)) analysis.old)
        (with_pages counter used analysis.old) analysis.old (refused result) analysis.new }
    ensures rule { IfErr result (λ rule. breaks_pages counter used
        (page_numbers (images pages.now)) analysis.old rule ≡ true) }
{
    match pages {
        PageImages::One(a) => analysis.on_pages(counter, used, &[a.page]),
        PageImages::Two(a, b) => analysis.on_pages(counter, used, &[a.page, b.page]),
        PageImages::Three(a, b, c) => analysis.on_pages(counter, used, &[a.page, b.page, c.page]),
    }
}

/// Whether a mark is set.
pub(crate) fn is_marked(mark: &Mark) -> bool
    ensures { result ≡ is_marked mark.now }
{
    match mark {
        Mark::Live => false,
        Mark::Marked => true,
    }
}

/// What a record says of the entry that a transaction wrote. `None` if the bytes are no key's of the class.
pub(crate) fn touch_of<M: Readable>(
    tx: u64,
    row: u64,
    key: &[u8],
    before: &Mark,
    leaf: u32,
) -> Option<Touch<M::Entry>>
where
    M::Entry: Copy,
    requires { length key.now ≡ M.reading.key }
    ensures touch { IfSome result (λ touch. touch ≡ record {
      transaction = tx;
      entry = M.reading.entry row key.now;
      before = is_marked before.now;
      leaf = leaf;
    }) }
    ensures of_class { (d : Limits) → (M.known d).is_entry (M.reading.entry row key.now) ≡ is_some result }
{
    let entry = M::entry(row, key)?;
    Some(Touch::new(tx, entry, is_marked(before), leaf))
}

/// Passes what a transaction wrote to the analysis. Refused if the bytes are no key's of the class (`NoKey`), and as
/// [`Analysis::on_write`] is.
fn on_written<M: Readable>(
    analysis: &mut Analysis<M::Entry>,
    tx: u64,
    row: u64,
    key: &[u8],
    before: &Mark,
    leaf: u32,
) -> Result<(), LogRule>
where
    M::Entry: Copy + Ord,
    requires { length key.now ≡ M.reading.key }
    ensures closed { analysis.new.closed ≡ analysis.old.closed }
    ensures takes { (d : Limits) → (M.known d).is_entry (M.reading.entry row key.now) ≡ true
        → TakesWrite M.Entry.Ord.cmp
        (touched tx (M.reading.entry row key.now) (is_marked before.now) leaf) analysis.old result analysis.new }
    ensures keyless { (d : Limits) → (M.known d).is_entry (M.reading.entry row key.now) ≡ false
        → result ≡ Err LogRule.NoKey }
    ensures rule { (d : Limits) → IfErr result (λ rule. BreaksWrite M.Entry.Ord.cmp (M.known d)
        (touched tx (M.reading.entry row key.now) (is_marked before.now) leaf) analysis.old rule) }
{
    match touch_of::<M>(tx, row, key, before, leaf) {
        Some(touch) => analysis.on_write(touch),
        None => Err(LogRule::NoKey),
    }
}

/// Passes a record of a log's later bodies to the analysis.
fn on_later<M: Readable>(
    analysis: &mut Analysis<M::Entry>,
    logged: &Record<'_>,
) -> Result<(), LogRule>
where
    M::Entry: Copy + Ord,
    requires is_record { IsRecord M.reading.key (rec_of logged.now) }
    requires room { length analysis.old.closed + closings (rec_of logged.now) ≤ CLOSINGS }
    ensures count { length analysis.new.closed ≤ length analysis.old.closed + closings (rec_of logged.now) }
    ensures told { (d : Limits) → (M.known d).cmp ≡ M.Entry.Ord.cmp
        → RecordTold Part.Later (M.known d) M.reading (rec_of logged.now) analysis.old (refused result) analysis.new }
    ensures broken { (d : Limits) → (M.known d).cmp ≡ M.Entry.Ord.cmp
        → IfErr result (λ rule. RecordBreaks Part.Later (M.known d) M.reading (rec_of logged.now) analysis.old rule) }
{
    match logged {
        Record::Pages {
            counter,
            used,
            pages,
        } => on_pages(analysis, *counter, *used, pages),
        Record::Write {
            tx,
            row,
            key,
            before,
            leaf,
            ..
        } => on_written::<M>(analysis, *tx, *row, key, before, *leaf),
        Record::Bit {
            tx,
            row,
            key,
            before,
            leaf,
            ..
        } => on_written::<M>(analysis, *tx, *row, key, before, *leaf),
        Record::Add { tx, row, key, leaf } => {
            on_written::<M>(analysis, *tx, *row, key, &Mark::Marked, *leaf)
        }
        Record::Widen { .. } => Ok(()),
        Record::Sweep { .. } => Ok(()),
        Record::Commit { tx, n } => analysis.on_commit(*tx, *n),
        Record::End { tx } => analysis.on_end(*tx),
        Record::Counters { .. } | Record::Note { .. } => Err(LogRule::Misplaced),
    }
}

/// Takes a record of this part of a log.
pub(crate) fn on_record<M: Readable>(
    part: Part,
    analysis: &mut Analysis<M::Entry>,
    logged: &Record<'_>,
) -> Result<(), LogRule>
where
    M::Entry: Copy + Ord,
    requires is_record { IsRecord M.reading.key (rec_of logged.now) }
    requires room { length analysis.old.closed + closings (rec_of logged.now) ≤ CLOSINGS }
    ensures count { length analysis.new.closed ≤ length analysis.old.closed + closings (rec_of logged.now) }
    ensures told { (d : Limits) → (M.known d).cmp ≡ M.Entry.Ord.cmp
        → RecordTold part (M.known d) M.reading (rec_of logged.now) analysis.old (refused result) analysis.new }
    ensures broken { (d : Limits) → (M.known d).cmp ≡ M.Entry.Ord.cmp
        → IfErr result (λ rule. RecordBreaks part (M.known d) M.reading (rec_of logged.now) analysis.old rule) }
{
    match part {
        Part::Start => on_counters::<M>(analysis, logged),
        Part::Head => on_note::<M>(analysis, logged),
        Part::Later => on_later::<M>(analysis, logged),
    }
}
