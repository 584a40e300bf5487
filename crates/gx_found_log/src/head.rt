//! One record of a log's first body, taken by an analysis.
ghost use Rattle.std.specs.Prelude.{◌≡◌, IfErr};
ghost use Rattle.gx_record.specs.Format.{IsRecord};
ghost use Rattle.gx_record.specs.Seen.{rec_of};
ghost use Rattle.gx_recovery.specs.Known.{Limits};
ghost use Rattle.gx_recovery.specs.Broken.{refused};
ghost use Rattle.gx_found_log.specs.Told.{RecordTold};
ghost use Rattle.gx_found_log.specs.Broken.{RecordBreaks};

use crate::record::touch_of;
use crate::{Part, Readable};
use gx_record::Record;
use gx_recovery::{Analysis, LogRule};

/// Passes the counters that a log starts with to the analysis.
pub(crate) fn on_counters<M: Readable>(
    analysis: &mut Analysis<M::Entry>,
    logged: &Record<'_>,
) -> Result<(), LogRule>
where
    M::Entry: Copy + Ord,
    ensures closed { analysis.new.closed ≡ analysis.old.closed }
    ensures told { (d : Limits) → RecordTold Part.Start (M.known d) M.reading (rec_of logged.now) analysis.old
        (refused result) analysis.new }
    ensures broken { (d : Limits)
        → IfErr result (λ rule. RecordBreaks Part.Start (M.known d) M.reading (rec_of logged.now) analysis.old rule) }
{
    match logged {
        Record::Counters {
            n,
            counter,
            used,
            next,
        } => analysis.on_counters(*n, *counter, *used, *next),
        Record::Pages { .. }
        | Record::Write { .. }
        | Record::Commit { .. }
        | Record::End { .. }
        | Record::Bit { .. }
        | Record::Add { .. }
        | Record::Widen { .. }
        | Record::Sweep { .. }
        | Record::Note { .. } => Err(LogRule::Misplaced),
    }
}

/// Passes a note of a log's head to the analysis.
pub(crate) fn on_note<M: Readable>(
    analysis: &mut Analysis<M::Entry>,
    logged: &Record<'_>,
) -> Result<(), LogRule>
where
    M::Entry: Copy + Ord,
    requires is_record { IsRecord M.reading.key (rec_of logged.now) }
    ensures closed { analysis.new.closed ≡ analysis.old.closed }
    ensures told { (d : Limits) → (M.known d).cmp ≡ M.Entry.Ord.cmp
        → RecordTold Part.Head (M.known d) M.reading (rec_of logged.now) analysis.old (refused result) analysis.new }
    ensures broken { (d : Limits) → (M.known d).cmp ≡ M.Entry.Ord.cmp
        → IfErr result (λ rule. RecordBreaks Part.Head (M.known d) M.reading (rec_of logged.now) analysis.old rule) }
{
    match logged {
        Record::Note {
            tx,
            row,
            key,
            before,
            leaf,
        } => match touch_of::<M>(*tx, *row, key, before, *leaf) {
            Some(touch) => analysis.on_note(touch),
            None => Err(LogRule::NoKey),
        },
        Record::Pages { .. }
        | Record::Write { .. }
        | Record::Commit { .. }
        | Record::End { .. }
        | Record::Bit { .. }
        | Record::Add { .. }
        | Record::Widen { .. }
        | Record::Sweep { .. }
        | Record::Counters { .. } => Err(LogRule::Misplaced),
    }
}
