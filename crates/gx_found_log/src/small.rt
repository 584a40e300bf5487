//! What small records say of their pages.
ghost use Rattle.std.specs.Prelude.{◌≡◌};
ghost use Rattle.std.specs.Option.{option_map};
ghost use Rattle.gx_record.specs.Seen.{rec_of};
ghost use Rattle.gx_found_log.specs.Small.{said, small_of as small_in};

use crate::record::is_marked;
use gx_record::{Record, Slots};

/// What changes on a page. Keys are their bytes.
#[derive(Clone, Copy)]
pub enum Small<'a> {
    /// The pair gets this mark.
    SetMark {
        row: u64,
        key: &'a [u8],
        marked: bool,
    },
    /// The pair comes, live.
    AddPair {
        row: u64,
        key: &'a [u8],
    },
    /// The entry in this slot gets this key.
    SetKey {
        slot: u16,
        key: &'a [u8],
    },
    /// The pairs in these slots go.
    RemoveSlots {
        slots: Slots<'a>,
    },
}

/// The page that a small record changes, and how. None of other records.
pub(crate) fn small_of<'a>(logged: &Record<'a>) -> Option<(u32, Small<'a>)>
    ensures { option_map (λ s. (s.0, said s.1)) result ≡ small_in (rec_of logged.now) }
{
    match *logged {
        Record::Bit {
            row,
            key,
            after,
            leaf,
            ..
        } => {
            let marked = is_marked(&after);
            Some((leaf, Small::SetMark { row, key, marked }))
        }
        Record::Add { row, key, leaf, .. } => Some((leaf, Small::AddPair { row, key })),
        Record::Widen { page, slot, key } => Some((page, Small::SetKey { slot, key })),
        Record::Sweep { page, slots } => Some((page, Small::RemoveSlots { slots })),
        Record::Pages { .. }
        | Record::Write { .. }
        | Record::Commit { .. }
        | Record::End { .. }
        | Record::Counters { .. }
        | Record::Note { .. } => None,
    }
}
