//! A record, item by item.
ghost use Rattle.std.specs.Prelude.{◌≡◌, MatchResult, length};
ghost use Rattle.gx_machine.specs.Keys.{keys_of};
ghost use Rattle.gx_events.specs.Replay.{ReplaysAs};
ghost use Rattle.gx_storm.specs.Mismatches.{AreFaultless, HasNumbersFor, IsMismatch};

use crate::asks::{asked_of, fits, may_end};
use gx_geom::Shape;
use gx_machine::Item;
use gx_plain::PlainIndex;
use std::alloc::AllocError;

/// Where a record differs from what the plain index replays.
#[derive(Clone, Copy, Debug, PartialEq, Eq)]
pub enum Mismatch {
    /// At the item of this place, counted from 0; or at the record's length, if it ends between an ask and the reply
    /// that the ask gets at once.
    At(u64),
    /// Memory was refused to the plain index, so nothing is known.
    Memory,
}

impl From<AllocError> for Mismatch {
    ghost use Rattle.std.specs.Prelude.{◌≡◌};
    ghost use Rattle.gx_storm.specs.declared.items.Mismatch.TheVariants.{Memory};

    ghost from_gives = { λ _ why. why ≡ Memory };

    fn from(_why: AllocError) -> Mismatch {
        Mismatch::Memory
    }
}

/// Replays a record by a plain index, which is where the record began, and ends where the record does.
///
/// Items are taken in their order. A sealed commit must have the number that the index gives it. A reply must be the
/// one that the index gives, at once if it does so, and for an open commit once that is sealed. But a reply that no
/// page was free or memory was refused closes the open call, and so does a fault, whatever the index would answer; and
/// an ask that is refused for a fault isn't put to the index.
///
/// For a record without `Device`, `Failed`, `Damaged` and `HistoryFull`, and an index whose numbers last for as many
/// commits and transactions as the record has items, it returns `Ok` only if the replay is defined, and then the index
/// is where it ends; and `At` of a place only if the replay goes up to that item and no further.
pub fn replay<B: Shape>(items: &[Item<B>], index: &mut PlainIndex<B>) -> Result<(), Mismatch>
    ensures { AreFaultless items.now → HasNumbersFor (length items.now) index.old
        → MatchResult result (λ done. ReplaysAs (keys_of B.Shape) index.old.machine items.now index.new.machine)
        (λ why. IsMismatch (keys_of B.Shape) index.old.machine items.now why) }
{
    let mut asking = None;
    for place in 0..items.len() {
        let item = &items[place];
        if !fits(asking, item, index)? {
            return Err(Mismatch::At(place as u64));
        }
        asking = asked_of(item);
    }
    if may_end(asking, index) {
        Ok(())
    } else {
        Err(Mismatch::At(items.len() as u64))
    }
}
