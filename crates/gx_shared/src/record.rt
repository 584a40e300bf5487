//! The record of calls: items are appended, in memory that was allocated before.
ghost use Rattle.std.specs.Prelude.{◌≡◌, ◌<◌, ◌≤◌, ◌⊎◌, ◌++◌, ◌∷◌, [], vec_len, vec_capacity, ◌+◌, length};
ghost use Rattle.gx_machine.specs.declared.item.Item.TheVariants as item;
ghost use Rattle.gx_events.specs.Items.{items_sealed};
ghost use Rattle.gx_shared.specs.declared.record.TheConstants as constants;

use gx_geom::Shape;
use gx_machine::Item;

/// The most items that a record has.
pub const RECORD: usize = 65_536;

/// Appends an item, if there is room for it.
pub(crate) fn append<B: Shape>(calls: &mut Vec<Item<B>>, item: Item<B>)
    requires { vec_len calls.old < vec_capacity calls.old }
    ensures items { calls.new.items ≡ calls.old.items ++ item ∷ [] }
    ensures capacity { vec_capacity calls.old ≤ vec_capacity calls.new }
{
    let _ = calls.push(item);
}

/// Appends that a commit was sealed, if the number of the last commit rose and the record isn't full.
pub(crate) fn append_sealed<B: Shape>(
    calls: &mut Vec<Item<B>>,
    session: u8,
    before: u64,
    after: u64,
)
    requires { constants.RECORD ≤ vec_capacity calls.old }
    ensures items { length calls.old.items + length (items_sealed {B = B} session before after) ≤ constants.RECORD
        → calls.new.items ≡ calls.old.items ++ items_sealed session before after }
    ensures adds { (calls.new.items ≡ calls.old.items)
        ⊎ (calls.new.items ≡ calls.old.items ++ item.Sealed session after ∷ []) }
    ensures fits { length calls.old.items ≤ constants.RECORD → length calls.new.items ≤ constants.RECORD }
    ensures capacity { vec_capacity calls.old ≤ vec_capacity calls.new }
{
    if before < after && calls.len() < RECORD {
        append(calls, Item::Sealed(session, after));
    }
}
