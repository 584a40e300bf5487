//! Changes of a leaf.

use gx_class::KeyClass;
use gx_machine::Entry;
use gx_node::{Edit, leaf_edits};
use gx_page::Page;

/// A live pair for a leaf that isn't full: it is put after the last.
#[derive(Drop)]
pub struct AppendPair<B> {
    /// The row and its key.
    pub entry: Entry<B>,
}

impl<K: KeyClass> Edit<K> for AppendPair<K::Key> {
    ghost use Rattle.std.specs.Prelude.{◌≡◌, ◌<◌, ◌++◌, ◌∷◌, [], length};
    ghost use Rattle.gx_node.specs.Edits.{with_pairs};
    ghost use Rattle.gx_node.specs.declared.items.TheConstants.{MAX_ENTRIES};
    ghost use Rattle.gx_tree.specs.Writing.{live};

    ghost fits = { λ e room node. (node.level ≡ 0) × (length node.pairs < MAX_ENTRIES) };

    ghost edits = { λ e old new. new ≡ with_pairs old (old.pairs ++ live e.entry ∷ []) };

    fn apply(self, page: &mut Page, _room: u32) {
        leaf_edits::append::<K>(page, self.entry, false);
    }
}

/// A mark for the pair in a slot of a leaf, set or cleared.
#[derive(Drop)]
pub struct SetMark {
    /// The slot.
    pub slot: usize,
    /// Whether the pair is then marked as deleted.
    pub marked: bool,
}

impl<K: KeyClass> Edit<K> for SetMark {
    ghost use Rattle.std.specs.Prelude.{◌≡◌, ◌<◌, length, Some, slice_get, slice_set};
    ghost use Rattle.gx_node.specs.Edits.{with_pairs, marked_as};
    ghost use Rattle.gx_node.specs.Trees.{Pair};

    ghost fits = { λ e room node. (node.level ≡ 0) × (e.slot < length node.pairs) };

    ghost edits = { λ e old new. (x : Pair K.Key) → slice_get old.pairs e.slot ≡ Some x
        → new ≡ with_pairs old (slice_set old.pairs e.slot (marked_as e.marked x)) };

    fn apply(self, page: &mut Page, _room: u32) {
        leaf_edits::set_mark::<K>(page, self.slot, self.marked);
    }
}
