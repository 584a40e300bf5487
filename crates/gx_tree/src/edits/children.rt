//! Changes of an inner node.

use gx_class::KeyClass;
use gx_node::{Edit, inner_edits};
use gx_page::Page;

/// A new bound for the child in a slot of an inner node.
#[derive(Drop)]
pub struct SetBound<B> {
    /// The slot.
    pub slot: usize,
    /// The bound.
    pub bound: B,
}

impl<K: KeyClass> Edit<K> for SetBound<K::Key> {
    ghost use Rattle.std.specs.Prelude.{◌≡◌, ◌<◌, length, Some, slice_get, slice_set};
    ghost use Rattle.gx_node.specs.Edits.{with_children, bounded_by};
    ghost use Rattle.gx_node.specs.Trees.{Child};

    ghost fits = { λ e room node. (0 < node.level) × (e.slot < length node.children) };

    ghost edits = { λ e old new. (c : Child K.Key) → slice_get old.children e.slot ≡ Some c
        → new ≡ with_children old (slice_set old.children e.slot (bounded_by e.bound c)) };

    fn apply(self, page: &mut Page, _room: u32) {
        inner_edits::set_bound::<K>(page, self.slot, self.bound, _room);
    }
}

/// A child for an inner node that isn't full: it is put after the last.
#[derive(Drop)]
pub struct AppendChild<B> {
    /// The child's bound.
    pub bound: B,
    /// The child's page.
    pub page: u32,
}

impl<K: KeyClass> Edit<K> for AppendChild<K::Key> {
    ghost use Rattle.std.specs.Prelude.{◌≡◌, ◌<◌, ◌≤◌, ◌++◌, ◌∷◌, [], length};
    ghost use Rattle.gx_node.specs.Edits.{with_children};
    ghost use Rattle.gx_node.specs.declared.items.TheConstants.{MAX_ENTRIES};

    ghost fits = { λ e room node. (0 < node.level) × (length node.children < MAX_ENTRIES) × (1 ≤ e.page)
        × (e.page ≤ room) };

    ghost edits = { λ e old new.
        new ≡ with_children old (old.children ++ record { key = e.bound; page = e.page } ∷ []) };

    fn apply(self, page: &mut Page, _room: u32) {
        inner_edits::append::<K>(page, self.bound, self.page, _room);
    }
}

/// The root, a level higher, over two nodes that have its entries.
#[derive(Drop)]
pub struct RaiseRoot<B> {
    /// The first node.
    pub first: AppendChild<B>,
    /// The second.
    pub second: AppendChild<B>,
}

impl<K: KeyClass> Edit<K> for RaiseRoot<K::Key> {
    ghost use Rattle.std.specs.Prelude.{◌≡◌, ◌<◌, ◌≤◌, ◌+◌, ◌^◌, suc, ◌∷◌, []};

    ghost fits = { λ e room node. (node.level + 1 < 2 ^ 16) × (1 ≤ e.first.page) × (e.first.page ≤ room)
        × (1 ≤ e.second.page) × (e.second.page ≤ room) };

    ghost edits = { λ e old new. new ≡ record {
      level = suc old.level;
      nsn = old.nsn;
      right = old.right;
      pairs = [];
      children = record { key = e.first.bound; page = e.first.page }
          ∷ record { key = e.second.bound; page = e.second.page } ∷ [];
    } };

    fn apply(self, page: &mut Page, _room: u32) {
        let (level, number) = (page.level(), page.number());
        let (nsn, right) = (page.nsn(), page.right());
        page.reset(level + 1, number);
        page.set_nsn(nsn);
        page.set_right(right);
        inner_edits::append::<K>(page, self.first.bound, self.first.page, _room);
        inner_edits::append::<K>(page, self.second.bound, self.second.page, _room);
    }
}
