//! One side of a node.

use gx_class::KeyClass;
use gx_node::{Edit, inner_edits, leaf_edits};
use gx_page::Page;

/// Removes the entries of a node whose side is `true`.
#[derive(Drop)]
pub struct KeepSide<'a> {
    /// A side for each entry.
    pub sides: &'a [bool],
}

impl<'a, K: KeyClass> Edit<K> for KeepSide<'a> {
    ghost use Rattle.std.specs.Prelude.{◌≡◌, length};
    ghost use Rattle.gx_node.specs.Lists.{staying};
    ghost use Rattle.gx_node.specs.Trees.{size};
    ghost use Rattle.gx_node.specs.Steps.{node_with};

    ghost fits = { λ e room node. length e.sides.now ≡ size node };

    ghost edits = { λ e old new. new ≡ node_with old old.nsn old.right (staying e.sides.now old.pairs)
        (staying e.sides.now old.children) };

    fn apply(self, page: &mut Page, _room: u32) {
        if page.level() == 0 {
            leaf_edits::keep::<K>(page, self.sides);
        } else {
            inner_edits::keep::<K>(page, self.sides, _room);
        }
    }
}
