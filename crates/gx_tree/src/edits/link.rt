//! A node's place among its neighbours.

use gx_class::KeyClass;
use gx_node::Edit;
use gx_page::Page;

/// A sequence number and a rightlink for a node.
#[derive(Drop)]
pub struct Link {
    /// The sequence number.
    pub nsn: u64,
    /// The rightlink, 0 for none.
    pub right: u32,
}

impl<K: KeyClass> Edit<K> for Link {
    ghost use Rattle.std.specs.Prelude.{◌≡◌};
    ghost use Rattle.gx_node.specs.Steps.{node_with};

    ghost fits = { λ link room node. Unit };

    ghost edits = { λ link old new. new ≡ node_with old link.nsn link.right old.pairs old.children };

    fn apply(self, page: &mut Page, _room: u32) {
        page.set_nsn(self.nsn);
        page.set_right(self.right);
    }
}
