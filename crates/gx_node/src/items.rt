//! Edits of a page's items, whatever they mean.
ghost use Rattle.std.specs.Prelude.{◌≡◌, ◌<◌, ◌≤◌, [], ◌∷◌, ◌++◌, length};
ghost use Rattle.gx_page.specs.Edits.{with_items};
ghost use Rattle.gx_page.specs.Sizes.{NoneLonger};
ghost use Rattle.gx_node.specs.Lists.{staying};

use gx_page::{Page, laws};

/// The most entries that a node has. So many of the longest fit a page with their places.
pub const MAX_ENTRIES: usize = 100;

/// Puts an item of 1 to 36 bytes after the last, on a page of fewer than 100 items, of which none is longer.
#[tactic(auto, using(crate::proofs::Edited::put_last))]
pub(crate) fn append_item(page: &mut Page, item: &[u8])
    requires few { length page.old.items < MAX_ENTRIES }
    requires items { NoneLonger (length item.now) page.old.items }
    requires item { (1 ≤ length item.now) × (length item.now ≤ 36) }
    ensures { page.new ≡ with_items page.old (page.old.items ++ item.now ∷ []) }
{
    let last = page.count();
    laws::few_fit(page, last, item, MAX_ENTRIES, item.len());
    page.insert(last, item);
}

/// Takes the items that go out.
pub(crate) fn keep_staying(page: &mut Page, sides: &[bool])
    requires { length sides.now ≡ length page.old.items }
    ensures { page.new ≡ with_items page.old (staying sides.now page.old.items) }
{
    for slot in (0..page.count()).rev() {
        if sides[slot] {
            page.remove(slot);
        }
    }
}
