//! The way to a pair that was found before.
ghost use Rattle.std.specs.Prelude.{◌≤◌, length, map, OnOk, [], ◌∷◌};
ghost use Rattle.gx_node.specs.Hits.{IsNextHit};
ghost use Rattle.gx_node.specs.Trees.{Used};
ghost use Rattle.gx_tree.specs.Calls.{ReadsPages, TellsSeek};
ghost use Rattle.gx_node.specs.Store.{tree_of};
ghost use Rattle.gx_tree.specs.Wants.{wants};

use crate::bring::bring_page;
use crate::wanted::Wanted;
use gx_class::Probing;
use gx_node::{Leaf, Pages, StepFault};

/// The result of a seek at a leaf.
#[derive(Clone, Copy, Debug, PartialEq, Eq)]
pub enum Sought {
    /// The pair is in this slot; whether it is marked as deleted.
    Here(usize, bool),
    /// The pair isn't in this leaf: the leaf to the right, 0 for none.
    Right(u32),
}

/// The first slot from a slot on whose pair is wanted.
fn next_wanted<K: Probing>(leaf: &Leaf<K>, wanted: &Wanted<K>, from: usize) -> Option<usize>
    requires { from ≤ length leaf.now.pairs }
    ensures { IsNextHit (map (wants K.passes wanted.now.keys wanted.now.row) leaf.now.pairs) from result }
{
    let count = leaf.len();
    let mut slot = from;
    'scan: while slot < count {
        let hit = leaf.next_hit(&wanted.keys, slot)?;
        let (entry, marked) = leaf.entry(hit);
        if wanted.takes(entry.row, marked) {
            return Some(hit);
        }
        slot = hit + 1;
    }
    None
}

/// Looks for a pair in the leaf on a page, by `Wanted::entry`. A pair that was found in a leaf is still in that leaf or
/// further to the right, since splits move pairs only to the right (Lehman, Yao 1981); if it isn't in this leaf, the
/// next leaf is returned.
///
/// Refused with `Pages` if the page could not be brought, and with `Damaged` only if it isn't a leaf in use.
pub fn seek_step<K: Probing, P: Pages<K>>(
    pages: &mut P,
    wanted: &Wanted<K>,
    page: u32,
) -> Result<Sought, StepFault<P::Fault>>
    ensures held { OnOk result (P.held pages.new page × Used (tree_of (P.store pages.new)) page) }
    ensures tells { TellsSeek (wants K.passes wanted.now.keys wanted.now.row) page result (P.steady pages.old)
        (P.store pages.old) (P.store pages.new) }
    ensures reads { ReadsPages P.Pages (page ∷ []) pages.old pages.new result }
{
    bring_page(pages, page)?;
    let page = pages.page(page);
    if page.level() != 0 {
        return Err(StepFault::Damaged);
    }
    let leaf = Leaf::<K>::of(page);
    match next_wanted(&leaf, wanted, 0) {
        Some(slot) => Ok(Sought::Here(slot, leaf.entry(slot).1)),
        None => Ok(Sought::Right(leaf.right())),
    }
}
