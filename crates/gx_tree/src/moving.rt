//! Moves entries by sides, when a node is split.
ghost use Rattle.std.specs.Prelude.{◌≡◌, ◌<◌, ℕ, suc, map, not, length, []};
ghost use Rattle.gx_node.specs.Lists.{staying};
ghost use Rattle.gx_node.specs.Trees.{size};
ghost use Rattle.gx_node.specs.Steps.{node_with};
ghost use Rattle.gx_node.specs.Owner.{KeepsSinceBut, Asks};
ghost use Rattle.gx_tree.specs.Splitting.{left_of};
ghost use Rattle.gx_node.specs.Store.{node_at, with_node, with_page};

use crate::edits::{KeepSide, Link};
use gx_class::KeyClass;
use gx_node::PagesMut;

/// Writes the other side of each entry.
#[tactic(auto, using(crate::proofs::Splits::turned_more))]
pub(crate) fn turn(sides: &[bool], others: &mut [bool])
    requires { length others.old ≡ length sides.now }
    ensures { others.new ≡ map not sides.now }
{
    for slot in 0..sides.len() {
        others[slot] = !sides[slot];
    }
}

/// Takes a page for the entries of a node that stay by these sides: it has the node's level, number and rightlink.
pub(crate) fn take_side<K: KeyClass, P: PagesMut<K>>(
    pages: &mut P,
    from: u32,
    sides: &[bool],
) -> u32
    requires held { P.held pages.old from }
    requires ready { 0 < P.ready pages.old }
    requires sides { length sides.now ≡ size (node_at (P.store pages.old).nodes from) }
    ensures page { result ≡ suc (length (P.store pages.old).nodes) }
    ensures taken { P.store pages.new ≡ with_page (P.store pages.old)
        (left_of sides.now (node_at (P.store pages.old).nodes from)) }
    ensures next { P.held pages.new result × P.changing pages.new result }
    ensures held { (q : ℕ) → P.held pages.old q → P.held pages.new q }
    ensures changing { (q : ℕ) → P.changing pages.old q → P.changing pages.new q }
    ensures ready { P.ready pages.old ≡ suc (P.ready pages.new) }
    ensures steady { P.steady pages.old → P.steady pages.new }
    ensures since { KeepsSinceBut P.since result pages.old pages.new }
    ensures asked { Asks P.asked [] pages.old pages.new }
    ensures told { P.faults pages.new ≡ P.faults pages.old }
{
    pages.take(from);
    let page = pages.used();
    pages.change(page, KeepSide { sides });
    page
}

/// Keeps in a node the entries that stay by these sides, and gives it a sequence number and a rightlink.
pub(crate) fn keep_side<K: KeyClass, P: PagesMut<K>>(
    pages: &mut P,
    page: u32,
    sides: &[bool],
    link: Link,
)
    requires held { P.held pages.old page }
    requires changing { P.changing pages.old page }
    requires sides { length sides.now ≡ size (node_at (P.store pages.old).nodes page) }
    ensures kept { P.store pages.new ≡ with_node (P.store pages.old) page
        (node_with (node_at (P.store pages.old).nodes page) link.nsn link.right
        (staying sides.now (node_at (P.store pages.old).nodes page).pairs)
        (staying sides.now (node_at (P.store pages.old).nodes page).children)) }
    ensures held { (q : ℕ) → P.held pages.old q → P.held pages.new q }
    ensures changing { (q : ℕ) → P.changing pages.old q → P.changing pages.new q }
    ensures steady { P.steady pages.old → P.steady pages.new }
    ensures since { KeepsSinceBut P.since page pages.old pages.new }
    ensures asked { Asks P.asked [] pages.old pages.new }
    ensures told { P.faults pages.new ≡ P.faults pages.old }
{
    pages.change(page, KeepSide { sides });
    pages.change(page, link);
}
