//! A whole search by the steps of a look.
ghost use Rattle.std.specs.Prelude.{◌≡◌, ◌≢◌, ◌≤◌, ℕ, Bool, not, ◌&&◌, Err, IfOk, IfErr};
ghost use Rattle.gx_machine.specs.Keys.{keys_of, key_matches};
ghost use Rattle.gx_node.specs.Lists.{how_many};
ghost use Rattle.gx_node.specs.Trees.{Pair, standing};
ghost use Rattle.gx_node.specs.Legal.{Legal};
ghost use Rattle.gx_tree.specs.Found.{pairs_found};
ghost use Rattle.gx_node.specs.Keyed.{rules_of, AreKeys};
ghost use Rattle.gx_node.specs.Owner.{AsksEachOnce, KeepsSince, IsWhyOfLook};
ghost use Rattle.gx_node.specs.Store.{tree_of};

use gx_class::Probing;
use gx_machine::Query;
use gx_tree::{Found, Look, LookFault, Pages, StepFault, TraversalItem, Wanted, laws, look_step};
use std::alloc::Global;

/// The live pairs that match a query, each once, in no order: a look from the root to its end, with no steps of others
/// in between. No page is read twice.
///
/// Refused with `Pages` if a page could not be brought, and with `Memory`.
pub fn search<K: Probing, P: Pages<K>>(
    alloc: Global,
    pages: &mut P,
    query: &Query<K::Key>,
) -> Result<Vec<Found<K::Key>>, LookFault<P::Fault>>
    requires steady { P.steady pages.old }
    requires most { (most : ℕ) × (2 ≤ most) × Legal (rules_of K.Key.Shape most) (tree_of (P.store pages.old)) }
    requires keys { AreKeys K.is_key (tree_of (P.store pages.old)) }
    ensures all { IfOk result (λ found. (test : Pair K.Key → Bool)
        → how_many test (pairs_found found.items)
        ≡ standing (λ x. (not x.marked && key_matches (keys_of K.Key.Shape) query.now x.key) && test x)
        (tree_of (P.store pages.old))) }
    ensures same { P.store pages.new ≡ P.store pages.old }
    ensures steady { P.steady pages.new }
    ensures since { KeepsSince P.since pages.old pages.new }
    ensures asked { AsksEachOnce P.asked pages.old pages.new }
    ensures why { IfErr result (IsWhyOfLook (P.why pages.old pages.new)) }
    ensures damaged { result ≢ Err (LookFault.Step StepFault.Damaged) }
{
    laws::keys_are_lawful::<K::Key>();
    let wanted = Wanted::<K>::matching(query);
    let root = TraversalItem::new(1, pages.counter());
    let mut look = Look::new(alloc, root)?;
    'pages: while !look.is_done() {
        look_step(pages, &wanted, &mut look)?;
    }
    Ok(look.into_found())
}
