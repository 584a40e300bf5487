//! Trees that agree on the pages in use are alike, whatever their other pages are. A tree has a node for every number;
//! a store may show only the pages in use.
ghost use Rattle.std.specs.Prelude.{◌≡◌, ℕ, Bool, List};
ghost use Rattle.gx_node.specs.Trees.{Pair, Tree, Rules, IsLawful, Used, standing};
ghost use Rattle.gx_node.specs.Legal.{Legal};
ghost use Rattle.gx_node.specs.Steps.{Step, IsStep};
ghost use Rattle.gx_node.specs.Reach.{TraversalItem};
ghost use Rattle.gx_node.specs.Looks.{IsLook, stacked, found_with, LeadsTo};
ghost use Rattle.gx_node.specs.Writes.{IsDescent, IsSeek};
ghost use Rattle.gx_node.specs.Alike.{AgreeOnUsed};

/// Trees that agree on their pages in use are alike: if one is legal the other is, as many pairs pass each test, and
/// what may be sought in one may be sought in the other. They agree both ways.
pub fn trees_that_agree_are_alike<K>()
    ensures back { (one other : Tree K) → AgreeOnUsed one other → AgreeOnUsed other one }
    ensures legal { (r : Rules K) (one other : Tree K) → AgreeOnUsed one other → Legal r one → Legal r other }
    ensures pairs { (r : Rules K) (one other : Tree K) → AgreeOnUsed one other → Legal r one → (test : Pair K → Bool)
        → standing test other ≡ standing test one }
    ensures seeks { (r : Rules K) (one other : Tree K) → AgreeOnUsed one other → (a row : ℕ) (key : K)
        → IsSeek r one a row key → IsSeek r other a row key }
{}

/// A look or a descent over one of two such trees is one over the other.
/// At a page in use it stacks and finds the same in both.
pub fn looks_over_trees_that_agree_are_alike<K>()
    ensures looks { (r : Rules K) (one other : Tree K) → AgreeOnUsed one other → Legal r one
        → (wants : Pair K → Bool) (stack : List TraversalItem) (found : List (Pair K))
        → IsLook one wants stack found → IsLook other wants stack found }
    ensures stacks { (one other : Tree K) → AgreeOnUsed one other
        → (leads : K → Bool) (item : TraversalItem) (stack : List TraversalItem)
        → Used one item.page
        → stacked other leads item stack ≡ stacked one leads item stack }
    ensures finds { (one other : Tree K) → AgreeOnUsed one other
        → (wants : Pair K → Bool) (item : TraversalItem) (found : List (Pair K)) → Used one item.page
        → found_with other wants item found ≡ found_with one wants item found }
    ensures leads { (r : Rules K) (one other : Tree K) → AgreeOnUsed one other
        → (wants : Pair K → Bool) (leads : K → Bool)
        → LeadsTo r one wants leads → LeadsTo r other wants leads }
    ensures descents { (r : Rules K) (one other : Tree K) → AgreeOnUsed one other → (item : TraversalItem) (coming : K)
        → IsDescent r one item coming → IsDescent r other item coming }
{}

/// A step of one of two trees is one of the other, if they agree on pages in use before and after it, and the other
/// keeps its pages that aren't in use.
pub fn steps_of_trees_that_agree_are_alike<K>()
    ensures { (r : Rules K) → IsLawful r → (one one_then other other_then : Tree K) → AgreeOnUsed one other
        → AgreeOnUsed one_then other_then
        → ((q : ℕ) → (Used one_then q → ⊥) → other_then.node q ≡ other.node q) → Legal r one → (step : Step K)
        → IsStep r one step one_then → IsStep r other step other_then }
{}
