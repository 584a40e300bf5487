//! Laws of the steps, by the laws of trees. Each function is its contract alone.
ghost use Rattle.std.specs.Prelude.{◌≡◌, ◌≢◌, ◌≤◌, ◌<◌, ℕ, Bool, true, false, List, length, slice_get, slice_set};
ghost use Rattle.std.specs.Prelude.{Some, IfSome};
ghost use Rattle.gx_machine.specs.declared.entry.Entry.{Entry};
ghost use Rattle.gx_node.specs.Edits.{bounded_by, entry_of};
ghost use Rattle.gx_node.specs.Lists.{Each, how_many};
ghost use Rattle.gx_node.specs.Trees.{Pair, Child, Node, Tree, Rules, IsLawful, Used, standing, is_entry};
ghost use Rattle.gx_node.specs.Legal.{Legal};
ghost use Rattle.gx_node.specs.Reach.{TraversalItem, pages_ahead};
ghost use Rattle.gx_node.specs.Looks.{IsLook, LeadsTo};
ghost use Rattle.gx_node.specs.Steps.{ChangesOnly, EntriesCover, IsAdding, IsMarking, IsStep, IsSweep, IsWidening};
ghost use Rattle.gx_node.specs.Steps.{Step};
ghost use Rattle.gx_node.specs.Writes.{IsDescent, is_sweepable};
ghost use Rattle.gx_tree.specs.declared.found.Found.{Found};
ghost use Rattle.gx_tree.specs.declared.descent.Descended.{Descended};
ghost use Rattle.gx_tree.specs.declared.descent.Descended.TheVariants.{Down, Widened};
ghost use Rattle.gx_tree.specs.Descending.{StepsDown, next_of};
ghost use Rattle.gx_tree.specs.Found.{pairs_found};
ghost use Rattle.gx_node.specs.Keyed.{rules_of, AreKeys, BringsKeys};
ghost use Rattle.gx_tree.specs.Looking.{LookStep};
ghost use Rattle.gx_node.specs.Store.{Store, tree_of};
ghost use Rattle.gx_tree.specs.Sweeping.{Planned, PlansSweep, TakesOut, slots_of, takes_none};
ghost use Rattle.gx_tree.specs.Writing.{Appends, SetsMark, live};
ghost use Rattle.gx_tree.specs.declared.seek.Sought.TheVariants.{Here};

use gx_class::KeyClass;
use gx_geom::Shape;

/// Keys with their relations satisfy the premises of the laws of trees.
pub fn keys_are_lawful<B: Shape>()
    ensures { (most : ℕ) → 2 ≤ most → IsLawful (rules_of B.Shape most) }
{}

/// A step of a look keeps what a look is: nothing that is wanted is missed, and nothing comes twice. Fewer pages lie
/// ahead.
pub fn look_step_is_a_step<K>()
    ensures look { (r : Rules K) → IsLawful r → (t : Tree K) → Legal r t → (wants : Pair K → Bool) (leads : K → Bool)
        → LeadsTo r t wants leads → (before after : List TraversalItem) (old new : List (Found K)) → 0 < length before
        → IsLook t wants before (pairs_found old) → LookStep t wants leads before after old new
        → IsLook t wants after (pairs_found new) }
    ensures falls { (r : Rules K) (t : Tree K) → Legal r t
        → (wants : Pair K → Bool) (leads : K → Bool) (before after : List TraversalItem) (old new : List (Found K))
        → 0 < length before → IsLook t wants before (pairs_found old) → LookStep t wants leads before after old new
        → pages_ahead t after < pages_ahead t before }
{}

/// A descent goes down by an entry that covers the coming key: it is the only one that names its page, so from then on
/// each that does covers the key, unless the page is split.
pub fn way_down_is_a_descent<K>()
    ensures { (r : Rules K) (coming : K) (t : Tree K) → Legal r t → (a slot : ℕ) → Used t a → (c : Child K)
        → slice_get (t.node a).children slot ≡ Some c → r.covers c.key coming ≡ true
        → IsDescent r t (record { page = c.page; seen = t.counter }) coming }
{}

/// A bound that gets the union of itself and the coming key, by its slot, is the tree's step of widening: no other
/// entry names its page.
pub fn widening_is_a_step<K>()
    ensures { (r : Rules K) (coming key : K) (old new : Tree K) → Legal r old → (a slot : ℕ) → Used old a
        → (c : Child K) → slice_get (old.node a).children slot ≡ Some c → r.covers key c.key ≡ true
        → r.covers key coming ≡ true
        → ((b : K) → r.covers b c.key ≡ true → r.covers b coming ≡ true → r.covers b key ≡ true)
        → EntriesCover r old a coming
        → ChangesOnly old new a (old.node a).pairs (slice_set (old.node a).children slot (bounded_by key c))
        → IsWidening r old new a c.page coming key }
{}

/// A class's union covers both its keys, and whatever covers both covers it.
pub fn union_is_a_bound<K: KeyClass>()
    ensures first { (most : ℕ) (a b : K.Key) → K.is_key a → K.is_key b
        → (rules_of K.Key.Shape most).covers (K.joined a b) a ≡ true }
    ensures second { (most : ℕ) (a b : K.Key) → K.is_key a → K.is_key b
        → (rules_of K.Key.Shape most).covers (K.joined a b) b ≡ true }
    ensures least { (most : ℕ) (a b c : K.Key) → K.is_key a → K.is_key b → (rules_of K.Key.Shape most).covers c a ≡ true
        → (rules_of K.Key.Shape most).covers c b ≡ true → (rules_of K.Key.Shape most).covers c (K.joined a b) ≡ true }
{}

/// A descent that goes down goes on: the item to which a step comes is a descent's. A step that widens a bound is the
/// tree's.
pub fn descent_goes_on<K: KeyClass>()
    ensures down { (most : ℕ) (old new : Store K.Key) (item next : TraversalItem) (coming : K.Key)
        → Legal (rules_of K.Key.Shape most) (tree_of old) → AreKeys K.is_key (tree_of old) → K.is_key coming
        → IsDescent (rules_of K.Key.Shape most) (tree_of old) item coming
        → StepsDown K.cost K.joined most old new item coming (Down next)
        → IsDescent (rules_of K.Key.Shape most) (tree_of new) next coming }
    ensures widens { (most : ℕ) (old new : Store K.Key) (item next : TraversalItem) (coming key : K.Key) (slot : ℕ)
        → Legal (rules_of K.Key.Shape most) (tree_of old) → AreKeys K.is_key (tree_of old) → K.is_key coming
        → IsDescent (rules_of K.Key.Shape most) (tree_of old) item coming
        → StepsDown K.cost K.joined most old new item coming (Widened next slot key)
        → IsWidening (rules_of K.Key.Shape most) (tree_of old) (tree_of new) item.page next.page coming key }
    ensures widened { (most : ℕ) (old new : Store K.Key) (item next : TraversalItem) (coming key : K.Key) (slot : ℕ)
        → 2 ≤ most
        → Legal (rules_of K.Key.Shape most) (tree_of old) → AreKeys K.is_key (tree_of old) → K.is_key coming
        → IsDescent (rules_of K.Key.Shape most) (tree_of old) item coming
        → StepsDown K.cost K.joined most old new item coming (Widened next slot key)
        → IsDescent (rules_of K.Key.Shape most) (tree_of new) next coming }
{}

/// Whatever a step of a descent does, the tree stays legal, and no pair changes; and the item to which it goes down
/// is a descent's.
pub fn descent_keeps_the_tree<K: KeyClass>()
    ensures legal { (most : ℕ) (old new : Store K.Key) (item : TraversalItem) (coming : K.Key) (did : Descended K.Key)
        → 2 ≤ most
        → Legal (rules_of K.Key.Shape most) (tree_of old) → AreKeys K.is_key (tree_of old) → K.is_key coming
        → IsDescent (rules_of K.Key.Shape most) (tree_of old) item coming
        → StepsDown K.cost K.joined most old new item coming did → Legal (rules_of K.Key.Shape most) (tree_of new) }
    ensures keys { (most : ℕ) (old new : Store K.Key) (item : TraversalItem) (coming : K.Key) (did : Descended K.Key)
        → AreKeys K.is_key (tree_of old) → K.is_key coming → Used (tree_of old) item.page
        → StepsDown K.cost K.joined most old new item coming did → AreKeys K.is_key (tree_of new) }
    ensures pairs { (most : ℕ) (old new : Store K.Key) (item : TraversalItem) (coming : K.Key) (did : Descended K.Key)
        → 2 ≤ most
        → Legal (rules_of K.Key.Shape most) (tree_of old) → AreKeys K.is_key (tree_of old) → K.is_key coming
        → IsDescent (rules_of K.Key.Shape most) (tree_of old) item coming
        → StepsDown K.cost K.joined most old new item coming did → (test : Pair K.Key → Bool)
        → standing test (tree_of new) ≡ standing test (tree_of old) }
    ensures goes_on { (most : ℕ) (old new : Store K.Key) (item : TraversalItem) (coming : K.Key) (did : Descended K.Key)
        → 2 ≤ most → Legal (rules_of K.Key.Shape most) (tree_of old) → AreKeys K.is_key (tree_of old) → K.is_key coming
        → IsDescent (rules_of K.Key.Shape most) (tree_of old) item coming
        → StepsDown K.cost K.joined most old new item coming did
        → IfSome (next_of did) (λ next. IsDescent (rules_of K.Key.Shape most) (tree_of new) next coming) }
{}

/// No page of a legal tree has a level above 0 and no entries, so that no step of a descent is refused with `Damaged`.
pub fn never_damaged<K>()
    ensures { (r : Rules K) (t : Tree K) → Legal r t → (a : ℕ) → Used t a → 0 < (t.node a).level
        → length (t.node a).children ≢ 0 }
{}

/// A live pair that is appended to a leaf is added to the tree, if no pair has its row and key yet and each entry that
/// names the leaf covers the key.
pub fn adding_is_a_step<K>()
    ensures { (r : Rules K) (old new : Tree K) → Legal r old → (a : ℕ) (entry : Entry K)
        → Appends r.most old new a entry → standing (is_entry r entry.row entry.key) old ≡ 0
        → EntriesCover r old a entry.key → IsAdding r old new a (live entry) }
{}

/// A mark that is set in a leaf is that of the one pair of its row and key, if exactly that row and key is wanted of
/// the leaf's pairs.
pub fn marking_is_a_step<K>()
    ensures { (r : Rules K) (old new : Store K) → Legal r (tree_of old) → (a row : ℕ) (key : K) (wants : Pair K → Bool)
        → Each (λ x. wants x ≡ is_entry r row key x) ((tree_of old).node a).pairs
        → (slot : ℕ) (before marked : Bool) → SetsMark wants old new a marked (Here slot before)
        → IsMarking r (tree_of old) (tree_of new) a row key marked }
{}

/// A planned sweep that removes something from its leaf is the tree's step: it removes as many pairs as the leaf has to
/// sweep, and each slot is that of such a pair.
pub fn taking_out_is_a_sweep<K>()
    ensures sweep { (claimed : Entry K → Bool) (plan : Planned) (old new : Store K)
        → PlansSweep claimed ((tree_of old).node plan.page) plan → TakesOut plan old new → takes_none plan ≡ false
        → IsSweep (tree_of old) (tree_of new) plan.page (λ x. claimed (entry_of x)) }
    ensures size { (claimed : Entry K → Bool) (plan : Planned) (node : Node K) → PlansSweep claimed node plan
        → length (slots_of plan) ≡ how_many (is_sweepable (λ x. claimed (entry_of x))) node.pairs }
    ensures slots { (claimed : Entry K → Bool) (plan : Planned) (node : Node K) → PlansSweep claimed node plan
        → (k slot : ℕ) → slice_get (slots_of plan) k ≡ Some slot
        → (x : Pair K) × (slice_get node.pairs slot ≡ Some x) × (is_sweepable (λ y. claimed (entry_of y)) x ≡ true) }
{}

/// Keys stay keys of the class: by any step on a legal tree whose keys are, if those that the step writes are.
pub fn keys_stay_keys<K: KeyClass>()
    ensures { (r : Rules K.Key) (old new : Tree K.Key) (step : Step K.Key) → Legal r old → AreKeys K.is_key old
        → BringsKeys K.is_key step → IsStep r old step new → AreKeys K.is_key new }
{}
