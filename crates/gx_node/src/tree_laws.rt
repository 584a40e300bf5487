//! Laws of every tree, whatever steps are made.
ghost use Rattle.std.specs.Prelude.{◌≡◌, ◌≢◌, ◌≤◌, ◌<◌, ◌+◌, ◌^◌, ◌++◌, ◌∷◌, []};
ghost use Rattle.std.specs.Prelude.{ℕ, suc, Bool, true, not, ◌&&◌, List, flat_map};
ghost use Rattle.gx_node.specs.Lists.{one_if, how_many, Each, SomeOf};
ghost use Rattle.gx_node.specs.Trees.{Pair, Tree, Rules, IsLawful, Used, size, child_pages};
ghost use Rattle.gx_node.specs.Trees.{times, leaves, standing, is_entry, fresh_tree};
ghost use Rattle.gx_node.specs.Legal.{Legal};
ghost use Rattle.gx_node.specs.Steps.{IsSplit, IsRootSplit, IsWidening, IsAdding, IsMarking};
ghost use Rattle.gx_node.specs.Steps.{IsSweep, Step, IsStep, AreSteps, LeavesAlone};
ghost use Rattle.gx_node.specs.Reach.{TraversalItem, InReach, pages_ahead};
ghost use Rattle.gx_node.specs.Looks.{ItemFits, IsLook, from_root, stacked, found_with, LeadsTo};
ghost use Rattle.gx_node.specs.Writes.{IsDescent, IsSeek, leaves_left, is_sweepable, must_restart, descent_left};
ghost use Rattle.gx_node.specs.Rightlinks.{GoesOn};

/// A fresh tree is legal, and has no pair.
pub fn fresh_tree_is_legal<K>()
    ensures legal { (r : Rules K) → IsLawful r → (start : K) → Legal r (fresh_tree start) }
    ensures empty { (start : K) (test : Pair K → Bool) → standing test (fresh_tree start) ≡ 0 }
{}

/// The tree's pairs are those of the leaves on the chain, in order.
pub fn standing_pairs_are_those_of_the_chain<K>()
    ensures { (t : Tree K) (test : Pair K → Bool)
        → standing test t ≡ how_many test (flat_map (λ q. (t.node q).pairs) (leaves t)) }
{}

/// Steps in any order and number keep a tree legal.
pub fn steps_keep_the_tree_legal<K>()
    ensures one { (r : Rules K) → IsLawful r → (old new : Tree K) (step : Step K)
        → Legal r old → IsStep r old step new → Legal r new }
    ensures all { (r : Rules K) → IsLawful r → (steps : List (Step K)) (old new : Tree K)
        → Legal r old → AreSteps r old steps new → Legal r new }
{}

/// A split keeps a tree legal. No pair changes: whatever the test, as many pairs pass it as before. The node that is
/// split has the raised counter as its number, and the new page the number and the rightlink that it had (Kornacker,
/// Mohan, Hellerstein 1997).
pub fn split_keeps_the_tree<K>()
    ensures legal { (r : Rules K) → IsLawful r → (old new : Tree K) (n p : ℕ) (sides : List Bool) (left right : K)
        → Legal r old → IsSplit r old new n p sides left right → Legal r new }
    ensures pairs { (r : Rules K) → IsLawful r → (old new : Tree K) (n p : ℕ) (sides : List Bool) (left right : K)
        → Legal r old → IsSplit r old new n p sides left right
        → (test : Pair K → Bool) → standing test new ≡ standing test old }
    ensures numbers { (r : Rules K) (old new : Tree K) (n p : ℕ) (sides : List Bool) (left right : K)
        → IsSplit r old new n p sides left right
        → (new.counter ≡ suc old.counter) × ((new.node n).nsn ≡ new.counter)
        × ((new.node n).right ≡ new.used) × ((new.node new.used).nsn ≡ (old.node n).nsn)
        × ((new.node new.used).right ≡ (old.node n).right) }
{}

/// A root split keeps a tree legal, and changes no pair and no counter.
pub fn root_split_keeps_the_tree<K>()
    ensures legal { (r : Rules K) → IsLawful r → (old new : Tree K) (sides : List Bool) (left right : K)
        → Legal r old → IsRootSplit r old new sides left right → Legal r new }
    ensures pairs { (r : Rules K) (old new : Tree K) (sides : List Bool) (left right : K)
        → Legal r old → IsRootSplit r old new sides left right
        → (test : Pair K → Bool) → standing test new ≡ standing test old }
{}

/// A widening keeps a tree legal, and changes no pair.
pub fn widening_keeps_the_tree<K>()
    ensures legal { (r : Rules K) → IsLawful r → (old new : Tree K) (a x : ℕ) (coming key : K)
        → Legal r old → IsWidening r old new a x coming key → Legal r new }
    ensures pairs { (r : Rules K) → IsLawful r → (old new : Tree K) (a x : ℕ) (coming key : K)
        → Legal r old → IsWidening r old new a x coming key
        → (test : Pair K → Bool) → standing test new ≡ standing test old }
{}

/// An adding keeps a tree legal, and adds that one pair.
pub fn adding_adds_one_pair<K>()
    ensures legal { (r : Rules K) → IsLawful r → (old new : Tree K) (a : ℕ) (x : Pair K)
        → Legal r old → IsAdding r old new a x → Legal r new }
    ensures pairs { (r : Rules K) → IsLawful r → (old new : Tree K) (a : ℕ) (x : Pair K)
        → Legal r old → IsAdding r old new a x
        → (test : Pair K → Bool) → standing test new ≡ standing test old + one_if (test x) }
{}

/// Setting a mark keeps a tree legal, and changes that one mark: the pair with its old mark goes, and the one with its
/// new mark comes.
pub fn marking_sets_one_mark<K>()
    ensures legal { (r : Rules K) (old new : Tree K) (a row : ℕ) (key : K) (mark : Bool)
        → Legal r old → IsMarking r old new a row key mark → Legal r new }
    ensures pairs { (r : Rules K) (old new : Tree K) (a row : ℕ) (key : K) (mark : Bool)
        → Legal r old → IsMarking r old new a row key mark
        → (test : Pair K → Bool) (before after : List (Pair K)) (y : Pair K)
        → (old.node a).pairs ≡ before ++ y ∷ after → is_entry r row key y ≡ true
        → standing test new + one_if (test y)
        ≡ standing test old + one_if (test (record { row = y.row; key = y.key; marked = mark })) }
{}

/// A sweep keeps a tree legal, and removes from the leaf the marked pairs that no session claims, and nothing else.
pub fn sweep_takes_unclaimed_marked_pairs<K>()
    ensures legal { (r : Rules K) (old new : Tree K) (a : ℕ) (claimed : Pair K → Bool)
        → Legal r old → IsSweep old new a claimed → Legal r new }
    ensures pairs { (r : Rules K) (old new : Tree K) (a : ℕ) (claimed : Pair K → Bool)
        → Legal r old → IsSweep old new a claimed
        → (test : Pair K → Bool) → standing test new
        + how_many (λ x. test x && (x.marked && not (claimed x))) (old.node a).pairs ≡ standing test old }
{}

/// A look that begins with the root misses nothing: all wanted pairs lie ahead, and no page lies ahead twice. All pages
/// in use lie ahead.
pub fn look_begins_with_the_root<K>()
    ensures look { (r : Rules K) (t : Tree K) → Legal r t → (wants : Pair K → Bool)
        → IsLook t wants (from_root t ∷ []) [] }
    ensures pages { (r : Rules K) (t : Tree K) → Legal r t → pages_ahead t (from_root t ∷ []) ≡ t.used }
{}

/// A step of a look reads the top page of its stack: it finds what is wanted there, and stacks the rightlink, if the
/// page was split since its number was read, and the entries that may lead to something wanted. It is then still a
/// look, and fewer pages lie ahead.
pub fn look_goes_on<K>()
    ensures look { (r : Rules K) → IsLawful r → (t : Tree K) → Legal r t
        → (wants : Pair K → Bool) (leads : K → Bool) → LeadsTo r t wants leads
        → (item : TraversalItem) (stack : List TraversalItem) (found : List (Pair K))
        → IsLook t wants (item ∷ stack) found
        → IsLook t wants (stacked t leads item stack) (found_with t wants item found) }
    ensures falls { (r : Rules K) (t : Tree K) → Legal r t → (wants : Pair K → Bool) (leads : K → Bool)
        (item : TraversalItem) (stack : List TraversalItem) (found : List (Pair K))
        → IsLook t wants (item ∷ stack) found
        → pages_ahead t (stacked t leads item stack) < pages_ahead t (item ∷ stack) }
    ensures most { (r : Rules K) (t : Tree K) → Legal r t → (wants : Pair K → Bool) (stack : List TraversalItem)
        (found : List (Pair K)) → IsLook t wants stack found → pages_ahead t stack ≤ t.used }
    ensures reads { (t : Tree K) (wants : Pair K → Bool) (item : TraversalItem) (stack : List TraversalItem)
        (found : List (Pair K))
        → IsLook t wants (item ∷ stack) found → Used t item.page }
{}

/// A look with nothing stacked has found exactly the tree's wanted pairs: for any test, as many of its pairs pass it as
/// of those. So it found each pair once.
pub fn look_ends_with_all_that_is_wanted<K>()
    ensures all { (t : Tree K) (wants : Pair K → Bool) (found : List (Pair K)) → IsLook t wants [] found
        → (test : Pair K → Bool) → how_many test found ≡ standing (λ x. wants x && test x) t }
    ensures once { (r : Rules K) (t : Tree K) → Legal r t → (wants : Pair K → Bool) (stack : List TraversalItem)
        (found : List (Pair K)) → IsLook t wants stack found
        → (row : ℕ) (key : K) → how_many (is_entry r row key) found ≤ 1 }
{}

/// While a look is at work, each wanted pair of the tree that isn't found is in the reach of an item of its stack: in a
/// leaf under a page that is near the item (Lehman, Yao 1981; Kornacker, Mohan, Hellerstein 1997).
pub fn what_is_not_found_is_in_reach<K>()
    ensures { (t : Tree K) (wants test : Pair K → Bool) (stack : List TraversalItem) (found : List (Pair K))
        → IsLook t wants stack found → how_many test found < standing (λ x. wants x && test x) t
        → SomeOf (λ item. (l : ℕ) × InReach t item l × (0 < how_many (λ x. wants x && test x) (t.node l).pairs)) stack }
{}

/// Steps of others, in any order and number, keep each look that is at work, as long as they neither add, mark nor
/// sweep what it wants; each descent; and each seek, as long as they don't sweep or mark the pair that is sought.
pub fn steps_of_others_keep_what_is_at_work<K>()
    ensures looks { (r : Rules K) → IsLawful r
        → (wants : Pair K → Bool) (stack : List TraversalItem) (found : List (Pair K))
        (steps : List (Step K)) (old new : Tree K) → Legal r old → AreSteps r old steps new
        → Each (LeavesAlone r wants) steps → IsLook old wants stack found → IsLook new wants stack found }
    ensures descents { (r : Rules K) → IsLawful r → (coming : K) (item : TraversalItem)
        (steps : List (Step K)) (old new : Tree K) → Legal r old → AreSteps r old steps new
        → IsDescent r old item coming → IsDescent r new item coming }
    ensures seeks { (r : Rules K) → IsLawful r → (a row : ℕ) (key : K)
        (steps : List (Step K)) (old new : Tree K) → Legal r old → AreSteps r old steps new
        → Each (LeavesAlone r (is_entry r row key)) steps → IsSeek r old a row key → IsSeek r new a row key }
{}

/// While a search runs, rightlinks go on, those of inner nodes too: a page that was split since it began has a
/// rightlink to a page in use of the same level, which isn't the root, and the root itself is no such page. That holds
/// at the beginning, if no number is above the counter, and steps of others, in any order and number, keep it (Lehman,
/// Yao 1981).
pub fn rightlinks_go_on<K>()
    ensures begins { (r : Rules K) (t : Tree K) → Legal r t → GoesOn t t.counter }
    ensures one { (r : Rules K) → IsLawful r → (floor : ℕ) (old new : Tree K) (step : Step K)
        → Legal r old → IsStep r old step new → GoesOn old floor → GoesOn new floor }
    ensures all { (r : Rules K) → IsLawful r → (floor : ℕ) (steps : List (Step K)) (old new : Tree K)
        → Legal r old → AreSteps r old steps new → GoesOn old floor → GoesOn new floor }
{}

/// A descent begins at the root, and goes on from a page to one that it names by an entry that covers the coming key. A
/// widening for that key makes the entry cover it.
pub fn descent_goes_down<K>()
    ensures begins { (r : Rules K) (coming : K) (t : Tree K) → Legal r t → IsDescent r t (from_root t) coming }
    ensures down { (r : Rules K) (coming : K) (t : Tree K) → Legal r t → (a x : ℕ) → Used t a
        → 0 < times x (child_pages (t.node a)) → Each (λ c. c.page ≡ x
        → r.covers c.key coming ≡ true) (t.node a).children
        → IsDescent r t (record { page = x; seen = t.counter }) coming }
    ensures widens { (r : Rules K) (coming : K) (old new : Tree K) (a x : ℕ) (key : K)
        → IsWidening r old new a x coming key
        → Each (λ c. c.page ≡ x → r.covers c.key coming ≡ true) (new.node a).children }
{}

/// A descent that runs alone ends: each of its steps but the last lowers what it has left, which is below 2^40. It
/// begins again if its page was split since, and if it would split its page but the page that it came from no longer
/// names it or is full; it goes down from a page that isn't full, once the child's entry covers the key or is widened
/// for it; at a full leaf it sweeps what it can; else it splits and begins again. A split takes a free page, of the
/// `room` pages of the device.
pub fn descent_comes_to_an_end<K>()
    ensures restarts { (r : Rules K) (room : ℕ) (claimed : Pair K → Bool) (t : Tree K) → Legal r t
        → (parent : ℕ) (item : TraversalItem) → must_restart r t parent item ≡ true
        → descent_left r t room claimed 0 (from_root t) < descent_left r t room claimed parent item }
    ensures goes_down { (r : Rules K) (room : ℕ) (claimed : Pair K → Bool) (t : Tree K) → Legal r t
        → (parent : ℕ) (item : TraversalItem) (x : ℕ) → Used t item.page → size (t.node item.page) < r.most
        → 0 < times x (child_pages (t.node item.page))
        → descent_left r t room claimed item.page (record { page = x; seen = t.counter })
        < descent_left r t room claimed parent item }
    ensures widens { (r : Rules K) (room : ℕ) (claimed : Pair K → Bool) → IsLawful r → (old new : Tree K) → Legal r old
        → (parent : ℕ) (item : TraversalItem) (x : ℕ) (coming key : K) → IsWidening r old new item.page x coming key
        → size (old.node item.page) < r.most → 0 < times x (child_pages (old.node item.page))
        → descent_left r new room claimed item.page (record { page = x; seen = new.counter })
        < descent_left r old room claimed parent item }
    ensures sweeps { (r : Rules K) (room : ℕ) (claimed : Pair K → Bool) (old new : Tree K) → Legal r old
        → (parent : ℕ) (item : TraversalItem) → IsSweep old new item.page claimed → parent ≢ item.page
        → 0 < how_many (is_sweepable claimed) (old.node item.page).pairs
        → descent_left r new room claimed parent item < descent_left r old room claimed parent item }
    ensures splits { (r : Rules K) (room : ℕ) (claimed : Pair K → Bool) → IsLawful r → (old new : Tree K) → Legal r old
        → (parent : ℕ) (item : TraversalItem) (n p : ℕ) (sides : List Bool) (left right : K)
        → IsSplit r old new n p sides left right → new.used ≤ room
        → descent_left r new room claimed 0 (from_root new) < descent_left r old room claimed parent item }
    ensures splits_root { (r : Rules K) (room : ℕ) (claimed : Pair K → Bool) → IsLawful r → (old new : Tree K)
        → Legal r old → (parent : ℕ) (item : TraversalItem) (sides : List Bool) (left right : K)
        → IsRootSplit r old new sides left right → new.used ≤ room
        → descent_left r new room claimed 0 (from_root new) < descent_left r old room claimed parent item }
    // a split by others lowers it too: the page that it takes counts for more than all levels
    ensures others_split { (r : Rules K) (room : ℕ) (claimed : Pair K → Bool) → IsLawful r → (old new : Tree K)
        → Legal r old
        → (parent : ℕ) (item : TraversalItem) → Used old item.page → (n p : ℕ) (sides : List Bool) (left right : K)
        → IsSplit r old new n p sides left right → new.used ≤ room
        → descent_left r new room claimed parent item < descent_left r old room claimed parent item }
    ensures others_split_root { (r : Rules K) (room : ℕ) (claimed : Pair K → Bool) → IsLawful r → (old new : Tree K)
        → Legal r old → (parent : ℕ) (item : TraversalItem) → Used old item.page → (sides : List Bool) (left right : K)
        → IsRootSplit r old new sides left right → new.used ≤ room
        → descent_left r new room claimed parent item < descent_left r old room claimed parent item }
    ensures most { (r : Rules K) (room : ℕ) (claimed : Pair K → Bool) (t : Tree K) → Legal r t
        → (parent : ℕ) (item : TraversalItem)
        → Used t item.page → t.used ≤ room → room ≤ 65536 → r.most ≤ 100
        → descent_left r t room claimed parent item < 2 ^ 40 }
{}

/// A seek begins with a leaf that has the pair. It is always at a leaf; if that doesn't have the pair, it goes on with
/// the leaf's rightlink, and has fewer leaves left. It never has more of them left than pages are in use.
pub fn seek_goes_right<K>()
    ensures begins { (r : Rules K) (a row : ℕ) (key : K) (t : Tree K) → Legal r t → Used t a → (t.node a).level ≡ 0
        → 0 < how_many (is_entry r row key) (t.node a).pairs → IsSeek r t a row key }
    ensures at_leaf { (r : Rules K) (a row : ℕ) (key : K) (t : Tree K) → IsSeek r t a row key
        → Used t a × ((t.node a).level ≡ 0) }
    ensures right { (r : Rules K) (a row : ℕ) (key : K) (t : Tree K) → IsSeek r t a row key
        → how_many (is_entry r row key) (t.node a).pairs ≡ 0
        → IsSeek r t (t.node a).right row key × (leaves_left t (t.node a).right < leaves_left t a) }
    ensures most { (t : Tree K) (a : ℕ) → leaves_left t a ≤ t.used }
{}

/// A mark that is set or cleared keeps each seek, that of the pair which it marks too:
/// a pair is sought whether it is marked or not.
pub fn marking_keeps_each_seek<K>()
    ensures { (r : Rules K) (a row : ℕ) (key : K) (old new : Tree K) (b marked_row : ℕ) (marked_key : K) (mark : Bool)
        → IsMarking r old new b marked_row marked_key mark → IsSeek r old a row key → IsSeek r new a row key }
{}

/// A legal tree has what is sought: one pair of that row and key, and no other.
pub fn a_sought_pair_stands<K>()
    ensures { (r : Rules K) (a row : ℕ) (key : K) (t : Tree K) → Legal r t → IsSeek r t a row key
        → standing (is_entry r row key) t ≡ 1 }
{}
