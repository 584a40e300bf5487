//! Laws of a session's look, descent or seek at work, and of its replies.
ghost use Rattle.std.specs.Prelude.{◌≡◌, ◌<◌, ℕ, Bool, true, false, not, ◌&&◌, Some, None, List, [], ◌∷◌, ◌++◌, map};
ghost use Rattle.gx_geom.specs.declared.refusal.Refusal.{Refusal};
ghost use Rattle.gx_machine.specs.declared.entry.Entry.{Entry};
ghost use Rattle.gx_machine.specs.declared.query.Query.{Query};
ghost use Rattle.gx_machine.specs.declared.call.Call.{Call};
ghost use Rattle.gx_machine.specs.declared.call.Call.TheVariants.{Insert, Delete, Search};
ghost use Rattle.gx_machine.specs.Sessions.{Locks};
ghost use Rattle.gx_machine.specs.Runs.{may_close};
ghost use Rattle.gx_node.specs.Lists.{how_many, Each};
ghost use Rattle.gx_node.specs.Trees.{Pair, Used, child_pages, times, standing};
ghost use Rattle.gx_node.specs.Reach.{TraversalItem};
ghost use Rattle.gx_node.specs.Looks.{LeadsTo, stacked, found_with, from_root};
ghost use Rattle.gx_events.specs.Slots.{Note, Working, Undoing, slot_at, noted};
ghost use Rattle.gx_events.specs.Engines.{gathered};
ghost use Rattle.gx_events.specs.Happenings.{Finds, FindsPresent, FindsAbsent, Closes, Works};
ghost use Rattle.gx_events.specs.Wants.{slot_wants};
ghost use Rattle.gx_recovery.specs.Records.{Touch};
ghost use Rattle.gx_recovery.specs.Analysis.{analysis, lists};
ghost use Rattle.gx_recovery.specs.Logged.{all_records};
ghost use Rattle.gx_index_laws.specs.Classes.{Class, IsLawful, entry_of, is_of, known_of};
ghost use Rattle.gx_index_laws.specs.States.{State, Work, Rests, Looks, Descends, Seeks, tree_now};
ghost use Rattle.gx_index_laws.specs.Working.{wants_pair, open_call, DoesWork};
ghost use Rattle.gx_index_laws.specs.Whole.{IsWhole};
ghost use Rattle.gx_index_laws.specs.Happening.{Happens, with_work, slotted};

/// A page of a look is read: what it found there and what it stacks is what the session then looks with.
pub fn a_look_goes_on<B>()
    ensures { (c : Class B) → IsLawful c → (old : State B) → IsWhole c old
        → (s : ℕ) (item : TraversalItem) (stack : List TraversalItem) (found : List (Pair B))
        → old.work s ≡ Looks (item ∷ stack) found → (leads : B → Bool)
        → LeadsTo c.rules (tree_now c old) (wants_pair c (slot_at s old.slots)) leads
        → Happens c old Works (with_work s (Looks (stacked (tree_now c old) leads item stack)
        (found_with (tree_now c old) (wants_pair c (slot_at s old.slots)) item found)) old) }
{}

/// A session's work may become any that is right of the tree: a descent goes down or begins again, a seek goes to the
/// right, and what the session is at is given up.
pub fn work_turns<B>()
    ensures { (c : Class B) → IsLawful c → (old : State B) → IsWhole c old → (s : ℕ) (work : Work B)
        → DoesWork c (tree_now c old) (slot_at s old.slots) work → Happens c old Works (with_work s work old) }
{}

/// What a look turns into, so that `work_turns` may take it. If an insert's look has ended with nothing found, it is a
/// descent from the root; no pair of the entry is in the tree then, and none comes while the descent is at work. If a
/// leaf has a wanted pair, it is a seek of that pair; and a seek whose pair isn't in its leaf goes to the right.
pub fn a_look_turns_into_a_descent_or_a_seek<B>()
    ensures descends { (c : Class B) → IsLawful c → (old : State B) → IsWhole c old → (s : ℕ) (e : Entry B)
        → old.work s ≡ Looks [] [] → open_call (slot_at s old.slots) ≡ Some (Insert e)
        → DoesWork c (tree_now c old) (slot_at s old.slots) (Descends e 0 (from_root (tree_now c old))) }
    ensures absent { (c : Class B) → IsLawful c → (old : State B) → IsWhole c old
        → (s : ℕ) (e : Entry B) (parent : ℕ) (item : TraversalItem)
        → old.work s ≡ Descends e parent item → standing (is_of c e) (tree_now c old) ≡ 0 }
    ensures seeks { (c : Class B) → IsLawful c → (old : State B) → IsWhole c old → (s : ℕ) (e : Entry B) (leaf : ℕ)
        → ((live : Bool) → slot_wants c.keys (slot_at s old.slots) (record { entry = e; live = live }) ≡ true)
        → Used (tree_now c old) leaf → ((tree_now c old).node leaf).level ≡ 0
        → 0 < how_many (is_of c e) ((tree_now c old).node leaf).pairs
        → DoesWork c (tree_now c old) (slot_at s old.slots) (Seeks e leaf) }
    ensures right { (c : Class B) → IsLawful c → (old : State B) → IsWhole c old → (s : ℕ) (e : Entry B) (leaf : ℕ)
        → old.work s ≡ Seeks e leaf → how_many (is_of c e) ((tree_now c old).node leaf).pairs ≡ 0
        → DoesWork c (tree_now c old) (slot_at s old.slots) (Seeks e ((tree_now c old).node leaf).right) }
{}

/// How a descent goes on, so that `work_turns` may take it: it begins again at the root, or goes down to a page that
/// its page names by an entry that covers the coming key.
pub fn a_descent_goes_on<B>()
    ensures again { (c : Class B) → IsLawful c → (old : State B) → IsWhole c old
        → (s : ℕ) (e : Entry B) (parent : ℕ) (item : TraversalItem)
        → old.work s ≡ Descends e parent item
        → DoesWork c (tree_now c old) (slot_at s old.slots) (Descends e 0 (from_root (tree_now c old))) }
    ensures down { (c : Class B) → IsLawful c → (old : State B) → IsWhole c old
        → (s : ℕ) (e : Entry B) (parent : ℕ) (item : TraversalItem) (x : ℕ)
        → old.work s ≡ Descends e parent item → 0 < times x (child_pages ((tree_now c old).node item.page))
        → Each (λ d. d.page ≡ x → c.rules.covers d.key e.key ≡ true) ((tree_now c old).node item.page).children
        → DoesWork c (tree_now c old) (slot_at s old.slots)
        (Descends e item.page (record { page = x; seen = (tree_now c old).counter })) }
{}

/// An undo's seek of an entry that it has noted begins with its note's leaf, as the log says it: each noted entry is
/// among what the transaction has touched, and is on that touch's leaf or to the right of it.
pub fn an_undo_seeks_from_its_notes_leaf<B>()
    ensures touched { (c : Class B) → IsLawful c → (old : State B) → IsWhole c old
        → (s : ℕ) (locks : Locks B) (notes : List (Note B))
        → slot_at s old.slots ≡ Undoing locks notes → (e : Entry B) (was : Bool) → noted c.keys e notes ≡ Some was
        → lists (known_of c) (old.transaction s) e (analysis (known_of c) (all_records old.log)).touched ≡ true }
    ensures seeks { (c : Class B) → IsLawful c → (old : State B) → IsWhole c old
        → (s : ℕ) (locks : Locks B) (notes : List (Note B))
        → slot_at s old.slots ≡ Undoing locks notes → (before after : List (Touch (Entry B))) (x : Touch (Entry B))
        → (analysis (known_of c) (all_records old.log)).touched ≡ before ++ x ∷ after
        → x.transaction ≡ old.transaction s
        → DoesWork c (tree_now c old) (slot_at s old.slots) (Seeks x.entry x.leaf) }
{}

/// The tree has exactly one pair that a session seeks: every seek finds its pair, also an undo's.
pub fn what_is_sought_stands<B>()
    ensures { (c : Class B) → IsLawful c → (old : State B) → IsWhole c old → (s : ℕ) (e : Entry B) (leaf : ℕ)
        → old.work s ≡ Seeks e leaf
        → standing (is_of c e) (tree_now c old) ≡ 1 }
{}

/// A search's look that has ended is the answer:
/// what it found, in order and without repeats, is what the machine finds.
pub fn an_ended_look_is_the_answer<B>()
    ensures { (c : Class B) → IsLawful c → (old : State B) → IsWhole c old → old.failed ≡ false
        → (s : ℕ) (locks : Locks B) (notes : List (Note B))
        (query : Query B) (found : List (Pair B)) → slot_at s old.slots ≡ Working locks notes (Some (Search query))
        → old.work s ≡ Looks [] found
        → Happens c old (Finds s query (gathered c.keys (map entry_of found)))
        (slotted s (Working locks notes None) Rests old) }
{}

/// An insert that comes to a leaf with a live pair of its entry finds it present.
pub fn a_live_pair_is_present<B>()
    ensures { (c : Class B) → IsLawful c → (old : State B) → IsWhole c old → old.failed ≡ false
        → (s : ℕ) (locks : Locks B) (notes : List (Note B))
        (e : Entry B) (leaf : ℕ) → slot_at s old.slots ≡ Working locks notes (Some (Insert e))
        → Used (tree_now c old) leaf → ((tree_now c old).node leaf).level ≡ 0
        → 0 < how_many (λ x. is_of c e x && not x.marked) ((tree_now c old).node leaf).pairs
        → Happens c old (FindsPresent s e) (slotted s (Working locks notes None) Rests old) }
{}

/// A delete whose look has ended with nothing found,
/// or that comes to a leaf with a marked pair of its entry, finds it absent.
pub fn nothing_live_is_absent<B>()
    ensures none { (c : Class B) → IsLawful c → (old : State B) → IsWhole c old → old.failed ≡ false
        → (s : ℕ) (locks : Locks B) (notes : List (Note B))
        (e : Entry B) → slot_at s old.slots ≡ Working locks notes (Some (Delete e)) → old.work s ≡ Looks [] []
        → Happens c old (FindsAbsent s e) (slotted s (Working locks notes None) Rests old) }
    ensures marked { (c : Class B) → IsLawful c → (old : State B) → IsWhole c old → old.failed ≡ false
        → (s : ℕ) (locks : Locks B) (notes : List (Note B))
        (e : Entry B) (leaf : ℕ) → slot_at s old.slots ≡ Working locks notes (Some (Delete e))
        → Used (tree_now c old) leaf → ((tree_now c old).node leaf).level ≡ 0
        → 0 < how_many (λ x. is_of c e x && x.marked) ((tree_now c old).node leaf).pairs
        → Happens c old (FindsAbsent s e) (slotted s (Working locks notes None) Rests old) }
{}

/// An open call may be closed unanswered if no page or no memory is left, whatever its session is at.
pub fn calls_are_closed<B>()
    ensures { (c : Class B) → IsLawful c → (old : State B) → IsWhole c old → old.failed ≡ false
        → (s : ℕ) (locks : Locks B) (notes : List (Note B))
        (call : Call B) (why : Refusal) → slot_at s old.slots ≡ Working locks notes (Some call) → may_close why ≡ true
        → Happens c old (Closes s call why) (slotted s (Working locks notes None) Rests old) }
{}
