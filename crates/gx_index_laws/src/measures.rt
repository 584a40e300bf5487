//! How far an unanswered call still is from its end: a number below 2^39, which each move of the call lowers.
ghost use Rattle.std.specs.Prelude.{◌≡◌, ◌≢◌, ◌≤◌, ◌<◌, ◌+◌, ◌^◌, ℕ, Bool, true};
ghost use Rattle.std.specs.Prelude.{false, Some, None, List, [], ◌∷◌, length};
ghost use Rattle.gx_machine.specs.declared.entry.Entry.{Entry};
ghost use Rattle.gx_machine.specs.declared.call.Call.{Call};
ghost use Rattle.gx_machine.specs.declared.call.Call.TheVariants.{Commit as CommitCall};
ghost use Rattle.gx_machine.specs.Sessions.{Locks};
ghost use Rattle.gx_machine.specs.Sets.{has};
ghost use Rattle.gx_machine.specs.Machine.{is_session};
ghost use Rattle.gx_node.specs.Lists.{how_many};
ghost use Rattle.gx_node.specs.Trees.{Pair, Used};
ghost use Rattle.gx_node.specs.Steps.{IsSplit, IsRootSplit, IsWidening, IsAdding, IsMarking, IsSweep, Step, IsStep};
ghost use Rattle.gx_node.specs.Reach.{TraversalItem};
ghost use Rattle.gx_node.specs.Looks.{stacked};
ghost use Rattle.gx_node.specs.Writes.{is_sweepable, must_restart};
ghost use Rattle.gx_events.specs.Slots.{Note, Slot, Working, Undoing, Waiting, locks_held, slot_at, noted};
ghost use Rattle.gx_recovery.specs.Records.{Record, Commit, End};
ghost use Rattle.gx_recovery.specs.Logged.{begun, gate_synced, AgreesBeside};
ghost use Rattle.gx_recovery.specs.Life.{AllWritten};
ghost use Rattle.gx_recovery.specs.Renewal.{renewed};
ghost use Rattle.gx_index_laws.specs.Classes.{Class, Page, IsLawful, is_of, known_of};
ghost use Rattle.gx_index_laws.specs.Steps.{IsPageStep};
ghost use Rattle.gx_index_laws.specs.States.{State, Work, Rests, Looks, Descends, Seeks, tree_now};
ghost use Rattle.gx_index_laws.specs.Whole.{IsWhole};
ghost use Rattle.gx_index_laws.specs.Happening.{with_record, with_work, slotted, with_restored};
ghost use Rattle.gx_index_laws.specs.Measures.{HasRoomFor, IsAtWork, IsUndoing, LeavesLess, begins_anew, claims_pair};
ghost use Rattle.gx_index_laws.specs.Measures.{goes_to, work_left};
ghost use Rattle.gx_index_laws.specs.Upkeep.{Upkeep, IsWithin, upkeep_left, Chore, IsChore};

/// What a session's call has left is below 2^39, on a device of at most 65,536 pages, with at most 100 entries a node.
pub fn what_a_call_has_left_is_bounded<B>()
    ensures { (c : Class B) → IsLawful c → (old : State B) → IsWhole c old → c.pages ≤ 65536 → c.rules.most ≤ 100
        → (s : ℕ) → work_left c old s < 2 ^ 39 }
{}

/// A look has less left with each page that it reads, and when it turns into a descent or a seek.
pub fn a_look_comes_to_an_end<B>()
    ensures reads { (c : Class B) (old : State B) (s : ℕ) (item : TraversalItem) (stack : List TraversalItem)
        (found then_found : List (Pair B)) (leads : B → Bool) → IsAtWork c old s (Looks (item ∷ stack) found)
        → LeavesLess c s old (with_work s (Looks (stacked (tree_now c old) leads item stack) then_found) old) }
    ensures descends { (c : Class B) (old : State B) (s : ℕ) (stack : List TraversalItem) (found : List (Pair B))
        (e : Entry B) (parent : ℕ) (item : TraversalItem) → IsAtWork c old s (Looks stack found)
        → Used (tree_now c old) item.page → LeavesLess c s old (with_work s (Descends e parent item) old) }
    ensures seeks { (c : Class B) (old : State B) (s : ℕ) (stack : List TraversalItem) (found : List (Pair B))
        (e : Entry B) (leaf : ℕ) → IsAtWork c old s (Looks stack found)
        → LeavesLess c s old (with_work s (Seeks e leaf) old) }
{}

/// A descent has less left when it begins again because it must, when it goes down from a page that isn't full, and
/// with each of its records: a widening as it goes down, a sweep of its page that takes something, a split after which
/// it begins again.
pub fn a_descent_comes_to_an_end<B>()
    ensures restarts { (c : Class B) (old : State B) (s : ℕ) (e : Entry B) (parent : ℕ) (item : TraversalItem)
        → IsAtWork c old s (Descends e parent item) → must_restart c.rules (tree_now c old) parent item ≡ true
        → LeavesLess c s old (begins_anew c s e old) }
    ensures goes_down { (c : Class B) (old : State B) (s : ℕ) (e : Entry B) (parent : ℕ) (item : TraversalItem)
        → IsAtWork c old s (Descends e parent item) → (x : ℕ) → HasRoomFor c (tree_now c old) item.page x
        → LeavesLess c s old (goes_to c s e item x old) }
    ensures widens { (c : Class B) (old : State B) (s : ℕ) (e : Entry B) (parent : ℕ) (item : TraversalItem)
        → IsAtWork c old s (Descends e parent item) → (r : Record (Entry B) (Page B)) (x : ℕ) (coming key : B)
        → IsWidening c.rules (tree_now c old) (tree_now c (with_record r old)) item.page x coming key
        → HasRoomFor c (tree_now c old) item.page x → LeavesLess c s old (goes_to c s e item x (with_record r old)) }
    ensures sweeps { (c : Class B) (old : State B) (s : ℕ) (e : Entry B) (parent : ℕ) (item : TraversalItem)
        → IsAtWork c old s (Descends e parent item) → (r : Record (Entry B) (Page B))
        → IsSweep (tree_now c old) (tree_now c (with_record r old)) item.page (claims_pair c old.slots)
        → 0 < how_many (is_sweepable (claims_pair c old.slots)) ((tree_now c old).node item.page).pairs
        → LeavesLess c s old (with_record r old) }
    ensures splits { (c : Class B) (old : State B) (s : ℕ) (e : Entry B) (parent : ℕ) (item : TraversalItem)
        → IsAtWork c old s (Descends e parent item)
        → (r : Record (Entry B) (Page B)) (n p : ℕ) (sides : List Bool) (left right : B)
        → IsSplit c.rules (tree_now c old) (tree_now c (with_record r old)) n p sides left right
        → (tree_now c (with_record r old)).used ≤ c.pages → LeavesLess c s old (begins_anew c s e (with_record r old)) }
    ensures splits_root { (c : Class B) (old : State B) (s : ℕ) (e : Entry B) (parent : ℕ) (item : TraversalItem)
        → IsAtWork c old s (Descends e parent item)
        → (r : Record (Entry B) (Page B)) (sides : List Bool) (left right : B)
        → IsRootSplit c.rules (tree_now c old) (tree_now c (with_record r old)) sides left right
        → (tree_now c (with_record r old)).used ≤ c.pages → LeavesLess c s old (begins_anew c s e (with_record r old)) }
{}

/// A seek of an open call has less left when its pair isn't in its leaf, and it goes to the right.
pub fn a_seek_comes_to_an_end<B>()
    ensures { (c : Class B) (old : State B) (s : ℕ) (e : Entry B) (leaf : ℕ) → IsAtWork c old s (Seeks e leaf)
        → how_many (is_of c e) ((tree_now c old).node leaf).pairs ≡ 0
        → LeavesLess c s old (with_work s (Seeks e ((tree_now c old).node leaf).right) old) }
{}

/// An abort has less left when a seek begins, when it goes to the right, and with each entry that is restored for the
/// first time. A commit has something left until it is sealed, and nothing then.
pub fn transactions_come_to_an_end<B>()
    ensures begins { (c : Class B) (old : State B) (s : ℕ) (notes : List (Note B)) (e : Entry B) (leaf : ℕ)
        → IsUndoing c old s notes → old.work s ≡ Rests → LeavesLess c s old (with_work s (Seeks e leaf) old) }
    ensures right { (c : Class B) (old : State B) (s : ℕ) (notes : List (Note B)) (e : Entry B) (leaf : ℕ)
        → IsUndoing c old s notes → old.work s ≡ Seeks e leaf
        → how_many (is_of c e) ((tree_now c old).node leaf).pairs ≡ 0
        → LeavesLess c s old (with_work s (Seeks e ((tree_now c old).node leaf).right) old) }
    ensures restores { (c : Class B) (old : State B) (s : ℕ) (notes : List (Note B)) → IsUndoing c old s notes
        → (r : Record (Entry B) (Page B)) (e : Entry B) (was : Bool) → noted c.keys e notes ≡ Some was
        → has c.keys e (old.restored s) ≡ false → LeavesLess c s old (with_restored s e (with_record r old)) }
    ensures unsealed { (c : Class B) → IsLawful c → (old : State B) → IsWhole c old
        → (s : ℕ) (locks : Locks B) (notes : List (Note B))
        → slot_at s old.slots ≡ Working locks notes (Some CommitCall) → 0 < work_left c old s }
    ensures sealed { (c : Class B) (old : State B) (s number : ℕ) → slot_at s old.slots ≡ Waiting number
        → work_left c old s ≡ 0 }
{}

/// An event of no session leaves each session's call no more to do. Events of the log leave as much: the start of a
/// batch, written pages, a synced gate, a checkpoint's new log. A split, a root split, a widening or a sweep leaves no
/// more: what a split puts ahead of a look, or to the right of a seek, it takes from the free pages.
pub fn what_is_no_sessions_leaves_no_more<B>()
    ensures begins { (c : Class B) (old : State B) → old.log.flight ≡ [] → (s : ℕ)
        → work_left c (record old { log = begun old.log }) s ≡ work_left c old s }
    ensures pages { (c : Class B) → IsLawful c → (old : State B) → (area : ℕ → Page B)
        → AgreesBeside old.log.gated old.log.area area → (s : ℕ)
        → work_left c (record old { log = record old.log { area = area } }) s ≡ work_left c old s }
    ensures synced { (c : Class B) (old : State B) (older : List (List (Entry B))) (oldest s : ℕ)
        → work_left c (record old { log = gate_synced old.log; older = older; oldest = oldest }) s ≡ work_left c old s }
    ensures renewed { (c : Class B) → IsLawful c → (old : State B) → IsWhole c old → old.log.flight ≡ []
        → old.log.filling ≡ [] → AllWritten old.log → (next s : ℕ)
        → work_left c (record old { log = record old.log { gated = renewed (known_of c) next old.log.gated } }) s
        ≡ work_left c old s }
    ensures steps { (c : Class B) → IsLawful c → (old : State B) → IsWhole c old
        → (r : Record (Entry B) (Page B)) (step : Step B) → IsPageStep step
        → IsStep c.rules (tree_now c old) step (tree_now c (with_record r old))
        → (tree_now c (with_record r old)).used ≤ c.pages
        → (s : ℕ) → work_left c (with_record r old) s ≤ work_left c old s }
{}

/// Another session's slot and work may change in any way that frees no claim, as it asks, is answered or begins an
/// undo: a session's call has no more to do for it.
pub fn what_frees_no_claim_leaves_no_more<B>()
    ensures { (c : Class B) → IsLawful c → (old : State B) (s a : ℕ) → a ≢ s → is_session s ≡ true
        → (slot : Slot B) (work : Work B)
        → ((e : Entry B) → has c.keys e (locks_held (slot_at s old.slots)).claims ≡ true
        → has c.keys e (locks_held slot).claims ≡ true)
        → work_left c (slotted s slot work old) a ≤ work_left c old a }
{}

/// A commit or an end of another session raises what a session's call has left by at most as many as it frees claims:
/// each entry that was claimed has one pair, which may be swept then.
pub fn what_is_freed_is_all_that_comes<B>()
    ensures commits { (c : Class B) → IsLawful c → (old : State B) → IsWhole c old → (s a : ℕ) → a ≢ s
        → is_session s ≡ true → (slot : Slot B) (work : Work B)
        (transaction number : ℕ) → work_left c (slotted s slot work (with_record (Commit transaction number) old)) a
        ≤ work_left c old a + length (locks_held (slot_at s old.slots)).claims }
    ensures ends { (c : Class B) → IsLawful c → (old : State B) → IsWhole c old → (s a : ℕ) → a ≢ s
        → is_session s ≡ true → (slot : Slot B) (work : Work B)
        (transaction : ℕ) → work_left c (slotted s slot work (with_record (End transaction) old)) a
        ≤ work_left c old a + length (locks_held (slot_at s old.slots)).claims }
{}

/// The number of events for the log and for frames before a call that waits for them can go on is below 2^13, with at
/// most 4,096 frames. Each such event that does its work lowers it: a step of the log, a page's write, a step of a
/// checkpoint.
pub fn chores_come_to_an_end()
    ensures most { (u : Upkeep) → IsWithin u → upkeep_left u < 2 ^ 13 }
    ensures falls { (old new : Upkeep) (chore : Chore) → IsChore old chore new → upkeep_left new < upkeep_left old }
{}

/// What another session writes leaves a session's call no more to do: a pair that it adds, a mark that it sets or
/// clears, an entry that it restores. What it marks it claims, so that no sweep would take it yet.
pub fn what_others_write_leaves_no_more<B>()
    ensures adds { (c : Class B) → IsLawful c → (old : State B) → IsWhole c old
        → (r : Record (Entry B) (Page B)) (s a : ℕ) → a ≢ s → (locks : Locks B)
        (notes then_notes : List (Note B)) (call : Call B) → slot_at s old.slots ≡ Working locks notes (Some call)
        → (leaf : ℕ) (x : Pair B) → x.marked ≡ false
        → IsAdding c.rules (tree_now c old) (tree_now c (with_record r old)) leaf x
        → work_left c (slotted s (Working locks then_notes None) Rests (with_record r old)) a ≤ work_left c old a }
    ensures marks { (c : Class B) → IsLawful c → (old : State B) → IsWhole c old
        → (r : Record (Entry B) (Page B)) (s a : ℕ) → a ≢ s → (locks : Locks B)
        (notes then_notes : List (Note B)) (call : Call B) → slot_at s old.slots ≡ Working locks notes (Some call)
        → (leaf : ℕ) (e : Entry B) (mark : Bool)
        → has c.keys e locks.claims ≡ true → 0 < how_many (is_of c e) ((tree_now c old).node leaf).pairs
        → IsMarking c.rules (tree_now c old) (tree_now c (with_record r old)) leaf e.row e.key mark
        → work_left c (slotted s (Working locks then_notes None) Rests (with_record r old)) a ≤ work_left c old a }
    ensures undoes { (c : Class B) → IsLawful c → (old : State B) → IsWhole c old
        → (r : Record (Entry B) (Page B)) (s a : ℕ) → a ≢ s → (locks : Locks B)
        (notes : List (Note B)) → slot_at s old.slots ≡ Undoing locks notes → (leaf : ℕ) (e : Entry B) (mark : Bool)
        → has c.keys e locks.claims ≡ true → 0 < how_many (is_of c e) ((tree_now c old).node leaf).pairs
        → IsMarking c.rules (tree_now c old) (tree_now c (with_record r old)) leaf e.row e.key mark
        → work_left c (with_restored s e (with_record r old)) a ≤ work_left c old a }
{}
