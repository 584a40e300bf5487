//! Writes: one record each, which may come, and the event that they are. What a record says of its leaf is the whole of
//! its content, or a small change of it that fits what the log gives.
ghost use Rattle.std.specs.Prelude.{◌<◌, ℕ, Bool, true, false, not, ◌&&◌};
ghost use Rattle.gx_machine.specs.declared.entry.Entry.{Entry};
ghost use Rattle.gx_machine.specs.declared.call.Call.TheVariants.{Insert, Delete};
ghost use Rattle.gx_node.specs.Lists.{how_many};
ghost use Rattle.gx_node.specs.Steps.{IsAdding, IsMarking};
ghost use Rattle.gx_events.specs.Happenings.{Inserts, Deletes, Undoes};
ghost use Rattle.gx_recovery.specs.Records.{Said};
ghost use Rattle.gx_index_laws.specs.Classes.{Class, Page, is_of};
ghost use Rattle.gx_index_laws.specs.States.{State, tree_now};
ghost use Rattle.gx_index_laws.specs.Happening.{Comes, with_record, with_restored, write_of};
ghost use Rattle.gx_index_laws.specs.Writes.{MayRestore, MayWrite, written};

/// An insert adds its pair to a leaf, if the tree had none: a write that finds its entry absent and leaves it live,
/// with the note that it wasn't, unless the transaction has noted it before.
pub fn an_insert_adds_its_pair<B>()
    ensures { (c : Class B) (old : State B) (s : ℕ) (e : Entry B) (leaf : ℕ) (said : Said (Page B))
        → (may : MayWrite c old s (Insert e) e false leaf said) → let x = write_of old s e true false leaf said in
        IsAdding c.rules (tree_now c old) (tree_now c (with_record x old)) leaf
        (record { row = e.row; key = e.key; marked = false })
        → Comes c old x (Inserts s e) (written x may) }
{}

/// An insert that comes to a leaf with a marked pair of its entry clears the mark.
pub fn an_insert_clears_the_mark<B>()
    ensures { (c : Class B) (old : State B) (s : ℕ) (e : Entry B) (leaf : ℕ) (said : Said (Page B))
        → (may : MayWrite c old s (Insert e) e false leaf said) → let x = write_of old s e true false leaf said in
        0 < how_many (λ x. is_of c e x && x.marked) ((tree_now c old).node leaf).pairs
        → IsMarking c.rules (tree_now c old) (tree_now c (with_record x old)) leaf e.row e.key false
        → Comes c old x (Inserts s e) (written x may) }
{}

/// A delete that comes to a leaf with a live pair of its entry sets the mark: nothing is taken from the leaf.
pub fn a_delete_sets_the_mark<B>()
    ensures { (c : Class B) (old : State B) (s : ℕ) (e : Entry B) (leaf : ℕ) (said : Said (Page B))
        → (may : MayWrite c old s (Delete e) e true leaf said) → let x = write_of old s e false true leaf said in
        0 < how_many (λ x. is_of c e x && not x.marked) ((tree_now c old).node leaf).pairs
        → IsMarking c.rules (tree_now c old) (tree_now c (with_record x old)) leaf e.row e.key true
        → Comes c old x (Deletes s e) (written x may) }
{}

/// An undo gives an entry's pair the mark from before the transaction's first write of it, whatever mark it has: an
/// ordinary write of the same transaction, after which the entry is among those that are restored.
pub fn an_undo_restores_a_pair<B>()
    ensures { (c : Class B) (old : State B) (s : ℕ) (e : Entry B) (was before : Bool) (leaf : ℕ) (said : Said (Page B))
        → MayRestore c old s e was before leaf said → let x = write_of old s e before (not was) leaf said in
        IsMarking c.rules (tree_now c old) (tree_now c (with_record x old)) leaf e.row e.key (not was)
        → Comes c old x (Undoes s e) (with_restored s e (with_record x old)) }
{}
