//! What a store's pages show is the log's tree. That tree has a node for every number, and a store shows the pages in
//! use: over trees that agree on those, the same entries are live, and a session's work is right of both or of neither.
ghost use Rattle.std.specs.Prelude.{◌≡◌};
ghost use Rattle.gx_machine.specs.declared.entry.Entry.{Entry};
ghost use Rattle.gx_node.specs.Trees.{Tree};
ghost use Rattle.gx_node.specs.Legal.{Legal};
ghost use Rattle.gx_node.specs.Alike.{AgreeOnUsed};
ghost use Rattle.gx_events.specs.Slots.{Slot};
ghost use Rattle.gx_index_laws.specs.Classes.{Class, is_live};
ghost use Rattle.gx_index_laws.specs.States.{Work};
ghost use Rattle.gx_index_laws.specs.Working.{DoesWork};

/// Over trees that agree on pages in use the same entries are live, and a session's work that is right of the one is
/// right of the other.
pub fn an_index_is_alike_over_trees_that_agree<B>()
    ensures live { (c : Class B) (one other : Tree B) → AgreeOnUsed one other → Legal c.rules one → (e : Entry B)
        → is_live c other e ≡ is_live c one e }
    ensures works { (c : Class B) (one other : Tree B) → AgreeOnUsed one other → Legal c.rules one
        → (slot : Slot B) (work : Work B)
        → DoesWork c one slot work → DoesWork c other slot work }
{}
