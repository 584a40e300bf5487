//! The laws at work on trees that were worked out by hand, so that none holds only because it has no case: each kind of
//! step is taken on one of them, and there are trees that are legal and trees that aren't.
ghost use Rattle.std.specs.Prelude.{◌≡◌, ◌∷◌, [], true, false};
ghost use Rattle.gx_node.specs.Trees.{IsLawful, leaves};
ghost use Rattle.gx_node.specs.Legal.{Legal};
ghost use Rattle.gx_node.specs.Steps.{AreSteps};
ghost use Rattle.gx_node.specs.Reach.{TraversalItem, run};
ghost use Rattle.gx_node.specs.Looks.{IsLook, from_root, stacked, found_with, LeadsTo};
ghost use Rattle.gx_node.specs.Writes.{IsSeek, leaves_left, must_restart, descent_left};
ghost use Rattle.gx_node.specs.Worked.{Box, box, boxes, live, held, held_split, held_steps, held_end};
ghost use Rattle.gx_node.specs.Worked.{eight_rows, nine_rows, nine_steps, swept, swept_steps, near_origin};
ghost use Rattle.gx_node.specs.Worked.{wanted_near_origin, named_twice, off_the_chain, bound_too_small};

/// Boxes keep the laws of keys.
pub fn boxes_are_lawful()
    ensures { IsLawful boxes }
{}

/// These trees are legal; the leaves are on the chain in the order of the boxes' splits.
pub fn worked_trees_are_legal()
    ensures held { Legal boxes held }
    ensures held_end { Legal boxes held_end }
    ensures held_leaves { leaves held_end ≡ 2 ∷ 4 ∷ 3 ∷ [] }
    ensures nine { Legal boxes nine_rows }
    ensures nine_leaves { leaves nine_rows ≡ 2 ∷ 3 ∷ 4 ∷ 5 ∷ [] }
{}

/// Two addings and a split, a root split with two widenings and an adding, a mark and a sweep are steps.
pub fn worked_steps_are_steps()
    ensures held { AreSteps boxes held held_steps held_split }
    ensures nine { AreSteps boxes eight_rows nine_steps nine_rows }
    ensures swept { AreSteps boxes held swept_steps swept }
{}

/// A search has read the root, and then the leaf below it is split twice. Its item (2, 0) is near the pages 2, 4 and 3;
/// it reads them in turn, and finds in page 3 the entry that was in page 2 when it began.
pub fn worked_search_moves_right()
    ensures root { stacked held near_origin (from_root held) [] ≡ record { page = 2; seen = 0 } ∷ [] }
    ensures near { run held_end 3 0 2 ≡ 2 ∷ 4 ∷ 3 ∷ [] }
    ensures second { stacked held_end near_origin (record { page = 2; seen = 0 }) []
        ≡ record { page = 4; seen = 0 } ∷ [] }
    ensures fourth { stacked held_end near_origin (record { page = 4; seen = 0 }) []
        ≡ record { page = 3; seen = 0 } ∷ [] }
    ensures third { stacked held_end near_origin (record { page = 3; seen = 0 }) [] ≡ [] }
    ensures found { found_with held_end wanted_near_origin (record { page = 3; seen = 0 })
        (found_with held_end wanted_near_origin (record { page = 4; seen = 0 })
        (found_with held_end wanted_near_origin (record { page = 2; seen = 0 }) []))
        ≡ live 2 (box 0 0 1 1) ∷ [] }
    ensures looks { IsLook held_end wanted_near_origin (record { page = 2; seen = 0 } ∷ []) [] }
    ensures leads { LeadsTo boxes held_end wanted_near_origin near_origin }
{}

/// A search that begins once a leaf is split remembers both halves with the counter of now, and doesn't move right from
/// the first: it reads each half once.
pub fn worked_search_reads_each_leaf_once()
    ensures children { stacked held_split (λ b. true) (from_root held_split) []
        ≡ record { page = 2; seen = 1 } ∷ record { page = 3; seen = 1 } ∷ [] }
    ensures first { stacked held_split (λ b. true) (record { page = 2; seen = 1 }) (record { page = 3; seen = 1 } ∷ [])
        ≡ record { page = 3; seen = 1 } ∷ [] }
{}

/// A descent that came to page 2 before it was split begins again, one that came after it doesn't; nor does one whose
/// parent names the page and has room.
pub fn worked_descent_begins_again()
    ensures before { must_restart boxes held_split 1 (record { page = 2; seen = 0 }) ≡ true }
    ensures later { must_restart boxes held_split 1 (record { page = 2; seen = 1 }) ≡ false }
    ensures no_parent { must_restart boxes held_split 3 (record { page = 2; seen = 1 }) ≡ true }
    ensures left { descent_left boxes held_split 16 (λ x. false) 1 (record { page = 2; seen = 1 }) ≡ 221 }
    ensures left_before { descent_left boxes held_split 16 (λ x. false) 1 (record { page = 2; seen = 0 }) ≡ 223 }
{}

/// The box at the origin is sought from page 2, where it was, and is found two leaves to the right.
pub fn worked_seek_goes_right()
    ensures seek { IsSeek boxes held_end 2 2 (box 0 0 1 1) }
    ensures leaves { leaves_left held_end 2 ≡ 3 }
    ensures last { leaves_left held_end 3 ≡ 1 }
{}

/// A page named twice, a leaf off the chain, and a bound that is too small: none of these trees is legal.
pub fn these_trees_are_not_legal()
    ensures named_twice { Legal boxes named_twice → ⊥ }
    ensures off_the_chain { Legal boxes off_the_chain → ⊥ }
    ensures bound_too_small { Legal boxes bound_too_small → ⊥ }
{}
