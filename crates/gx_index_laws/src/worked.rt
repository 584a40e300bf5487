//! The laws at work on a list of events that was worked out by hand, so that none holds only because it has no case.
ghost use Rattle.std.specs.Prelude.{◌≡◌, Some, true, false, replicate, [], ◌∷◌, length};
ghost use Rattle.gx_machine.specs.declared.limits.TheConstants.{SESSIONS};
ghost use Rattle.gx_machine.specs.declared.call.Call.TheVariants.{Search};
ghost use Rattle.gx_node.specs.Steps.{IsStep, Splits};
ghost use Rattle.gx_events.specs.Slots.{Free, Undoing, slot_at};
ghost use Rattle.gx_recovery.specs.Standing.{stands_for};
ghost use Rattle.gx_recovery.specs.Logged.{IsLeft};
ghost use Rattle.gx_index_laws.specs.Classes.{IsLawful, known_of};
ghost use Rattle.gx_index_laws.specs.States.{Looks, tree_now, fresh_state};
ghost use Rattle.gx_index_laws.specs.Working.{open_call};
ghost use Rattle.gx_index_laws.specs.Whole.{IsWhole};
ghost use Rattle.gx_index_laws.specs.Happening.{AreHappening};
ghost use Rattle.gx_index_laws.specs.Openings.{GoesOpening, IsRestart};
ghost use Rattle.gx_index_laws.specs.WorkedLife.{numbers, query, nth, fifth, note, claiming, item, state_23};
ghost use Rattle.gx_index_laws.specs.WorkedLife.{state_24, lost, found_log, opened, reopened, opening, worked_events};

/// From a fresh index on: one session inserts four entries and commits; a search of another is open while a leaf is
/// split for a fifth entry; power is lost with the split and that entry in flight; an opening undoes it and gates that.
/// The events happen, one after another, and the index is whole after each.
pub fn a_worked_life_happens()
    ensures lawful { IsLawful numbers }
    ensures happens { AreHappening numbers (fresh_state 9) worked_events reopened }
    ensures whole { IsWhole numbers reopened }
{}

/// What that life shows. The search is open, and has the split leaf stacked, before the split and after it. The crash
/// comes with a batch in flight, which is read; the opening over it has one loser, in session 1, and ends with all
/// slots free and the undo's records gated.
pub fn what_the_worked_life_shows()
    ensures searches { open_call (slot_at 2 state_23.slots) ≡ Some (Search query) }
    ensures stacked { state_24.work 2 ≡ Looks (item 2 0 ∷ []) [] }
    ensures splits { IsStep numbers.rules (tree_now numbers state_23)
        (Splits 2 1 (false ∷ false ∷ true ∷ true ∷ []) 2 4) (tree_now numbers state_24) }
    ensures in_flight { length lost.log.flight ≡ 2 }
    ensures left { IsLeft lost.log lost.log.area found_log }
    ensures loser { slot_at 1 opened.slots ≡ Undoing (claiming (fifth ∷ [])) (note fifth ∷ []) }
    ensures restarts { IsRestart numbers lost opening reopened }
    ensures goes { GoesOpening numbers opening reopened }
    ensures ended { reopened.slots ≡ replicate SESSIONS Free }
    ensures committed { stands_for (known_of numbers) lost.log.area found_log (nth 4) ≡ true }
    ensures undone { stands_for (known_of numbers) lost.log.area found_log fifth ≡ false }
{}
