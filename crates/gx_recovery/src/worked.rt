//! The definitions tried on examples: they can be met, and each test of a log refuses something that no other does.
ghost use Rattle.std.specs.Prelude.{◌≡◌, true, false, List, [], ◌∷◌, ◌++◌};
ghost use Rattle.gx_recovery.specs.Known.{IsLawful};
ghost use Rattle.gx_recovery.specs.Records.{Commit, Counters, Note};
ghost use Rattle.gx_recovery.specs.Logged.{IsHealthy, all_records, appended};
ghost use Rattle.gx_recovery.specs.Life.{IsLife};
ghost use Rattle.gx_recovery.specs.Worked.{worked, rows, found_in, wanted_of};
ghost use Rattle.gx_recovery.specs.WorkedLife.{fresh, insert_8, in_flight, committed, second, losing, torn};
ghost use Rattle.gx_recovery.specs.WorkedLife.{reopened, undoing, undone, written, renewed_last, worked_steps};
ghost use Rattle.gx_recovery.specs.WorkedLife.{sets_of, stood_for, too_early, past_a_gate, torn_page};
ghost use Rattle.gx_recovery.specs.WorkedLife.{imageless, imaged, noteless, ended_early, shared, seen_by};

/// Each damaged log of the rows is refused for its own item and for no other. Beside them are logs that are at a limit
/// and not over it.
pub fn each_item_refuses_a_log_alone()
    ensures { found_in rows ≡ wanted_of rows }
{}

/// A life of a small index: a fresh log; an insert and its commit; an insert with a split and a deletion, by a
/// transaction that a crash cuts off, with a page torn; an opening, the undo of both entries, an end; a sweep; and a
/// checkpoint. The second insert and the sweep are small changes.
pub fn a_worked_life_meets_the_definitions()
    ensures lawful { IsLawful worked }
    ensures fresh { IsHealthy worked fresh }
    ensures life { IsLife worked fresh worked_steps renewed_last }
{}

/// What that life's states keep, and what crashes leave of it. The commit's set comes with its batch, and is durable
/// once the gate is synced. The transaction that is cut off has changed nothing, before its undo and after. Its notes
/// record this as long as it is open.
pub fn the_sets_of_the_worked_life()
    ensures fresh { sets_of fresh ≡ [] ∷ [] }
    ensures in_flight { sets_of in_flight ≡ [] ∷ (7 ∷ []) ∷ [] }
    ensures without_flight { stood_for fresh.area in_flight.gated ≡ [] }
    ensures with_flight { stood_for fresh.area (in_flight.gated ++ in_flight.flight) ≡ 7 ∷ [] }
    ensures committed { sets_of committed ≡ (7 ∷ []) ∷ [] }
    ensures second { sets_of second ≡ (7 ∷ []) ∷ (7 ∷ 8 ∷ []) ∷ [] }
    ensures second_view { seen_by 2 committed.area (all_records (appended insert_8 committed)) ≡ 7 ∷ 8 ∷ [] }
    ensures losing { sets_of losing ≡ (7 ∷ []) ∷ [] }
    ensures torn { stood_for torn losing.gated ≡ 7 ∷ [] }
    ensures reopened { sets_of reopened ≡ (7 ∷ []) ∷ [] }
    ensures notes { reopened.gated ≡ Counters 1 1 3 3 ∷ Note 2 7 false 2 ∷ Note 2 8 true 2 ∷ [] }
    ensures undoing { sets_of undoing ≡ (7 ∷ []) ∷ [] }
    ensures undone { sets_of undone ≡ (7 ∷ []) ∷ [] }
    ensures either { stood_for written.area renewed_last.gated ≡ stood_for written.area written.gated }
    ensures renewed { renewed_last.gated ≡ Counters 1 1 3 5 ∷ [] }
{}

/// What would go wrong without each rule. With nothing committed, a crash leaves entry 7 if its page is written before
/// its record is gated, or if a batch is read behind a closed gate. It leaves entry 9, which no transaction wrote, if a
/// page is written of which the log has only a small change, and that write is torn; an image leaves nothing. With
/// entry 7 committed, a crash leaves entry 8 and not 7 if a checkpoint leaves out the notes, or if a transaction ends
/// before all is restored. If two transactions write one entry, the commit of the first has a set that isn't its view.
pub fn what_the_rules_prevent()
    ensures too_early { stood_for too_early in_flight.gated ≡ 7 ∷ [] }
    ensures past_a_gate { stood_for fresh.area past_a_gate ≡ 7 ∷ [] }
    ensures imageless { stood_for torn_page imageless ≡ 9 ∷ [] }
    ensures imaged { stood_for torn_page imaged ≡ [] }
    ensures noteless { stood_for reopened.area noteless ≡ 8 ∷ [] }
    ensures ended_early { sets_of ended_early ≡ (8 ∷ []) ∷ [] }
    ensures seen { seen_by 1 fresh.area shared ≡ [] }
    ensures shared { stood_for fresh.area (shared ++ Commit 1 1 ∷ []) ≡ 7 ∷ [] }
{}
