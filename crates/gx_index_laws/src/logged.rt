//! What happens to the tree and to the log that is no session's; and faults.
ghost use Rattle.std.specs.Prelude.{◌≡◌, ◌≤◌, ◌-◌, ℕ, true, false, drop, List, []};
ghost use Rattle.std.specs.List.{list_all};
ghost use Rattle.gx_geom.specs.declared.refusal.Refusal.TheVariants.{Device, Failed};
ghost use Rattle.gx_machine.specs.declared.call.Call.{Call};
ghost use Rattle.gx_node.specs.Steps.{Step, IsStep};
ghost use Rattle.gx_events.specs.Slots.{slot_at, is_unanswered};
ghost use Rattle.gx_events.specs.Happenings.{Durable, Works, Fails, RefusesAsk, RefusesCall};
ghost use Rattle.gx_recovery.specs.Analysis.{analysis};
ghost use Rattle.gx_recovery.specs.Records.{Image, Change, Pages, Adjust};
ghost use Rattle.gx_recovery.specs.Damage.{image_fits};
ghost use Rattle.gx_recovery.specs.Given.{given, change_fits};
ghost use Rattle.gx_recovery.specs.Logged.{all_records, durable, begun, gate_synced, AgreesBeside};
ghost use Rattle.gx_recovery.specs.Life.{AllWritten};
ghost use Rattle.gx_recovery.specs.Renewal.{renewed};
ghost use Rattle.gx_index_laws.specs.Classes.{Class, Page, IsLawful, known_of};
ghost use Rattle.gx_index_laws.specs.Steps.{IsPageStep, SparesClaims};
ghost use Rattle.gx_index_laws.specs.States.{State, tree_now};
ghost use Rattle.gx_index_laws.specs.Whole.{IsWhole};
ghost use Rattle.gx_index_laws.specs.Happening.{Happens, Comes, with_record, failed_state};

/// A split, a root split, a widening or a sweep is one record of pages, and no event that any session sees: nothing
/// that is live changes, and each look, descent and seek that is at work goes on. A sweep spares what any session
/// claims. If the log gives the page that a step changes, the record may say the change alone.
pub fn a_page_step_is_no_event<B>()
    ensures whole { (c : Class B) → IsLawful c → (old : State B) → IsWhole c old
        → (images : List (Image (Page B))) (counter used : ℕ) (step : Step B)
        → IsPageStep step → SparesClaims c old.slots step → used ≤ c.pages
        → list_all (image_fits (known_of c) used) images ≡ true
        → IsStep c.rules (tree_now c old) step (tree_now c (with_record (Pages images counter used) old))
        → Comes c old (Pages images counter used) Works (with_record (Pages images counter used) old) }
    ensures small { (c : Class B) → IsLawful c → (old : State B) → IsWhole c old
        → (page : ℕ) (change : Change (Page B)) (step : Step B)
        → IsPageStep step → SparesClaims c old.slots step
        → change_fits (known_of c) change (given page (all_records old.log)) ≡ true
        → IsStep c.rules (tree_now c old) step (tree_now c (with_record (Adjust page change) old))
        → Comes c old (Adjust page change) Works (with_record (Adjust page change) old) }
{}

/// The log goes on: the filling batch begins, if none is in flight; pages are written that gated records give whole,
/// whole or torn; the gate of the batch in flight is synced, its commits are durable, and older sets are dropped.
pub fn the_log_goes_on<B>()
    ensures begins { (c : Class B) → IsLawful c → (old : State B) → IsWhole c old → old.log.flight ≡ []
        → Happens c old Works (record old { log = begun old.log }) }
    ensures pages { (c : Class B) → IsLawful c → (old : State B) → IsWhole c old → (area : ℕ → Page B)
        → AgreesBeside old.log.gated old.log.area area
        → Happens c old Works (record old { log = record old.log { area = area } }) }
    ensures synced { (c : Class B) → IsLawful c → (old : State B) → IsWhole c old → old.failed ≡ false
        → Happens c old (Durable (durable (known_of c) (gate_synced old.log))) (record old {
          log = gate_synced old.log;
          older = drop (durable (known_of c) (gate_synced old.log) - old.oldest) old.older;
          oldest = durable (known_of c) (gate_synced old.log);
        }) }
{}

/// A checkpoint's new log, of numbers and notes, takes the old one's place, if all is gated and all pages are written.
/// It carries a next transaction's number from the old log's to the index's, which may have begun transactions since
/// the head was made.
pub fn a_log_is_renewed<B>()
    ensures { (c : Class B) → IsLawful c → (old : State B) → IsWhole c old → old.log.flight ≡ [] → old.log.filling ≡ []
        → AllWritten old.log
        → (next : ℕ) → (analysis (known_of c) old.log.gated).next ≤ next → next ≤ old.next
        → Happens c old Works
        (record old { log = record old.log { gated = renewed (known_of c) next old.log.gated } }) }
{}

/// A fault makes an index fail, whether a session sees it or not, and changes nothing else. A failed index refuses.
pub fn faults_change_nothing_else<B>()
    ensures unseen { (c : Class B) → IsLawful c → (old : State B) → IsWhole c old
        → Happens c old Fails (failed_state old) }
    ensures ask { (c : Class B) → IsLawful c → (old : State B) → IsWhole c old → old.failed ≡ false
        → (s : ℕ) (call : Call B)
        → Happens c old (RefusesAsk s call Device) (failed_state old) }
    ensures failed_ask { (c : Class B) → IsLawful c → (old : State B) → IsWhole c old → (s : ℕ) (call : Call B)
        → Happens c old (RefusesAsk s call Failed) (failed_state old) }
    ensures call { (c : Class B) → IsLawful c → (old : State B) → IsWhole c old → old.failed ≡ false → (s : ℕ)
        → is_unanswered (slot_at s old.slots) ≡ true → Happens c old (RefusesCall s Device) (failed_state old) }
    ensures failed_call { (c : Class B) → IsLawful c → (old : State B) → IsWhole c old → (s : ℕ)
        → is_unanswered (slot_at s old.slots) ≡ true → Happens c old (RefusesCall s Failed) (failed_state old) }
{}
