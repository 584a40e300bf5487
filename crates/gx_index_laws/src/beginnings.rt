//! How an index begins, a transaction and a call; and the asks that are refused.
ghost use Rattle.std.specs.Prelude.{◌≡◌, ◌≤◌, ℕ, true, false};
ghost use Rattle.gx_geom.specs.declared.refusal.Refusal.{Refusal};
ghost use Rattle.gx_geom.specs.declared.refusal.Refusal.TheVariants.{HistoryFull};
ghost use Rattle.gx_machine.specs.declared.call.Call.{Call};
ghost use Rattle.gx_machine.specs.declared.call.Call.TheVariants.{Begin};
ghost use Rattle.gx_machine.specs.declared.reply.Reply.TheVariants.{Ok, Refused};
ghost use Rattle.gx_machine.specs.declared.reply.Asked.TheVariants.{Now, Open};
ghost use Rattle.gx_machine.specs.Machine.{is_session, fresh_machine};
ghost use Rattle.gx_events.specs.Slots.{Free, slot_at};
ghost use Rattle.gx_events.specs.Engines.{SeenAs};
ghost use Rattle.gx_events.specs.Asking.{ask_in, ask};
ghost use Rattle.gx_events.specs.Happenings.{Asks, RefusesAsk};
ghost use Rattle.gx_recovery.specs.Damage.{is_transaction};
ghost use Rattle.gx_index_laws.specs.Classes.{Class, IsLawful};
ghost use Rattle.gx_index_laws.specs.States.{State, tree_now, engine_of, fresh_state};
ghost use Rattle.gx_index_laws.specs.Whole.{IsWhole};
ghost use Rattle.gx_index_laws.specs.Happening.{Happens, slotted, first_work, with_transaction};

/// A fresh index is whole, on a device of at least two pages, and is seen as the machine with nothing committed.
pub fn a_fresh_index_is_whole<B>()
    ensures whole { (c : Class B) → IsLawful c → (start : B) → 2 ≤ c.pages → IsWhole c (fresh_state start) }
    ensures seen { (c : Class B) (start : B) → SeenAs c.keys (engine_of c (fresh_state start)) fresh_machine }
{}

/// A session without a transaction begins one.
/// It gets the next number, which the log doesn't name, and has noted nothing.
pub fn a_transaction_begins<B>()
    ensures { (c : Class B) → IsLawful c → (old : State B) → IsWhole c old → old.failed ≡ false → (s : ℕ)
        → is_session s ≡ true
        → slot_at s old.slots ≡ Free → is_transaction old.next ≡ true
        → Happens c old (Asks s Begin (Now Ok)) (with_transaction s old) }
{}

/// A call opens, with its lock: an insert, a delete or a search looks from the root, a commit waits to be sealed, an
/// abort has restored nothing yet.
pub fn a_call_opens<B>()
    ensures { (c : Class B) → IsLawful c → (old : State B) → IsWhole c old → old.failed ≡ false → (s : ℕ)
        → is_session s ≡ true → (call : Call B)
        → (ask_in c.keys s call old.slots).0 ≡ Open
        → Happens c old (Asks s call Open) (slotted s (ask_in c.keys s call old.slots).1
        (first_work (tree_now c old) call) old) }
{}

/// An ask that is refused doesn't change an index: no lock, transaction or session for it, or no number for a
/// transaction that would begin.
pub fn a_refused_ask_changes_nothing<B>()
    ensures refused { (c : Class B) → IsLawful c → (old : State B) → IsWhole c old → old.failed ≡ false
        → (s : ℕ) (call : Call B) (why : Refusal)
        → (ask c.keys s call (engine_of c old)).0 ≡ Now (Refused why)
        → Happens c old (Asks s call (Now (Refused why))) old }
    ensures history { (c : Class B) → IsLawful c → (old : State B) → IsWhole c old → old.failed ≡ false
        → (s : ℕ) (call : Call B)
        → (ask c.keys s call (engine_of c old)).0 ≡ Now Ok → Happens c old (RefusesAsk s call HistoryFull) old }
{}
