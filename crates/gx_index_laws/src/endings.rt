//! How a transaction ends.
ghost use Rattle.std.specs.Prelude.{◌≡◌, ◌≤◌, ◌+◌, ℕ, Bool, true, false, Some, List, [], ◌∷◌, ◌++◌};
ghost use Rattle.gx_machine.specs.declared.entry.Entry.{Entry};
ghost use Rattle.gx_machine.specs.declared.call.Call.TheVariants.{Commit as CommitCall};
ghost use Rattle.gx_machine.specs.Sets.{has, IsSetOf};
ghost use Rattle.gx_machine.specs.Sessions.{Locks};
ghost use Rattle.gx_events.specs.Slots.{Note, Free, Working, Undoing, Waiting, slot_at, noted};
ghost use Rattle.gx_events.specs.Engines.{stood};
ghost use Rattle.gx_events.specs.Happenings.{Seals, Acknowledges, EndsUndo};
ghost use Rattle.gx_recovery.specs.Records.{Commit, End};
ghost use Rattle.gx_recovery.specs.Logged.{latest};
ghost use Rattle.gx_index_laws.specs.Classes.{Class, IsLawful, known_of};
ghost use Rattle.gx_index_laws.specs.States.{State, Rests, engine_of};
ghost use Rattle.gx_index_laws.specs.Whole.{IsWhole};
ghost use Rattle.gx_index_laws.specs.Happening.{Happens, Comes, with_record, slotted};

/// A commit's record is appended, with the next number: the commit is sealed, the set that was committed before is one
/// more of the older ones, and the session's notes are gone. That set can be listed: it is the machine's last set.
pub fn a_commit_is_sealed<B>()
    ensures sealed { (c : Class B) → IsLawful c → (old : State B) → IsWhole c old → old.failed ≡ false
        → (s : ℕ) (locks : Locks B) (notes : List (Note B))
        → slot_at s old.slots ≡ Working locks notes (Some CommitCall) → (set : List (Entry B))
        → IsSetOf c.keys (stood c.keys (engine_of c old)) set
        → Comes c old (Commit (old.transaction s) (latest (known_of c) old.log + 1))
        (Seals s set (latest (known_of c) old.log + 1))
        (record (slotted s (Waiting (latest (known_of c) old.log + 1)) Rests
        (with_record (Commit (old.transaction s) (latest (known_of c) old.log + 1)) old)) {
          older = old.older ++ set ∷ [];
        }) }
    ensures stood { (c : Class B) (old : State B) → (whole : IsWhole c old)
        → IsSetOf c.keys (stood c.keys (engine_of c old)) whole.machine.latest }
{}

/// A commit whose number is durable is acknowledged.
pub fn a_commit_is_acknowledged<B>()
    ensures { (c : Class B) → IsLawful c → (old : State B) → IsWhole c old → old.failed ≡ false → (s number : ℕ)
        → slot_at s old.slots ≡ Waiting number
        → number ≤ old.oldest → Happens c old (Acknowledges s number) (slotted s Free Rests old) }
{}

/// When all that was noted is restored, the end of an abort's undo may be appended, and the abort is answered.
pub fn an_undo_ends<B>()
    ensures { (c : Class B) → IsLawful c → (old : State B) → IsWhole c old → old.failed ≡ false
        → (s : ℕ) (locks : Locks B) (notes : List (Note B))
        → slot_at s old.slots ≡ Undoing locks notes
        → ((e : Entry B) (was : Bool) → noted c.keys e notes ≡ Some was → has c.keys e (old.restored s) ≡ true)
        → Comes c old (End (old.transaction s)) (EndsUndo s)
        (slotted s Free Rests (with_record (End (old.transaction s)) old)) }
{}
