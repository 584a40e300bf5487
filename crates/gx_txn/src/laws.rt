//! Laws: what the table's definitions say in terms of the set machine and of transactions.
ghost use Rattle.std.specs.Prelude.{◌≡◌, ℕ, true, List, map};
ghost use Rattle.gx_machine.specs.declared.call.Call.{Call};
ghost use Rattle.gx_machine.specs.declared.call.Call.TheVariants.{Insert, Delete};
ghost use Rattle.gx_machine.specs.declared.entry.Entry.{Entry};
ghost use Rattle.gx_machine.specs.Keys.{Keys, IsLawful};
ghost use Rattle.gx_machine.specs.Machine.{is_session, session_at, least_conflicting, claims_held};
ghost use Rattle.gx_machine.specs.Sessions.{Session, locks_of, lock_for};
ghost use Rattle.gx_machine.specs.Sets.{has, InOrder};
ghost use Rattle.gx_txn.specs.declared.note.Note.{Note};
ghost use Rattle.gx_txn.specs.Notes.{entries_of, notes_of, of_entry, written};
ghost use Rattle.gx_txn.specs.Tables.{Held, locks_for};

/// The table decides as the set machine does: of any machine whose sessions hold these locks, be they open or undoing
/// what they wrote, the least conflicting session, the claims held in all and so the locks or the refusal are the same.
/// A call that deletes is decided as one that inserts.
pub fn asks_are_decided_as_by_the_machine<B>()
    ensures machine { (k : Keys B) (call : Call B) (s : ℕ) (sessions : List (Session B)) (table : List (Held B))
        → is_session s ≡ true → map locks_of sessions ≡ map (λ h. h.locks) table
        → locks_for k call s table
        ≡ lock_for k call (least_conflicting k call s 1 sessions) (claims_held sessions)
        (locks_of (session_at s sessions)) }
    ensures deletes { (k : Keys B) (e : Entry B) (s : ℕ) (table : List (Held B))
        → locks_for k (Delete e) s table ≡ locks_for k (Insert e) s table }
{}

/// Of any writes of a transaction, the notes have each written entry once and no other, in the order of entries: with
/// its mark from before the first write of it, and with the leaf of the last.
pub fn first_mark_and_last_leaf_stand<B>()
    ensures stand { (k : Keys B) → IsLawful k → (e : Entry B) (writes : List (Note B))
        → of_entry k e (notes_of k writes) ≡ written k e writes }
    ensures written { (k : Keys B) → IsLawful k → (e : Entry B) (writes : List (Note B))
        → has k e (entries_of (notes_of k writes)) ≡ has k e (entries_of writes) }
    ensures in_order { (k : Keys B) → IsLawful k → (writes : List (Note B))
        → InOrder k (entries_of (notes_of k writes)) }
{}
