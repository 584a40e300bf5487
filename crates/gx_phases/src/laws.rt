//! Laws: the sessions' calls are events of the engine's laws, whichever entries are live and whichever sets are kept.
ghost use Rattle.std.specs.Prelude.{◌≡◌, ◌≤◌, ◌<◌, ◌+◌, ◌-◌, ℕ, Bool, true, false};
ghost use Rattle.std.specs.Prelude.{not, ◌&&◌, length, List, [], ◌∷◌, ◌++◌, drop};
ghost use Rattle.std.specs.List.{slice_index_or};
ghost use Rattle.gx_geom.specs.declared.refusal.Refusal.{Refusal};
ghost use Rattle.gx_machine.specs.declared.entry.Entry.{Entry};
ghost use Rattle.gx_machine.specs.declared.query.Query.{Query};
ghost use Rattle.gx_machine.specs.declared.call.Call.{Call};
ghost use Rattle.gx_machine.specs.declared.call.Call.TheVariants.{Insert, Delete, Search, Commit};
ghost use Rattle.gx_machine.specs.Keys.{Keys, IsLawful, matches};
ghost use Rattle.gx_machine.specs.Sets.{IsSetOf};
ghost use Rattle.gx_machine.specs.Machine.{is_session};
ghost use Rattle.gx_machine.specs.Runs.{may_close};
ghost use Rattle.gx_txn.specs.declared.note.Note.{Note};
ghost use Rattle.gx_txn.specs.Tables.{held_by};
ghost use Rattle.gx_events.specs.Engines.{stood};
ghost use Rattle.gx_events.specs.Happenings.{IsHappening, Inserts, Deletes, FindsPresent, FindsAbsent, Finds, Closes};
ghost use Rattle.gx_events.specs.Happenings.{Seals, Durable, Acknowledges, Undoes, EndsUndo, Fails, marked};
ghost use Rattle.gx_machine.specs.declared.reply.Asked.{Asked};
ghost use Rattle.gx_index_laws.specs.Classes.{Class, IsLawful as IsLawfulClass};
ghost use Rattle.gx_index_laws.specs.States as index;
ghost use Rattle.gx_index_laws.specs.Whole.{IsWhole};
ghost use Rattle.gx_index_laws.specs.Happening.{Happens};
ghost use Rattle.gx_phases.specs.Asked.{IsAsked, asked_event};
ghost use Rattle.gx_phases.specs.Indexes.{AreOf, asked_index};
ghost use Rattle.gx_phases.specs.declared.phase.Phase.TheVariants as phase;
ghost use Rattle.gx_phases.specs.States.{State, IsKept, engine_of, phase_at, with_phase_of};
ghost use Rattle.gx_phases.specs.Moves.{answered_state, written_state, sealed_state};
ghost use Rattle.gx_phases.specs.Moves.{ended_state, synced_state, failed_state};
ghost use Rattle.gx_phases.specs.Restoring.{AreRestored};

/// An answered call is closed: an insert that finds its entry live, a delete that doesn't, a search that found what is
/// live and matches, and a call for which no pages or memory are left.
pub fn an_answered_call_is_closed<B, W>()
    ensures present { (k : Keys B) (live : Entry B → Bool) (older : List (List (Entry B))) (old : State B W)
        → IsKept k old → old.failed ≡ false
        → (s : ℕ) → is_session s ≡ true → (e : Entry B) (work : W)
        → phase_at (s - 1) old.phases ≡ phase.Open (Insert e) work → live e ≡ true
        → IsHappening k (engine_of live older old) (FindsPresent s e) (engine_of live older (answered_state s old)) }
    ensures absent { (k : Keys B) (live : Entry B → Bool) (older : List (List (Entry B))) (old : State B W)
        → IsKept k old → old.failed ≡ false
        → (s : ℕ) → is_session s ≡ true → (e : Entry B) (work : W)
        → phase_at (s - 1) old.phases ≡ phase.Open (Delete e) work → live e ≡ false
        → IsHappening k (engine_of live older old) (FindsAbsent s e) (engine_of live older (answered_state s old)) }
    ensures found { (k : Keys B) (live : Entry B → Bool) (older : List (List (Entry B))) (old : State B W)
        → IsKept k old → old.failed ≡ false
        → (s : ℕ) → is_session s ≡ true → (query : Query B) (work : W)
        → phase_at (s - 1) old.phases ≡ phase.Open (Search query) work
        → (entries : List (Entry B)) → IsSetOf k (λ e. matches k query e && live e) entries
        → IsHappening k (engine_of live older old) (Finds s query entries)
        (engine_of live older (answered_state s old)) }
    ensures closed { (k : Keys B) (live : Entry B → Bool) (older : List (List (Entry B))) (old : State B W)
        → IsKept k old → old.failed ≡ false
        → (s : ℕ) → is_session s ≡ true → (call : Call B) (work : W)
        → phase_at (s - 1) old.phases ≡ phase.Open call work
        → (why : Refusal) → may_close why ≡ true
        → IsHappening k (engine_of live older old) (Closes s call why) (engine_of live older (answered_state s old)) }
{}

/// A write that is noted, with its entry live from then on or not: the note's mark is set if the entry wasn't live.
pub fn a_noted_write_is_answered<B, W>()
    ensures inserts { (k : Keys B) → IsLawful k → (live later : Entry B → Bool) (older : List (List (Entry B)))
        (old : State B W) → IsKept k old → old.failed ≡ false
        → (s : ℕ) → is_session s ≡ true → (e : Entry B) (leaf : ℕ) (work : W)
        → phase_at (s - 1) old.phases ≡ phase.Open (Insert e) work → live e ≡ false
        → ((x : Entry B) → later x ≡ marked k e true live x)
        → IsHappening k (engine_of live older old) (Inserts s e)
        (engine_of later older (written_state k s (record { entry = e; before = true; leaf = leaf }) old)) }
    ensures deletes { (k : Keys B) → IsLawful k → (live later : Entry B → Bool) (older : List (List (Entry B)))
        (old : State B W) → IsKept k old → old.failed ≡ false
        → (s : ℕ) → is_session s ≡ true → (e : Entry B) (leaf : ℕ) (work : W)
        → phase_at (s - 1) old.phases ≡ phase.Open (Delete e) work → live e ≡ true
        → ((x : Entry B) → later x ≡ marked k e false live x)
        → IsHappening k (engine_of live older old) (Deletes s e)
        (engine_of later older (written_state k s (record { entry = e; before = false; leaf = leaf }) old)) }
{}

/// A commit that was asked is sealed, if the committed set is this one, and the kept sets but the last are as many as
/// there are sealed commits that aren't durable; commits get durable; and a durable one is acknowledged.
pub fn a_commit_goes_its_way<B, W>()
    ensures seals { (k : Keys B) (live : Entry B → Bool) (older : List (List (Entry B))) (old : State B W)
        → IsKept k old → old.failed ≡ false
        → (s : ℕ) → is_session s ≡ true → (work : W) → phase_at (s - 1) old.phases ≡ phase.Open Commit work
        → old.durable + length older ≡ old.latest → (set : List (Entry B))
        → IsSetOf k (stood k (engine_of live older old)) set
        → IsHappening k (engine_of live older old) (Seals s set (old.latest + 1))
        (engine_of live (older ++ set ∷ []) (sealed_state s old)) }
    ensures durable { (k : Keys B) (live : Entry B → Bool) (older : List (List (Entry B))) (old : State B W)
        → old.failed ≡ false
        → old.durable + length older ≡ old.latest → (number : ℕ) → old.durable ≤ number → number ≤ old.latest
        → IsHappening k (engine_of live older old) (Durable number)
        (engine_of live (drop (number - old.durable) older) (synced_state number old)) }
    ensures acknowledges { (k : Keys B) (live : Entry B → Bool) (older : List (List (Entry B))) (old : State B W)
        → IsKept k old → old.failed ≡ false
        → (s : ℕ) → is_session s ≡ true → (number : ℕ) → phase_at (s - 1) old.phases ≡ phase.Waiting number
        → number ≤ old.durable
        → IsHappening k (engine_of live older old) (Acknowledges s number)
        (engine_of live older (with_phase_of s phase.Free old)) }
{}

/// An undo restores the entry of the next note: then one more note is restored. If none is left, it ends. Before it
/// begins, none is restored.
pub fn an_undo_restores_note_by_note<B, W>()
    ensures none { (k : Keys B) (live : Entry B → Bool) (notes : List (Note B)) → AreRestored k live 0 notes }
    ensures undoes { (k : Keys B) → IsLawful k → (live later : Entry B → Bool) (older : List (List (Entry B)))
        (old : State B W) → IsKept k old → old.failed ≡ false
        → (s : ℕ) → is_session s ≡ true → (restored : ℕ) (work then_work : W)
        → phase_at (s - 1) old.phases ≡ phase.Undoing restored work
        → restored < length (held_by s old.table).notes → (n : Note B)
        → n ≡ slice_index_or (held_by s old.table).notes restored n
        → ((x : Entry B) → later x ≡ marked k n.entry (not n.before) live x)
        → IsHappening k (engine_of live older old) (Undoes s n.entry)
        (engine_of later older (with_phase_of s (phase.Undoing (restored + 1) then_work) old)) }
    ensures restored { (k : Keys B) → IsLawful k → (live later : Entry B → Bool) (old : State B W) → IsKept k old
        → (s : ℕ) → is_session s ≡ true
        → (restored : ℕ) → restored < length (held_by s old.table).notes → (n : Note B)
        → n ≡ slice_index_or (held_by s old.table).notes restored n
        → ((x : Entry B) → later x ≡ marked k n.entry (not n.before) live x)
        → AreRestored k live restored (held_by s old.table).notes
        → AreRestored k later (restored + 1) (held_by s old.table).notes }
    ensures ends { (k : Keys B) (live : Entry B → Bool) (older : List (List (Entry B))) (old : State B W) → IsKept k old
        → old.failed ≡ false
        → (s : ℕ) → is_session s ≡ true → (restored : ℕ) (work : W)
        → phase_at (s - 1) old.phases ≡ phase.Undoing restored work
        → length (held_by s old.table).notes ≤ restored → AreRestored k live restored (held_by s old.table).notes
        → IsHappening k (engine_of live older old) (EndsUndo s) (engine_of live older (ended_state s old)) }
{}

/// No session sees a fault.
pub fn a_fault_is_seen_by_no_session<B, W>()
    ensures { (k : Keys B) (live : Entry B → Bool) (older : List (List (Entry B))) (old : State B W)
        → IsHappening k (engine_of live older old) Fails (engine_of live older (failed_state old)) }
{}

/// An ask is an event of the whole index, whose sessions these are: its new sessions are those of the index that the
/// index's laws give, with a transaction begun, a call open, or nothing changed.
pub fn an_ask_is_an_event_of_the_index<B, W>()
    ensures { (c : Class B) → IsLawfulClass c → (i : index.State B) → IsWhole c i → (old : State B W)
        → IsKept c.keys old → AreOf old i
        → (s : ℕ) (call : Call B) (work : W) (given : Asked B) (new : State B W)
        → IsAsked c.keys s call work old given new
        → Happens c i (asked_event s call old given) (asked_index c s call given i)
        × AreOf new (asked_index c s call given i) }
{}
