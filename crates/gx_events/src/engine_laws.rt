//! Laws of every engine whose events keep their definitions.
ghost use Rattle.std.specs.Prelude.{◌≡◌, ◌≢◌, ◌≤◌, ℕ, Bool, true, false, Option, None, Some, All};
ghost use Rattle.std.specs.Prelude.{List, [], ◌∷◌, length, sum_by, if◌then◌else◌, is_some, replicate};
ghost use Rattle.gx_geom.specs.declared.refusal.Refusal.TheVariants.{ClaimsFull};
ghost use Rattle.gx_machine.specs.declared.limits.TheConstants.{MAX_CLAIMS, SESSIONS};
ghost use Rattle.gx_machine.specs.declared.call.Call.{Call};
ghost use Rattle.gx_machine.specs.declared.call.Call.TheVariants.{Search};
ghost use Rattle.gx_machine.specs.declared.entry.Entry.{Entry};
ghost use Rattle.gx_machine.specs.declared.query.Query.{Query};
ghost use Rattle.gx_machine.specs.declared.reply.Asked.TheVariants.{Now};
ghost use Rattle.gx_machine.specs.declared.reply.Reply.TheVariants.{Refused};
ghost use Rattle.gx_machine.specs.Keys.{Keys, IsLawful, matches};
ghost use Rattle.gx_machine.specs.Sets.{has, found, InOrder, IsSetOf};
ghost use Rattle.gx_machine.specs.Sessions.{Locks, Open, view, write_conflicts};
ghost use Rattle.gx_machine.specs.Machine.{Machine, set_of};
ghost use Rattle.gx_machine.specs.Runs.{Crashes, IsStep};
ghost use Rattle.gx_events.specs.Slots.{Note, Free, Working, locks_held, notes_kept, slot_at, noted};
ghost use Rattle.gx_events.specs.Asking.{claims_held, ask};
ghost use Rattle.gx_events.specs.Engines.{Engine, opened_engine, opened_machine, last_number, stood};
ghost use Rattle.gx_events.specs.Engines.{kept, gathered, changes_of, SeenAs, IsSound, IsSame};
ghost use Rattle.gx_events.specs.Happenings.{Happening, Seals, Opens, IsHappening, step_of};
ghost use Rattle.gx_events.specs.Runs.{AreHappenings, steps_of, RunsAs};
ghost use Rattle.gx_events.specs.Wants.{Pair, Change, slot_wants, HasLooked, is_claimed};
ghost use Rattle.gx_events.specs.Wants.{ToldByLocks, LeavesAlone, is_sweep, LeavesSession};
ghost use Rattle.gx_machine.specs.Worked.{number_keys};
ghost use Rattle.gx_events.specs.Worked.{sought, first_engine, last_engine, worked_events};
ghost use Rattle.gx_events.specs.Losers.{AreLosers, IsReopened, losing_machine, is_of_opening};
ghost use Rattle.gx_events.specs.Kinds.{is_of_another, changes_what_stood, may_follow_failure, is_opening};

/// An engine opened over a committed set is sound, and is seen as the machine with that one set and idle sessions.
pub fn an_opened_engine_is_sound<B>()
    ensures sound { (k : Keys B) (number : ℕ) (set : List (Entry B)) → IsSound k (opened_engine k number set) }
    ensures seen { (k : Keys B) (number : ℕ) (set : List (Entry B)) → InOrder k set
        → SeenAs k (opened_engine k number set) (opened_machine number set) }
{}

/// An engine is seen as only one machine.
pub fn an_engine_is_seen_as_one_machine<B>()
    ensures { (k : Keys B) → IsLawful k → (engine : Engine B) (m n : Machine B)
        → SeenAs k engine m → SeenAs k engine n → m ≡ n }
{}

/// Any list of events of a sound engine is a run of the machine that it is seen as, event by event a step: the engine
/// is seen as the run's end, and is sound there.
pub fn events_are_a_run<B>()
    ensures one { (k : Keys B) → IsLawful k → (old new : Engine B) (m n : Machine B) (event : Happening B)
        → IsSound k old → SeenAs k old m → IsHappening k old event new → SeenAs k new n → IsStep k m (step_of event) n }
    ensures all { (k : Keys B) → IsLawful k → (old new : Engine B) (m : Machine B) (events : List (Happening B))
        → IsSound k old → SeenAs k old m → AreHappenings k old events new → RunsAs k m (steps_of events) new }
{}

/// A transaction sees an entry that no other one has noted exactly if it is live. So it does each entry that its locks
/// protect: those that it claims, and those that its predicates match.
pub fn a_transaction_sees_what_is_live<B>()
    ensures unnoted { (k : Keys B) → IsLawful k
        → (engine : Engine B) (m : Machine B) (s : ℕ) (locks : Locks B) (notes : List (Note B))
        (call : Option (Call B)) → IsSound k engine → SeenAs k engine m
        → slot_at s engine.slots ≡ Working locks notes call
        → (e : Entry B) → ((a : ℕ) → a ≢ s → noted k e (notes_kept (slot_at a engine.slots)) ≡ None)
        → has k e (view k m.latest (changes_of k engine.live notes)) ≡ engine.live e }
    ensures barred { (k : Keys B) → IsLawful k → (engine : Engine B) (m : Machine B) (s : ℕ)
        (locks : Locks B) (notes : List (Note B))
        (call : Option (Call B)) → IsSound k engine → SeenAs k engine m
        → slot_at s engine.slots ≡ Working locks notes call
        → (e : Entry B) → write_conflicts k e locks ≡ true
        → has k e (view k m.latest (changes_of k engine.live notes)) ≡ engine.live e }
{}

/// The entries of a search's look that has ended, sorted and without repeats, are exactly what the machine finds.
pub fn an_ended_look_is_what_is_found<B>()
    ensures { (k : Keys B) → IsLawful k → (engine : Engine B) (m : Machine B) (s : ℕ)
        (locks : Locks B) (notes : List (Note B))
        (query : Query B) (seen : List (Entry B)) → IsSound k engine → SeenAs k engine m
        → slot_at s engine.slots ≡ Working locks notes (Some (Search query)) → HasLooked k query engine.live seen
        → gathered k seen ≡ found k query (view k m.latest (changes_of k engine.live notes)) }
{}

/// Events of other sessions, however many, change neither a session's slot nor whether an entry that its locks protect
/// is live. So what an open search has found stays live, and what it didn't find stays absent; and a write that has
/// looked knows whether its entry is live for as long as its call is open.
pub fn events_of_others_leave_a_session<B>()
    ensures one { (k : Keys B) → IsLawful k → (old new : Engine B) (event : Happening B) (s : ℕ) → IsSound k old
        → IsHappening k old event new → is_of_another s event ≡ true → LeavesSession k s old new }
    ensures many { (k : Keys B) → IsLawful k → (old new : Engine B) (m : Machine B) (events : List (Happening B))
        (s : ℕ) → IsSound k old
        → SeenAs k old m → AreHappenings k old events new → All (λ event. is_of_another s event ≡ true) events
        → LeavesSession k s old new }
    ensures looks { (k : Keys B) → IsLawful k → (old new : Engine B) (m : Machine B) (events : List (Happening B))
        (s : ℕ) → IsSound k old
        → SeenAs k old m → AreHappenings k old events new → All (λ event. is_of_another s event ≡ true) events
        → (locks : Locks B) (notes : List (Note B)) (query : Query B)
        → slot_at s old.slots ≡ Working locks notes (Some (Search query))
        → (e : Entry B) → matches k query e ≡ true → new.live e ≡ old.live e }
{}

/// A pair that another session claims isn't wanted, whatever its mark; and a wanted and marked pair is claimed, so that
/// no sweep removes it. So a change of the tree that only locks decide doesn't touch the pairs that other open calls,
/// and undos, want.
pub fn locks_keep_what_is_wanted<B>()
    ensures claimed { (k : Keys B) → IsLawful k → (engine : Engine B) (a b : ℕ) (pair : Pair B) → IsSound k engine
        → a ≢ b
        → has k pair.entry (locks_held (slot_at a engine.slots)).claims ≡ true
        → slot_wants k (slot_at b engine.slots) pair ≡ false }
    ensures swept { (k : Keys B) → IsLawful k → (engine : Engine B) (s : ℕ) (pair : Pair B) → IsSound k engine
        → pair.live ≡ false
        → slot_wants k (slot_at s engine.slots) pair ≡ true → is_claimed k pair.entry engine.slots ≡ true }
    ensures others { (k : Keys B) → IsLawful k → (engine : Engine B) (a b : ℕ) (change : Change B) → IsSound k engine
        → a ≢ b
        → ToldByLocks k a engine.slots change → LeavesAlone (slot_wants k (slot_at b engine.slots)) change }
    ensures own_sweep { (k : Keys B) → IsLawful k → (engine : Engine B) (s : ℕ) (change : Change B) → IsSound k engine
        → is_sweep change ≡ true
        → ToldByLocks k s engine.slots change → LeavesAlone (slot_wants k (slot_at s engine.slots)) change }
{}

/// The committed set changes only by a commit and by an opening: a write with its note, an undo and its end keep it. A
/// commit makes it what its transaction sees; an opening leaves the kept set of its number. The last kept set is the
/// committed one, and the machine's kept sets are the engine's.
pub fn what_stood_changes_by_commits<B>()
    ensures stays { (k : Keys B) → IsLawful k → (old new : Engine B) (event : Happening B) → IsSound k old
        → IsHappening k old event new
        → changes_what_stood event ≡ false → (e : Entry B) → stood k new e ≡ stood k old e }
    ensures commits { (k : Keys B) → IsLawful k → (old new : Engine B) (s : ℕ) (set : List (Entry B)) (number : ℕ)
        → IsSound k old
        → IsHappening k old (Seals s set number) new → (e : Entry B) → stood k new e
        ≡ (if is_some (noted k e (notes_kept (slot_at s old.slots))) then old.live e else stood k old e) }
    ensures opens { (k : Keys B) (old new : Engine B) (number : ℕ) → IsHappening k old (Opens number) new
        → (e : Entry B) → stood k new e ≡ kept k number old e }
    ensures last { (k : Keys B) (engine : Engine B) (e : Entry B)
        → kept k (last_number engine) engine e ≡ stood k engine e }
    ensures sets { (k : Keys B) → IsLawful k → (engine : Engine B) (m : Machine B) → IsSound k engine
        → SeenAs k engine m
        → (number : ℕ) → engine.oldest ≤ number → number ≤ last_number engine
        → IsSetOf k (kept k number engine) (set_of number m) }
{}

/// An engine that has failed replies to each call with the refusal for that, and none of its decisive state changes,
/// until it is opened again.
pub fn a_failed_engine_only_refuses<B>()
    ensures kinds { (k : Keys B) (old new : Engine B) (event : Happening B) → old.failed ≡ true
        → IsHappening k old event new → may_follow_failure event ≡ true }
    ensures same { (k : Keys B) (old new : Engine B) (event : Happening B) → old.failed ≡ true
        → IsHappening k old event new
        → is_opening event ≡ false → IsSame new old }
{}

/// However many events come, at most 512 claims are held in all: an ask that would take one more is refused, and none
/// is refused for that while fewer are held. An opened engine begins so: over a committed set it holds none, or with
/// losers as many as they have noted.
pub fn claims_stay_few<B>()
    ensures one { (k : Keys B) → IsLawful k → (old new : Engine B) (event : Happening B) → IsSound k old
        → IsHappening k old event new
        → claims_held old.slots ≤ MAX_CLAIMS → claims_held new.slots ≤ MAX_CLAIMS }
    ensures many { (k : Keys B) → IsLawful k → (old new : Engine B) (m : Machine B) (events : List (Happening B))
        → IsSound k old
        → SeenAs k old m → AreHappenings k old events new → claims_held old.slots ≤ MAX_CLAIMS
        → claims_held new.slots ≤ MAX_CLAIMS }
    ensures full { (k : Keys B) (s : ℕ) (call : Call B) (engine : Engine B)
        → (ask k s call engine).0 ≡ Now (Refused ClaimsFull)
        → MAX_CLAIMS ≤ claims_held engine.slots }
    ensures opened { (k : Keys B) (number : ℕ) (set : List (Entry B))
        → claims_held (opened_engine k number set).slots ≡ 0 }
    ensures losers { (k : Keys B) (number : ℕ) (losers : List (List (Note B))) (old new : Engine B)
        → IsReopened k number losers old new
        → claims_held new.slots ≡ sum_by length losers }
{}

/// An opened engine may have losers, transactions that a crash cut off, of which each is held and undone by a session.
/// It is sound, and is seen as the machine with the kept set of its number whose sessions abort: so its undo is a run
/// of that machine. Once undo has ended and all slots are free, the whole is one opening, the machine's crash to that
/// set. If a crash cuts the undo off, the next opening is one of the engine that was lost first, over the same set.
pub fn an_opened_engine_may_have_losers<B>()
    ensures sound { (k : Keys B) (number : ℕ) (losers : List (List (Note B))) (old new : Engine B) → AreLosers k losers
        → IsReopened k number losers old new → IsSound k new }
    ensures seen { (k : Keys B) → IsLawful k → (number : ℕ) (losers : List (List (Note B))) (old new : Engine B)
        (m : Machine B) → IsSound k old
        → SeenAs k old m → IsReopened k number losers old new
        → SeenAs k new (losing_machine number (set_of number m) losers) }
    ensures opens { (k : Keys B) → IsLawful k → (number : ℕ) (losers : List (List (Note B)))
        (old middle new : Engine B) (m : Machine B)
        (events : List (Happening B)) → IsSound k old → SeenAs k old m → AreLosers k losers
        → IsReopened k number losers old middle
        → AreHappenings k middle events new → All (λ event. is_of_opening event ≡ true) events
        → new.slots ≡ replicate SESSIONS Free
        → IsHappening k old (Opens number) new }
    ensures crashes { (k : Keys B) → IsLawful k
        → (number : ℕ) (losers : List (List (Note B))) (old middle new : Engine B) (m : Machine B)
        (events : List (Happening B)) → IsSound k old → SeenAs k old m → AreLosers k losers
        → IsReopened k number losers old middle
        → AreHappenings k middle events new → All (λ event. is_of_opening event ≡ true) events
        → new.slots ≡ replicate SESSIONS Free
        → RunsAs k m (Crashes number ∷ []) new }
    ensures again { (k : Keys B) → IsLawful k → (number later : ℕ) (losers left : List (List (Note B)))
        (old middle cut new : Engine B) (m : Machine B)
        (events : List (Happening B)) → IsSound k old → SeenAs k old m → AreLosers k losers
        → IsReopened k number losers old middle
        → AreHappenings k middle events cut → All (λ event. is_of_opening event ≡ true) events
        → IsReopened k later left cut new
        → IsReopened k number left old new }
{}

/// The events are met: in this interleaving one session searches while another inserts, is refused what the search
/// watches, and commits; the first then deletes what it found, and its abort makes that live again; a crash leaves both
/// entries. It begins with an engine opened over one entry, so that it is a run of the machine.
pub fn an_interleaving_worked_out()
    ensures lawful { IsLawful number_keys }
    ensures events { AreHappenings number_keys first_engine worked_events last_engine }
    ensures runs { RunsAs number_keys (opened_machine 0 (sought ∷ [])) (steps_of worked_events) last_engine }
{}
