//! How an index is opened, over what a crash left and over any log that is undamaged.
ghost use Rattle.std.specs.Prelude.{◌≡◌, ◌≤◌, ℕ, not, List, ◌∷◌, map, filter, flat_map, replicate};
ghost use Rattle.std.specs.List.{list_any};
ghost use Rattle.gx_machine.specs.declared.limits.TheConstants.{SESSIONS};
ghost use Rattle.gx_machine.specs.declared.entry.Entry.{Entry};
ghost use Rattle.gx_machine.specs.Sets.{IsSetOf};
ghost use Rattle.gx_machine.specs.Machine.{Machine};
ghost use Rattle.gx_node.specs.Trees.{Tree, leaves};
ghost use Rattle.gx_events.specs.Slots.{Free};
ghost use Rattle.gx_events.specs.Engines.{gathered, opened_machine, stood, SeenAs};
ghost use Rattle.gx_events.specs.Happenings.{Happening, Opens, Acknowledges};
ghost use Rattle.gx_events.specs.Losers.{AreLosers, IsReopened, losing_machine};
ghost use Rattle.gx_recovery.specs.Records.{Record};
ghost use Rattle.gx_recovery.specs.Analysis.{analysis, number_of};
ghost use Rattle.gx_recovery.specs.Redo.{tree_of};
ghost use Rattle.gx_recovery.specs.Standing.{stands_for};
ghost use Rattle.gx_recovery.specs.Damage.{IsLog};
ghost use Rattle.gx_recovery.specs.Coming.{IsGood};
ghost use Rattle.gx_recovery.specs.Logged.{durable, latest, kept, IsLeft};
ghost use Rattle.gx_index_laws.specs.Classes.{Class, IsLawful, Page, entry_of, is_live, known_of};
ghost use Rattle.gx_index_laws.specs.States.{State, engine_of};
ghost use Rattle.gx_index_laws.specs.Whole.{IsWhole};
ghost use Rattle.gx_index_laws.specs.Happening.{Happens, AreHappening};
ghost use Rattle.gx_index_laws.specs.Openings.{losers_of, found_state, is_fault, Try};
ghost use Rattle.gx_index_laws.specs.Openings.{GoesOpening, AreRestarts, IsKeptBy};

/// An index that is found over a log that is undamaged, and pages that are good for it, is whole: these pages and this
/// log, and a session for each transaction that was cut off, which undoes it. The committed set is what the log stands
/// for, and it is seen as the machine with that set whose sessions abort. That set is all that its log keeps, under the
/// log's number, and it is durable. The next transaction's number is any that covers the log's.
pub fn a_found_index_is_whole<B>()
    ensures whole { (c : Class B) → IsLawful c → (next : ℕ) (area : ℕ → Page B) (log : List (Record (Entry B) (Page B)))
        → IsLog (known_of c) log
        → IsGood (known_of c) (tree_of (known_of c) area log) log → (analysis (known_of c) log).next ≤ next
        → (set : List (Entry B)) → IsSetOf c.keys (stands_for (known_of c) area log) set
        → IsWhole c (found_state c next area log) }
    ensures stood { (c : Class B) → IsLawful c → (next : ℕ) (area : ℕ → Page B) (log : List (Record (Entry B) (Page B)))
        → IsLog (known_of c) log
        → (e : Entry B) → stood c.keys (engine_of c (found_state c next area log)) e
        ≡ stands_for (known_of c) area log e }
    ensures seen { (c : Class B) → IsLawful c → (next : ℕ) (area : ℕ → Page B) (log : List (Record (Entry B) (Page B)))
        → IsLog (known_of c) log
        → (set : List (Entry B)) → IsSetOf c.keys (stands_for (known_of c) area log) set
        → SeenAs c.keys (engine_of c (found_state c next area log))
        (losing_machine (number_of (known_of c) log) set (losers_of (analysis (known_of c) log).touched)) }
    ensures losers { (c : Class B) → IsLawful c
        → (next : ℕ) (area : ℕ → Page B) (log : List (Record (Entry B) (Page B))) → IsLog (known_of c) log
        → AreLosers c.keys (losers_of (analysis (known_of c) log).touched) }
    ensures durable { (c : Class B) (next : ℕ) (area : ℕ → Page B) (log : List (Record (Entry B) (Page B)))
        → durable (known_of c) (found_state c next area log).log ≡ number_of (known_of c) log }
    ensures latest { (c : Class B) (next : ℕ) (area : ℕ → Page B) (log : List (Record (Entry B) (Page B)))
        → latest (known_of c) (found_state c next area log).log ≡ number_of (known_of c) log }
    ensures kept { (c : Class B) → IsLawful c → (next : ℕ) (area : ℕ → Page B) (log : List (Record (Entry B) (Page B)))
        → IsLog (known_of c) log
        → (e : Entry B) → kept (known_of c) (found_state c next area log).log (number_of (known_of c) log) e
        ≡ stands_for (known_of c) area log e }
{}

/// What is live in a tree can be listed: the entries of its unmarked pairs, in order and without repeats. So can what a
/// log stands for, over whatever pages: the set over which an index is opened always exists.
pub fn what_a_log_stands_for_can_be_listed<B>()
    ensures live { (c : Class B) → IsLawful c → (t : Tree B)
        → IsSetOf c.keys (is_live c t)
        (gathered c.keys (map entry_of (filter (λ x. not x.marked)
        (flat_map (λ q. (t.node q).pairs) (leaves t))))) }
    ensures log { (c : Class B) → IsLawful c → (area : ℕ → Page B) (log : List (Record (Entry B) (Page B)))
        → (set : List (Entry B)) × IsSetOf c.keys (stands_for (known_of c) area log) set }
{}

/// Whatever a crash leaves of a whole index, the index that is found over it is whole,
/// over the kept set of the log's number.
pub fn a_crash_leaves_an_index_to_open<B>()
    ensures whole { (c : Class B) → IsLawful c → (old : State B) → IsWhole c old
        → (next : ℕ) (area : ℕ → Page B) (log : List (Record (Entry B) (Page B)))
        → IsLeft old.log area log → (analysis (known_of c) log).next ≤ next → IsWhole c (found_state c next area log) }
    ensures reopened { (c : Class B) → IsLawful c → (old : State B) → IsWhole c old
        → (next : ℕ) (area : ℕ → Page B) (log : List (Record (Entry B) (Page B)))
        → IsLeft old.log area log → (analysis (known_of c) log).next ≤ next
        → IsReopened c.keys (number_of (known_of c) log) (losers_of (analysis (known_of c) log).touched)
        (engine_of c old) (engine_of c (found_state c next area log)) }
{}

/// An opening over an undamaged log, and pages that are good for it, at each moment of it: the index is whole, its
/// committed set is what the log stands for, and whatever a crash leaves stands for that very set, under the log's
/// number. Once all that was cut off is undone, it is seen as the machine with that one set, of that number, and idle
/// sessions, which has failed if a fault came.
pub fn an_opening_keeps_its_set<B>()
    ensures whole { (c : Class B) → IsLawful c → (one : Try B) (s : State B) → GoesOpening c one s → IsWhole c s }
    ensures stood { (c : Class B) → IsLawful c → (one : Try B) (s : State B) → GoesOpening c one s
        → (e : Entry B) → stood c.keys (engine_of c s) e ≡ stands_for (known_of c) one.area one.log e }
    ensures left { (c : Class B) → IsLawful c → (one : Try B) (s : State B) → GoesOpening c one s
        → (area : ℕ → Page B) (log : List (Record (Entry B) (Page B)))
        → IsLeft s.log area log → (number_of (known_of c) log ≡ number_of (known_of c) one.log)
        × ((e : Entry B) → stands_for (known_of c) area log e ≡ stands_for (known_of c) one.area one.log e) }
    ensures seen { (c : Class B) → IsLawful c → (one : Try B) (s : State B) → GoesOpening c one s
        → (set : List (Entry B)) → IsSetOf c.keys (stands_for (known_of c) one.area one.log) set
        → s.slots ≡ replicate SESSIONS Free
        → SeenAs c.keys (engine_of c s) (record (opened_machine (number_of (known_of c) one.log) set)
        { failed = list_any is_fault one.events }) }
{}

/// An index that is lost is opened, perhaps more than once, if crashes cut openings off: at each moment it is whole,
/// and whatever a crash leaves stands for the set that the first one left. Once all that was cut off is undone, the
/// whole of it is one opening: the engine's event, and the machine's crash to that set.
pub fn openings_are_one_opening<B>()
    ensures whole { (c : Class B) → IsLawful c → (old : State B) → IsWhole c old
        → (one : Try B) (tries : List (Try B)) (new : State B)
        → AreRestarts c old one tries new → IsWhole c new }
    ensures stands { (c : Class B) → IsLawful c → (old : State B) → IsWhole c old
        → (one : Try B) (tries : List (Try B)) (new : State B)
        → AreRestarts c old one tries new → (area : ℕ → Page B) (log : List (Record (Entry B) (Page B)))
        → IsLeft new.log area log
        → (number_of (known_of c) log ≡ number_of (known_of c) one.log)
        × ((e : Entry B) → stands_for (known_of c) area log e ≡ stands_for (known_of c) one.area one.log e) }
    ensures opens { (c : Class B) → IsLawful c → (old : State B) → IsWhole c old
        → (one : Try B) (tries : List (Try B)) (new : State B)
        → AreRestarts c old one tries new → new.slots ≡ replicate SESSIONS Free
        → Happens c old (Opens (number_of (known_of c) one.log)) new }
{}

/// Whatever a crash leaves of a whole index stands for the set that its machine keeps under the image's number. And
/// that number is at least that of each commit that was acknowledged before, whatever came in between: events, crashes,
/// openings.
pub fn a_crash_leaves_a_kept_set<B>()
    ensures kept { (c : Class B) → IsLawful c → (s : State B) → IsWhole c s → (m : Machine B)
        → SeenAs c.keys (engine_of c s) m
        → (area : ℕ → Page B) (log : List (Record (Entry B) (Page B))) → IsLeft s.log area log → IsKeptBy c m area log }
    ensures acknowledged { (c : Class B) → IsLawful c → (old new : State B) (s number : ℕ) (events : List (Happening B))
        → IsWhole c old
        → AreHappening c old (Acknowledges s number ∷ events) new
        → (area : ℕ → Page B) (log : List (Record (Entry B) (Page B))) → IsLeft new.log area log
        → number ≤ number_of (known_of c) log }
{}
