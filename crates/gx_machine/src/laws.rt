//! Laws of every run of the set machine.
ghost use Rattle.std.specs.Prelude.{◌≡◌, ◌≢◌, ◌≤◌, ◌<◌, ◌+◌, ◌^◌, ◌&&◌, ◌||◌, ℕ, true, false, not, List, ◌++◌, length};
ghost use Rattle.gx_machine.specs.declared.limits.TheConstants.{SESSIONS, MAX_CLAIMS, MAX_PREDICATES, LAST_NUMBER};
ghost use Rattle.gx_geom.specs.declared.refusal.Refusal.{Refusal};
ghost use Rattle.gx_geom.specs.declared.refusal.Refusal.TheVariants.{Busy};
ghost use Rattle.gx_machine.specs.declared.call.Call.{Call};
ghost use Rattle.gx_machine.specs.declared.call.Call.TheVariants.{Insert};
ghost use Rattle.gx_machine.specs.declared.entry.Entry.{Entry};
ghost use Rattle.gx_machine.specs.declared.reply.Asked.TheVariants as asked;
ghost use Rattle.gx_machine.specs.declared.reply.Reply.TheVariants.{Committed, Found, Inserted, Refused};
ghost use Rattle.gx_machine.specs.Keys.{Keys, IsLawful, keys_of};
ghost use Rattle.gx_machine.specs.Sets.{has, InOrder};
ghost use Rattle.gx_machine.specs.Sessions.{Changes, no_changes, view};
ghost use Rattle.gx_machine.specs.Machine.{Machine, ask, fresh_machine, newest, session_at, set_of};
ghost use Rattle.gx_machine.specs.Runs.{Step, Answers, Closes, Seals, RefusesAsk};
ghost use Rattle.gx_machine.specs.Runs.{RefusesCall, Fails, Durable, Crashes, IsStep, IsRun};
ghost use Rattle.gx_machine.specs.Records.{RunsUnseen};
ghost use Rattle.gx_machine.specs.Invariants.{KeptInOrder, AllIdle, LocksApart, SessionsHold, changes_sets, SameSets};
ghost use Rattle.gx_machine.specs.Outcomes.{IsLeastConflict, NoneConflicts, IsAnswered, KeepsTransaction, IsSealed};
ghost use Rattle.gx_machine.specs.Worked.{number_keys, first_entry, first_added, worked_steps, worked_end};
ghost use Rattle.gx_machine.specs.Alone.{CommittedRunAlone};
ghost use Rattle.gx_machine.specs.Serial.{IsSerial, AnsweredThenSealed};

use gx_geom::Shape;

/// The order of every key type is total, and only what is the same compares as equal: what the laws assume of keys.
pub fn keys_are_lawful<B: Shape>()
    ensures { IsLawful (keys_of B.Shape) }
{}

/// The limits, in numbers: eight sessions, 512 claims in all, 16 predicates a session, and no transaction begins from
/// number 2^64 - 9 on.
pub fn limits()
    ensures sessions { SESSIONS ≡ 8 }
    ensures claims { MAX_CLAIMS ≡ 512 }
    ensures predicates { MAX_PREDICATES ≡ 16 }
    ensures numbers { LAST_NUMBER + 9 ≡ 2 ^ 64 }
{}

/// A refused ask changes nothing.
pub fn refused_ask_changes_nothing<B>()
    ensures { (k : Keys B) (s : ℕ) (call : Call B) (m : Machine B) (why : Refusal)
        → (ask k s call m).0 ≡ asked.Now (Refused why) → (ask k s call m).1 ≡ m }
{}

/// If an open call is refused or closed, each session keeps its locks and what its transaction has added and taken
/// away: at most that call is gone.
pub fn refusals_keep_transactions<B>()
    ensures answered { (k : Keys B) (old new : Machine B) (s : ℕ) (why : Refusal) → length old.sessions ≡ SESSIONS
        → IsStep k old (Answers s (Refused why)) new
        → (a : ℕ) → KeepsTransaction (session_at a old.sessions) (session_at a new.sessions) }
    ensures closed { (k : Keys B) (old new : Machine B) (s : ℕ) (why : Refusal) → length old.sessions ≡ SESSIONS
        → IsStep k old (Closes s why) new
        → (a : ℕ) → KeepsTransaction (session_at a old.sessions) (session_at a new.sessions) }
{}

/// A fault changes no session, and no refusal that comes from outside of the machine does: what was open stays open,
/// with its locks and changes, until a crash.
pub fn faults_change_no_session<B>()
    ensures asked { (k : Keys B) (old new : Machine B) (s : ℕ) (call : Call B) (why : Refusal)
        → IsStep k old (RefusesAsk s call why) new → new.sessions ≡ old.sessions }
    ensures called { (k : Keys B) (old new : Machine B) (s : ℕ) (why : Refusal)
        → IsStep k old (RefusesCall s why) new → new.sessions ≡ old.sessions }
    ensures unseen { (k : Keys B) (old new : Machine B) → IsStep k old Fails new → new.sessions ≡ old.sessions }
{}

/// Only a session whose commit is open is sealed: its view becomes the last committed set, under the next number,
/// and no other session changes.
pub fn only_open_commits_are_sealed<B>()
    ensures { (k : Keys B) (old new : Machine B) (s number : ℕ) → length old.sessions ≡ SESSIONS
        → IsStep k old (Seals s number) new → IsSealed k s number old new }
{}

/// A call is refused as busy only with the least other session that conflicts; and one that is open met no other
/// session that conflicts.
pub fn busy_names_the_least_conflict<B>()
    ensures busy { (k : Keys B) (s other : ℕ) (call : Call B) (m : Machine B) → length m.sessions ≡ SESSIONS
        → (ask k s call m).0 ≡ asked.Now (Refused (Busy other)) → IsLeastConflict k s call other m.sessions }
    ensures open { (k : Keys B) (s : ℕ) (call : Call B) (m : Machine B)
        → (ask k s call m).0 ≡ asked.Open → NoneConflicts k s call m.sessions }
{}

/// If the keys have an order, each kept set is in order after any run that begins so. A machine with nothing committed
/// begins so.
pub fn kept_sets_stay_in_order<B>()
    ensures run { (k : Keys B) → IsLawful k → (old new : Machine B) (steps : List (Step B))
        → KeptInOrder k old → IsRun k old steps new → KeptInOrder k new }
    ensures fresh { (k : Keys B) → KeptInOrder k fresh_machine }
{}

/// What is found is in order, each entry once, and holds an entry exactly if it matches and the view has it; the view
/// has what the transaction added, and what the last committed set has and the transaction didn't take away.
pub fn found_is_what_the_view_has<B>()
    ensures found { (k : Keys B) → IsLawful k → (old new : Machine B) (s : ℕ) (entries : List (Entry B))
        → KeptInOrder k old → IsStep k old (Answers s (Found entries)) new → IsAnswered k s old entries }
    ensures view { (k : Keys B) → IsLawful k → (e : Entry B) (latest : List (Entry B)) (changes : Changes B)
        → has k e (view k latest changes) ≡ (has k e changes.added || (not (has k e changes.taken) && has k e latest)) }
{}

/// Every run is serial that begins with idle sessions and with kept sets that are in order: committed transactions
/// are answered as if they had run one after another, in the order of their numbers.
pub fn every_run_is_serial<B>()
    ensures { (k : Keys B) → IsLawful k → (start : Machine B)
        → AllIdle start → KeptInOrder k start → IsSerial k start }
{}

/// Each committed transaction of such a run reads as if it had run alone, all at once, where its commit was sealed:
/// asked one after another on the last committed set of that moment, its calls get the replies that they got, and
/// what they add and take away makes of that set the one that the commit adds.
pub fn committed_transactions_run_alone<B>()
    ensures { (k : Keys B) → IsLawful k → (start : Machine B)
        → AllIdle start → KeptInOrder k start → CommittedRunAlone k start }
{}

/// In any run that begins with idle sessions, no session claims an entry that another claims, or that a predicate of
/// another matches. Each open transaction claims what it has changed, in two lists in order that share nothing, and
/// holds what its open call needs.
pub fn sessions_never_conflict<B>()
    ensures { (k : Keys B) → IsLawful k → (start new : Machine B) (steps : List (Step B))
        → AllIdle start → IsRun k start steps new → SessionsHold k new.sessions }
{}

/// The same of locks alone, step by step: if no session claims what another claims or watches, none does after any
/// step.
pub fn each_step_keeps_locks_apart<B>()
    ensures { (k : Keys B) → IsLawful k → (old new : Machine B) (step : Step B)
        → IsStep k old step new → LocksApart k old.sessions → LocksApart k new.sessions }
{}

/// Asking, answering and refusing change no kept set and no number of one; nor does an abort's answer.
pub fn calls_change_no_set<B>()
    ensures { (k : Keys B) (old new : Machine B) (step : Step B)
        → changes_sets step ≡ false → IsStep k old step new → SameSets old new }
{}

/// Becoming durable drops sets from the front, and never the last one, which keeps its number. No session changes.
pub fn durable_keeps_the_last_set<B>()
    ensures { (k : Keys B) (old new : Machine B) (number : ℕ) → IsStep k old (Durable number) new
        → (new.latest ≡ old.latest) × (newest new ≡ newest old) × (new.oldest ≡ number)
        × (new.sessions ≡ old.sessions) }
{}

/// A set that is kept before a step and after it has the same number: sealing adds one at the end, becoming durable
/// drops some in front, and a crash leaves one. The last committed set is that of the newest number.
pub fn sets_keep_their_numbers<B>()
    ensures step { (k : Keys B) (old new : Machine B) (step : Step B) (number : ℕ) → IsStep k old step new
        → new.oldest ≤ number → number ≤ newest old → number ≤ newest new → set_of number new ≡ set_of number old }
    ensures newest { (m : Machine B) → set_of (newest m) m ≡ m.latest }
{}

/// After a commit is acknowledged, whatever comes, each crash leaves the set of a number that is at least the commit's,
/// and that is the set that the number had.
pub fn acknowledged_commits_survive<B>()
    ensures { (k : Keys B) (old answered last crashed : Machine B) (s committed number : ℕ) (steps : List (Step B))
        → IsStep k old (Answers s (Committed committed)) answered → IsRun k answered steps last
        → IsStep k last (Crashes number) crashed
        → (committed ≤ number) × (newest crashed ≡ number) × (crashed.latest ≡ set_of number last) }
{}

/// Faults that no session sees permit no calls and replies that there weren't before: each run without them is a run,
/// with the same record.
pub fn unseen_faults_permit_nothing_new<B>()
    ensures { (k : Keys B) (old new : Machine B) (steps : List (Step B)) → IsRun k old steps new
        → RunsUnseen k old steps new }
{}

/// Two runs, of which the second begins where the first ends, are one run.
pub fn runs_join<B>()
    ensures { (k : Keys B) (old middle new : Machine B) (before after : List (Step B))
        → IsRun k old before middle → IsRun k middle after new → IsRun k old (before ++ after) new }
{}

/// A set is its members: two lists in order that have the same entries are one list.
pub fn sets_are_their_members<B>()
    ensures { (k : Keys B) → IsLawful k → (xs ys : List (Entry B)) → InOrder k xs → InOrder k ys
        → ((e : Entry B) → has k e xs ≡ has k e ys) → xs ≡ ys }
{}

/// The definitions have runs: in this one two sessions begin, a search meets a conflict, both commit, the first commit
/// is durable and acknowledged, and a crash leaves it and loses the second. It begins as the laws ask, and its first
/// insert is one that the law on serial runs speaks of.
pub fn a_run_worked_out()
    ensures run { IsRun number_keys fresh_machine worked_steps worked_end }
    ensures lawful { IsLawful number_keys }
    ensures idle { AllIdle {B = ℕ} fresh_machine }
    ensures in_order { KeptInOrder number_keys fresh_machine }
    ensures answered_then_sealed { (sealing : Machine ℕ)
        × AnsweredThenSealed number_keys fresh_machine 1 (Insert first_entry)
        no_changes Inserted first_added sealing }
{}
