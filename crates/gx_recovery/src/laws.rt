//! Laws of every log.
ghost use Rattle.std.specs.Prelude.{◌≡◌, ℕ, ◌+◌, ◌^◌, ◌<◌, ◌≤◌, Bool, true, false, not, if◌then◌else◌};
ghost use Rattle.std.specs.Prelude.{is_some, unwrap_or, None, Some, List, [], ◌∷◌, ◌++◌};
ghost use Rattle.std.specs.List.{list_all, list_any};
ghost use Rattle.gx_recovery.specs.Known.{Tree, Limits, IsLawful};
ghost use Rattle.gx_recovery.specs.Records.{Image, Change, Said, Record, Pages, Adjust, Write, Commit};
ghost use Rattle.gx_recovery.specs.Records.{End, settled, any_number, gives, speaks_of, names};
ghost use Rattle.gx_recovery.specs.Analysis.{analysis, number_of};
ghost use Rattle.gx_recovery.specs.Redo.{redone, tree_of};
ghost use Rattle.gx_recovery.specs.Given.{given};
ghost use Rattle.gx_recovery.specs.Standing.{own_before, stands_for};
ghost use Rattle.gx_recovery.specs.Damage.{is_page, is_open, follows, records_of, is_undamaged};
ghost use Rattle.gx_recovery.specs.Damage.{Place, opened, bodies_read, IsLog};
ghost use Rattle.gx_recovery.specs.Damages.{damages, is_none};
ghost use Rattle.gx_recovery.specs.Coming.{WritesOne, Restored, IsGood, MayCome, MayComeAll};
ghost use Rattle.gx_recovery.specs.Coming.{IsSoundWrite, AreSoundPages, IsSoundChange};
ghost use Rattle.gx_recovery.specs.Logged.{Logged, all_records, latest, kept, IsHealthy, appended};
ghost use Rattle.gx_recovery.specs.Logged.{begun, gate_synced, AgreesBeside, IsLeft, StandsForKept};
ghost use Rattle.gx_recovery.specs.Renewal.{renewed, renewed_over, found};
ghost use Rattle.gx_recovery.specs.Life.{IsMove, Stays, Durable, kept_of, append_move, AllWritten};
ghost use Rattle.gx_recovery.specs.Life.{LogStep, IsLogStep, move_of, IsLife, moves_of, AreMoves};
ghost use Rattle.gx_recovery.specs.declared.TheConstants.{LAST_TRANSACTION, TOUCHED, TRANSACTIONS};

use crate::Meaning;

/// The limits of a log, in numbers: eight transactions may be open at once, which may have touched 512 entries in all,
/// and no transaction has number 2^64 - 1.
pub fn limits()
    ensures transactions { TRANSACTIONS ≡ 8 }
    ensures touched { TOUCHED ≡ 512 }
    ensures last { LAST_TRANSACTION + 1 ≡ 2 ^ 64 }
{}

/// A record that may come is appended: no kept set changes, and a commit adds one, the view of its transaction.
pub fn append_keeps_sets<M: Meaning>()
    ensures healthy { (d : Limits) → IsLawful (M.known d) → (s : Logged M.Entry M.Page) (r : Record M.Entry M.Page)
        → IsHealthy (M.known d) s
        → MayCome (M.known d) s.area (all_records s) r → IsHealthy (M.known d) (appended r s) }
    ensures sets { (d : Limits) → IsLawful (M.known d) → (s : Logged M.Entry M.Page) (r : Record M.Entry M.Page)
        → IsHealthy (M.known d) s
        → MayCome (M.known d) s.area (all_records s) r
        → IsMove (kept_of (M.known d) s) (append_move (M.known d) s r) (kept_of (M.known d) (appended r s)) }
{}

/// The filling batch is put in flight while none is: nothing changes.
pub fn begin_keeps_sets<M: Meaning>()
    ensures healthy { (d : Limits) → (s : Logged M.Entry M.Page) → IsHealthy (M.known d) s → s.flight ≡ []
        → IsHealthy (M.known d) (begun s) }
    ensures sets { (d : Limits) → (s : Logged M.Entry M.Page) → IsHealthy (M.known d) s → s.flight ≡ []
        → IsMove (kept_of (M.known d) s) Stays (kept_of (M.known d) (begun s)) }
{}

/// The gate of the batch in flight is synced: its commits are durable, and no set changes.
pub fn gate_makes_durable<M: Meaning>()
    ensures healthy { (d : Limits) → IsLawful (M.known d) → (s : Logged M.Entry M.Page) → IsHealthy (M.known d) s
        → IsHealthy (M.known d) (gate_synced s) }
    ensures sets { (d : Limits) → IsLawful (M.known d) → (s : Logged M.Entry M.Page) → IsHealthy (M.known d) s
        → IsMove (kept_of (M.known d) s) Durable (kept_of (M.known d) (gate_synced s)) }
{}

/// Pages are written that gated records give whole, and each may then be whole or torn: nothing changes.
pub fn page_writes_keep_sets<M: Meaning>()
    ensures healthy { (d : Limits) → IsLawful (M.known d) → (s : Logged M.Entry M.Page) (area : ℕ → M.Page)
        → IsHealthy (M.known d) s → AgreesBeside s.gated s.area area
        → IsHealthy (M.known d) (record s { area = area }) }
    ensures sets { (d : Limits) → IsLawful (M.known d) → (s : Logged M.Entry M.Page) (area : ℕ → M.Page)
        → IsHealthy (M.known d) s → AgreesBeside s.gated s.area area
        → IsMove (kept_of (M.known d) s) Stays (kept_of (M.known d) (record s { area = area })) }
{}

/// Whatever a crash leaves stands for a kept set: that of its own last commit, which isn't before the durable one. It
/// is a log, over pages that are good for it. (Repeating history, and then undoing what isn't committed: Mohan and
/// others, ARIES, 1992.)
pub fn crash_leaves_a_kept_set<M: Meaning>()
    ensures { (d : Limits) → IsLawful (M.known d)
        → (s : Logged M.Entry M.Page) (area : ℕ → M.Page) (log : List (Record M.Entry M.Page))
        → IsHealthy (M.known d) s → IsLeft s area log → StandsForKept (M.known d) s area log }
{}

/// A checkpoint, once everything is gated and all pages are written: the new log, of the numbers and of a note for each
/// entry that an open transaction touched, keeps the last set. While a crash may leave either selector, both logs stand
/// for it.
pub fn checkpoint_keeps_the_set<M: Meaning>()
    ensures healthy { (d : Limits) → IsLawful (M.known d) → (s : Logged M.Entry M.Page) → IsHealthy (M.known d) s
        → s.flight ≡ [] → s.filling ≡ [] → AllWritten s → (next : ℕ)
        → IsHealthy (M.known d) (record s { gated = renewed (M.known d) next s.gated }) }
    ensures sets { (d : Limits) → IsLawful (M.known d) → (s : Logged M.Entry M.Page) → IsHealthy (M.known d) s
        → s.flight ≡ [] → s.filling ≡ [] → AllWritten s → (next : ℕ)
        → IsMove (kept_of (M.known d) s) Stays (kept_of (M.known d)
        (record s { gated = renewed (M.known d) next s.gated })) }
    ensures either { (d : Limits) → IsLawful (M.known d) → (s : Logged M.Entry M.Page) → IsHealthy (M.known d) s
        → s.flight ≡ [] → s.filling ≡ [] → AllWritten s → (next : ℕ)
        → (e : M.Entry) → stands_for (M.known d) s.area (renewed (M.known d) next s.gated) e
        ≡ stands_for (M.known d) s.area s.gated e }
{}

/// Redo may be cut off at any point and made again: over pages of which the log gives some whole, whatever those
/// contain, it leaves the same pages. If the log passes its tests, redo changes no other page and is idempotent: else a
/// small change could be made of a page that the log doesn't give, and made again.
pub fn redo_may_be_made_again<M: Meaning>()
    ensures again { (log : List (Record M.Entry M.Page)) (old new : ℕ → M.Page) → AgreesBeside log old new
        → redone new log ≡ redone old log }
    ensures others { (d : Limits) → (log : List (Record M.Entry M.Page)) (area : ℕ → M.Page) → IsLog (M.known d) log
        → AgreesBeside log area (redone area log) }
    ensures twice { (d : Limits) → (log : List (Record M.Entry M.Page)) (area : ℕ → M.Page) → IsLog (M.known d) log
        → redone (redone area log) log ≡ redone area log }
{}

/// What a log by itself gives of a page, the last whole content with the small changes since, is that page after it;
/// and a page of which it gives nothing is unchanged. So a test of a log record by record has, in what is given, the
/// pages that redo writes. A log gives the whole of each page of which it says anything: an image comes first. So a
/// page may be written once all its records are gated, as the gated records then give it. A renewed log gives nothing:
/// each page's image comes anew. What is given is a page in use: so is the page of any small change that fits.
pub fn a_log_gives_what_it_speaks_of<M: Meaning>()
    ensures given { (log : List (Record M.Entry M.Page)) (p : ℕ) (area : ℕ → M.Page) (content : M.Page)
        → given p log ≡ Some content
        → redone area log p ≡ content }
    ensures pages { (d : Limits) → (log : List (Record M.Entry M.Page)) (p : ℕ) (area : ℕ → M.Page)
        → IsLog (M.known d) log
        → redone area log p ≡ unwrap_or (given p log) (area p) }
    ensures whole { (log : List (Record M.Entry M.Page)) (p : ℕ) → list_any (gives p) log ≡ true
        → is_some (given p log) ≡ true }
    ensures nothing { (log : List (Record M.Entry M.Page)) (p : ℕ) → list_any (gives p) log ≡ false
        → given p log ≡ None }
    ensures spoken { (d : Limits) → (log : List (Record M.Entry M.Page)) (p : ℕ) → IsLog (M.known d) log
        → list_any (speaks_of p) log ≡ true
        → list_any (gives p) log ≡ true }
    ensures renewed { (d : Limits) → (next : ℕ) (log : List (Record M.Entry M.Page)) (p : ℕ)
        → given p (renewed (M.known d) next log) ≡ None }
    ensures in_use { (d : Limits) → (log : List (Record M.Entry M.Page)) (p : ℕ) → IsLog (M.known d) log
        → is_some (given p log) ≡ true
        → is_page (analysis (M.known d) log).used p ≡ true }
{}

/// A log that is found undamaged and over pages that are good for it is a healthy state with nothing in flight, which
/// keeps the one set that it stands for. So an opening's page writes and its checkpoint are steps like any others, and
/// a crash in the midst of it leaves that set.
pub fn found_log_keeps_its_set<M: Meaning>()
    ensures healthy { (d : Limits) → (area : ℕ → M.Page) (log : List (Record M.Entry M.Page)) → IsLog (M.known d) log
        → IsGood (M.known d) (tree_of (M.known d) area log) log → IsHealthy (M.known d) (found area log) }
    ensures last { (d : Limits) → (area : ℕ → M.Page) (log : List (Record M.Entry M.Page))
        → latest (M.known d) (found area log) ≡ number_of (M.known d) log }
    ensures set { (d : Limits) → IsLawful (M.known d) → (area : ℕ → M.Page) (log : List (Record M.Entry M.Page))
        → IsLog (M.known d) log
        → (e : M.Entry) → kept (M.known d) (found area log) (number_of (M.known d) log) e
        ≡ stands_for (M.known d) area log e }
{}

/// An opening: the pages after a log, with the log's own numbers and notes as the new log, and any next transaction's
/// number, have the one set that the log stands for.
/// Any log will do that is undamaged, over pages that are good for it.
pub fn opened_log_keeps_its_set<M: Meaning>()
    ensures healthy { (d : Limits) → IsLawful (M.known d)
        → (next : ℕ) (area : ℕ → M.Page) (log : List (Record M.Entry M.Page)) → IsLog (M.known d) log
        → IsGood (M.known d) (tree_of (M.known d) area log) log
        → IsHealthy (M.known d) (renewed_over (M.known d) next area log) }
    ensures first { (d : Limits) → IsLawful (M.known d)
        → (next : ℕ) (area : ℕ → M.Page) (log : List (Record M.Entry M.Page)) → IsLog (M.known d) log
        → number_of (M.known d) (renewed (M.known d) next log) ≡ number_of (M.known d) log }
    ensures last { (d : Limits) → IsLawful (M.known d)
        → (next : ℕ) (area : ℕ → M.Page) (log : List (Record M.Entry M.Page)) → IsLog (M.known d) log
        → latest (M.known d) (renewed_over (M.known d) next area log) ≡ number_of (M.known d) log }
    ensures set { (d : Limits) → IsLawful (M.known d)
        → (next : ℕ) (area : ℕ → M.Page) (log : List (Record M.Entry M.Page)) → IsLog (M.known d) log
        → (e : M.Entry) → kept (M.known d) (renewed_over (M.known d) next area log) (number_of (M.known d) log) e
        ≡ stands_for (M.known d) area log e }
    ensures redo { (d : Limits) → IsLawful (M.known d)
        → (next : ℕ) (area : ℕ → M.Page) (log : List (Record M.Entry M.Page)) → IsLog (M.known d) log
        → (e : M.Entry) → stands_for (M.known d) (redone area log) (renewed (M.known d) next log) e
        ≡ stands_for (M.known d) area log e }
{}

/// Undo of one entry: a write that gives it its first mark before restores it, and what else of its transaction is
/// restored stays so.
pub fn undo_keeps_the_restored<M: Meaning>()
    ensures restores { (d : Limits) → IsLawful (M.known d)
        → (log : List (Record M.Entry M.Page)) (t : ℕ) (entry : M.Entry) (mark first : Bool) (leaf : ℕ)
        (said : Said M.Page) (old new : Tree M.Page) → own_before (M.known d) t entry log ≡ Some first
        → WritesOne (M.known d) entry mark first old new
        → Restored (M.known d) t new (log ++ Write t entry mark first leaf said ∷ []) entry }
    ensures others { (d : Limits) → IsLawful (M.known d)
        → (log : List (Record M.Entry M.Page)) (t : ℕ) (entry : M.Entry) (mark first : Bool) (leaf : ℕ)
        (said : Said M.Page) (old new : Tree M.Page) → own_before (M.known d) t entry log ≡ Some first
        → WritesOne (M.known d) entry mark first old new
        → (e : M.Entry) → Restored (M.known d) t old log e
        → Restored (M.known d) t new (log ++ Write t entry mark first leaf said ∷ []) e }
{}

/// An open transaction may commit at once, with the next number; and once all that it touched is restored, it may end.
pub fn commit_and_end_may_come<M: Meaning>()
    ensures commit { (d : Limits) → IsLawful (M.known d) → (area : ℕ → M.Page) (log : List (Record M.Entry M.Page))
        → IsLog (M.known d) log
        → IsGood (M.known d) (tree_of (M.known d) area log) log → (t : ℕ) → is_open t log ≡ true
        → MayCome (M.known d) area log (Commit t (number_of (M.known d) log + 1)) }
    ensures end { (d : Limits) → IsLawful (M.known d) → (area : ℕ → M.Page) (log : List (Record M.Entry M.Page))
        → IsLog (M.known d) log
        → IsGood (M.known d) (tree_of (M.known d) area log) log → (t : ℕ) → is_open t log ≡ true
        → ((e : M.Entry) → Restored (M.known d) t (tree_of (M.known d) area log) log e)
        → MayCome (M.known d) area log (End t) }
{}

/// A write, pages, or a small change of no transaction, that are exact and sound may come: what the log then says still
/// fits.
pub fn sound_records_may_come<M: Meaning>()
    ensures write { (d : Limits) → IsLawful (M.known d) → (area : ℕ → M.Page) (log : List (Record M.Entry M.Page))
        → IsLog (M.known d) log
        → (t : ℕ) (entry : M.Entry) (before after : Bool) (leaf : ℕ) (said : Said M.Page)
        → IsSoundWrite (M.known d) area log t entry before after leaf said
        → MayCome (M.known d) area log (Write t entry before after leaf said) }
    ensures pages { (d : Limits) → IsLawful (M.known d) → (area : ℕ → M.Page) (log : List (Record M.Entry M.Page))
        → IsLog (M.known d) log
        → (images : List (Image M.Page)) (counter used : ℕ) → AreSoundPages (M.known d) area log images counter used
        → MayCome (M.known d) area log (Pages images counter used) }
    ensures change { (d : Limits) → IsLawful (M.known d) → (area : ℕ → M.Page) (log : List (Record M.Entry M.Page))
        → IsLog (M.known d) log
        → (page : ℕ) (change : Change M.Page) → IsSoundChange (M.known d) area log page change
        → MayCome (M.known d) area log (Adjust page change) }
{}

/// A transaction that a log doesn't name is open in it and has touched nothing. A renewed log closes no transaction,
/// and those that were open have their first marks before as they had.
pub fn unnamed_and_renewed_are_open<M: Meaning>()
    ensures open_yet { (log : List (Record M.Entry M.Page)) (t : ℕ) → list_any (names t) log ≡ false
        → settled any_number t log ≡ false }
    ensures untouched { (d : Limits) → (log : List (Record M.Entry M.Page)) (t : ℕ) (e : M.Entry)
        → list_any (names t) log ≡ false
        → own_before (M.known d) t e log ≡ None }
    ensures renewed { (d : Limits) → (next : ℕ) (log : List (Record M.Entry M.Page)) (t : ℕ)
        → settled any_number t (renewed (M.known d) next log) ≡ false }
    ensures marks { (d : Limits) → IsLawful (M.known d)
        → (next : ℕ) (area : ℕ → M.Page) (log : List (Record M.Entry M.Page)) → IsLog (M.known d) log
        → (t : ℕ) (e : M.Entry)
        → settled any_number t log ≡ false → own_before (M.known d) t e (renewed (M.known d) next log)
        ≡ own_before (M.known d) t e log }
{}

/// Each step of a log is a move of the kept sets: they stay, some go from the front, a commit's view is added, or a
/// crash and its opening leave one. So it is over whole lives, and no commit that is durable is ever lost.
pub fn a_life_moves_the_kept_sets<M: Meaning>()
    ensures step { (d : Limits) → IsLawful (M.known d)
        → (old new : Logged M.Entry M.Page) (step : LogStep M.Entry M.Page) → IsHealthy (M.known d) old
        → IsLogStep (M.known d) old step new
        → IsMove (kept_of (M.known d) old) (move_of (M.known d) old step) (kept_of (M.known d) new) }
    ensures healthy { (d : Limits) → IsLawful (M.known d)
        → (old new : Logged M.Entry M.Page) (steps : List (LogStep M.Entry M.Page)) → IsHealthy (M.known d) old
        → IsLife (M.known d) old steps new → IsHealthy (M.known d) new }
    ensures moves { (d : Limits) → IsLawful (M.known d)
        → (old new : Logged M.Entry M.Page) (steps : List (LogStep M.Entry M.Page)) → IsHealthy (M.known d) old
        → (life : IsLife (M.known d) old steps new)
        → AreMoves (kept_of (M.known d) old) (moves_of (M.known d) old steps new life) (kept_of (M.known d) new) }
    ensures durable { (d : Limits) → IsLawful (M.known d)
        → (old new : Logged M.Entry M.Page) (steps : List (LogStep M.Entry M.Page)) → IsHealthy (M.known d) old
        → IsLife (M.known d) old steps new → (kept_of (M.known d) old).first ≤ (kept_of (M.known d) new).first }
{}

/// Bodies in which nothing is damaged are a log; and nothing is damaged exactly if no item of damage is found.
pub fn undamaged_bodies_are_a_log<M: Meaning>()
    ensures log { (d : Limits) → (bodies : List (List (Record M.Entry M.Page))) → is_undamaged (M.known d) bodies ≡ true
        → IsLog (M.known d) (records_of bodies) }
    ensures items { (d : Limits) → (bodies : List (List (Record M.Entry M.Page)))
        → is_none (damages (M.known d) bodies) ≡ is_undamaged (M.known d) bodies }
{}

/// Undamaged bodies stay so with a batch whose records may come, and a renewed log alone is undamaged. Which records
/// the first body has matters: the same ones, cut in another way, may be damaged.
pub fn bodies_stay_undamaged<M: Meaning>()
    ensures batch { (d : Limits) → IsLawful (M.known d)
        → (area : ℕ → M.Page) (bodies : List (List (Record M.Entry M.Page))) (body : List (Record M.Entry M.Page))
        → is_undamaged (M.known d) bodies ≡ true → MayComeAll (M.known d) area (records_of bodies) body
        → is_undamaged (M.known d) (bodies ++ body ∷ []) ≡ true }
    ensures renewed { (d : Limits) → IsLawful (M.known d)
        → (next : ℕ) (area : ℕ → M.Page) (log : List (Record M.Entry M.Page)) → IsLog (M.known d) log
        → is_undamaged (M.known d) (renewed (M.known d) next log ∷ []) ≡ true }
{}

/// Of places with open gates, one whose gate is open or not, and then closed ones, the open bodies are read, with the
/// one's or without. So a batch in flight is read whole or not at all, and nothing is read past a closed gate.
pub fn closed_gates_end_the_log<M: Meaning>()
    ensures bodies { (bodies : List (List (Record M.Entry M.Page))) (one : Place M.Entry M.Page)
        (places : List (Place M.Entry M.Page))
        → list_all (λ p. not p.open_gate) places ≡ true
        → bodies_read (opened bodies ++ one ∷ places) ≡ (if one.open_gate then bodies ++ one.body ∷ [] else bodies) }
    ensures records { (bodies : List (List (Record M.Entry M.Page))) (body : List (Record M.Entry M.Page))
        → records_of (bodies ++ body ∷ []) ≡ records_of bodies ++ body }
    ensures past { (bodies : List (List (Record M.Entry M.Page))) (one : Place M.Entry M.Page)
        (places : List (Place M.Entry M.Page))
        → one.open_gate ≡ false → bodies_read (opened bodies ++ one ∷ places) ≡ bodies }
{}

/// The next transaction's number is above every transaction's of a log, and never falls: by a record, nor by the log
/// that a checkpoint or an opening writes, which may have any number that isn't below. So over whole lives, with
/// crashes, the number that the gated records give never falls, and no transaction's number is given twice.
pub fn transaction_numbers_are_given_once<M: Meaning>()
    ensures above { (d : Limits) → IsLawful (M.known d) → (log : List (Record M.Entry M.Page)) → IsLog (M.known d) log
        → (t : ℕ)
        → list_any (names t) log ≡ true → t < (analysis (M.known d) log).next }
    ensures rises { (d : Limits) → IsLawful (M.known d)
        → (log : List (Record M.Entry M.Page)) (r : Record M.Entry M.Page) → follows (M.known d) log r ≡ true
        → (analysis (M.known d) log).next ≤ (analysis (M.known d) (log ++ r ∷ [])).next }
    ensures renewed { (d : Limits) → IsLawful (M.known d) → (next : ℕ) (log : List (Record M.Entry M.Page))
        → IsLog (M.known d) log
        → (analysis (M.known d) log).next ≤ next → (analysis (M.known d) (renewed (M.known d) next log)).next ≡ next }
    ensures life { (d : Limits) → IsLawful (M.known d)
        → (old new : Logged M.Entry M.Page) (steps : List (LogStep M.Entry M.Page)) → IsHealthy (M.known d) old
        → IsLife (M.known d) old steps new → (analysis (M.known d) old.gated).next
        ≤ (analysis (M.known d) new.gated).next }
{}
