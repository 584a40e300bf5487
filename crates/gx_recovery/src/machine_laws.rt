//! The kept sets of a log are those of the set machine.
ghost use Rattle.std.specs.Prelude.{◌≡◌, ℕ, Bool, true, false, not, is_some, ◌&&◌, List};
ghost use Rattle.gx_machine.specs.declared.entry.Entry.{Entry};
ghost use Rattle.gx_machine.specs.Keys as keys;
ghost use Rattle.gx_machine.specs.Sets.{has, IsSetOf};
ghost use Rattle.gx_machine.specs.Sessions.{view};
ghost use Rattle.gx_machine.specs.Machine.{Machine};
ghost use Rattle.gx_recovery.specs.Known.{Limits, IsLawful};
ghost use Rattle.gx_recovery.specs.Records.{Record, settled, any_number};
ghost use Rattle.gx_recovery.specs.Analysis.{number_of};
ghost use Rattle.gx_recovery.specs.Redo.{tree_of};
ghost use Rattle.gx_recovery.specs.Standing.{own_before, stands, set_of, view_of};
ghost use Rattle.gx_recovery.specs.Damage.{IsLog};
ghost use Rattle.gx_recovery.specs.Life.{Kept, Move, IsMove};
ghost use Rattle.gx_recovery.specs.Machines.{KeepsSets, is_working, IsMachineStep, changes_of};

use crate::Meaning;
use gx_machine::Entry;

/// Each move of the kept sets is a step of the set machine that keeps them: none, a `Durable`, the `Seals` of any
/// session that asks to commit the view, or a `Crashes`; and the machine then keeps the new sets.
/// A machine that has failed may still crash.
pub fn moves_are_machine_steps<B>()
    ensures { (k : keys.Keys B) → keys.IsLawful k → (old new : Kept (Entry B)) (move : Move (Entry B)) (m : Machine B)
        → (is_working move ≡ true → m.failed ≡ false) → KeepsSets k old m → IsMove old move new
        → IsMachineStep k m move new }
{}

/// What a log stands for, and each set of it, can be listed where what is live in its pages can:
/// as a list in order, which is the machine's set.
pub fn sets_can_be_listed<B, M: Meaning<Entry = Entry<B>>>()
    ensures { (d : Limits) → (k : keys.Keys B) → keys.IsLawful k → IsLawful (M.known d)
        → (M.known d).cmp ≡ keys.entry_cmp k
        → (area : ℕ → M.Page) (log : List (Record (Entry B) M.Page)) (live : List (Entry B))
        → ((e : Entry B) → has k e live ≡ (M.known d).live (tree_of (M.known d) area log) e)
        → (passes : ℕ → Bool) → (set : List (Entry B)) × IsSetOf k (stands (M.known d) passes area log) set }
{}

/// The view by touches is the machine's view: of a transaction that is open in a log, what was added is what it touched
/// and is live, and what was taken away is what it touched and isn't, each a list in order.
pub fn view_is_the_machines<B, M: Meaning<Entry = Entry<B>>>()
    ensures added { (d : Limits) → (k : keys.Keys B) → keys.IsLawful k → IsLawful (M.known d)
        → (M.known d).cmp ≡ keys.entry_cmp k
        → (area : ℕ → M.Page) (log : List (Record (Entry B) M.Page)) → IsLog (M.known d) log → (t : ℕ)
        → settled any_number t log ≡ false
        → IsSetOf k (λ e. (M.known d).live (tree_of (M.known d) area log) e && is_some (own_before (M.known d) t e log))
        (changes_of (M.known d) t area log).added }
    ensures taken { (d : Limits) → (k : keys.Keys B) → keys.IsLawful k → IsLawful (M.known d)
        → (M.known d).cmp ≡ keys.entry_cmp k
        → (area : ℕ → M.Page) (log : List (Record (Entry B) M.Page)) → IsLog (M.known d) log → (t : ℕ)
        → settled any_number t log ≡ false
        → IsSetOf k (λ e. not ((M.known d).live (tree_of (M.known d) area log) e)
        && is_some (own_before (M.known d) t e log)) (changes_of (M.known d) t area log).taken }
    ensures view { (d : Limits) → (k : keys.Keys B) → keys.IsLawful k → IsLawful (M.known d)
        → (M.known d).cmp ≡ keys.entry_cmp k
        → (area : ℕ → M.Page) (log : List (Record (Entry B) M.Page)) → IsLog (M.known d) log → (t : ℕ)
        → settled any_number t log ≡ false
        → (latest : List (Entry B)) → IsSetOf k (set_of (M.known d) (number_of (M.known d) log) area log) latest
        → IsSetOf k (view_of (M.known d) t area log) (view k latest (changes_of (M.known d) t area log)) }
{}
