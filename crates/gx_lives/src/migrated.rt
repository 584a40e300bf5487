//! Laws: a migration begins a life. Each function is its contract alone.
ghost use Rattle.std.specs.Prelude.{◌≡◌, ℕ, List, true};
ghost use Rattle.gx_glog.specs.declared.parameters.Parameters.{Parameters};
ghost use Rattle.gx_machine.specs.declared.entry.Entry.{Entry};
ghost use Rattle.gx_migrate.specs.Setting.{IsMigratedAs};
ghost use Rattle.gx_lives.specs.Lives.{Lies, Lives, Stage, Turn};
ghost use Rattle.gx_lives.specs.Migrated.{BearsMigrated, HoldsOlder, LivesOn};

use crate::laws::a_life_is_one_run;
use gx_class::ReadKeys;
use gx_disk::SectorDisk;
use gx_engine::laws::a_class_is_lawful;

/// A device of the first version holds at most one set, for one kind of index and under one number.
pub fn an_older_device_holds_one_set<D: SectorDisk, K: ReadKeys>()
    ensures { (old : D) (p q : Parameters) (m n : ℕ) (xs ys : List (Entry K.Key))
        → HoldsOlder K.Key.Shape K.ReadKeys p (D.state old) m xs
        → HoldsOlder K.Key.Shape K.ReadKeys q (D.state old) n ys → (p ≡ q) × ((m ≡ n) × (xs ≡ ys)) }
{
    gx_machine::laws::keys_are_lawful::<K::Key>();
}

/// The second beginning of a life. An index was migrated to an honest device, which succeeded (`gx_migrate::migrate`,
/// its clause `migrated`). The device bears the machine that has one kept set, the one that the older device holds,
/// under the number that was returned, and no open session. So whatever a crash may leave of it has that set.
pub fn a_migration_begins_a_life<D: SectorDisk, E: SectorDisk, K: ReadKeys>()
    ensures { (old : D) (new : E) (told : ℕ × ℕ) → (E.state new).honest ≡ true
        → IsMigratedAs K.Key.Shape K.ReadKeys (D.state old) (E.state new) told
        → BearsMigrated K.Key.Shape K.ReadKeys E.state (D.state old) new told }
{
    a_class_is_lawful::<K>();
    gx_index_laws::openings::what_a_log_stands_for_can_be_listed::<K::Key>();
}

/// The headline of such a life: whatever events, crashes at any moment, and openings follow on the migration, they are
/// one run of the set machine, from that one. All holds of it that holds of a run from nothing committed.
pub fn a_migrated_index_lives_on<D: SectorDisk, E: SectorDisk, K: ReadKeys>()
    ensures { (old : D) (new : E) (told : ℕ × ℕ) → (E.state new).honest ≡ true
        → IsMigratedAs K.Key.Shape K.ReadKeys (D.state old) (E.state new) told
        → (turns : List (Turn K.Key)) (now : Stage K.Key E)
        → Lives K.Key.Shape K.ReadKeys E.state (Lies new) turns now
        → LivesOn K.Key.Shape K.ReadKeys E.state (D.state old) new told turns now }
{
    gx_machine::laws::kept_sets_stay_in_order::<K::Key>();
    a_migration_begins_a_life::<D, E, K>();
    a_life_is_one_run::<E, K>();
}
