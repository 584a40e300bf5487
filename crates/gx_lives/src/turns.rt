//! The calls that are turns of a life: each makes the call of its name, and its contract says which turn that is.
ghost use Rattle.std.specs.Prelude.{◌≡◌, ◌≤◌, ◌<◌, true, Err, OnOk, IfErr, IfOk, MatchResult};
ghost use Rattle.gx_commands.specs.Migrating.{Migrates};
ghost use Rattle.gx_disk.specs.declared.layout.TheConstants.{LEAST_SECTORS};
ghost use Rattle.gx_engine.specs.Made.{Makes};
ghost use Rattle.gx_format.specs.Formatting.{Formats};
ghost use Rattle.gx_format.specs.Fresh.{fresh_root};
ghost use Rattle.gx_glog.specs.Parameters.{Fit};
ghost use Rattle.gx_glog.specs.declared.parameters.Parameters.{Parameters};
ghost use Rattle.gx_machine.specs.Machine.{Machine, fresh_machine};
ghost use Rattle.gx_pool.specs.declared.frames.TheConstants.{FRAMES};
ghost use Rattle.gx_restart.specs.Beginning.{CountsOpening, HasFailed};
ghost use Rattle.gx_restart.specs.Setting.{IsRefusedAs, IsVerifiedAs};
ghost use Rattle.gx_restart.specs.Undoing.{BeganWith};
ghost use Rattle.gx_store.specs.State.{IsHeld};
ghost use Rattle.gx_opening.specs.Formatted.{IsAllowed};
ghost use Rattle.gx_opening.specs.Setting.{ExaminesAs, IsFormattedAs};
ghost use Rattle.gx_lives.specs.Bearing.{Bears};
ghost use Rattle.gx_lives.specs.Lives.{GoesOn, Lies, Works};
ghost use Rattle.gx_lives.specs.Lives as life;
ghost use Rattle.gx_lives.specs.Migrated.{BearsMigrated};
ghost use Rattle.gx_lives.specs.OneRun.{IsNew};

use crate::laws::an_opening_finds_no_damage;
use crate::migrated::a_migration_begins_a_life;
use gx_class::{Probing, ReadKeys};
use gx_disk::SectorDisk;
use gx_engine::laws::a_class_is_lawful;
use gx_engine::{Engine, NotOpened};
use gx_events::{Event, Outcome};
use gx_geom::Refusal;
use gx_node::laws::{inners, leaves};
use gx_opening::Damage;
use gx_restart::Report;
use std::alloc::Global;

// Each number of a device's parameters fits its field.
fn fits(_pages: u32, _most: u16, _class: u16)
    ensures { Fit (record { pages = _pages; most = _most; class = _class }) }
{}

/// Formats a device (`gx_format::format`, with its refusals). On an honest device a life may begin then: whatever a
/// crash may leave stands for the set of the machine with nothing committed, and the device is formatted for what was
/// asked.
pub fn format<D: SectorDisk, K: ReadKeys>(
    alloc: Global,
    disk: &mut D,
    pages: u32,
    most: u16,
) -> Result<(), Refusal>
    ensures formats { Formats D.state (record { pages = pages; most = most; class = K.CLASS })
        (fresh_root K.spelling K.start_key) disk.old disk.new result }
    ensures begins { (D.state disk.old).honest ≡ true
        → OnOk result (Bears K.Key.Shape K.ReadKeys D.state
        (record { pages = pages; most = most; class = K.CLASS }) fresh_machine (Lies disk.new)) }
    ensures new { (D.state disk.old).honest ≡ true
        → OnOk result (IsNew K.KeyClass K.start_key D.state
        (record { pages = pages; most = most; class = K.CLASS }) disk.new) }
    ensures formatted { (D.state disk.old).honest ≡ true
        → OnOk result (IsFormattedAs K.Key.Shape K.ReadKeys (D.state disk.new)
        (record { pages = pages; most = most; class = K.CLASS })) }
{
    a_class_is_lawful::<K>();
    leaves::<K>();
    inners::<K>();
    fits(pages, most, K::CLASS);
    gx_format::format::<D, K>(alloc, disk, pages, most)
}

/// Migrates an index of the first version (`gx_migrate::migrate`, with its refusals). If both devices are honest, a
/// life may begin then: the new one bears the machine that has the set of the old one alone, under the number that is
/// returned.
pub fn migrate<D: SectorDisk, E: SectorDisk, K: ReadKeys>(
    alloc: Global,
    old: &mut D,
    new: &mut E,
    frames: usize,
) -> Result<(u64, u32), Refusal>
    ensures migrates { Migrates K.Key.Shape K.ReadKeys D.state E.state frames
        old.old old.new new.old new.new result }
    ensures begins { (D.state old.old).honest ≡ true → (E.state new.old).honest ≡ true
        → IfOk result (BearsMigrated K.Key.Shape K.ReadKeys E.state (D.state old.old) new.new) }
{
    a_migration_begins_a_life::<D, E, K>();
    gx_migrate::migrate::<D, E, K>(alloc, old, new, frames)
}

/// An event of an engine (`Engine::step`): a turn of its life.
pub fn step<D: SectorDisk, K: ReadKeys + Probing>(
    engine: &mut Engine<D, K>,
    event: Event<K::Key>,
) -> Outcome<K::Key>
    ensures { GoesOn K.Key.Shape K.ReadKeys D.state (Works engine.old) (life.Happens event result) (Works engine.new) }
{
    engine.step(event)
}

/// Opens a device (`gx_restart::open`, with its refusals). On an honest device that is a turn of its life, an opening
/// or a refused one. In a life, with frames in range, it is refused only if a call of the device failed (`Device`) or
/// memory was refused (`Memory`): never because of what a crash left.
pub fn open<D: SectorDisk, K: ReadKeys + Probing>(
    alloc: Global,
    disk: D,
    frames: usize,
) -> Result<Engine<D, K>, NotOpened<D>>
    ensures frames { ((16 ≤ frames) × (frames ≤ FRAMES) → ⊥)
        → result ≡ Err (record { why = Refusal.BadParameter; disk = disk }) }
    ensures small { 16 ≤ frames → frames ≤ FRAMES → (D.state disk).sectors < LEAST_SECTORS
        → result ≡ Err (record { why = Refusal.TooSmall; disk = disk }) }
    ensures faults { CountsOpening D.state (D.state disk).faults result }
    ensures refused { (D.state disk).honest ≡ true → 16 ≤ frames → frames ≤ FRAMES
        → LEAST_SECTORS ≤ (D.state disk).sectors
        → IfErr result (λ n. IsRefusedAs K.Key.Shape K.ReadKeys D.state disk n.disk n.why) }
    ensures began { IfOk result (BeganWith (Makes K.Key.Shape K.ReadKeys D.state) frames) }
    ensures undamaged { (p : Parameters) → IsAllowed K.CLASS p → (m : Machine K.Key)
        → Bears K.Key.Shape K.ReadKeys D.state p m (Lies disk) → 16 ≤ frames → frames ≤ FRAMES
        → IfErr result (λ n. HasFailed n.why) }
    ensures turn { (D.state disk).honest ≡ true → MatchResult result
        (λ engine. GoesOn K.Key.Shape K.ReadKeys D.state (Lies disk) life.Opens (Works engine))
        (λ n. GoesOn K.Key.Shape K.ReadKeys D.state (Lies disk) (life.Refuses n.why) (Lies n.disk)) }
{
    an_opening_finds_no_damage::<D, K>();
    gx_restart::open(alloc, disk, frames)
}

/// Brings a page of an engine (`Engine::bring_page`, with its refusals): a reading.
pub fn bring_page<D: SectorDisk, K: ReadKeys>(
    engine: &mut Engine<D, K>,
    page: u32,
) -> Result<(), Outcome<K::Key>>
    requires from { 1 ≤ page }
    requires to { page ≤ engine.old.volume.shelf.used }
    ensures held { OnOk result (IsHeld engine.new.volume.shelf page) }
    ensures turn { GoesOn K.Key.Shape K.ReadKeys D.state (Works engine.old) life.Reads (Works engine.new) }
{
    engine.bring_page(page)
}

/// Verifies a device (`gx_restart::verify`, with its refusals). Of an honest device that is a reading.
pub fn verify<D: SectorDisk, K: ReadKeys + Probing>(
    alloc: Global,
    disk: &mut D,
    frames: usize,
) -> Result<Report, Refusal>
    ensures verified { (D.state disk.old).honest ≡ true
        → IfOk result (IsVerifiedAs K.Key.Shape K.ReadKeys (D.state disk.old)) }
    ensures turn { (D.state disk.old).honest ≡ true
        → GoesOn K.Key.Shape K.ReadKeys D.state (Lies disk.old) life.Reads (Lies disk.new) }
{
    gx_restart::verify::<D, K>(alloc, disk, frames)
}

/// Examines a device whose opening was refused as damaged (`gx_opening::examine`, with its refusals). Of an honest
/// device that is a reading.
pub fn examine<D: SectorDisk, K: ReadKeys>(
    alloc: Global,
    disk: D,
) -> (D, Result<Option<Damage>, Refusal>)
    ensures examined { (D.state disk).honest ≡ true → LEAST_SECTORS ≤ (D.state disk).sectors
        → ExaminesAs K.Key.Shape K.ReadKeys D.state disk result.0 result.1 }
    ensures turn { (D.state disk).honest ≡ true
        → GoesOn K.Key.Shape K.ReadKeys D.state (Lies disk) life.Reads (Lies result.0) }
{
    gx_opening::examine::<D, K>(alloc, disk)
}
