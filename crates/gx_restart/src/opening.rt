//! Opens a device: finds its index, starts an engine over it, and undoes the transactions that a crash cut off.
ghost use Rattle.std.specs.Prelude.{◌≡◌, ◌≤◌, ◌<◌, ◌+◌, ◌*◌, ℕ, List, false, true, Err, IfErr, IfOk, MatchResult};
ghost use Rattle.gx_disk.specs.declared.layout.TheConstants.{LEAST_SECTORS, PAGES_AT, PAGE_SECTORS};
ghost use Rattle.gx_engine.specs.Made.{Makes};
ghost use Rattle.gx_glog.specs.declared.parameters.Parameters.{Parameters};
ghost use Rattle.gx_opening.specs.Formatted.{IsAllowed};
ghost use Rattle.gx_opening.specs.Standing.{MayStart};
ghost use Rattle.gx_opening.specs.Setting.{IndexStands, LeftDamaged};
ghost use Rattle.gx_restart.specs.Beginning.{CountsOpening, IsSameDevice};
ghost use Rattle.gx_restart.specs.Setting.{HasBegunAs, HasNotBegunAs, HoldsFoundAs, KeepsItsSetAs, OpensSafelyAs};
ghost use Rattle.gx_restart.specs.Setting.{IsOpenedAs, IsRefusedAs};
ghost use Rattle.gx_restart.specs.Order.{OpensInOrder};
ghost use Rattle.gx_restart.specs.Undoing.{BeganWith, GoesBy, IsIdle, OnlyUndoes};

mod begin;
mod undo;

use begin::begin_engine;
use gx_class::{Probing, ReadKeys};
use gx_disk::SectorDisk;
use gx_engine::laws::a_class_is_lawful;
use gx_engine::{Engine, NotOpened};
use gx_geom::Refusal;
use gx_index_laws::measures::what_a_call_has_left_is_bounded;
use gx_opening::laws::what_is_found_stands;
use gx_opening::{Standing, find};
use std::alloc::Global;
use undo::finish;

/// The fewest frames that an engine may have.
pub(crate) const LEAST_FRAMES: usize = 16;

/// The most frames that an engine may have.
pub(crate) const MOST_FRAMES: usize = 4096;

// Ends an engine's checkpoint, and undoes the transactions that a crash cut off. A refusal returns the device.
fn finished<D: SectorDisk, K: ReadKeys + Probing>(
    engine: Engine<D, K>,
) -> Result<Engine<D, K>, NotOpened<D>>
    requires undoes { OnlyUndoes engine }
    requires works { engine.sessions.failed ≡ false }
    ensures device { MatchResult result (λ new. IsSameDevice (D.state engine.volume.shelf.disk)
        (D.state new.volume.shelf.disk))
        (λ n. IsSameDevice (D.state engine.volume.shelf.disk) (D.state n.disk)) }
    ensures faults { CountsOpening D.state (D.state engine.volume.shelf.disk).faults result }
    ensures idle { IfOk result IsIdle }
    ensures goes { IfOk result (GoesBy (Makes K.Key.Shape K.ReadKeys D.state) engine) }
    ensures keeps { (p : Parameters) (seen : List ℕ) → 4 ≤ p.most
        → HoldsFoundAs K.Key.Shape K.ReadKeys p seen (D.state engine.volume.shelf.disk) engine
        → MatchResult result
        (λ new. HasBegunAs K.Key.Shape K.ReadKeys p seen (D.state engine.volume.shelf.disk)
        (D.state new.volume.shelf.disk) new)
        (λ n. HasNotBegunAs K.Key.Shape K.ReadKeys p seen (D.state engine.volume.shelf.disk) (D.state n.disk) n.why) }
{
    a_class_is_lawful::<K>();
    what_a_call_has_left_is_bounded::<K::Key>();
    let mut engine = engine;
    match finish(&mut engine) {
        Ok(()) => Ok(engine),
        Err(why) => Err(NotOpened {
            why,
            disk: engine.into_disk(),
        }),
    }
}

// Opens what was found on a device.
fn open_over<D: SectorDisk, K: ReadKeys + Probing>(
    alloc: Global,
    disk: D,
    standing: &Standing<K::Key>,
    frames: usize,
) -> Result<Engine<D, K>, NotOpened<D>>
    requires start { MayStart standing.now }
    requires allowed { IsAllowed K.CLASS standing.now.parameters }
    requires inside { PAGES_AT + PAGE_SECTORS * standing.now.parameters.pages ≤ (D.state disk).sectors }
    requires frames { (16 ≤ frames) × (frames ≤ 4096) }
    ensures device { MatchResult result (λ engine. IsSameDevice (D.state disk) (D.state engine.volume.shelf.disk))
        (λ n. IsSameDevice (D.state disk) (D.state n.disk)) }
    ensures faults { CountsOpening D.state (D.state disk).faults result }
    ensures idle { IfOk result IsIdle }
    ensures began { IfOk result (BeganWith (Makes K.Key.Shape K.ReadKeys D.state) frames) }
    ensures keeps { (a : D) → (D.state disk).honest ≡ true
        → IndexStands K.Key.Shape K.ReadKeys (D.state a) (D.state disk) standing.now
        → MatchResult result
        (λ engine. HasBegunAs K.Key.Shape K.ReadKeys standing.now.parameters
        (D.state a).seen (D.state disk) (D.state engine.volume.shelf.disk) engine)
        (λ n. HasNotBegunAs K.Key.Shape K.ReadKeys standing.now.parameters (D.state a).seen
        (D.state disk) (D.state n.disk) n.why) }
{
    let engine = begin_engine(alloc, disk, standing, frames)?;
    finished(engine)
}

// Opens a device, with as many frames as an engine may have.
fn open_with<D: SectorDisk, K: ReadKeys + Probing>(
    alloc: Global,
    disk: D,
    frames: usize,
) -> Result<Engine<D, K>, NotOpened<D>>
    requires frames { (16 ≤ frames) × (frames ≤ 4096) }
    ensures small { (D.state disk).sectors < LEAST_SECTORS
        → result ≡ Err (record { why = Refusal.TooSmall; disk = disk }) }
    ensures device { MatchResult result (λ engine. IsSameDevice (D.state disk) (D.state engine.volume.shelf.disk))
        (λ n. IsSameDevice (D.state disk) (D.state n.disk)) }
    ensures faults { CountsOpening D.state (D.state disk).faults result }
    ensures idle { IfOk result IsIdle }
    ensures began { IfOk result (BeganWith (Makes K.Key.Shape K.ReadKeys D.state) frames) }
    ensures safe { (D.state disk).honest ≡ true → MatchResult result
        (λ engine. OpensSafelyAs K.Key.Shape K.ReadKeys (D.state disk) (D.state engine.volume.shelf.disk))
        (λ n. OpensSafelyAs K.Key.Shape K.ReadKeys (D.state disk) (D.state n.disk)) }
    ensures order { OpensInOrder K.Key.Shape K.ReadKeys D.state disk result }
    ensures opened { (D.state disk).honest ≡ true → LEAST_SECTORS ≤ (D.state disk).sectors
        → IfOk result (λ engine. IsOpenedAs K.Key.Shape K.ReadKeys (D.state disk)
        (D.state engine.volume.shelf.disk) engine) }
    ensures refused { (D.state disk).honest ≡ true → LEAST_SECTORS ≤ (D.state disk).sectors
        → IfErr result (λ n. IsRefusedAs K.Key.Shape K.ReadKeys D.state disk n.disk n.why) }
    ensures damaged { (D.state disk).honest ≡ true
        → IfErr result (λ n. LeftDamaged K.Key.Shape K.ReadKeys (D.state n.disk) n.why) }
{
    a_class_is_lawful::<K>();
    let (disk, found) = find::<D, K>(alloc, disk);
    match found {
        Ok(standing) => open_over(alloc, disk, &standing, frames),
        Err(why) => Err(NotOpened { why, disk }),
    }
}

/// Opens a device, with so many frames for pages. It syncs the device, reads its parameters, reads its log and lays
/// that over its pages, tests the pages, closes the gates behind the log, and starts an engine. Then it ends the
/// engine's checkpoint, and undoes the transactions that a crash cut off. The engine that it returns has no session
/// with a transaction, and no checkpoint runs. It allocates all the memory that the engine ever takes, but for the
/// stacks and results of searches.
///
/// Refused, with the device as the calls left it, for the first of these that holds: there are fewer frames than 16 or
/// more than 4,096 (`BadParameter`), the device has fewer than 4,232 sectors (`TooSmall`; no call is made before these
/// two tests), the magic is that of version 1 (`OldVersion`) or missing (`NotFormatted`), the numbers are out of range
/// or of another class (`BadParameter`), the device has fewer sectors than that index takes (`TooSmall`), its log is
/// damaged, or its pages can't be read, aren't a legal tree, or don't have what open transactions touched in its place
/// (`Damaged`); also if a call fails (`Device`, and only then), or memory is refused (`Memory`). If one transaction's
/// undo doesn't end within 2^56 events, as can happen on a device that isn't honest, the opening is given up with
/// `Damaged`.
///
/// On an honest device, at each moment, also if the opening is refused, a crash may leave what it could leave at the
/// start, or an image with the log that was found and after it the same pages; if these are good for the log, that
/// image stands for the set that the log keeps, under its number. The engine then holds an index with that one set. A
/// sync comes before the first write. If the opening is refused with `OldVersion`, `NotFormatted`, `BadParameter` or
/// `TooSmall`, nothing is written. If it is refused with `Damaged`, only pages that the log gives are written, and no
/// other sector: the device stays damaged, so that `gx_opening::examine` finds the damage.
pub fn open<D: SectorDisk, K: ReadKeys + Probing>(
    alloc: Global,
    disk: D,
    frames: usize,
) -> Result<Engine<D, K>, NotOpened<D>>
    ensures frames { ((16 ≤ frames) × (frames ≤ 4096) → ⊥)
        → result ≡ Err (record { why = Refusal.BadParameter; disk = disk }) }
    ensures small { 16 ≤ frames → frames ≤ 4096 → (D.state disk).sectors < LEAST_SECTORS
        → result ≡ Err (record { why = Refusal.TooSmall; disk = disk }) }
    ensures device { MatchResult result (λ engine. IsSameDevice (D.state disk) (D.state engine.volume.shelf.disk))
        (λ n. IsSameDevice (D.state disk) (D.state n.disk)) }
    ensures faults { CountsOpening D.state (D.state disk).faults result }
    ensures idle { IfOk result IsIdle }
    ensures began { IfOk result (BeganWith (Makes K.Key.Shape K.ReadKeys D.state) frames) }
    ensures safe { (D.state disk).honest ≡ true → MatchResult result
        (λ engine. OpensSafelyAs K.Key.Shape K.ReadKeys (D.state disk) (D.state engine.volume.shelf.disk))
        (λ n. OpensSafelyAs K.Key.Shape K.ReadKeys (D.state disk) (D.state n.disk)) }
    ensures keeps { (D.state disk).honest ≡ true → MatchResult result
        (λ engine. KeepsItsSetAs K.Key.Shape K.ReadKeys (D.state disk) (D.state engine.volume.shelf.disk))
        (λ n. KeepsItsSetAs K.Key.Shape K.ReadKeys (D.state disk) (D.state n.disk)) }
    ensures order { OpensInOrder K.Key.Shape K.ReadKeys D.state disk result }
    ensures opened { (D.state disk).honest ≡ true
        → IfOk result (λ engine. IsOpenedAs K.Key.Shape K.ReadKeys (D.state disk)
        (D.state engine.volume.shelf.disk) engine) }
    ensures refused { (D.state disk).honest ≡ true → 16 ≤ frames → frames ≤ 4096
        → LEAST_SECTORS ≤ (D.state disk).sectors
        → IfErr result (λ n. IsRefusedAs K.Key.Shape K.ReadKeys D.state disk n.disk n.why) }
    ensures damaged { (D.state disk).honest ≡ true
        → IfErr result (λ n. LeftDamaged K.Key.Shape K.ReadKeys (D.state n.disk) n.why) }
{
    what_is_found_stands::<D, K>();
    if frames < LEAST_FRAMES || MOST_FRAMES < frames {
        return Err(NotOpened {
            why: Refusal::BadParameter,
            disk,
        });
    }
    open_with(alloc, disk, frames)
}
