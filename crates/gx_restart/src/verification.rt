//! Verifies a device: whether it would open, and what it holds. A copy of it in memory is opened, so nothing is written
//! to the device.
ghost use Rattle.std.specs.Prelude.{◌≡◌, ◌≢◌, ◌≤◌, ◌<◌, true, Err, IfErr, IfOk, IfSome};
ghost use Rattle.gx_disk.specs.Looks.{Looks};
ghost use Rattle.gx_opening.specs.Formatted.{Counted};
ghost use Rattle.gx_opening.specs.Setting.{LeftDamaged};
ghost use Rattle.gx_restart.specs.Copied.{IsNoMore, memory_state, refusal_of_copy};
ghost use Rattle.gx_restart.specs.Setting.{HandsOutAs, IsDamagedCopyAs, IsOpenedAs, IsUnverifiedAs, IsUnverifiedCopyAs};
ghost use Rattle.gx_restart.specs.Setting.{IsVerifiedAs};
ghost use Rattle.gx_restart.specs.Undoing.{IsIdle};
ghost use Rattle.gx_restart.specs.Verified.{why_of};

mod copy;
mod entries;

use crate::open;
use crate::opening::{LEAST_FRAMES, MOST_FRAMES};
use copy::copied;
use entries::count_entries;
use gx_class::{Probing, ReadKeys};
use gx_disk::{LEAST_SECTORS, MIN_SECTORS, MemDisk, SectorDisk};
use gx_engine::laws::a_class_is_lawful;
use gx_engine::{Engine, NotOpened};
use gx_geom::Refusal;
use std::alloc::Global;

/// What a verified device holds.
#[derive(Clone, Copy, Debug, PartialEq, Eq)]
pub struct Report {
    /// The number of the last commit.
    pub commits: u64,
    /// How many entries that commit's set has.
    pub entries: u64,
    /// The greatest page in use.
    pub used: u32,
}

/// Why a device wasn't verified.
#[derive(Drop)]
pub struct NotVerified {
    /// Why.
    pub why: Refusal,
    /// The copy, as its opening left it, if that was refused. If the device is damaged, the copy's log may be laid over
    /// its pages.
    pub copy: Option<MemDisk>,
}

// The refusal of a device, by the refusal of its copy: a failure of the copy is a lack of memory.
fn told_of_copy(why: Refusal) -> Refusal
    ensures { result ≡ refusal_of_copy why }
{
    match why {
        Refusal::Device => Refusal::Memory,
        other => other,
    }
}

// Counts what a freshly opened engine holds. A refusal returns the engine's device.
fn report_of<D: SectorDisk + Drop, K: ReadKeys + Probing>(
    engine: Engine<D, K>,
) -> Result<Report, NotOpened<D>>
    ensures verified { (a : D) → IsIdle engine
        → IsOpenedAs K.Key.Shape K.ReadKeys (D.state a) (D.state engine.volume.shelf.disk) engine
        → IfOk result (IsVerifiedAs K.Key.Shape K.ReadKeys (D.state a)) }
    ensures refused { IfErr result (λ n. n.why ≡ Refusal.Memory) }
{
    a_class_is_lawful::<K>();
    let mut engine = engine;
    let commits = engine.commits();
    let used = engine.used();
    match count_entries(&mut engine) {
        Ok(entries) => {
            let _disk = engine.into_disk();
            Ok(Report {
                commits,
                entries,
                used,
            })
        }
        // an engine over memory is stopped only if memory is refused
        Err(_) => Err(NotOpened {
            why: Refusal::Memory,
            disk: engine.into_disk(),
        }),
    }
}

// Opens a copy, and reports what it holds. A refusal returns the copy, with its log laid over its pages if it is
// damaged.
fn verify_copy<D: SectorDisk + Drop, K: ReadKeys + Probing>(
    alloc: Global,
    copy: D,
    frames: usize,
) -> Result<Report, NotOpened<D>>
    requires frames { (16 ≤ frames) × (frames ≤ 4096) }
    requires large { MIN_SECTORS ≤ (D.state copy).sectors }
    ensures verified { (D.state copy).honest ≡ true → IfOk result (IsVerifiedAs K.Key.Shape K.ReadKeys (D.state copy)) }
    ensures refused { (D.state copy).honest ≡ true
        → IfErr result (λ n. IsUnverifiedCopyAs K.Key.Shape K.ReadKeys (D.state copy) n.why) }
    ensures damaged { (D.state copy).honest ≡ true → IfErr result (λ n. n.why ≡ Refusal.Damaged
        → IsDamagedCopyAs K.Key.Shape K.ReadKeys (D.state copy) (D.state n.disk)) }
    ensures left { (D.state copy).honest ≡ true
        → IfErr result (λ n. LeftDamaged K.Key.Shape K.ReadKeys (D.state n.disk) n.why) }
    ensures device { IfErr result (λ n. n.why ≢ Refusal.Device) }
{
    match open::<D, K>(alloc, copy, frames) {
        Ok(engine) => report_of(engine),
        Err(refused) => Err(NotOpened {
            why: told_of_copy(refused.why),
            disk: refused.disk,
        }),
    }
}

/// Verifies a device as `verify` does. If the opening of its copy was refused, it returns the copy too, in which
/// `gx_opening::examine` finds the damage: the copy reads as the device, but for pages that the log gives.
pub fn verify_or_copy<D: SectorDisk, K: ReadKeys + Probing>(
    alloc: Global,
    disk: &mut D,
    frames: usize,
) -> Result<Report, NotVerified>
    ensures frames { ((16 ≤ frames) × (frames ≤ 4096) → ⊥)
        → (why_of result ≡ Err Refusal.BadParameter) × (disk.new ≡ disk.old) }
    ensures small { 16 ≤ frames → frames ≤ 4096 → (D.state disk.old).sectors < LEAST_SECTORS
        → (why_of result ≡ Err Refusal.TooSmall) × (disk.new ≡ disk.old) }
    ensures counted { Counted 0 (D.state disk.old) (D.state disk.new) (why_of result) }
    ensures looks { (D.state disk.old).honest ≡ true → Looks (D.state disk.old) (D.state disk.new) }
    ensures verified { (D.state disk.old).honest ≡ true
        → IfOk (why_of result)
        (IsVerifiedAs K.Key.Shape K.ReadKeys (D.state disk.old)) }
    ensures refused { (D.state disk.old).honest ≡ true → 16 ≤ frames → frames ≤ 4096
        → LEAST_SECTORS ≤ (D.state disk.old).sectors
        → IfErr (why_of result)
        (IsUnverifiedAs K.Key.Shape K.ReadKeys (D.state disk.old)) }
    ensures damaged { (D.state disk.old).honest ≡ true → IfErr result (λ n. n.why ≡ Refusal.Damaged → IfSome n.copy
        (λ copy. IsDamagedCopyAs K.Key.Shape K.ReadKeys (D.state disk.old) (memory_state copy))) }
    ensures copy { (D.state disk.old).honest ≡ true → IfErr result (HandsOutAs K.Key.Shape K.ReadKeys) }
    ensures few { (D.state disk.old).honest ≡ true → IfErr result (λ n. n.why ≡ Refusal.Damaged → IfSome n.copy
        (λ copy. IsNoMore (D.state disk.old).seen (memory_state copy).sectors)) }
{
    if frames < LEAST_FRAMES || MOST_FRAMES < frames {
        return Err(NotVerified {
            why: Refusal::BadParameter,
            copy: None,
        });
    }
    if disk.sectors() < LEAST_SECTORS {
        return Err(NotVerified {
            why: Refusal::TooSmall,
            copy: None,
        });
    }
    match copied::<D, K>(alloc, disk) {
        Ok(copy) => match verify_copy::<MemDisk, K>(alloc, copy, frames) {
            Ok(report) => Ok(report),
            Err(refused) => Err(NotVerified {
                why: refused.why,
                copy: Some(refused.disk),
            }),
        },
        Err(why) => Err(NotVerified { why, copy: None }),
    }
}

/// Verifies a device: returns the refusal that its opening with so many frames would meet, or what it would hold: the
/// number of the last commit, how many entries that commit's set has, and the greatest page in use. It doesn't count
/// what open transactions wrote. It opens a copy in memory of the sectors of the index, 540,936 at most, so it makes no
/// write and no sync of the device.
///
/// Refused for the first of these that holds: there are fewer frames than 16 or more than 4,096 (`BadParameter`), the
/// device has fewer than 4,232 sectors (`TooSmall`; no call is made before these two tests), the magic is
/// that of version 1 (`OldVersion`) or missing (`NotFormatted`), the numbers are out of range or of another class
/// (`BadParameter`), the device has fewer sectors than that index takes (`TooSmall`), its log is damaged, or its pages
/// can't be read, aren't a legal tree, or don't have what open transactions touched in its place (`Damaged`). `Device`
/// if a read fails, and only then. `Memory` if there is none for the copy or for its opening, which only a device that
/// is formatted for an index of the class may meet.
pub fn verify<D: SectorDisk, K: ReadKeys + Probing>(
    alloc: Global,
    disk: &mut D,
    frames: usize,
) -> Result<Report, Refusal>
    ensures frames { ((16 ≤ frames) × (frames ≤ 4096) → ⊥)
        → (result ≡ Err Refusal.BadParameter) × (disk.new ≡ disk.old) }
    ensures small { 16 ≤ frames → frames ≤ 4096 → (D.state disk.old).sectors < LEAST_SECTORS
        → (result ≡ Err Refusal.TooSmall) × (disk.new ≡ disk.old) }
    ensures counted { Counted 0 (D.state disk.old) (D.state disk.new) result }
    ensures looks { (D.state disk.old).honest ≡ true → Looks (D.state disk.old) (D.state disk.new) }
    ensures verified { (D.state disk.old).honest ≡ true
        → IfOk result (IsVerifiedAs K.Key.Shape K.ReadKeys (D.state disk.old)) }
    ensures refused { (D.state disk.old).honest ≡ true → 16 ≤ frames → frames ≤ 4096
        → LEAST_SECTORS ≤ (D.state disk.old).sectors
        → IfErr result (IsUnverifiedAs K.Key.Shape K.ReadKeys (D.state disk.old)) }
{
    match verify_or_copy::<D, K>(alloc, disk, frames) {
        Ok(report) => Ok(report),
        Err(refused) => Err(refused.why),
    }
}
