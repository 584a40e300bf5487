//! The commands over a device whose index is of boxes; the device says whether they are of the plane or of space.
ghost use Rattle.gx_commands.specs.Devices.{DumpsDevice, FindsKind, HasKind, RunsDevice, VerifiesDevice};
ghost use Rattle.gx_commands.specs.Migrating.{FindsOlder, MigratesBoxes};
ghost use Rattle.gx_commands.specs.Streams.{outputs_of, stream_of};

use crate::refusals::refuse;
use crate::{dump_over, migrate_over, run_over, verify_over};
use gx_class::{Box2Class, Box3Class, KeyClass};
use gx_disk::SectorDisk;
use gx_geom::{Box2, Box3, Refusal, Shape};
use gx_older::class_of_old;
use gx_restart::class_of;
use gx_script::Noted;
use std::alloc::Global;
use std::io::{Read, Write};

/// The boxes of an index.
#[derive(Clone, Copy)]
pub enum Kind {
    /// Boxes of the plane, class 1.
    Plane,
    /// Boxes of space, class 3.
    Space,
}

// The boxes of a class, if it is a class of boxes.
fn boxes_of(class: u16) -> Option<Kind>
    ensures { HasKind class result }
{
    if class == Box2Class::CLASS {
        Some(Kind::Plane)
    } else if class == Box3Class::CLASS {
        Some(Kind::Space)
    } else {
        None
    }
}

// Reads from a device whether its index is of boxes of the plane or of space. Refused as `class_of` is, and with
// `BadParameter` if it is of intervals.
fn kind_of<D: SectorDisk>(disk: &mut D) -> Result<Kind, Refusal>
    ensures { FindsKind D.state disk.old disk.new result }
{
    let class = class_of(disk)?;
    match boxes_of(class) {
        Some(kind) => Ok(kind),
        None => Err(Refusal::BadParameter),
    }
}

/// Reads from a device of the first version whether its index is of boxes of the plane or of space, and for how many
/// pages. Refused as `gx_older::class_of_old` is, and with `BadParameter` if it is of intervals.
pub(crate) fn kind_of_old<D: SectorDisk>(disk: &mut D) -> Result<(Kind, u32), Refusal>
    ensures { FindsOlder D.state disk.old disk.new result }
{
    let told = class_of_old(disk)?;
    match boxes_of(told.0) {
        Some(kind) => Ok((kind, told.1)),
        None => Err(Refusal::BadParameter),
    }
}

/// Runs a script on the index of boxes that a device holds, as `run_over` does: of the plane if its class is 1, of
/// space if it is 3.
///
/// The class is read from the device before the opening. If that is refused, or the index is of intervals
/// (`BadParameter`), the function writes `refused N text`, and for the user a line that says what it means. The status
/// is then 1, the script isn't read, and no other call is made of the device.
pub fn run_device<D: SectorDisk + Drop, R: Read, W: Write, E: Write>(
    alloc: Global,
    disk: D,
    frames: usize,
    reader: &mut Noted<R>,
    writer: &mut Noted<W>,
    faults: &mut Noted<E>,
) -> (D, u8)
    ensures { RunsDevice ⟦<Box2 as Shape>⟧ ⟦<Box2Class as KeyClass>⟧ ⟦<Box3 as Shape>⟧ ⟦<Box3Class as KeyClass>⟧
        D.state frames disk result.0 (stream_of R.remaining reader.old) (stream_of R.remaining reader.new)
        (outputs_of W.contents E.contents writer.old faults.old)
        (outputs_of W.contents E.contents writer.new faults.new) result.1 }
{
    let mut disk = disk;
    match kind_of(&mut disk) {
        Ok(Kind::Plane) => run_over::<D, Box2, Box2Class, R, W, E>(
            alloc, disk, frames, reader, writer, faults,
        ),
        Ok(Kind::Space) => run_over::<D, Box3, Box3Class, R, W, E>(
            alloc, disk, frames, reader, writer, faults,
        ),
        Err(why) => (disk, refuse(writer, faults, why)),
    }
}

/// Writes the text of the tree of the index of boxes that a device holds, as `dump_over` does: of the plane if its
/// class is 1, of space if it is 3. The class is read before the opening; refusals are as in `run_device`.
pub fn dump_device<D: SectorDisk + Drop, W: Write, E: Write>(
    alloc: Global,
    disk: D,
    frames: usize,
    writer: &mut Noted<W>,
    faults: &mut Noted<E>,
) -> (D, u8)
    ensures { DumpsDevice ⟦<Box2 as Shape>⟧ ⟦<Box2Class as KeyClass>⟧ ⟦<Box3 as Shape>⟧ ⟦<Box3Class as KeyClass>⟧
        D.state frames disk result.0 (outputs_of W.contents E.contents writer.old faults.old)
        (outputs_of W.contents E.contents writer.new faults.new) result.1 }
{
    let mut disk = disk;
    match kind_of(&mut disk) {
        Ok(Kind::Plane) => dump_over::<D, Box2, Box2Class, W, E>(
            alloc, disk, frames, writer, faults,
        ),
        Ok(Kind::Space) => dump_over::<D, Box3, Box3Class, W, E>(
            alloc, disk, frames, writer, faults,
        ),
        Err(why) => (disk, refuse(writer, faults, why)),
    }
}

/// Verifies the index of boxes that a device holds, as `verify_over` does: of the plane if its class is 1, of space if
/// it is 3. The class is read first; refusals are as in `run_device`. Nothing is written to the device.
pub fn verify_device<D: SectorDisk, W: Write, E: Write>(
    alloc: Global,
    disk: &mut D,
    frames: usize,
    writer: &mut Noted<W>,
    faults: &mut Noted<E>,
) -> u8
    ensures { VerifiesDevice ⟦<Box2 as Shape>⟧ ⟦<Box2Class as KeyClass>⟧ ⟦<Box3 as Shape>⟧ ⟦<Box3Class as KeyClass>⟧
        D.state frames disk.old disk.new (outputs_of W.contents E.contents writer.old faults.old)
        (outputs_of W.contents E.contents writer.new faults.new) result }
{
    match kind_of(disk) {
        Ok(Kind::Plane) => verify_over::<D, Box2Class, W, E>(alloc, disk, frames, writer, faults),
        Ok(Kind::Space) => verify_over::<D, Box3Class, W, E>(alloc, disk, frames, writer, faults),
        Err(why) => refuse(writer, faults, why),
    }
}

/// Migrates an index of boxes of the first version from one device to another, as `migrate_over` does: of the plane or
/// of space.
pub fn migrate_device<D: SectorDisk, N: SectorDisk, W: Write, E: Write>(
    alloc: Global,
    kind: Kind,
    old: &mut D,
    new: &mut N,
    frames: usize,
    writer: &mut Noted<W>,
    faults: &mut Noted<E>,
) -> u8
    ensures { MigratesBoxes ⟦<Box2 as Shape>⟧ ⟦<Box2Class as KeyClass>⟧ ⟦<Box3 as Shape>⟧ ⟦<Box3Class as KeyClass>⟧
        D.state N.state kind frames old.old old.new new.old new.new
        (outputs_of W.contents E.contents writer.old faults.old)
        (outputs_of W.contents E.contents writer.new faults.new) result }
{
    match kind {
        Kind::Plane => migrate_over::<D, N, Box2Class, W, E>(
            alloc, old, new, frames, writer, faults,
        ),
        Kind::Space => migrate_over::<D, N, Box3Class, W, E>(
            alloc, old, new, frames, writer, faults,
        ),
    }
}
