//! The commands over a file.
ghost use Rattle.gx_commands.specs.Files.{EndsDump, EndsFormat, EndsMigration, EndsMove, EndsRun, EndsVerify};
ghost use Rattle.gx_commands.specs.Files.{FollowsOlder, HasNoDevice, Leaves};
ghost use Rattle.gx_commands.specs.Streams.{outputs_of, stream_of};

use crate::devices::{Kind, kind_of_old};
use crate::opener::{Access, Opener};
use crate::person::tell_file;
use crate::refusals::{print_refusal, refuse};
use crate::{REFUSED, dump_device, format_over, migrate_device, run_device, verify_device};
use gx_class::{Box2Class, Box3Class, KeyClass};
use gx_disk::{DiskFault, FileDisk, SectorDisk};
use gx_format::sectors_for;
use gx_geom::{Box2, Box3, Refusal, Shape};
use gx_script::Noted;
use std::alloc::Global;
use std::fs::{File, Files};
use std::io::{Read, Write};

/// How many pages `dump` and `verify` hold in memory.
const FRAMES: usize = 64;

/// Opens or creates a file, extends a shorter one, and writes a new index of a class of keys into it.
///
/// The status is that of `format_over`. It is also 1 if the file can't be opened, created or extended: then the
/// function writes `refused 11 device`, and reports the file's name and the cause to the user. If a call of the file
/// failed, it reports why.
pub fn format_file<'w, K: KeyClass, F: Files<File = File>, W: Write, E: Write>(
    opener: &mut Opener<'w, F>,
    alloc: Global,
    file: &'w str,
    pages: u32,
    most: u16,
    writer: &mut Noted<W>,
    faults: &mut Noted<E>,
) -> u8
    ensures { EndsFormat K.KeyClass K.CLASS ⟦<FileDisk as SectorDisk>⟧.state file.now opener.old opener.new
        pages most (outputs_of W.contents E.contents writer.old faults.old)
        (outputs_of W.contents E.contents writer.new faults.new) result }
{
    match opener.open(file, Access::Create(sectors_for(pages))) {
        Ok(mut disk) => {
            let status = format_over::<FileDisk, K, W, E>(
                alloc, &mut disk, pages, most, writer, faults,
            );
            leave(opener, file, disk, faults);
            status
        }
        Err(fault) => refuse_file(file, fault, writer, faults),
    }
}

/// Opens an existing file, and runs a script on the index of boxes that it holds.
///
/// The status is that of `run_device`. It is also 1 if the file can't be opened: then the function writes `refused 11
/// device`, reports the file's name and the cause to the user, and reads nothing. If a call of the file failed, it
/// reports why.
pub fn run_file<'w, F: Files<File = File>, R: Read, W: Write, E: Write>(
    opener: &mut Opener<'w, F>,
    alloc: Global,
    file: &'w str,
    frames: usize,
    reader: &mut Noted<R>,
    writer: &mut Noted<W>,
    faults: &mut Noted<E>,
) -> u8
    ensures { EndsRun ⟦<Box2 as Shape>⟧ ⟦<Box2Class as KeyClass>⟧ ⟦<Box3 as Shape>⟧ ⟦<Box3Class as KeyClass>⟧
        ⟦<FileDisk as SectorDisk>⟧.state file.now
        opener.old opener.new frames (stream_of R.remaining reader.old) (stream_of R.remaining reader.new)
        (outputs_of W.contents E.contents writer.old faults.old)
        (outputs_of W.contents E.contents writer.new faults.new) result }
{
    match opener.open(file, Access::Write) {
        Ok(disk) => {
            let (disk, status) = run_device(alloc, disk, frames, reader, writer, faults);
            leave(opener, file, disk, faults);
            status
        }
        Err(fault) => refuse_file(file, fault, writer, faults),
    }
}

/// Opens an existing file, and writes the text of the tree of the index of boxes that it holds.
///
/// The status is that of `dump_device`, with 64 frames. It is also 1 if the file can't be opened: then the function
/// writes `refused 11 device`, and reports the file's name and the cause to the user. If a call of the file failed, it
/// reports why.
pub fn dump_file<'w, F: Files<File = File>, W: Write, E: Write>(
    opener: &mut Opener<'w, F>,
    alloc: Global,
    file: &'w str,
    writer: &mut Noted<W>,
    faults: &mut Noted<E>,
) -> u8
    ensures { EndsDump ⟦<Box2 as Shape>⟧ ⟦<Box2Class as KeyClass>⟧ ⟦<Box3 as Shape>⟧ ⟦<Box3Class as KeyClass>⟧
        ⟦<FileDisk as SectorDisk>⟧.state file.now
        opener.old opener.new (outputs_of W.contents E.contents writer.old faults.old)
        (outputs_of W.contents E.contents writer.new faults.new) result }
{
    match opener.open(file, Access::Write) {
        Ok(disk) => {
            let (disk, status) = dump_device(alloc, disk, FRAMES, writer, faults);
            leave(opener, file, disk, faults);
            status
        }
        Err(fault) => refuse_file(file, fault, writer, faults),
    }
}

/// Opens an existing file only for reading, and verifies the index of boxes that it holds. The file doesn't change.
///
/// The status is that of `verify_device`, with 64 frames. It is also 1 if the file can't be opened: then the function
/// writes `refused 11 device`, and reports the file's name and the cause to the user. If a call of the file failed, it
/// reports why.
pub fn verify_file<'w, F: Files<File = File>, W: Write, E: Write>(
    opener: &mut Opener<'w, F>,
    alloc: Global,
    file: &'w str,
    writer: &mut Noted<W>,
    faults: &mut Noted<E>,
) -> u8
    ensures { EndsVerify ⟦<Box2 as Shape>⟧ ⟦<Box2Class as KeyClass>⟧ ⟦<Box3 as Shape>⟧ ⟦<Box3Class as KeyClass>⟧
        ⟦<FileDisk as SectorDisk>⟧.state file.now
        opener.old opener.new (outputs_of W.contents E.contents writer.old faults.old)
        (outputs_of W.contents E.contents writer.new faults.new) result }
{
    match opener.open(file, Access::Read) {
        Ok(mut disk) => {
            let status = verify_device(alloc, &mut disk, FRAMES, writer, faults);
            leave(opener, file, disk, faults);
            status
        }
        Err(fault) => refuse_file(file, fault, writer, faults),
    }
}

/// Opens an existing file only for reading, opens or creates another, which it extends if it is shorter, and migrates
/// the index of boxes of the first version that the first holds to the other. The first file doesn't change.
///
/// The status is that of `migrate_device`. It is also 1 if either file can't be opened, so also if both are one: then
/// the function writes `refused 11 device`, and reports that file's name and the cause to the user. If the first holds
/// no index of boxes of the first version, the function writes `refused N text`, reports to the user what that means,
/// and opens no other file. If a call of a file failed, it reports why.
pub fn migrate_file<'w, F: Files<File = File>, W: Write, E: Write>(
    opener: &mut Opener<'w, F>,
    alloc: Global,
    old: &'w str,
    new: &'w str,
    frames: usize,
    writer: &mut Noted<W>,
    faults: &mut Noted<E>,
) -> u8
    ensures { EndsMigration ⟦<Box2 as Shape>⟧ ⟦<Box2Class as KeyClass>⟧ ⟦<Box3 as Shape>⟧ ⟦<Box3Class as KeyClass>⟧
        ⟦<FileDisk as SectorDisk>⟧.state old.now new.now opener.old opener.new frames
        (outputs_of W.contents E.contents writer.old faults.old)
        (outputs_of W.contents E.contents writer.new faults.new) result }
{
    match opener.open(old, Access::Read) {
        Ok(mut disk) => {
            let status = migrate_older(opener, alloc, &mut disk, new, frames, writer, faults);
            leave(opener, old, disk, faults);
            status
        }
        Err(fault) => refuse_file(old, fault, writer, faults),
    }
}

// Migrates the index of boxes of the first version that a device holds to a file, and returns the status. If it holds
// none, that is reported, and no file is opened.
fn migrate_older<'w, F: Files<File = File>, W: Write, E: Write>(
    opener: &mut Opener<'w, F>,
    alloc: Global,
    old: &mut FileDisk,
    new: &'w str,
    frames: usize,
    writer: &mut Noted<W>,
    faults: &mut Noted<E>,
) -> u8
    ensures { FollowsOlder ⟦<Box2 as Shape>⟧ ⟦<Box2Class as KeyClass>⟧ ⟦<Box3 as Shape>⟧ ⟦<Box3Class as KeyClass>⟧
        ⟦<FileDisk as SectorDisk>⟧.state new.now opener.old opener.new frames old.old old.new
        (outputs_of W.contents E.contents writer.old faults.old)
        (outputs_of W.contents E.contents writer.new faults.new) result }
{
    match kind_of_old(old) {
        Ok(found) => migrate_to(
            opener, alloc, found.0, found.1, old, new, frames, writer, faults,
        ),
        Err(why) => refuse(writer, faults, why),
    }
}

// Opens or creates a file, extends a shorter one for an index of so many pages, and migrates the index of a device to
// it.
fn migrate_to<'w, F: Files<File = File>, W: Write, E: Write>(
    opener: &mut Opener<'w, F>,
    alloc: Global,
    kind: Kind,
    pages: u32,
    old: &mut FileDisk,
    new: &'w str,
    frames: usize,
    writer: &mut Noted<W>,
    faults: &mut Noted<E>,
) -> u8
    ensures { EndsMove ⟦<Box2 as Shape>⟧ ⟦<Box2Class as KeyClass>⟧ ⟦<Box3 as Shape>⟧ ⟦<Box3Class as KeyClass>⟧
        ⟦<FileDisk as SectorDisk>⟧.state kind pages new.now opener.old opener.new frames old.old old.new
        (outputs_of W.contents E.contents writer.old faults.old)
        (outputs_of W.contents E.contents writer.new faults.new) result }
{
    match opener.open(new, Access::Create(sectors_for(pages))) {
        Ok(mut disk) => {
            let status = migrate_device(alloc, kind, old, &mut disk, frames, writer, faults);
            leave(opener, new, disk, faults);
            status
        }
        Err(fault) => refuse_file(new, fault, writer, faults),
    }
}

// Keeps the device of a file as the command left it, and if a call of it failed, reports to the user why the last of
// those did.
fn leave<'w, F: Files<File = File>, E: Write>(
    opener: &mut Opener<'w, F>,
    file: &str,
    disk: FileDisk,
    faults: &mut Noted<E>,
)
    ensures { Leaves file.now disk opener.old opener.new
        (stream_of E.contents faults.old) (stream_of E.contents faults.new) }
{
    if let Some(fault) = disk.fault() {
        tell_file(faults, file, fault);
    }
    opener.keep(disk);
}

// Writes that the device was refused, reports to the user why, and returns the status.
fn refuse_file<W: Write, E: Write>(
    file: &str,
    fault: DiskFault,
    writer: &mut Noted<W>,
    faults: &mut Noted<E>,
) -> u8
    ensures { HasNoDevice file.now fault (outputs_of W.contents E.contents writer.old faults.old)
        (outputs_of W.contents E.contents writer.new faults.new) result }
{
    tell_file(faults, file, fault);
    print_refusal(writer, Refusal::Device);
    REFUSED
}
