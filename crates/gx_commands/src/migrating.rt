//! Migrates an index of the first version from one device to another, and reports what it comes to.
ghost use Rattle.std.specs.Prelude.{◌≡◌};
ghost use Rattle.gx_commands.specs.Lines.{migrated_line};
ghost use Rattle.gx_commands.specs.Migrating.{Migrates, MigratesOver, TellsMigrated};
ghost use Rattle.gx_commands.specs.Streams.{outputs_of};

use crate::person::tell_fault;
use crate::refusals::refuse;
use crate::{DONE, REFUSED};
use arrayvec::ArrayString;
use gx_class::ReadKeys;
use gx_disk::SectorDisk;
use gx_geom::Refusal;
use gx_migrate::migrate;
use gx_script::{Noted, write_whole};
use itoa::Buffer;
use std::alloc::Global;
use std::io::Write;

/// More bytes than the line has.
const LONGEST: usize = 64;

// The line for an index that was migrated: the number of its last commit, and the greatest page in use.
fn line_of(commits: u64, used: u32) -> ArrayString<LONGEST>
    ensures { result.bytes ≡ migrated_line commits used }
{
    let mut digits = Buffer::new();
    let mut line = ArrayString::new();
    line.push_str("migrated commits ");
    line.push_str(digits.format(commits));
    line.push_str(" used ");
    line.push_str(digits.format(used));
    line.push_str("\n");
    line
}

// Writes that line, and returns the status.
fn tell_migrated<W: Write, E: Write>(
    commits: u64,
    used: u32,
    writer: &mut Noted<W>,
    faults: &mut Noted<E>,
) -> u8
    ensures { TellsMigrated commits used (outputs_of W.contents E.contents writer.old faults.old)
        (outputs_of W.contents E.contents writer.new faults.new) result }
{
    match write_whole(writer, line_of(commits, used).as_str().as_bytes()) {
        Ok(()) => DONE,
        Err(fault) => {
            tell_fault(faults, fault, writer.kind);
            REFUSED
        }
    }
}

// Migrates.
fn migrated<D: SectorDisk, N: SectorDisk, K: ReadKeys>(
    alloc: Global,
    old: &mut D,
    new: &mut N,
    frames: usize,
) -> Result<(u64, u32), Refusal>
    ensures { Migrates K.Key.Shape K.ReadKeys D.state N.state frames old.old old.new new.old new.new result }
{
    migrate::<D, N, K>(alloc, old, new, frames)
}

/// Migrates the index of the first version that one device holds to another, as [`gx_migrate::migrate`] does; writes
/// `migrated commits N used U`; and returns the status. Nothing is written to the first device.
///
/// The status is 0 if both were done. It is 1 if the line couldn't be written: the index is migrated then, and the
/// function reports to the user why, unless the reader of the line has closed its end. It is also 1 if the migration
/// was refused: then the function writes `refused N text`, and reports to the user what that means.
pub fn migrate_over<D: SectorDisk, N: SectorDisk, K: ReadKeys, W: Write, E: Write>(
    alloc: Global,
    old: &mut D,
    new: &mut N,
    frames: usize,
    writer: &mut Noted<W>,
    faults: &mut Noted<E>,
) -> u8
    ensures { MigratesOver K.Key.Shape K.ReadKeys D.state N.state frames old.old old.new new.old new.new
        (outputs_of W.contents E.contents writer.old faults.old)
        (outputs_of W.contents E.contents writer.new faults.new) result }
{
    match migrated::<D, N, K>(alloc, old, new, frames) {
        Ok(told) => tell_migrated(told.0, told.1, writer, faults),
        Err(why) => refuse(writer, faults, why),
    }
}
