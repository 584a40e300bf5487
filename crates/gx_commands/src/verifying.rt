//! Verifies a device, and reports what it finds.
ghost use Rattle.std.specs.Prelude.{◌≡◌, true, IfErr, IfSome};
ghost use Rattle.gx_commands.specs.Streams.{outputs_of};
ghost use Rattle.gx_commands.specs.Lines.{verified_line};
ghost use Rattle.gx_commands.specs.Verifying.{CopyFinds, TellsReport, TellsUnverified, Verifies, VerifiesOver};
ghost use Rattle.gx_restart.specs.Copied.{memory_state};
ghost use Rattle.gx_restart.specs.Verified.{why_of};
ghost use Rattle.gx_restart.specs.Setting.{HandsOutAs, IsDamagedCopyAs};

use crate::opening::tell_found;
use crate::person::tell_fault;
use crate::refusals::{print_refusal, refuse};
use crate::{DONE, REFUSED};
use arrayvec::ArrayString;
use gx_class::{Probing, ReadKeys};
use gx_disk::{MemDisk, SectorDisk};
use gx_geom::Refusal;
use gx_opening::{Damage, examine};
use gx_restart::{NotVerified, Report, verify_or_copy};
use gx_script::{Noted, write_whole};
use itoa::Buffer;
use std::alloc::Global;
use std::io::Write;

/// More bytes than the line has.
const LONGEST: usize = 96;

// The line for a device that was verified.
fn line_of(report: &Report) -> ArrayString<LONGEST>
    ensures { result.bytes ≡ verified_line report.now }
{
    let mut digits = Buffer::new();
    let mut line = ArrayString::new();
    line.push_str("ok commits ");
    line.push_str(digits.format(report.commits));
    line.push_str(" entries ");
    line.push_str(digits.format(report.entries));
    line.push_str(" used ");
    line.push_str(digits.format(report.used));
    line.push_str("\n");
    line
}

// Writes that line, and returns the status.
fn tell_report<W: Write, E: Write>(
    report: &Report,
    writer: &mut Noted<W>,
    faults: &mut Noted<E>,
) -> u8
    ensures { TellsReport report.now (outputs_of W.contents E.contents writer.old faults.old)
        (outputs_of W.contents E.contents writer.new faults.new) result }
{
    match write_whole(writer, line_of(report).as_str().as_bytes()) {
        Ok(()) => DONE,
        Err(fault) => {
            tell_fault(faults, fault, writer.kind);
            REFUSED
        }
    }
}

// What is damaged in a copy, if there is one.
fn damage_in<K: ReadKeys>(alloc: Global, copy: Option<MemDisk>) -> Result<Option<Damage>, Refusal>
    ensures { CopyFinds K.Key.Shape K.ReadKeys K.CLASS copy result }
{
    match copy {
        Some(copy) => examine::<MemDisk, K>(alloc, copy).1,
        None => Ok(None),
    }
}

// Reports why a device isn't verified, and returns the status.
fn refuse_verified<K: ReadKeys, W: Write, E: Write>(
    alloc: Global,
    refused: NotVerified,
    writer: &mut Noted<W>,
    faults: &mut Noted<E>,
) -> u8
    ensures { TellsUnverified (CopyFinds K.Key.Shape K.ReadKeys K.CLASS refused.copy) refused.why
        (outputs_of W.contents E.contents writer.old faults.old)
        (outputs_of W.contents E.contents writer.new faults.new) result }
{
    let NotVerified { why, copy } = refused;
    match why {
        Refusal::Damaged => {
            tell_found(faults, damage_in::<K>(alloc, copy));
            print_refusal(writer, why);
            REFUSED
        }
        _ => refuse(writer, faults, why),
    }
}

// Verifies a device.
fn verified<D: SectorDisk, K: ReadKeys + Probing>(
    alloc: Global,
    disk: &mut D,
    frames: usize,
) -> Result<Report, NotVerified>
    ensures told { Verifies K.Key.Shape K.ReadKeys D.state K.CLASS frames disk.old disk.new (why_of result) }
    ensures damaged { (D.state disk.old).honest ≡ true → IfErr result (λ n. n.why ≡ Refusal.Damaged → IfSome n.copy
        (λ copy. IsDamagedCopyAs K.Key.Shape K.ReadKeys (D.state disk.old) (memory_state copy))) }
    ensures copy { (D.state disk.old).honest ≡ true → IfErr result (HandsOutAs K.Key.Shape K.ReadKeys) }
{
    verify_or_copy::<D, K>(alloc, disk, frames)
}

/// Verifies a device with so many frames for pages, 16 to 4,096, as `gx_restart::verify` does, writes `ok commits N
/// entries E used U`, and returns the status. Nothing is written to the device.
///
/// The status is 0 if the line was written. It is 1 in all other cases. If the line couldn't be written, the function
/// reports that to the user, unless the reader of the line has closed its end. If the device isn't verified, the
/// function writes `refused N text`, and reports to the user what that means, and for damage where it is, which it
/// finds in a copy of the device.
pub fn verify_over<D: SectorDisk, K: ReadKeys + Probing, W: Write, E: Write>(
    alloc: Global,
    disk: &mut D,
    frames: usize,
    writer: &mut Noted<W>,
    faults: &mut Noted<E>,
) -> u8
    ensures { VerifiesOver K.Key.Shape K.ReadKeys D.state K.CLASS frames disk.old disk.new
        (outputs_of W.contents E.contents writer.old faults.old)
        (outputs_of W.contents E.contents writer.new faults.new) result }
{
    match verified::<D, K>(alloc, disk, frames) {
        Ok(report) => tell_report(&report, writer, faults),
        Err(refused) => refuse_verified::<K, W, E>(alloc, refused, writer, faults),
    }
}
