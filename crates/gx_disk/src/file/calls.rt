//! The calls of a device in a file.
ghost use Rattle.std.specs.Prelude.{◌≡◌, ◌+◌, ◌*◌, ◌^◌, ◌<◌, ◌≤◌, ℕ, List, length, MatchResult, Some, Err, false};
ghost use Rattle.gx_disk.specs.Device.{Counts};
ghost use Rattle.gx_disk.specs.Files.{KeepsFault};
ghost use Rattle.gx_disk.specs.Sectors.{IsSpan};

use super::ahead::Marks;
use super::opening::{SECTOR, file_fault};
use crate::FileDisk;
use crate::device::{DiskFault, SectorDisk};
use crate::layout::PAGES_AT;
use crate::tally::{Tally, counted};
use std::fs::File;
use std::os::unix::fs::FileExt;

// Returns a call's outcome. A refusal is kept, and counts as one fault.
fn noted(
    kept: &mut Option<DiskFault>,
    faults: &mut Tally,
    outcome: Result<(), DiskFault>,
) -> Result<(), DiskFault>
    ensures outcome { result ≡ outcome }
    ensures kept { MatchResult outcome (λ _. kept.new ≡ kept.old) (λ fault. kept.new ≡ Some fault) }
    ensures faults { MatchResult outcome (λ _. faults.new.count ≡ faults.old.count)
        (λ _. faults.new.count ≡ faults.old.count + 1) }
{
    if let Err(fault) = outcome {
        *kept = Some(fault);
    }
    counted(faults, outcome)
}

// Syncs a file's data, and its size if it grew. It makes no system call if an early sync has made all writes durable
// already, and none if an early sync has failed, whose fault refuses this sync too.
fn settle(file: &File, grown: bool, ahead: Option<&Marks>) -> Result<(), DiskFault> {
    if let Some(fault) = ahead.and_then(Marks::fault) {
        return Err(fault);
    }
    if !grown && ahead.is_some_and(Marks::all_settled) {
        return Ok(());
    }
    file_fault(if grown {
        file.sync_all()
    } else {
        file.sync_data()
    })?;
    if let Some(marks) = ahead {
        marks.settle_all();
    }
    Ok(())
}

impl SectorDisk for FileDisk {
    ghost use Rattle.std.specs.Prelude.{[]};
    ghost use Rattle.std.proofs.lemmas.Bool.{false≢true};

    ghost state = { λ f. record {
      sectors = f.sectors;
      seen = [];
      pending = λ s. false;
      moment = 0;
      left_since = λ t image. Unit {0};
      faults = f.faults.count;
      calls = f.calls.count;
      honest = false;
    } };

    ghost whole = { λ f honest. absurd (false≢true honest) };

    ghost counts_now = { λ f t image honest le may. tt };

    ghost only_now = { λ f image honest left. absurd (false≢true honest) };

    fn sectors(&self) -> u64 {
        self.sectors
    }

    fn read(&mut self, first: u64, buffer: &mut [u8]) -> Result<(), DiskFault>
        requires { IsSpan self.old.sectors first (length buffer.old) }
        ensures counts { Counts 0 (⟦<FileDisk as SectorDisk>⟧.state self.old)
            (⟦<FileDisk as SectorDisk>⟧.state self.new) result }
        ensures keeps { KeepsFault self.old self.new result }
    {
        let outcome = file_fault(self.file.read_exact_at(buffer, first * SECTOR));
        noted(&mut self.fault, &mut self.faults, outcome)
    }

    fn write(&mut self, first: u64, bytes: &[u8]) -> Result<(), DiskFault>
        requires { IsSpan self.old.sectors first (length bytes.now) }
        ensures counts { Counts 1 (⟦<FileDisk as SectorDisk>⟧.state self.old)
            (⟦<FileDisk as SectorDisk>⟧.state self.new) result }
        ensures keeps { KeepsFault self.old self.new result }
        ensures refused { self.old.writable ≡ false → result ≡ Err DiskFault.ReadOnly }
    {
        self.calls = self.calls.next();
        let outcome = if self.writable {
            file_fault(self.file.write_all_at(bytes, first * SECTOR))
        } else {
            Err(DiskFault::ReadOnly)
        };
        if let Some(marks) = &self.ahead {
            marks.wrote(first < PAGES_AT);
        }
        noted(&mut self.fault, &mut self.faults, outcome)
    }

    fn sync(&mut self) -> Result<(), DiskFault>
        ensures counts { Counts 1 (⟦<FileDisk as SectorDisk>⟧.state self.old)
            (⟦<FileDisk as SectorDisk>⟧.state self.new) result }
        ensures keeps { KeepsFault self.old self.new result }
        ensures refused { self.old.writable ≡ false → result ≡ Err DiskFault.ReadOnly }
    {
        self.calls = self.calls.next();
        let outcome = if self.writable {
            settle(&self.file, self.grown, self.ahead.as_deref())
        } else {
            Err(DiskFault::ReadOnly)
        };
        if outcome.is_ok() {
            self.grown = false;
        }
        noted(&mut self.fault, &mut self.faults, outcome)
    }
}
