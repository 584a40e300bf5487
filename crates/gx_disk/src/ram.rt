//! A device in memory that keeps no record of its writes and syncs. Only proofs know them, so the device can't be
//! crashed.
ghost use Rattle.std.specs.Prelude.{◌≡◌, ◌*◌, ◌/◌, ◌++◌, ◌∷◌, [], List, ℕ, true, length, replicate, IsOk, IfOk};
ghost use Rattle.gx_disk.specs.Sectors.{IsSpan};
ghost use Rattle.gx_disk.specs.Device.{Counts, Reads, Writes, Syncs};
ghost use Rattle.gx_disk.specs.Memory.{device_of, fit_all, kept_of, total_kept};
ghost use Rattle.gx_disk.specs.declared.memory.PastCall.{PastCall};
ghost use Rattle.gx_disk.specs.Past.{image_counts, image_is_now};
ghost use base.Fml.{ftrue};

use crate::device::{DiskFault, SECTOR_SIZE, SectorDisk};
use crate::memory::{PastCall, overwrite, part};
use crate::tally::Tally;
use std::alloc::{AllocError, Global};
use std::marker::Model;

/// The writes and syncs of a device since it was made, and the bytes that they overwrote. Only proofs read it: it takes
/// no bytes, so it may grow without bound.
#[derive(Drop)]
pub(crate) struct Past {
    pub(crate) ghost calls: { List PastCall },
    pub(crate) ghost kept: { List ℕ },
}

impl Model for Past {
    ghost also_owns = { λ _. ftrue };
}

// It owns nothing.
unsafe impl Send for Past {}

impl Past {
    /// Nothing was made.
    fn none() -> Past
        ensures { (result.calls ≡ []) × (result.kept ≡ []) }
    {
        Past {}
    }
}

/// A device in memory that can't be crashed. Contracts see it as they see a `MemDisk`. Its writes and syncs take no
/// memory, so none fails.
#[derive(Drop)]
pub struct RamDisk {
    sectors: usize,
    bytes: Vec<u8>,
    past: Past,
    calls: Tally,
    ghost whole: { length bytes.items ≡ 512 * sectors },
    ghost fits: { fit_all sectors past.calls ≡ true },
    ghost sized: { total_kept past.calls ≡ length past.kept },
}

impl RamDisk {
    /// Makes a device of so many sectors of zero bytes, with nothing pending. Refused if there is no memory for it.
    #[tactic(auto, unfolding(crate::specs::Memory::total_kept, crate::specs::Memory::fit_all))]
    pub fn new(alloc: Global, sectors: usize) -> Result<RamDisk, AllocError>
        ensures bytes { IfOk result (λ disk. disk.bytes.items ≡ replicate (512 * sectors) 0) }
        ensures past { IfOk result (λ disk. disk.past.calls ≡ []) }
    {
        let Some(size) = sectors.checked_mul(SECTOR_SIZE) else {
            return Err(AllocError);
        };
        let mut bytes = Vec::new(alloc);
        bytes.resize(size, 0)?;
        Ok(RamDisk {
            sectors,
            bytes,
            past: Past::none(),
            calls: Tally::zero(),
        })
    }

    /// Returns the calls that were made of the device, with this one after them.
    fn past_after(&self, call: &PastCall) -> Past
        ensures { (result.calls ≡ self.now.past.calls ++ call.now ∷ [])
            × (result.kept ≡ self.now.past.kept ++ kept_of call.now self.now.bytes.items) }
    {
        Past {}
    }
}

impl SectorDisk for RamDisk {
    ghost state = { λ d. device_of d.sectors d.past.calls d.past.kept d.bytes.items 0 d.calls.count };

    ghost whole = { λ d honest. d.whole };

    ghost counts_now = { λ d t image honest. image_counts d.sectors d.past.calls d.past.kept d.bytes.items
        0 d.calls.count t image };

    ghost only_now = { λ d image honest. image_is_now d.sectors d.past.calls d.past.kept d.bytes.items
        0 d.calls.count image };

    fn sectors(&self) -> u64 {
        self.sectors as u64
    }

    #[tactic(auto, unfolding(crate::specs::Sectors::span_of))]
    fn read(&mut self, first: u64, buffer: &mut [u8]) -> Result<(), DiskFault>
        requires { IsSpan self.old.sectors first (length buffer.old) }
        ensures counts { Counts 0 (⟦<RamDisk as SectorDisk>⟧.state self.old)
            (⟦<RamDisk as SectorDisk>⟧.state self.new) result }
        ensures reads { Reads first buffer.new
            (⟦<RamDisk as SectorDisk>⟧.state self.old) (⟦<RamDisk as SectorDisk>⟧.state self.new) result }
        ensures done { IsOk result }
    {
        let at = SECTOR_SIZE * first as usize;
        buffer.copy_from_slice(part(&self.bytes, at, buffer.len()));
        Ok(())
    }

    fn write(&mut self, first: u64, bytes: &[u8]) -> Result<(), DiskFault>
        requires { IsSpan self.old.sectors first (length bytes.now) }
        ensures counts { Counts 1 (⟦<RamDisk as SectorDisk>⟧.state self.old)
            (⟦<RamDisk as SectorDisk>⟧.state self.new) result }
        ensures writes { Writes first (length bytes.now / SECTOR_SIZE) bytes.now
            (⟦<RamDisk as SectorDisk>⟧.state self.old) (⟦<RamDisk as SectorDisk>⟧.state self.new) result }
        ensures done { IsOk result }
    {
        self.calls = self.calls.next();
        let first = first as usize;
        let sectors = bytes.len() / SECTOR_SIZE;
        let call = PastCall::Write {
            first,
            sectors,
            kept: sectors,
        };
        self.past = self.past_after(&call);
        overwrite(&mut self.bytes, SECTOR_SIZE * first, bytes);
        Ok(())
    }

    fn sync(&mut self) -> Result<(), DiskFault>
        ensures counts { Counts 1 (⟦<RamDisk as SectorDisk>⟧.state self.old)
            (⟦<RamDisk as SectorDisk>⟧.state self.new) result }
        ensures syncs { Syncs (⟦<RamDisk as SectorDisk>⟧.state self.old)
            (⟦<RamDisk as SectorDisk>⟧.state self.new) result }
        ensures done { IsOk result }
    {
        self.calls = self.calls.next();
        self.past = self.past_after(&PastCall::Sync);
        Ok(())
    }
}
