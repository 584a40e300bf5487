//! A device in memory. It keeps a record of its writes and syncs, since a crash may fall at each earlier moment.
ghost use Rattle.std.specs.Prelude.{◌≡◌, ◌+◌, ◌-◌, ◌*◌, ◌/◌, ◌%◌, ◌<◌, ◌≤◌, ℕ, List, [], ◌∷◌};
ghost use Rattle.std.specs.Prelude.{◌++◌, length, take, drop, replicate, Bool, false, true};
ghost use Rattle.std.specs.Prelude.{IsTrue, IsOk, IfOk, IfErr, OnOk, OnErr, vec_len, vec_capacity};
ghost use Rattle.gx_disk.specs.Sectors.{IsSpan, put};
ghost use Rattle.gx_disk.specs.Device.{IsImage, Counts, Reads, Writes, Syncs};
ghost use Rattle.gx_disk.specs.Memory.{pending_after, bytes_at, device_of, IsKept};
ghost use Rattle.gx_disk.specs.Crash.{pending_below, IsCrash};
ghost use Rattle.gx_disk.specs.Past.{image_counts, image_is_now};
ghost use Rattle.gx_disk.specs.Room.{HasRoom};

use crate::device::{DiskFault, SECTOR_SIZE, SectorDisk};
use crate::tally::{Tally, counted};
use crate::tear::{count_pending, tear};
use std::alloc::{AllocError, Global};

/// What a crash leaves of a sector that was written since the last sync.
#[derive(Clone, Copy)]
pub enum Torn {
    /// Its bytes at the last sync.
    Old,
    /// Its bytes now.
    New,
    /// These bytes.
    Bytes([u8; 512]),
}

// A write or sync that was made.
#[derive(Clone, Copy)]
pub(crate) enum PastCall {
    // A write of so many sectors from the first on. The overwritten bytes of the last ones aren't kept, since the write
    // didn't change them.
    Write {
        first: usize,
        sectors: usize,
        kept: usize,
    },
    Sync,
}

/// A device in memory, of which a crash may be asked.
#[derive(Drop)]
pub struct MemDisk {
    sectors: usize,
    bytes: Vec<u8>,
    // the writes and syncs since the device was made, cut or crashed
    past: Vec<PastCall>,
    // the overwritten bytes that they kept
    kept: Vec<u8>,
    // how many of the calls, and of the bytes, come up to the last sync
    synced: usize,
    synced_size: usize,
    faults: Tally,
    calls: Tally,
    ghost whole: { length bytes.items ≡ 512 * sectors },
    ghost recorded: { IsKept sectors past.items kept.items synced synced_size },
}

// So many bytes from a place on.
pub(crate) fn part(bytes: &[u8], at: usize, size: usize) -> &[u8]
    requires { at + size ≤ length bytes.now }
    ensures { result.now ≡ take size (drop at bytes.now) }
{
    &bytes[at..at + size]
}

// What comes after the first so many.
fn behind<T>(all: &[T], count: usize) -> &[T]
    requires { count ≤ length all.now }
    ensures { result.now ≡ drop count all.now }
{
    &all[count..]
}

// Whether the bytes are the same.
fn are_same(old: &[u8], new: &[u8]) -> bool
    ensures { result ≡ true → old.now ≡ new.now }
{
    old == new
}

// How many of the first sectors differ, so that the others are the same in both.
fn changed(old: &[u8], new: &[u8]) -> usize
    requires sizes { length old.now ≡ length new.now }
    requires whole { length new.now % 512 ≡ 0 }
    ensures within { 512 * result ≤ length new.now }
    ensures same { drop (512 * result) old.now ≡ drop (512 * result) new.now }
{
    let mut n = new.len() / SECTOR_SIZE;
    while n > 0 {
        let at = SECTOR_SIZE * (n - 1);
        if !are_same(part(old, at, SECTOR_SIZE), part(new, at, SECTOR_SIZE)) {
            return n;
        }
        n -= 1;
    }
    n
}

// Puts a call and its overwritten bytes into the record. If there is no memory for them, the record doesn't change.
fn remember(
    past: &mut Vec<PastCall>,
    kept: &mut Vec<u8>,
    call: PastCall,
    bytes: &[u8],
) -> Result<(), AllocError>
    ensures ok { OnOk result ((past.new.items ≡ past.old.items ++ call ∷ [])
        × (kept.new.items ≡ kept.old.items ++ bytes.now)) }
    ensures err { OnErr result ((past.new.items ≡ past.old.items) × (kept.new.items ≡ kept.old.items)) }
    ensures succeeds { HasRoom 1 (length bytes.now) past.old kept.old → IsOk result }
    ensures room { (c n : ℕ) → HasRoom (c + 1) (n + length bytes.now) past.old kept.old
        → HasRoom c n past.new kept.new }
{
    past.reserve(1)?;
    kept.extend_from_slice(bytes)?;
    past.push_reserved(call);
    Ok(())
}

#[tactic(auto, unfolding(crate::specs::Sectors::put))]
// Puts bytes over those from a place on.
pub(crate) fn overwrite(bytes: &mut Vec<u8>, at: usize, new: &[u8])
    requires { at + length new.now ≤ length bytes.old.items }
    ensures { bytes.new.items ≡ put at new.now bytes.old.items }
{
    bytes[at..at + new.len()].copy_from_slice(new);
}

impl MemDisk {
    #[tactic(auto, unfolding(crate::specs::Memory::total_kept, crate::specs::Memory::fit_all))]
    /// A device of these bytes, which are whole sectors, with nothing pending.
    pub fn from_bytes(alloc: Global, bytes: Vec<u8>) -> MemDisk
        requires { length bytes.items % 512 ≡ 0 }
        ensures bytes { result.bytes ≡ bytes }
        ensures past { result.past.items ≡ [] }
    {
        MemDisk {
            sectors: bytes.len() / SECTOR_SIZE,
            bytes,
            past: Vec::new(alloc),
            kept: Vec::new(alloc),
            synced: 0,
            synced_size: 0,
            faults: Tally::zero(),
            calls: Tally::zero(),
        }
    }

    /// Makes a device of so many sectors of zero bytes, with nothing pending. Refused if there is no memory for it.
    pub fn new(alloc: Global, sectors: usize) -> Result<MemDisk, AllocError>
        ensures bytes { IfOk result (λ disk. disk.bytes.items ≡ replicate (512 * sectors) 0) }
        ensures past { IfOk result (λ disk. disk.past.items ≡ []) }
    {
        let Some(size) = sectors.checked_mul(SECTOR_SIZE) else {
            return Err(AllocError);
        };
        let mut bytes = Vec::new(alloc);
        bytes.resize(size, 0)?;
        Ok(MemDisk::from_bytes(alloc, bytes))
    }

    /// Allocates the record of so many writes and syncs that write so many sectors in all. Refused if memory is
    /// refused.
    pub fn reserve(&mut self, calls: usize, sectors: usize) -> Result<(), AllocError>
        ensures room { OnOk result (HasRoom calls (512 * sectors) self.new.past self.new.kept) }
        ensures bytes { self.new.bytes ≡ self.old.bytes }
        ensures past { (self.new.past.items ≡ self.old.past.items) × (self.new.kept.items ≡ self.old.kept.items) }
        ensures rest { (self.new.sectors ≡ self.old.sectors) × (self.new.synced ≡ self.old.synced)
            × (self.new.faults ≡ self.old.faults) × (self.new.calls ≡ self.old.calls) }
    {
        let Some(size) = sectors.checked_mul(SECTOR_SIZE) else {
            return Err(AllocError);
        };
        self.past.reserve(calls)?;
        self.kept.reserve(size)
    }

    /// Cuts the device to its first sectors, with nothing pending. Its record is empty then; the counts of faults and
    /// calls go on.
    #[tactic(auto, unfolding(crate::specs::Memory::total_kept, crate::specs::Memory::fit_all))]
    pub fn cut(&mut self, sectors: usize)
        requires { sectors ≤ self.old.sectors }
        ensures sectors { self.new.sectors ≡ sectors }
        ensures bytes { self.new.bytes.items ≡ take (512 * sectors) self.old.bytes.items }
        ensures past { self.new.past.items ≡ [] }
        ensures room { (c n : ℕ) → HasRoom c n self.old.past self.old.kept → HasRoom c n self.new.past self.new.kept }
        ensures counts { (self.new.faults ≡ self.old.faults) × (self.new.calls ≡ self.old.calls) }
    {
        self.bytes.truncate(SECTOR_SIZE * sectors);
        self.sectors = sectors;
        self.past.clear();
        self.kept.clear();
        self.synced = 0;
        self.synced_size = 0;
    }

    /// Its bytes, as reads return them.
    pub fn bytes(&self) -> &[u8]
        ensures { result.now ≡ self.now.bytes.items }
    {
        &self.bytes
    }

    /// How many sectors were written since the last sync that succeeded, or the last crash.
    pub fn unsynced(&self) -> usize
        ensures { result ≡ pending_below (pending_after self.now.past.items false) self.now.sectors }
    {
        count_pending(behind(&self.past, self.synced), self.sectors)
    }

    #[tactic(auto, unfolding(crate::specs::Memory::total_kept, crate::specs::Memory::fit_all))]
    /// A crash. The i-th unsynced sector by number takes the choice i mod the number of choices; with none all are old.
    /// Afterwards nothing is pending, and the record is empty; the counts of faults and calls go on.
    pub fn crash(&mut self, torn: &[Torn])
        ensures crash { IsCrash self.old.sectors (pending_after self.old.past.items false) torn.now
            (bytes_at self.old.synced self.old.past.items self.old.kept.items self.old.bytes.items)
            self.old.bytes.items self.new.bytes.items }
        ensures image { IsImage self.old.bytes.items (pending_after self.old.past.items false) self.new.bytes.items }
        ensures past { self.new.past.items ≡ [] }
        ensures sectors { self.new.sectors ≡ self.old.sectors }
        ensures room { (c n : ℕ) → HasRoom c n self.old.past self.old.kept → HasRoom c n self.new.past self.new.kept }
        ensures counts { (self.new.faults ≡ self.old.faults) × (self.new.calls ≡ self.old.calls) }
    {
        let calls = behind(&self.past, self.synced);
        let kept = behind(&self.kept, self.synced_size);
        tear(&mut self.bytes, calls, kept, self.sectors, torn);
        self.past.clear();
        self.kept.clear();
        self.synced = 0;
        self.synced_size = 0;
    }
}

impl SectorDisk for MemDisk {
    ghost state = { λ d. device_of d.sectors d.past.items d.kept.items d.bytes.items d.faults.count d.calls.count };

    ghost whole = { λ d honest. d.whole };

    ghost counts_now = { λ d t image honest. image_counts d.sectors d.past.items d.kept.items d.bytes.items
        d.faults.count d.calls.count t image };

    ghost only_now = { λ d image honest. image_is_now d.sectors d.past.items d.kept.items d.bytes.items
        d.faults.count d.calls.count image };

    fn sectors(&self) -> u64 {
        self.sectors as u64
    }

    #[tactic(auto, unfolding(crate::specs::Sectors::span_of))]
    fn read(&mut self, first: u64, buffer: &mut [u8]) -> Result<(), DiskFault> {
        let at = SECTOR_SIZE * first as usize;
        buffer.copy_from_slice(part(&self.bytes, at, buffer.len()));
        Ok(())
    }

    fn write(&mut self, first: u64, bytes: &[u8]) -> Result<(), DiskFault>
        requires { IsSpan self.old.sectors first (length bytes.now) }
        ensures counts { Counts 1 (⟦<MemDisk as SectorDisk>⟧.state self.old)
            (⟦<MemDisk as SectorDisk>⟧.state self.new) result }
        ensures writes { Writes first (length bytes.now / SECTOR_SIZE) bytes.now
            (⟦<MemDisk as SectorDisk>⟧.state self.old) (⟦<MemDisk as SectorDisk>⟧.state self.new) result }
        ensures fault { IfErr result (λ fault. fault ≡ DiskFault.Memory) }
        ensures room { HasRoom 1 (length bytes.now) self.old.past self.old.kept → IsOk result }
        ensures left { (c n : ℕ) → HasRoom (c + 1) (n + length bytes.now) self.old.past self.old.kept
            → HasRoom c n self.new.past self.new.kept }
    {
        self.calls = self.calls.next();
        let first = first as usize;
        let at = SECTOR_SIZE * first;
        let kept = changed(part(&self.bytes, at, bytes.len()), bytes);
        let count = bytes.len() / SECTOR_SIZE;
        let call = PastCall::Write {
            first,
            sectors: count,
            kept,
        };
        let overwritten = part(&self.bytes, at, SECTOR_SIZE * kept);
        match remember(&mut self.past, &mut self.kept, call, overwritten) {
            Ok(()) => {
                overwrite(&mut self.bytes, at, bytes);
                Ok(())
            }
            Err(_) => counted(&mut self.faults, Err(DiskFault::Memory)),
        }
    }

    fn sync(&mut self) -> Result<(), DiskFault>
        ensures counts { Counts 1 (⟦<MemDisk as SectorDisk>⟧.state self.old)
            (⟦<MemDisk as SectorDisk>⟧.state self.new) result }
        ensures syncs { Syncs (⟦<MemDisk as SectorDisk>⟧.state self.old)
            (⟦<MemDisk as SectorDisk>⟧.state self.new) result }
        ensures fault { IfErr result (λ fault. fault ≡ DiskFault.Memory) }
        ensures room { HasRoom 1 0 self.old.past self.old.kept → IsOk result }
        ensures left { (c n : ℕ) → HasRoom (c + 1) n self.old.past self.old.kept
            → HasRoom c n self.new.past self.new.kept }
    {
        self.calls = self.calls.next();
        match remember(&mut self.past, &mut self.kept, PastCall::Sync, &[]) {
            Ok(()) => {
                self.synced = self.past.len();
                self.synced_size = self.kept.len();
                Ok(())
            }
            Err(_) => counted(&mut self.faults, Err(DiskFault::Memory)),
        }
    }
}
