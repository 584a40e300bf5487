//! A device that is made to fail.
ghost use Rattle.std.specs.Prelude.{◌≡◌, ◌+◌, ◌-◌, ◌^◌, ◌/◌, ◌||◌, ℕ, true, false, length, min, IsErr};
ghost use Rattle.gx_disk.specs.Sectors.{IsSpan};
ghost use Rattle.gx_disk.specs.Device.{Counts, Reads, Writes, Syncs};
ghost use Rattle.gx_disk.specs.Fuse.{blows, blows_again, passed_after, Burns, IsMade};

use crate::device::{DiskFault, SECTOR_SIZE, SectorDisk};
use crate::tally::{Tally, counted};

/// How often a fuse blows.
#[derive(Clone, Copy)]
pub enum Fuse {
    /// One call fails, and those after it pass.
    Once,
    /// Every call fails from then on.
    ForEver,
}

impl Fuse {
    fn blows_again(self) -> bool
        ensures { result ≡ blows_again self }
    {
        match self {
            Fuse::Once => false,
            Fuse::ForEver => true,
        }
    }
}

/// A device that passes so many calls to another, and then fails.
#[derive(Drop)]
pub struct FuseDisk<D> {
    inner: D,
    left: u64,
    fuse: Fuse,
    done: bool,
    blown: bool,
    // the calls that were passed on
    passed: u64,
    faults: Tally,
    calls: Tally,
}

impl<D: SectorDisk> FuseDisk<D> {
    /// Passes k reads, writes and syncs to the inner device. Then one call fails, or every call. `done` says whether a
    /// failing write is made all the same.
    pub fn new(inner: D, k: u64, fuse: Fuse, done: bool) -> FuseDisk<D>
        ensures inner { result.inner ≡ inner }
        ensures left { result.left ≡ k }
        ensures fuse { result.fuse ≡ fuse }
        ensures done { result.done ≡ done }
        ensures whole { result.blown ≡ false }
        ensures passed { result.passed ≡ 0 }
    {
        FuseDisk {
            inner,
            left: k,
            fuse,
            done,
            blown: false,
            passed: 0,
            faults: Tally::zero(),
            calls: Tally::zero(),
        }
    }

    /// Returns the inner device, as the calls left it.
    pub fn into_inner(self) -> D
        ensures { result ≡ self.inner }
    {
        let FuseDisk {
            inner,
            left: _,
            fuse: _,
            done: _,
            blown: _,
            passed: _,
            faults: _,
            calls: _,
        } = self;
        inner
    }

    /// How many reads, writes and syncs it has passed on, whatever the inner device returned. The count stays at 2^64 -
    /// 1.
    pub fn calls(&self) -> u64
        ensures { result ≡ self.now.passed }
    {
        self.passed
    }
}

// Counts a call: one less is left to pass, or the fuse blows. Returns whether it blows.
fn burn(left: &mut u64, blown: &mut bool, fuse: Fuse) -> bool
    ensures blows { result ≡ blows left.old blown.old fuse }
    ensures left { left.new ≡ left.old - 1 }
    ensures blown { blown.new ≡ (blown.old || blows left.old blown.old fuse) }
{
    if *left > 0 {
        *left -= 1;
        return false;
    }
    let again = !*blown || fuse.blows_again();
    *blown = *blown || again;
    again
}

// Counts a call that was passed on, and returns its outcome.
fn passed_on(passed: &mut u64, outcome: Result<(), DiskFault>) -> Result<(), DiskFault>
    ensures outcome { result ≡ outcome }
    ensures passed { passed.new ≡ passed_after false passed.old }
{
    *passed = passed.saturating_add(1);
    outcome
}

impl<D: SectorDisk> SectorDisk for FuseDisk<D> {
    ghost state = { λ f. record {
      sectors = (D.state f.inner).sectors;
      seen = (D.state f.inner).seen;
      pending = (D.state f.inner).pending;
      moment = (D.state f.inner).moment;
      left_since = (D.state f.inner).left_since;
      faults = f.faults.count;
      calls = f.calls.count;
      honest = (D.state f.inner).honest;
    } };

    ghost whole = { λ f. D.whole f.inner };

    ghost counts_now = { λ f. D.counts_now f.inner };

    ghost only_now = { λ f. D.only_now f.inner };

    fn sectors(&self) -> u64 {
        self.inner.sectors()
    }

    fn read(&mut self, first: u64, buffer: &mut [u8]) -> Result<(), DiskFault>
        requires { IsSpan (D.state self.old.inner).sectors first (length buffer.old) }
        ensures counts { Counts 0 (⟦<FuseDisk<D> as SectorDisk>⟧.state self.old)
            (⟦<FuseDisk<D> as SectorDisk>⟧.state self.new) result }
        ensures reads { (D.state self.old.inner).honest ≡ true
            → Reads first buffer.new (⟦<FuseDisk<D> as SectorDisk>⟧.state self.old)
            (⟦<FuseDisk<D> as SectorDisk>⟧.state self.new) result }
        ensures burns { Burns self.old.fuse self.new.fuse self.old.done self.new.done self.old.left self.new.left
            self.old.blown self.new.blown }
        ensures passed { self.new.passed
            ≡ passed_after (blows self.old.left self.old.blown self.old.fuse) self.old.passed }
        ensures fails { blows self.old.left self.old.blown self.old.fuse ≡ true
            → IsErr result × (self.new.inner ≡ self.old.inner) }
        ensures passes { blows self.old.left self.old.blown self.old.fuse ≡ false
            → Counts 0 (D.state self.old.inner) (D.state self.new.inner) result }
    {
        if burn(&mut self.left, &mut self.blown, self.fuse) {
            return counted(&mut self.faults, Err(DiskFault::Fuse));
        }
        let outcome = passed_on(&mut self.passed, self.inner.read(first, buffer));
        counted(&mut self.faults, outcome)
    }

    fn write(&mut self, first: u64, bytes: &[u8]) -> Result<(), DiskFault>
        requires { IsSpan (D.state self.old.inner).sectors first (length bytes.now) }
        ensures counts { Counts 1 (⟦<FuseDisk<D> as SectorDisk>⟧.state self.old)
            (⟦<FuseDisk<D> as SectorDisk>⟧.state self.new) result }
        ensures writes { (D.state self.old.inner).honest ≡ true
            → Writes first (length bytes.now / SECTOR_SIZE) bytes.now (⟦<FuseDisk<D> as SectorDisk>⟧.state self.old)
            (⟦<FuseDisk<D> as SectorDisk>⟧.state self.new) result }
        ensures burns { Burns self.old.fuse self.new.fuse self.old.done self.new.done self.old.left self.new.left
            self.old.blown self.new.blown }
        ensures passed { self.new.passed
            ≡ passed_after (blows self.old.left self.old.blown self.old.fuse) self.old.passed }
        ensures fails { blows self.old.left self.old.blown self.old.fuse ≡ true → IsErr result }
        ensures not_made { blows self.old.left self.old.blown self.old.fuse ≡ true → self.old.done ≡ false
            → self.new.inner ≡ self.old.inner }
        ensures made { blows self.old.left self.old.blown self.old.fuse ≡ true → self.old.done ≡ true
            → IsMade first (length bytes.now / SECTOR_SIZE) bytes.now
            (D.state self.old.inner) (D.state self.new.inner) }
        ensures passes { blows self.old.left self.old.blown self.old.fuse ≡ false
            → Counts 1 (D.state self.old.inner) (D.state self.new.inner) result }
    {
        self.calls = self.calls.next();
        if burn(&mut self.left, &mut self.blown, self.fuse) {
            if self.done {
                let _ = self.inner.write(first, bytes);
            }
            return counted(&mut self.faults, Err(DiskFault::Fuse));
        }
        let outcome = passed_on(&mut self.passed, self.inner.write(first, bytes));
        counted(&mut self.faults, outcome)
    }

    fn sync(&mut self) -> Result<(), DiskFault>
        ensures counts { Counts 1 (⟦<FuseDisk<D> as SectorDisk>⟧.state self.old)
            (⟦<FuseDisk<D> as SectorDisk>⟧.state self.new) result }
        ensures syncs { (D.state self.old.inner).honest ≡ true
            → Syncs (⟦<FuseDisk<D> as SectorDisk>⟧.state self.old)
            (⟦<FuseDisk<D> as SectorDisk>⟧.state self.new) result }
        ensures burns { Burns self.old.fuse self.new.fuse self.old.done self.new.done self.old.left self.new.left
            self.old.blown self.new.blown }
        ensures passed { self.new.passed
            ≡ passed_after (blows self.old.left self.old.blown self.old.fuse) self.old.passed }
        ensures fails { blows self.old.left self.old.blown self.old.fuse ≡ true
            → IsErr result × (self.new.inner ≡ self.old.inner) }
        ensures passes { blows self.old.left self.old.blown self.old.fuse ≡ false
            → Counts 1 (D.state self.old.inner) (D.state self.new.inner) result }
    {
        self.calls = self.calls.next();
        if burn(&mut self.left, &mut self.blown, self.fuse) {
            return counted(&mut self.faults, Err(DiskFault::Fuse));
        }
        let outcome = passed_on(&mut self.passed, self.inner.sync());
        counted(&mut self.faults, outcome)
    }
}
