//! The pool: pages of a device that is lent to each call that may use it.
ghost use Rattle.std.specs.Prelude.{Bool, List, ◌≡◌, ◌≢◌, ◌⊎◌, ◌<◌, ◌≤◌, ◌+◌, ◌/◌, ◌↔◌, ℕ, []};
ghost use Rattle.std.specs.Prelude.{true, false, Some, None, IsSome, IfSome, IfNone, IfErr, IfOk};
ghost use Rattle.std.specs.Prelude.{OnOk, OnErr, length, slice_index, slice_index_or, max};
ghost use Rattle.std.specs.Borrow.{sem};
ghost use Rattle.std.specs.Bool.{OnTrue, OnFalse};
ghost use Rattle.gx_disk.specs.Device.{CountsFault, SameDevice};
ghost use Rattle.gx_page.specs.Edits.{blank};
ghost use Rattle.gx_pool.specs.Area.{bytes_of, IsPage, IsPassing};
ghost use Rattle.gx_pool.specs.Marks.{clean, empty};
ghost use Rattle.gx_pool.specs.State.{Kept, IsEmpty, IsSound, NoneDirty, AllKept, clean_count, dirty_count};
ghost use Rattle.gx_pool.specs.State.{holding, kept, mark_at, place_of, NoneClean, SomeClean, IsSpare, IsWritable};
ghost use Rattle.gx_pool.specs.Creating.{Creates, Copies};
ghost use Rattle.gx_pool.specs.Gated.{IsAreaSettled, KeepsArea, NamesGated};
ghost use Rattle.gx_pool.specs.Laws.{IsPassed};
ghost use Rattle.gx_pool.specs.Readable.{StaysReadable};
ghost use Rattle.gx_pool.specs.Writing.{WritesPage, WritesAtMost, may_be_written, WritesGated, StaysShown};
ghost use Rattle.gx_pool.specs.Bringing.{Brings, BringsOne, ComesAlone, GoesAlone};
ghost use Rattle.gx_pool.specs.Bringing.{OthersStayOrGo, OnlyRead, faults_of, BringsAll};

use crate::area::first_sector;
use crate::fault::PoolFault;
use crate::frames::{FRAMES, Frames};
use crate::mark::HELD;
use crate::passing::PageTest;
use gx_disk::{MAX_PAGES, SectorDisk};
use gx_geom::Refusal;
use gx_page::{PAGE_SIZE, Page};
use std::alloc::{AllocError, Global};

/// Frames with pages, and the test that each passes as it comes in.
#[derive(Drop)]
pub struct Pool<T> {
    frames: Frames,
    buffer: Box<[u8; PAGE_SIZE]>,
    test: T,
}

impl<T: PageTest> Pool<T> {
    ghost use Rattle.gx_pool.specs.Lending.{lends_change};
    ghost use Rattle.gx_pool.specs.Viewing.{lends_brought, lends_view};

    /// Makes a pool of so many frames, all empty, with the test of its pages. It allocates all memory that the pool
    /// ever takes.
    pub fn with_capacity(alloc: Global, frames: usize, test: T) -> Result<Pool<T>, AllocError>
        requires { frames ≤ FRAMES }
        ensures { IfOk result (λ pool. IsEmpty frames pool.frames × (pool.test ≡ test)) }
    {
        Ok(Pool {
            frames: Frames::with_capacity(alloc, frames)?,
            buffer: Box::new(alloc, zeroed::<PAGE_SIZE>())?,
            test,
        })
    }

    /// Whether a frame has the page of a number and it passes the test.
    fn is_right(&self, i: usize, page: u32) -> bool
        requires { i < length self.now.frames.marks }
        ensures yes { OnTrue result (((slice_index_or self.now.frames.pages i (blank 0 0)).number ≡ page)
            × (T.passes self.now.test (slice_index_or self.now.frames.pages i (blank 0 0)) ≡ true)) }
        ensures no { OnFalse result ((slice_index_or self.now.frames.pages i (blank 0 0)).number ≡ page
            → T.passes self.now.test (slice_index_or self.now.frames.pages i (blank 0 0)) ≡ true → ⊥) }
    {
        let read = self.frames.page_in(i);
        let is_its_own = read.number() == page;
        is_its_own && self.test.passes(read)
    }

    /// Reads a page's sectors into the buffer.
    fn read<D: SectorDisk>(&mut self, disk: &mut D, page: u32) -> Result<(), PoolFault>
        requires { IsPage (D.state disk.old).sectors page }
        ensures only_read { OnlyRead (D.state disk.old) (D.state disk.new) }
        ensures read { OnOk result ((D.state disk.old).honest ≡ true
            → bytes_of (D.state disk.old).seen page ≡ self.new.buffer.value) }
        ensures faults { (D.state disk.new).faults ≡ (D.state disk.old).faults + faults_of result }
        ensures fault { OnErr result (result ≡ Err PoolFault.Device) }
        ensures same { (self.new.frames ≡ self.old.frames) × (self.new.test ≡ self.old.test) }
    {
        match disk.read(first_sector(page), &mut self.buffer[..]) {
            Ok(()) => Ok(()),
            Err(_) => Err(PoolFault::Device),
        }
    }

    /// Takes the bytes that were read into a frame, if they are the image of the page and it passes the test.
    fn admit(&mut self, i: usize, page: u32) -> bool
        requires frame { (i < length self.old.frames.marks)
            × (clean self.old.frames.held (mark_at self.old.frames i) ≡ true) }
        requires page { (page ≤ MAX_PAGES) × (kept self.old.frames page ≡ None) }
        requires number { 1 ≤ page }
        ensures brings { (d : Bool) (seen : List ℕ) → (d ≡ true → bytes_of seen page ≡ self.old.buffer.value)
            → Brings (T.passes self.old.test) d seen self.old.frames self.new.frames }
        ensures alone { ComesAlone self.old.frames self.new.frames page }
        ensures goes { GoesAlone self.old.frames self.new.frames i }
        ensures others { OthersStayOrGo self.old.frames self.new.frames page }
        ensures admitted { OnTrue result (IsSome (kept self.new.frames page)) }
        ensures refused { OnFalse result (¬ IsPassing (T.passes self.old.test) page self.old.buffer.value) }
        ensures left { OnFalse result ((kept self.new.frames page ≡ None) × SomeClean self.new.frames) }
        ensures test { self.new.test ≡ self.old.test }
    {
        self.frames.vacate(i);
        let Ok(()) = self.frames.load(i, &self.buffer[..]) else {
            return false;
        };
        if !self.is_right(i, page) {
            return false;
        }
        self.frames.settle(i, page, None);
        true
    }

    /// Reads a page that isn't kept into a frame.
    fn fetch<D: SectorDisk>(&mut self, disk: &mut D, page: u32) -> Result<(), PoolFault>
        requires page { IsPage (D.state disk.old).sectors page }
        requires absent { kept self.old.frames page ≡ None }
        ensures fetched { BringsOne (T.passes self.old.test) (D.state disk.old) (D.state disk.new)
            self.old.frames self.new.frames page result }
        ensures idle { NoneClean self.old.frames → (self.new.frames ≡ self.old.frames) × (disk.new ≡ disk.old) }
        ensures test { self.new.test ≡ self.old.test }
    {
        let Some(i) = self.frames.frame_to_use() else {
            return Err(PoolFault::NoCleanFrame);
        };
        self.read(disk, page)?;
        if self.admit(i, page) {
            Ok(())
        } else {
            Err(PoolFault::Damaged)
        }
    }

    /// Brings a page into a frame, unless it is in one, and doesn't change what is held: `page` reads it then. A clean
    /// frame that is empty or has a leaf is used before one with a page above the leaves. If the page is in a frame, or
    /// no frame is clean (empty, or with a clean page that isn't held), the device isn't called. At most one page is
    /// evicted for it, and none if it is in a frame.
    ///
    /// Refused with `NoCleanFrame` exactly if it isn't in a frame and no frame is clean. Else with `Device` if the
    /// device failed; then no frame has changed. And with `Damaged` if the device has no page of that number, or one
    /// that fails the test; then a frame is empty.
    pub fn bring_one<D: SectorDisk>(&mut self, disk: &mut D, page: u32) -> Result<(), PoolFault>
        requires { IsPage (D.state disk.old).sectors page }
        ensures brought { BringsOne (T.passes self.old.test) (D.state disk.old) (D.state disk.new)
            self.old.frames self.new.frames page result }
        ensures idle { IsSome (kept self.old.frames page) ⊎ NoneClean self.old.frames
            → (self.new.frames ≡ self.old.frames) × (disk.new ≡ disk.old) }
        ensures test { self.new.test ≡ self.old.test }
    {
        if self.frames.is_kept(page) {
            return Ok(());
        }
        self.fetch(disk, page)
    }

    /// Holds these pages, up to four, and releases those that were held; reads the ones that aren't kept. An event
    /// brings its pages first: then it can read and change them, and none of that fails. A page above the leaves is
    /// evicted for them only if each leaf that may be evicted is too, and at most as many pages are evicted as weren't
    /// kept of these.
    ///
    /// Refused with the fault of the first page that can't be brought: `NoCleanFrame` exactly if no frame is empty or
    /// has a clean page other than these, else `Device` if the device failed, and `Damaged` if it has no page of that
    /// number, or one that fails the test. The pages before it are kept, and dirty pages haven't changed.
    pub fn bring<D: SectorDisk>(&mut self, disk: &mut D, pages: &[u32]) -> Result<(), PoolFault>
        requires few { length pages.now ≤ HELD }
        requires pages { (k : ℕ) → k < length pages.now → IsPage (D.state disk.old).sectors (slice_index pages.now k) }
        ensures brought { BringsAll (T.passes self.old.test) (D.state disk.old) (D.state disk.new)
            (holding self.old.frames pages.now) self.new.frames pages.now result }
        ensures idle { AllKept self.old.frames pages.now ⊎ NoneClean (holding self.old.frames pages.now)
            → (self.new.frames ≡ holding self.old.frames pages.now) × (disk.new ≡ disk.old) }
        ensures test { self.new.test ≡ self.old.test }
    {
        self.frames.hold(pages);
        for page in pages {
            self.bring_one(disk, *page)?;
        }
        Ok(())
    }

    /// How many frames are clean: empty, or with a clean page that isn't held. So many pages can be made.
    pub fn clean_frames(&self) -> usize
        ensures { result ≡ clean_count self.now.frames }
    {
        self.frames.clean_frames()
    }

    /// How many frames have a page with changes that aren't on the device: at most all, and 0 exactly if no page has
    /// any. Frames and the table of pages name each other, and the event holds at most four pages.
    pub fn dirty_frames(&self) -> usize
        ensures count { result ≡ dirty_count self.now.frames }
        ensures few { result ≤ length self.now.frames.marks }
        ensures zero { (result ≡ 0) ↔ NoneDirty self.now.frames }
        ensures sound { IsSound self.now.frames }
        ensures held { length self.now.frames.held ≤ 4 }
    {
        self.frames.dirty_frames()
    }

    /// Makes a page that was never written: blank, of a level, and with a change of a batch. The device isn't read,
    /// since the page's sectors may hold anything, and no memory is taken. A clean frame is used, so at most one page
    /// is evicted: a clean one that isn't held. The page is dirty, so it stays until it is written; nothing has to hold
    /// it.
    pub fn create(&mut self, page: u32, level: u16, batch: u64)
        requires page { (1 ≤ page) × (page ≤ MAX_PAGES) }
        requires absent { kept self.old.frames page ≡ None }
        requires frame { 0 < clean_count self.old.frames }
        ensures created { Creates self.old.frames self.new.frames page level batch }
        ensures test { self.new.test ≡ self.old.test }
    {
        self.frames.create(page, level, batch);
    }

    /// Makes a page that was never written as a copy of one that is kept, under its own number, and with a change of a
    /// batch. The page that is copied is dirty or held, so it stays. Else as `create`: the device isn't read, no memory
    /// is taken, and a clean frame is used.
    pub fn create_as(&mut self, page: u32, from: u32, batch: u64)
        requires page { (1 ≤ page) × (page ≤ MAX_PAGES) }
        requires absent { kept self.old.frames page ≡ None }
        requires from { (from ≤ MAX_PAGES) × IsSome (kept self.old.frames from) }
        requires stays { ¬ IsSpare self.old.frames from }
        requires frame { 0 < clean_count self.old.frames }
        ensures created { Copies self.old.frames self.new.frames page from batch }
        ensures test { self.new.test ≡ self.old.test }
    {
        self.frames.create_as(page, from, batch);
    }

    /// Writes the page in a frame to its sectors; it is clean then.
    fn write_frame<D: SectorDisk>(
        &mut self,
        disk: &mut D,
        i: usize,
        page: u32,
    ) -> Result<bool, Refusal>
        requires page { IsPage (D.state disk.old).sectors page }
        requires frame { (place_of self.old.frames page ≡ Some i) × (i < length self.old.frames.marks) }
        requires dirty { IsSome (mark_at self.old.frames i).stamp }
        requires sound { IsSound self.old.frames }
        ensures written { (k : Kept) → kept self.old.frames page ≡ Some k
            → WritesPage (D.state disk.old) (D.state disk.new) self.old.frames self.new.frames page k result }
        ensures answer { IfOk result (λ written. written ≡ true) }
        ensures refusal { IfErr result (λ refusal. refusal ≡ Refusal.Device) }
        ensures test { self.new.test ≡ self.old.test }
    {
        disk.write(first_sector(page), self.frames.page_in(i).image())?;
        self.frames.stamp(i, page, None);
        Ok(true)
    }

    /// Writes a page to its sectors if it has changes and all of them are in gated batches, and returns whether it did;
    /// else does nothing. Once it is written it is clean, and its frame may be used for another page.
    ///
    /// Whether it succeeds or not, no sector but the page's eight changes, each other page is kept unchanged, and each
    /// dirty page was dirty before with the same stamp. So if the sectors of all pages but some are settled, and the
    /// pages that may be written are among those, a crash at any moment of the call leaves each other page's bytes.
    ///
    /// Whether it succeeds or not, if each clean page is what an honest device has, each page is shown as before: as
    /// its last change, or what the device has. And each clean page is still what the device has.
    ///
    /// Refused with `Device` if the device failed. The page is then kept unchanged, with its changes.
    pub fn write_page<D: SectorDisk>(&mut self, disk: &mut D, page: u32) -> Result<bool, Refusal>
        requires { IsPage (D.state disk.old).sectors page }
        ensures answer { IfOk result (λ written. written ≡ may_be_written self.old.frames page) }
        ensures idle { may_be_written self.old.frames page ≡ false
            → (result ≡ Ok false) × (self.new ≡ self.old) × (disk.new ≡ disk.old) }
        ensures written { WritesGated (D.state disk.old) (D.state disk.new)
            self.old.frames self.new.frames page result }
        ensures area { (named : ℕ → Bool) → (D.state disk.old).honest ≡ true → NamesGated named self.old.frames
            → IsAreaSettled named (D.state disk.old) → KeepsArea named (D.state disk.old) (D.state disk.new) }
        ensures at_most { WritesAtMost (D.state disk.old) (D.state disk.new) self.old.frames self.new.frames page }
        ensures readable { StaysReadable (T.passes self.old.test) (D.state disk.old) (D.state disk.new)
            self.old.frames self.new.frames }
        ensures shown { StaysShown (D.state disk.old) (D.state disk.new) self.old.frames self.new.frames }
        ensures device { SameDevice (D.state disk.old) (D.state disk.new) }
        ensures faults { CountsFault (D.state disk.old) (D.state disk.new) result }
        ensures passing { IsPassed (T.passes self.old.test) self.old.frames
            → IsPassed (T.passes self.old.test) self.new.frames }
        ensures refusal { IfErr result (λ refusal. refusal ≡ Refusal.Device) }
        ensures test { self.new.test ≡ self.old.test }
    {
        match self.frames.writable(page) {
            Some(i) => self.write_frame(disk, i, page),
            None => Ok(false),
        }
    }

    /// The least page that has changes, all of them in gated batches: `write_page` writes it.
    pub fn dirty(&self) -> Option<u32>
        ensures found { IfSome result (λ page. IsWritable self.now.frames page
            × ((q : ℕ) → IsWritable self.now.frames q → page ≤ q)) }
        ensures none { IfNone result ((q : ℕ) → IsWritable self.now.frames q → ⊥) }
    {
        self.frames.dirty()
    }

    /// Notes how far the log is: batches up to this one are gated.
    pub fn gated(&mut self, batch: u64)
        ensures { self.new ≡ record self.old { frames = record self.old.frames { gated = batch } } }
    {
        self.frames.set_gated(batch);
    }

    /// Notes that a checkpoint has ended: the log goes on after batch 0, which is gated, in the other extent. All pages
    /// were written before.
    pub fn turned(&mut self)
        requires { NoneDirty self.old.frames }
        ensures { self.new ≡ record self.old { frames = record self.old.frames { gated = 0 } } }
    {
        self.frames.set_gated(0);
    }

    /// Releases the held pages.
    pub fn release(&mut self)
        ensures { self.new ≡ record self.old { frames = record self.old.frames { held = [] } } }
    {
        self.frames.hold(&[]);
    }

    /// Whether a page is in a frame.
    pub fn is_kept(&self, page: u32) -> bool
        requires { page ≤ MAX_PAGES }
        ensures kept { OnTrue result (IsSome (kept self.now.frames page)) }
        ensures absent { OnFalse result (kept self.now.frames page ≡ None) }
    {
        self.frames.is_kept(page)
    }

    /// A page that is in a frame, to read; several may be read at once.
    pub fn page(&self, page: u32) -> &Page
        requires page { page ≤ MAX_PAGES }
        requires kept { IsSome (kept self.now.frames page) }
        ensures { IfSome (kept self.now.frames page) (λ k. result.now ≡ k.page) }
    {
        self.frames.kept_page(page)
    }

    /// A page that is in a frame, to change, as of a batch:
    /// its greatest stamp is that batch, or a later one that it had.
    pub fn change_kept(&mut self, page: u32, batch: u64) -> &mut Page
        requires page { page ≤ MAX_PAGES }
        requires kept { IsSome (kept self.old.frames page) }
        ensures* writes_back { sem 𝓛 (lends_change T.row self.entry page batch result) }
        ensures page { IfSome (kept self.old.frames page) (λ k. result.now ≡ k.page) }
        ensures sound { IsSound self.old.frames }
    {
        self.frames.change_kept(page, batch)
    }

    /// Brings a page as `bring_one` does, and lends it to be read.
    ///
    /// Refused as `bring_one` is.
    pub fn view<D: SectorDisk>(&mut self, disk: &mut D, page: u32) -> Result<&Page, PoolFault>
        requires { IsPage (D.state disk.old).sectors page }
        ensures* viewed { sem 𝓛 (lends_view T.row (T.passes self.old.test) (D.state disk.old)
            (D.state disk.new) self.entry page result) }
        ensures idle { IsSome (kept self.old.frames page) ⊎ NoneClean self.old.frames → disk.new ≡ disk.old }
    {
        self.bring_one(disk, page)?;
        Ok(self.page(page))
    }

    /// Brings a page as `bring_one` does, and lends it to be changed, as of a batch:
    /// its greatest stamp is that batch, or a later one that it had.
    ///
    /// Refused as `bring_one` is; then no page has changed.
    pub fn change<D: SectorDisk>(
        &mut self,
        disk: &mut D,
        page: u32,
        batch: u64,
    ) -> Result<&mut Page, PoolFault>
        requires { IsPage (D.state disk.old).sectors page }
        ensures* changed { sem 𝓛 (lends_brought T.row (T.passes self.old.test) (D.state disk.old) (D.state disk.new)
            self.entry page batch result) }
        ensures idle { IsSome (kept self.old.frames page) ⊎ NoneClean self.old.frames → disk.new ≡ disk.old }
    {
        self.bring_one(disk, page)?;
        Ok(self.change_kept(page, batch))
    }
}

/// So many zeros.
fn zeroed<const N: usize>() -> [u8; N] {
    [0; N]
}
