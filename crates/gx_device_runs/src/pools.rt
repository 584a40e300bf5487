//! Frames over a device, call by call.
ghost use Rattle.std.specs.Prelude.{◌≡◌, ◌==◌};
ghost use Rattle.std.specs.Bool.{OnTrue};
ghost use Rattle.gx_pool.specs.Area.{IsPage, first_of};

use crate::fault::RunFault;
use crate::records::fresh;
use crate::words::{Line, Part, say, say_number, say_parts, to_u32, to_usize};
use gx_disk::{MAX_PAGES, PAGE_SECTORS, PAGES_AT, SectorDisk};
use gx_page::{PAGE_SIZE, Page, PageFault};
use gx_pool::{FRAMES, PageTest, Pool, PoolFault};
use std::alloc::{AllocError, Global};

/// Pages of level 0 pass.
#[derive(Drop)]
pub(crate) struct Leaves;

impl PageTest for Leaves {
    ghost passes = { λ test page. page.level == 0 };

    fn passes(&self, page: &Page) -> bool {
        page.level() == 0
    }
}

/// The number that a call gives, if any.
type Answer = Result<Option<u64>, PoolFault>;

const DONE: Answer = Ok(None);

/// Whether the device has the page.
pub(crate) fn is_there<D: SectorDisk>(disk: &D, page: u32) -> bool
    ensures { OnTrue result (IsPage (D.state disk.now).sectors page) }
{
    if page < 1 || page as usize > MAX_PAGES {
        return false;
    }
    disk.sectors() >= PAGES_AT + PAGE_SECTORS * u64::from(page)
}

/// The sector at which a page begins.
fn first_sector(page: u32) -> u64
    ensures { result ≡ first_of page }
{
    PAGES_AT + PAGE_SECTORS * u64::from(page.saturating_sub(1))
}

/// Writes the image of a fresh page to the sectors of a place.
fn lay<D: SectorDisk>(
    alloc: Global,
    disk: &mut D,
    place: u32,
    level: u64,
    number: u64,
) -> Result<(), RunFault> {
    if !is_there(disk, place) {
        return Err(RunFault::BadLine);
    }
    let page = fresh(alloc, level, number)?;
    match disk.write(first_sector(place), page.image()) {
        Ok(()) => Ok(()),
        Err(_) => Err(RunFault::Device),
    }
}

fn bring<D: SectorDisk>(pool: &mut Pool<Leaves>, disk: &mut D, page: u32) -> Answer {
    if !is_there(disk, page) {
        return Err(PoolFault::Damaged);
    }
    pool.bring_one(disk, page)?;
    DONE
}

/// A page's sequence number as `view` lends it.
fn view<D: SectorDisk>(pool: &mut Pool<Leaves>, disk: &mut D, page: u32) -> Answer {
    if !is_there(disk, page) {
        return Err(PoolFault::Damaged);
    }
    Ok(Some(pool.view(disk, page)?.nsn()))
}

/// Gives a page that `change` lends a sequence number, as a change of a batch.
fn change<D: SectorDisk>(
    pool: &mut Pool<Leaves>,
    disk: &mut D,
    page: u32,
    batch: u64,
    nsn: u64,
) -> Answer {
    if !is_there(disk, page) {
        return Err(PoolFault::Damaged);
    }
    pool.change(disk, page, batch)?.set_nsn(nsn);
    DONE
}

/// The same of a page that is kept.
fn change_kept(pool: &mut Pool<Leaves>, page: u32, batch: u64, nsn: u64) -> Answer {
    if page as usize > MAX_PAGES || !pool.is_kept(page) {
        return Err(PoolFault::Damaged);
    }
    pool.change_kept(page, batch).set_nsn(nsn);
    DONE
}

fn write<D: SectorDisk>(pool: &mut Pool<Leaves>, disk: &mut D, page: u32) -> Answer {
    if !is_there(disk, page) {
        return Err(PoolFault::Damaged);
    }
    match pool.write_page(disk, page) {
        Ok(_) => DONE,
        Err(_) => Err(PoolFault::Device),
    }
}

/// Holds no page, and releases those that were held.
fn hold_none<D: SectorDisk>(pool: &mut Pool<Leaves>, disk: &mut D) -> Answer {
    pool.bring(disk, &[])?;
    pool.release();
    DONE
}

/// Says up to which batch all are gated.
fn gate(pool: &mut Pool<Leaves>, batch: u64) -> Answer {
    pool.gated(batch);
    DONE
}

/// A kept page's sequence number.
fn nsn(pool: &Pool<Leaves>, page: u32) -> Option<u64> {
    if page as usize > MAX_PAGES || !pool.is_kept(page) {
        return None;
    }
    Some(pool.page(page).nsn())
}

/// How many of the pages below a number are kept.
fn kept_below(pool: &Pool<Leaves>, end: u32) -> u64 {
    let mut kept = 0_u64;
    for page in 1..end {
        if nsn(pool, page).is_some() {
            kept = kept.wrapping_add(1);
        }
    }
    kept
}

/// Whether the device has this page, byte for byte.
fn has_page<D: SectorDisk>(disk: &mut D, page: &Page) -> bool {
    let number = page.number();
    if !is_there(disk, number) {
        return false;
    }
    let mut bytes = [0_u8; PAGE_SIZE];
    disk.read(first_sector(number), &mut bytes).is_ok() && page.image() == bytes.as_slice()
}

/// How many of the pages below a number the device has as blank leaves of a sequence number.
fn leaves_below<D: SectorDisk>(
    alloc: Global,
    disk: &mut D,
    end: u32,
    nsn: u64,
) -> Result<u64, PageFault> {
    let mut leaves = 0_u64;
    for number in 1..end {
        let mut page = Page::fresh(alloc, 0, number)?;
        page.set_nsn(nsn);
        if has_page(disk, &page) {
            leaves = leaves.wrapping_add(1);
        }
    }
    Ok(leaves)
}

/// A pool of so many empty frames, or of as many as one has at most.
pub(crate) fn empty(alloc: Global, frames: usize) -> Result<Pool<Leaves>, AllocError> {
    Pool::with_capacity(alloc, frames.min(FRAMES), Leaves)
}

/// Makes a call of the pool.
fn make<D: SectorDisk>(pool: &mut Pool<Leaves>, disk: &mut D, line: &Line<'_>) -> Answer {
    let [_, number, second, third, ..] = line.numbers;
    let page = to_u32(number);
    match line.asked() {
        "bring" => bring(pool, disk, page),
        "view" => view(pool, disk, page),
        "change" => change(pool, disk, page, second, third),
        "change-kept" => change_kept(pool, page, second, third),
        "gated" => gate(pool, number),
        "write" => write(pool, disk, page),
        _ => hold_none(pool, disk),
    }
}

fn say_answer<R: Print>(rt: &R, answer: Answer) -> Result<(), RunFault> {
    match answer {
        Ok(None) => say(rt, "done"),
        Ok(Some(number)) => say_number(rt, number),
        Err(PoolFault::NoCleanFrame) => say(rt, "no clean frame"),
        Err(PoolFault::Device) => say(rt, "device"),
        Err(PoolFault::Damaged) => say(rt, "damaged"),
    }
}

/// A line that calls the pool.
pub(crate) fn call<R: Print, D: SectorDisk>(
    rt: &R,
    pool: &mut Pool<Leaves>,
    disk: &mut D,
    line: &Line<'_>,
) -> Result<(), RunFault> {
    say_answer(rt, make(pool, disk, line))
}

fn say_look<R: Print>(rt: &R, found: Option<u64>) -> Result<(), RunFault> {
    match found {
        Some(number) => say_number(rt, number),
        None => say(rt, "none"),
    }
}

/// A line that looks at the pool: a page's sequence number, the least page that may be written, how many are dirty or
/// kept.
pub(crate) fn look<R: Print>(rt: &R, pool: &Pool<Leaves>, line: &Line<'_>) -> Result<(), RunFault> {
    let page = to_u32(line.numbers[1]);
    let found = match line.asked() {
        "dirty" => pool.dirty().map(|page| u64::from(page)),
        "dirty-frames" => Some(pool.dirty_frames() as u64),
        "nsn" => nsn(pool, page),
        _ => Some(kept_below(pool, page)),
    };
    say_look(rt, found)
}

/// A line about pages on the device itself.
pub(crate) fn on_device<R: Print, D: SectorDisk>(
    rt: &R,
    alloc: Global,
    disk: &mut D,
    line: &Line<'_>,
) -> Result<(), RunFault> {
    let [_, page, second, third, ..] = line.numbers;
    if line.asked() == "lay" {
        lay(alloc, disk, to_u32(page), second, third)?;
        return say(rt, "done");
    }
    say_number(rt, leaves_below(alloc, disk, to_u32(page), second)?)
}

/// Another pool, of so many frames.
pub(crate) fn renew<R: Print>(
    rt: &R,
    alloc: Global,
    pool: &mut Pool<Leaves>,
    line: &Line<'_>,
) -> Result<(), RunFault> {
    *pool = empty(alloc, to_usize(line.numbers[0]))?;
    say_parts(
        rt,
        &[
            Part::Number(pool.clean_frames() as u64),
            Part::Text(" clean frames"),
        ],
    )
}
