//! Frames in long runs over devices in memory, against a list of what was last written to each page.
use crate::fault::RunFault;
use crate::pools::{Leaves, empty, is_there};
use crate::words::{Line, Part, say_parts, truth};
use gx_disk::{Fuse, FuseDisk, MAX_PAGES, MemDisk, PAGES_AT, SectorDisk};
use gx_pool::{Pool, PoolFault};
use rand_core::utils::NextWord;
use rand_pcg::Pcg32;
use std::alloc::{AllocError, Global};

/// A pool of 16 frames, and of each page the sequence number that it was last given; none was made yet of a page
/// without one.
#[derive(Drop)]
struct Run {
    pool: Pool<Leaves>,
    last: Vec<Option<u64>>,
}

fn start(alloc: Global, pages: usize) -> Result<Run, AllocError> {
    let last = vec![in alloc; None; pages]?;
    let pool = empty(alloc, 16)?;
    Ok(Run { pool, last })
}

fn last_of(run: &Run, page: u32) -> Option<u64> {
    run.last.get(page as usize).copied().flatten()
}

/// Brings a page that was made, or makes it.
fn bring_or_make<D: SectorDisk>(
    run: &mut Run,
    disk: &mut D,
    page: u32,
    step: u64,
) -> Option<PoolFault> {
    if !is_there(disk, page) {
        return Some(PoolFault::Damaged);
    }
    if last_of(run, page).is_some() {
        return run.pool.bring_one(disk, page).err();
    }
    if run.pool.is_kept(page) {
        return Some(PoolFault::Damaged);
    }
    if run.pool.clean_frames() == 0 {
        return Some(PoolFault::NoCleanFrame);
    }
    run.pool.create(page, 0, step);
    if let Some(last) = run.last.get_mut(page as usize) {
        *last = Some(0);
    }
    None
}

/// Gives a kept page a sequence number, as a change of that batch.
fn change(run: &mut Run, page: u32, step: u64) -> bool {
    if page as usize > MAX_PAGES || !run.pool.is_kept(page) {
        return false;
    }
    run.pool.change_kept(page, step).set_nsn(step);
    if let Some(last) = run.last.get_mut(page as usize) {
        *last = Some(step);
    }
    true
}

/// Whether a page is kept with the sequence number that it was last given.
fn is_right(run: &Run, page: u32) -> bool {
    if page as usize > MAX_PAGES || !run.pool.is_kept(page) {
        return false;
    }
    Some(run.pool.page(page).nsn()) == last_of(run, page)
}

/// Writes the least page that may be written, if there is one.
fn write_one<D: SectorDisk>(run: &mut Run, disk: &mut D) -> Option<PoolFault> {
    let page = run.pool.dirty()?;
    if !is_there(disk, page) {
        return None;
    }
    match run.pool.write_page(disk, page) {
        Ok(_) => None,
        Err(_) => Some(PoolFault::Device),
    }
}

/// A step's number, its page, and whether it changes the page.
#[derive(Clone, Copy)]
struct Step {
    number: u64,
    page: u32,
    changes: bool,
}

/// Takes a step: every fourth gates all batches before it; a page is written if one may be; one is read, and perhaps
/// changed. The first fault ends it.
fn take_step<D: SectorDisk>(run: &mut Run, disk: &mut D, step: Step) -> Option<PoolFault> {
    let Step {
        number,
        page,
        changes,
    } = step;
    if number % 4 == 0 {
        run.pool.gated(number.saturating_sub(1));
    }
    if let Some(fault) = write_one(run, disk) {
        return Some(fault);
    }
    if let Some(fault) = bring_or_make(run, disk, page, number) {
        return Some(fault);
    }
    if !is_right(run, page) || (changes && !change(run, page, number)) {
        return Some(PoolFault::Damaged);
    }
    None
}

/// Writes all that was changed up to a step, and says whether each page below a number then reads from the device as it
/// was last given.
fn ends_well<D: SectorDisk>(run: &mut Run, disk: &mut D, step: u64, pages: u32) -> bool {
    run.pool.gated(step);
    for _frame in 0..16 {
        if write_one(run, disk).is_some() {
            return false;
        }
    }
    for page in 1..pages {
        if last_of(run, page).is_some()
            && (bring_or_make(run, disk, page, step).is_some() || !is_right(run, page))
        {
            return false;
        }
    }
    run.pool.dirty().is_none()
}

/// How many of 4,000 steps over 2,000 pages go well, and whether the run ends well.
fn run_long(run: &mut Run, disk: &mut MemDisk) -> (u64, bool) {
    let mut draw = Pcg32::new(42, 54);
    let mut taken = 0_u64;
    for number in 1..4_001_u64 {
        let word = draw.next_word();
        let step = Step {
            number,
            page: 1 + (word >> 8) % 2000,
            changes: word % 3 == 0,
        };
        if take_step(run, disk, step).is_none() {
            taken = taken.wrapping_add(1);
        }
    }
    (taken, ends_well(run, disk, 4_000, 2001))
}

fn say_long<R: Print>(rt: &R, alloc: Global) -> Result<(), RunFault> {
    let mut disk = MemDisk::new(alloc, PAGES_AT as usize + 8 * 2000)?;
    let mut run = start(alloc, 2001)?;
    let (taken, well) = run_long(&mut run, &mut disk);
    say_parts(
        rt,
        &[
            Part::Number(taken),
            Part::Text(" steps as the list has it, the end too: "),
            Part::Text(truth(well)),
        ],
    )
}

/// How often the device failed at a step, which is then repeated. `None` if it is refused again, or for another reason.
fn take_step_again<D: SectorDisk>(run: &mut Run, disk: &mut D, step: Step) -> Option<u64> {
    let fault = take_step(run, disk, step);
    if fault.is_none() {
        return Some(0);
    }
    if fault != Some(PoolFault::Device) || take_step(run, disk, step).is_some() {
        return None;
    }
    Some(1)
}

/// In how many of 30 steps over 20 pages the device failed. `None` if a step is refused again, or for another reason.
fn run_with_faults<D: SectorDisk>(run: &mut Run, disk: &mut D, stream: u64) -> Option<u64> {
    let mut draw = Pcg32::new(7, stream);
    let mut faults = 0_u64;
    for number in 1..31_u64 {
        let word = draw.next_word();
        let step = Step {
            number,
            page: 1 + (word >> 8) % 20,
            changes: word % 2 == 0,
        };
        faults = faults.wrapping_add(take_step_again(run, disk, step)?);
    }
    Some(faults)
}

/// What becomes of a run over a device that fails at one of its calls.
#[derive(Clone, Copy)]
enum End {
    /// No step failed, and all reads as it was last written.
    Passed,
    /// One step failed, or the end; all reads as it was last written, unless the end failed.
    Failed,
    /// Something was lost.
    Lost,
}

fn end_of(faults: Option<u64>, well: bool) -> End {
    match (faults, well) {
        (Some(0), true) => End::Passed,
        (Some(0), false) | (Some(1), true) => End::Failed,
        _ => End::Lost,
    }
}

/// A run over a device that fails once, at its k-th call.
fn run_with_fault(alloc: Global, k: u64) -> Result<End, AllocError> {
    let inner = MemDisk::new(alloc, PAGES_AT as usize + 8 * 20)?;
    let mut disk = FuseDisk::new(inner, k, Fuse::Once, k % 2 == 0);
    let mut run = start(alloc, 21)?;
    let faults = run_with_faults(&mut run, &mut disk, k);
    Ok(end_of(faults, ends_well(&mut run, &mut disk, 30, 21)))
}

/// A run for each of so many calls: how many lose something, and whether some pass and some fail.
fn say_faults<R: Print>(rt: &R, alloc: Global, calls: u64) -> Result<(), RunFault> {
    let mut lost = 0_u64;
    let mut passed = false;
    let mut failed = false;
    for k in 0..calls {
        match run_with_fault(alloc, k)? {
            End::Passed => passed = true,
            End::Failed => failed = true,
            End::Lost => lost = lost.wrapping_add(1),
        }
    }
    say_parts(
        rt,
        &[
            Part::Number(lost),
            Part::Text(" lose a change, some fail: "),
            Part::Text(truth(failed)),
            Part::Text(", some don't: "),
            Part::Text(truth(passed)),
        ],
    )
}

/// A line that asks for runs.
pub(crate) fn call<R: Print>(rt: &R, alloc: Global, line: &Line<'_>) -> Result<(), RunFault> {
    match line.asked() {
        "long" => say_long(rt, alloc),
        _ => say_faults(rt, alloc, line.numbers[1]),
    }
}
