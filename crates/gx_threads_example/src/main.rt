//! Threads over one index in a file, as a service has them: the index is opened, shared by threads, closed, settled,
//! and opened again.
//!
//! A line of `stdin` has two numbers: how many threads there are, 1 to 8, and how many transactions each makes. After
//! them a file may be named; the program makes an index in it, and what it held is lost. Without a file the device is
//! one in memory.
//!
//! After the word `single` a transaction has one insert, after `pair` a search and an insert, in place of three inserts
//! and a search. After `told` it has one insert too, and each commit is printed once it is acknowledged, so that the
//! program may be killed amid them.
//!
//! A line may have the word `storm` first, and then a seed, how many sessions there are and how many calls each makes;
//! so their calls are random, and the plain index replays the record.
//!
//! After `paced` the first thread commits so many single inserts, while each of the others commits one a millisecond;
//! after `reads` it commits without pause, while each of the others reads so often in one transaction. What they did is
//! printed, with the time that it took.
//!
//! The program prints what the record says of each session, how many calls were finished in all, how many commits were
//! acknowledged, and how many entries the index has once it is opened again: the same in whatever order threads came.
#![tactic(auto)]

mod beside;
mod index;
mod share;
mod storms;
mod trouble;
mod work;

use beside::{Beside, work_beside};
use gx_disk::{DiskFault, FileDisk, RamDisk, SectorDisk, SyncAhead};
use gx_format::sectors_for;
use index::{count, make, open_index, settle};
use share::share;
use std::alloc::Global;
use std::fs::{File, Files};
use std::rt::Clock;
use std::sync::Wait;
use std::thread::Threads;
use storms::{read_storm, storm};
use trouble::Trouble;
use work::Kind;

/// How many pages the device has.
const PAGES: u32 = 4096;

/// How many entries a node has at most.
const MOST: u16 = 100;

/// What a line wants.
#[derive(Clone, Copy)]
struct Wanted<'l> {
    threads: u8,
    transactions: u16,
    job: Job,
    file: Option<&'l str>,
}

/// A line's two numbers, and the file after them, if there is one.
fn read_line(line: &str) -> Result<Wanted<'_>, Trouble> {
    let (job, line) = Job::read(line);
    let Some((threads, rest)) = line.split_once(' ') else {
        return Err(Trouble::BadLine);
    };
    let (transactions, file) = match rest.split_once(' ') {
        Some((transactions, file)) => (transactions, Some(file)),
        None => (rest, None),
    };
    match (threads.parse::<u8>(), transactions.parse::<u16>()) {
        (Ok(threads), Ok(transactions)) => Ok(Wanted {
            threads,
            transactions,
            job,
            file,
        }),
        _ => Err(Trouble::BadLine),
    }
}

/// What a line has before its numbers.
#[derive(Clone, Copy)]
enum Job {
    /// All threads make transactions of this kind.
    Alike(Kind),
    /// The first does something else than the others.
    Beside(Beside),
}

impl Job {
    /// The job that a line's first word names, and the rest of the line.
    fn read(line: &str) -> (Job, &str) {
        if let Some(rest) = line.strip_prefix("paced ") {
            return (Job::Beside(Beside::Paced), rest);
        }
        if let Some(rest) = line.strip_prefix("reads ") {
            return (Job::Beside(Beside::Reads), rest);
        }
        let (kind, rest) = Kind::read(line);
        (Job::Alike(kind), rest)
    }
}

/// A device of so many sectors in a file, and a handle to sync the file early.
fn in_file<W: Files<File = File>>(
    rt: &W,
    alloc: Global,
    file: &str,
    sectors: u64,
) -> Result<(FileDisk, SyncAhead), DiskFault> {
    let mut disk = FileDisk::create(rt, file, sectors)?;
    let ahead = disk.sync_ahead(rt, alloc, file)?;
    Ok((disk, ahead))
}

/// Makes an index on a device, opens it, has the threads work on it, settles it, and opens it again.
fn serve<D: SectorDisk + Drop + Send, W: Threads + Wait + Clock + Sync + Print>(
    rt: &W,
    alloc: Global,
    disk: D,
    ahead: Option<SyncAhead>,
    wanted: &Wanted<'_>,
) -> Result<(), Trouble> {
    let disk = make(alloc, disk, PAGES, MOST)?;
    let engine = open_index(alloc, disk)?;
    let (threads, each) = (wanted.threads, wanted.transactions);
    let engine = match wanted.job {
        Job::Alike(kind) => share(rt, alloc, engine, ahead, threads, each, kind)?,
        Job::Beside(what) => work_beside(rt, alloc, engine, ahead, threads, each, what)?,
    };
    let disk = settle(engine)?;
    let entries = count(alloc, disk)?;
    println!(rt; "opened again: {entries} entries")?;
    Ok(())
}

/// Has the storm that a line says.
fn run_storm<W: Threads + Wait + Sync + Print + Files<File = File>>(
    rt: &W,
    alloc: Global,
    words: &str,
) -> Result<(), Trouble> {
    let (wanted, file) = read_storm(words)?;
    let sectors = sectors_for(PAGES);
    match file {
        Some(file) => {
            let (disk, ahead) = in_file(rt, alloc, file, sectors)?;
            storm(rt, alloc, disk, Some(ahead), PAGES, &wanted)
        }
        None => {
            let disk = RamDisk::new(alloc, sectors as usize)?;
            storm(rt, alloc, disk, None, PAGES, &wanted)
        }
    }
}

/// Does what a line says.
fn run_line<W: Threads + Wait + Clock + Sync + Print + Files<File = File>>(
    rt: &W,
    alloc: Global,
    line: &str,
) -> Result<(), Trouble> {
    if let Some(words) = line.strip_prefix("storm ") {
        return run_storm(rt, alloc, words);
    }
    let wanted = read_line(line)?;
    let sectors = sectors_for(PAGES);
    match wanted.file {
        Some(file) => {
            let (disk, ahead) = in_file(rt, alloc, file, sectors)?;
            serve(rt, alloc, disk, Some(ahead), &wanted)
        }
        None => {
            let disk = RamDisk::new(alloc, sectors as usize)?;
            serve(rt, alloc, disk, None, &wanted)
        }
    }
}

/// Does what each line says.
fn run_lines<W: Threads + Wait + Clock + Sync + Print + Input + Files<File = File>>(
    rt: &W,
    alloc: Global,
) -> Result<(), Trouble> {
    for line in rt.lines(alloc) {
        run_line(rt, alloc, line?.as_str())?;
    }
    Ok(())
}

fn main(rt: HostRuntime) -> Result<(), Trouble> {
    run_lines(&rt, rt.alloc())
}
