//! Calls public functions of the layers below the engine: devices, records, frames, the log, scans of nodes, and random
//! runs of the storage. Each line of `stdin` asks for one, and is printed with the answer after it.
//!
//! An empty line, and one that begins with `#`, is printed unchanged. The first word of any other names what it is
//! about; a line that can't be done ends the program, with status 1.
#![tactic(auto)]

mod cases;
mod devices;
mod extents;
mod fault;
mod files;
mod forms;
mod logs;
mod parameters;
mod pools;
mod records;
mod runs;
mod scans;
mod sectors;
mod storage;
mod words;

use fault::RunFault;
use forms::is_known;
use gx_pool::Pool;
use logs::Logged;
use pools::Leaves;
use records::ROOM;
use std::alloc::Global;
use std::process::ExitCode;
use words::{Line, Part, print_parts, say_parts};

/// What the lines work on.
#[derive(Drop)]
struct Bench {
    /// A device, with a log.
    logged: Logged,
    /// Frames over the same device.
    pool: Pool<Leaves>,
    /// Bytes that records are spelled in.
    text: Vec<u8>,
}

impl Bench {
    fn new(alloc: Global) -> Result<Bench, RunFault> {
        let text = vec![in alloc; 0; ROOM]?;
        let pool = pools::empty(alloc, 0)?;
        let logged = Logged::new(alloc, 0)?;
        Ok(Bench { logged, pool, text })
    }
}

/// Takes a line about frames, pages, records, runs or a file.
fn on_pages(rt: &HostRuntime, bench: &mut Bench, line: &Line<'_>) -> Result<(), RunFault> {
    let Bench { logged, pool, text } = bench;
    let disk = &mut logged.disk;
    let alloc = rt.alloc();
    match line.name {
        "frames" => pools::renew(rt, alloc, pool, line),
        "pages" => pools::on_device(rt, alloc, disk, line),
        "pool" => pools::call(rt, pool, disk, line),
        "look" => pools::look(rt, pool, line),
        "record" => records::call(rt, alloc, text, line),
        "text" => records::read(rt, text, line),
        "run" => runs::call(rt, alloc, line),
        "storage" => storage::call(rt, alloc, line),
        "scan" => scans::call(rt, alloc, line),
        _ => files::call(rt, line),
    }
}

/// Takes a line.
fn take(rt: &HostRuntime, bench: &mut Bench, line: &Line<'_>) -> Result<(), RunFault> {
    let logged = &mut bench.logged;
    let alloc = rt.alloc();
    match line.name {
        "device" => devices::call(rt, &mut logged.disk, alloc, line),
        "disk" => sectors::call(rt, &mut logged.disk, line),
        "show" => sectors::look(rt, &mut logged.disk, line),
        "parameters" => parameters::call(rt, &mut logged.disk, line),
        "read" => extents::call(rt, alloc, &mut logged.disk, line),
        "log" => logs::call(rt, alloc, logged, line),
        "put" => logs::put_record(rt, &mut logged.log, line),
        "all" => cases::call(rt, alloc, line),
        _ => on_pages(rt, bench, line),
    }
}

/// Whether a line is printed and no more.
fn is_title(line: &str) -> bool {
    matches!(line.as_bytes(), [] | [b'#', ..])
}

/// Prints a line, and after it what is answered.
fn take_line(rt: &HostRuntime, bench: &mut Bench, line: &str) -> Result<(), RunFault> {
    if is_title(line) {
        return say_parts(rt, &[Part::Text(line)]);
    }
    print_parts(rt, &[Part::Text(line), Part::Text(":")])?;
    if !is_known(line) {
        return Err(RunFault::BadLine);
    }
    take(rt, bench, &Line::read(line))
}

/// Takes each line of the input.
fn take_lines(rt: &HostRuntime, bench: &mut Bench) -> Result<(), RunFault> {
    for line in rt.lines(rt.alloc()) {
        take_line(rt, bench, line?.as_str())?;
    }
    Ok(())
}

fn run(rt: &HostRuntime) -> Result<(), RunFault> {
    let mut bench = Bench::new(rt.alloc())?;
    take_lines(rt, &mut bench)
}

fn main(rt: HostRuntime) -> ExitCode {
    match run(&rt) {
        Ok(()) => ExitCode::from(0),
        Err(fault) => {
            let (what, place) = fault.text_and_place();
            let _ = println!(rt; " stopped: {what} {place}");
            ExitCode::from(1)
        }
    }
}
