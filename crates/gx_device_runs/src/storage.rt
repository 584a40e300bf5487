//! Random runs of the storage, with a tree in memory beside it: after each run the device is read back by its format
//! alone, and must have the pages, the set and the numbers that the tree had when the last batch was gated.
//!
//! After the word of a line come the greatest number of entries a node, a number of frames, a seed and a number of
//! steps. `whole` makes a run of so many steps and prints how often each thing was done. `each` has a stride, and makes
//! the run of that many steps, of twice as many, and so on up to its steps, so that the device is read back after each
//! so many of them; it prints how often it was. `fail` has three numbers more, and makes two runs for each of so many
//! calls of the device, from a first one on by a stride: in one the call fails once and is made again, in the other the
//! machine stops there. It prints where they stopped with the last batch gated, and where with the batch in flight.

mod base;
mod book;
mod counts;
mod draw;
mod ends;
mod fault;
mod flush;
mod mirror;
mod run;
mod sessions;
mod snapshot;
mod steps;
mod volume;

use crate::fault::RunFault;
use crate::words::{Line, Part, print_parts, say_end, to_usize};
use counts::Done;
use ends::{Stood, make_run};
pub(crate) use fault::{StorageFault, What};
use run::{Failing, Setting};
use std::alloc::Global;

/// How a line's runs are made.
fn setting(line: &Line<'_>) -> Setting {
    let [_, most, frames, seed, steps, ..] = line.numbers;
    Setting {
        most: to_usize(most).clamp(4, 100),
        frames: to_usize(frames).clamp(4, 64),
        seed,
        steps,
    }
}

/// No call of the device fails.
const NEVER: Failing = Failing {
    call: u64::MAX,
    stops: false,
    done: false,
};

/// A run over a device that never fails.
fn run_whole<R: Print>(rt: &R, alloc: Global, setting: Setting) -> Result<(), RunFault> {
    let (_, _, counts) = make_run(alloc, setting, NEVER)?;
    print!(rt; " agrees")?;
    counts.print(rt)
}

/// Makes the run of so many steps, of twice as many, and so on, so many times.
fn make_each(alloc: Global, setting: Setting, stride: u64, runs: u64) -> Result<(), StorageFault> {
    let mut part = Setting {
        steps: 0,
        ..setting
    };
    for _run in 0..runs {
        part.steps = part.steps.saturating_add(stride);
        make_run(alloc, part, NEVER)?;
    }
    Ok(())
}

/// A run that is read back after each so many steps: for each such number of them the same run, which ends there.
fn run_each<R: Print>(
    rt: &R,
    alloc: Global,
    setting: Setting,
    stride: u64,
) -> Result<(), RunFault> {
    let stride = stride.max(1);
    let runs = setting.steps / stride;
    make_each(alloc, setting, stride, runs)?;
    print_parts(
        rt,
        &[
            Part::Text(" agree: read back"),
            Part::Number(runs),
            Part::Text(" times"),
        ],
    )
}

/// How the runs of a line ended.
#[derive(Clone, Copy)]
struct Endings {
    gated: u64,
    flight: u64,
    whole: u64,
    again: u64,
}

/// Two runs in which a call of the device fails.
fn run_failing(
    alloc: Global,
    setting: Setting,
    call: u64,
    ends: &mut Endings,
) -> Result<(), StorageFault> {
    let mut failing = Failing {
        call,
        stops: false,
        done: call % 2 == 0,
    };
    let (_, _, counts) = make_run(alloc, setting, failing)?;
    ends.again = ends.again.saturating_add(counts.of(Done::Faults));
    failing.stops = true;
    let number = match make_run(alloc, setting, failing)? {
        (true, _, _) => &mut ends.whole,
        (false, Stood::Gated, _) => &mut ends.gated,
        (false, Stood::Flight, _) => &mut ends.flight,
    };
    *number = number.saturating_add(1);
    Ok(())
}

/// Makes the runs in which calls of the device fail, from a first one on by a stride.
fn make_all_failing(
    alloc: Global,
    setting: Setting,
    [first, stride, calls]: [u64; 3],
) -> Result<Endings, StorageFault> {
    let mut call = first;
    let mut ends = Endings {
        gated: 0,
        flight: 0,
        whole: 0,
        again: 0,
    };
    for _run in 0..calls {
        run_failing(alloc, setting, call, &mut ends)?;
        call = call.saturating_add(stride);
    }
    Ok(ends)
}

/// Runs in which one call of the device after another fails.
fn run_all_failing<R: Print>(
    rt: &R,
    alloc: Global,
    setting: Setting,
    calls: [u64; 3],
) -> Result<(), RunFault> {
    let ends = make_all_failing(alloc, setting, calls)?;
    print_parts(
        rt,
        &[
            Part::Text(" agree:"),
            Part::Number(ends.again),
            Part::Text(" failed once; stopped"),
            Part::Number(ends.gated),
            Part::Text(" with what is gated,"),
            Part::Number(ends.flight),
            Part::Text(" with what is in flight,"),
            Part::Number(ends.whole),
            Part::Text(" not at all"),
        ],
    )
}

/// A line that asks for runs of the storage.
pub(crate) fn call<R: Print>(rt: &R, alloc: Global, line: &Line<'_>) -> Result<(), RunFault> {
    let setting = setting(line);
    let [_, _, _, _, _, first, stride, calls, ..] = line.numbers;
    match line.asked() {
        "whole" => run_whole(rt, alloc, setting)?,
        "each" => run_each(rt, alloc, setting, first)?,
        _ => run_all_failing(rt, alloc, setting, [first, stride, calls])?,
    }
    say_end(rt)
}
