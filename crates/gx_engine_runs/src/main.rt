//! Lists of an engine's events.
//!
//! `index PAGES MOST FRAMES` begins an index of boxes, and each line after it is one event, of which it is printed what
//! came: a script's line asks its call, `move SESSION`, `log`, `write PAGE`, `checkpoint` and `sweep PAGE` are the
//! others. `call` before a script's line makes the events of that call up to its reply, and `rest SESSION` those that
//! an open call has left. `page PAGE` prints what a page has.
//!
//! `boxes` and `intervals`, with a seed, a number of events, the greatest number of entries a node and a number of
//! frames, make that many random events of eight sessions and of a flusher, in any order, and end each session's
//! transaction. Each reply is the plain index's; and what the device then has, read by its format alone, is a legal
//! tree with the last set. With three numbers more, `fails` makes such a run of boxes for each of so many calls of the
//! device, from a first one on by a stride, of which each fails once, made and not: from then on each event is refused.
//! `stops` does so with a machine that stops at the call, and a crash by which what wasn't synced is old, is new, old
//! and new in turn, or torn. What the plain reader then finds is the set of a commit, from the last that was
//! acknowledged to the last that was sealed.
//!
//! An empty line, and one that begins with `#`, is printed unchanged. The program ends at the first difference, with
//! status 1.
#![tactic(auto)]

mod beside;
mod counts;
mod drawn;
mod ends;
mod fault;
mod forms;
mod keys;
mod lists;
mod parts;
mod replies;
mod sets;

use ends::{End, Failing, Left, Setting, Way, begin_run, make_run};
use fault::RunFault;
use forms::{Kind, Line, to_u16, to_usize};
use gx_class::{Box2Class, IntervalClass};
use gx_disk::Fuse;
use gx_geom::Refusal;
use lists::{Listed, begin_engine, take};
use parts::{Part, print_parts};
use std::alloc::Global;
use std::process::ExitCode;

/// A device of which one call fails once.
static FAILS: [Way; 2] = [
    (Fuse::Once, false, Left::New),
    (Fuse::Once, true, Left::New),
];

/// A machine that stops at a call, and crashes.
static STOPS: [Way; 8] = [
    (Fuse::ForEver, false, Left::Old),
    (Fuse::ForEver, false, Left::New),
    (Fuse::ForEver, false, Left::Mixed),
    (Fuse::ForEver, false, Left::Torn),
    (Fuse::ForEver, true, Left::Old),
    (Fuse::ForEver, true, Left::New),
    (Fuse::ForEver, true, Left::Mixed),
    (Fuse::ForEver, true, Left::Torn),
];

/// How a line's runs are made.
fn setting(line: &Line<'_>) -> Setting {
    let [seed, steps, most, frames, ..] = line.numbers;
    Setting {
        seed,
        steps,
        most: to_u16(most),
        frames: to_usize(frames),
    }
}

/// Makes a run of boxes.
fn run_boxes(alloc: Global, setting: Setting, failing: Failing) -> Result<End, RunFault> {
    let (_, _, left) = failing.way;
    let beside = begin_run::<Box2Class>(alloc, setting, failing)?;
    make_run(alloc, beside, setting, left)
}

/// Makes a run of intervals.
fn run_intervals(alloc: Global, setting: Setting, failing: Failing) -> Result<End, RunFault> {
    let (_, _, left) = failing.way;
    let beside = begin_run::<IntervalClass>(alloc, setting, failing)?;
    make_run(alloc, beside, setting, left)
}

/// Prints how a run over a device that never fails has ended.
fn print_whole<R: Print>(rt: &R, end: &End) -> Result<(), RunFault> {
    if !end.is_whole || !end.is_last {
        return Err(RunFault::Event);
    }
    print_parts(rt, &[Part::Text(" agrees")])?;
    end.counts.print(rt)
}

/// How the runs of a line ended.
#[derive(Clone, Copy, Default)]
struct Endings {
    runs: u64,
    whole: u64,
    last: u64,
    later: u64,
}

impl Endings {
    /// Counts a run whose index was laid down.
    fn count(&mut self, end: &End) {
        if end.is_whole {
            self.whole = self.whole.saturating_add(1);
        }
        if end.is_last {
            self.last = self.last.saturating_add(1);
        } else {
            self.later = self.later.saturating_add(1);
        }
    }
}

/// Makes a run of boxes of which a call of the device fails, perhaps while the index is laid down.
fn run_at(
    alloc: Global,
    setting: Setting,
    failing: Failing,
    ends: &mut Endings,
) -> Result<(), RunFault> {
    ends.runs = ends.runs.saturating_add(1);
    match run_boxes(alloc, setting, failing) {
        Ok(end) => ends.count(&end),
        Err(RunFault::NotBegun(Refusal::Device)) => {}
        Err(fault) => return Err(fault),
    }
    Ok(())
}

/// Makes the runs in which calls of the device fail: so many, from a first one on by a stride, in each way.
fn make_failing(alloc: Global, line: &Line<'_>, ways: &[Way]) -> Result<Endings, RunFault> {
    let [_, _, _, _, mut call, stride, calls] = line.numbers;
    let mut ends = Endings::default();
    for _call in 0..calls {
        for way in ways {
            run_at(alloc, setting(line), Failing { call, way: *way }, &mut ends)?;
        }
        call = call.saturating_add(stride);
    }
    Ok(ends)
}

/// Makes the runs in which calls of the device fail, and prints how they ended.
fn run_failing<R: Print>(
    rt: &R,
    alloc: Global,
    line: &Line<'_>,
    ways: &[Way],
) -> Result<(), RunFault> {
    let ends = make_failing(alloc, line, ways)?;
    print_parts(
        rt,
        &[
            Part::Number(ends.runs),
            Part::Text(" runs,"),
            Part::Number(ends.whole),
            Part::Text(" not stopped;"),
            Part::Number(ends.last),
            Part::Text(" with the last,"),
            Part::Number(ends.later),
            Part::Text(" with a later one"),
        ],
    )
}

/// Makes what a line says.
fn make_line<R: Print>(
    rt: &R,
    alloc: Global,
    listed: &mut Option<Listed>,
    line: &Line<'_>,
) -> Result<(), RunFault> {
    match line.kind {
        Kind::Index => {
            *listed = Some(begin_engine(alloc, line)?);
            print_parts(rt, &[Part::Text(" begun")])
        }
        Kind::Boxes => print_whole(rt, &run_boxes(alloc, setting(line), Failing::never())?),
        Kind::Intervals => print_whole(rt, &run_intervals(alloc, setting(line), Failing::never())?),
        Kind::Fails => run_failing(rt, alloc, line, &FAILS),
        Kind::Stops => run_failing(rt, alloc, line, &STOPS),
        _ => match listed {
            Some(engine) => take(rt, engine, line),
            None => Err(RunFault::BadLine),
        },
    }
}

/// Prints a line, and after it what it comes to.
fn take_line(rt: &HostRuntime, listed: &mut Option<Listed>, line: &str) -> Result<(), RunFault> {
    print_parts(rt, &[Part::Text(line)])?;
    if !matches!(line.as_bytes(), [] | [b'#', ..]) {
        print_parts(rt, &[Part::Text(":")])?;
        make_line(rt, rt.alloc(), listed, &Line::read(line)?)?;
    }
    print_parts(rt, &[Part::Text("\n")])
}

/// Takes each line of the input.
fn take_lines(rt: &HostRuntime, listed: &mut Option<Listed>) -> Result<(), RunFault> {
    for line in rt.lines(rt.alloc()) {
        take_line(rt, listed, line?.as_str())?;
    }
    Ok(())
}

fn main(rt: HostRuntime) -> ExitCode {
    let mut listed = None;
    match take_lines(&rt, &mut listed) {
        Ok(()) => ExitCode::from(0),
        Err(fault) => {
            let (what, number) = fault.text_and_number();
            let _ = println!(rt; " {what} {number}");
            ExitCode::from(1)
        }
    }
}
