//! Runs scripts on a device in memory that fails at one of its calls. The device is then opened again, and must have
//! the set and the number that the plain index has after one of the script's commits, not before the last that was
//! acknowledged. Up to the call that fails the script gets the replies of the plain index; that call's failure is
//! reported once, and each later call is refused.
//!
//! A line of `stdin` that begins with a digit is one of the script. `new` begins another script. The others make runs:
//!
//! - `stops FRAMES FIRST STRIDE`: the device stops for good at each call, from a first one on by a stride up to a run
//! that meets no stop; each with the call made and not, and with four crashes: all that wasn't synced is old, is new,
//! old and new in turn, or torn.
//! - `again FRAMES CALL DONE LEFT FIRST STRIDE`: the script stops at this call, made if DONE is 1, with this crash
//! (`old`, `new`, `mixed`, `torn`), and then so does the opening after it, at each call. The number that is found
//! stays.
//! - `fails FRAMES FIRST STRIDE`, `fails_again FRAMES CALL DONE LEFT FIRST STRIDE`: likewise each call fails, once or
//! for ever, made and not, and no crash comes.
//! - `twice FRAMES`: the script is run to its end, and the opening after it stops at each write and sync, and the next
//! one too.
//! - `line FRAMES LINE`: the device stops at each call that this line of the script makes, from 1 on. The numbers are
//! printed.
//! - `replies FRAMES LINE`: it stops at the first of these calls. What the script is answered is printed.
//!
//! Runs are counted: all, those of which no call failed, and those after which the last commit that was acknowledged
//! was found, and a later one. An empty line, and one that begins with `#`, is printed unchanged. The program ends at
//! the first difference, with status 1.
#![tactic(auto)]

mod again;
mod fault;
mod line;
mod listing;
mod ran;
mod replies;
mod sets;
mod twice;
mod upward;
mod ways;

use again::{copy_of, stands};
use fault::RunFault;
use line::{print_line, print_replies};
use ran::{new_device, run_failing};
use replies::acknowledged_in;
use sets::{Expected, expected_of};
use std::alloc::Global;
use std::process::ExitCode;
use std::str::SplitWhitespace;
use twice::{Twice, stop_twice};
use upward::{Calls, Endings, Runs, Setting, Start};
use ways::{Left, Way};

/// The next word as a number.
fn number(words: &mut SplitWhitespace<'_>) -> Result<u64, RunFault> {
    let word = words.next().ok_or(RunFault::BadLine)?;
    word.parse::<u64>().ok().ok_or(RunFault::BadLine)
}

/// The calls that a line names.
fn calls(words: &mut SplitWhitespace<'_>) -> Result<Calls, RunFault> {
    Ok(Calls {
        first: number(words)?,
        stride: number(words)?,
    })
}

/// How a crash is named.
fn left(words: &mut SplitWhitespace<'_>) -> Result<Left, RunFault> {
    match words.next() {
        Some("old") => Ok(Left::Old),
        Some("new") => Ok(Left::New),
        Some("mixed") => Ok(Left::Mixed),
        Some("torn") => Ok(Left::Torn),
        _ => Err(RunFault::BadLine),
    }
}

/// What the stop that a line names left of a device, with the number that is found.
fn found(
    alloc: Global,
    setting: Setting<'_>,
    words: &mut SplitWhitespace<'_>,
) -> Result<Start, RunFault> {
    let call = number(words)?;
    let is_done = number(words)? == 1;
    let left = left(words)?;
    let Setting {
        frames,
        script,
        expected,
    } = setting;
    let way = Way::stop(is_done, left);
    let ran = run_failing(alloc, new_device(alloc)?, frames, script, call, way)?;
    let (first, last) = (acknowledged_in(&ran.replies), ran.sealed);
    let mut disk = ran.disk;
    left.crash(&mut disk);
    let copy = copy_of(alloc, &disk)?;
    let number = stands(alloc, copy, frames, &expected.sets, first, last)?;
    Ok(Start::Found(disk, number))
}

/// The runs of a script on a new device.
fn of_script<'a>(alloc: Global, setting: Setting<'a>) -> Result<Runs<'a>, RunFault> {
    Runs::new(alloc, setting, Start::New)
}

/// The runs of an opening after the stop that a line names.
fn of_opening<'a>(
    alloc: Global,
    setting: Setting<'a>,
    words: &mut SplitWhitespace<'_>,
) -> Result<Runs<'a>, RunFault> {
    let start = found(alloc, setting, words)?;
    let opening = Setting {
        script: &[],
        ..setting
    };
    Runs::new(alloc, opening, start)
}

/// Prints how runs ended.
fn print_ends<R: Print>(rt: &R, line: &str, ends: Endings) -> Result<(), RunFault> {
    let Endings {
        runs,
        whole,
        last,
        later,
    } = ends;
    println!(rt;
        "{line}: {runs} runs, {whole} not stopped; {last} with the last, {later} with a later one"
    )?;
    Ok(())
}

/// Prints how an opening and the next one were stopped.
fn print_twice<R: Print>(rt: &R, line: &str, twice: Twice) -> Result<(), RunFault> {
    let Twice {
        first,
        second,
        number,
    } = twice;
    println!(rt;
        "{line}: {first} stops, and behind them {second} of the next opening; all with {number}"
    )?;
    Ok(())
}

/// Makes the runs that a line names.
fn make_runs(
    alloc: Global,
    setting: Setting<'_>,
    name: &str,
    words: &mut SplitWhitespace<'_>,
) -> Result<Endings, RunFault> {
    match name {
        "stops" => {
            let mut runs = of_script(alloc, setting)?;
            runs.upward(alloc, calls(words)?, &Way::stops())
        }
        "again" => {
            let mut runs = of_opening(alloc, setting, words)?;
            runs.upward(alloc, calls(words)?, &Way::stops())
        }
        "fails" => {
            let mut runs = of_script(alloc, setting)?;
            runs.upward(alloc, calls(words)?, &Way::fails())
        }
        "fails_again" => {
            let mut runs = of_opening(alloc, setting, words)?;
            runs.upward(alloc, calls(words)?, &Way::fails())
        }
        _ => Err(RunFault::BadLine),
    }
}

/// A number that counts something in memory.
fn count(words: &mut SplitWhitespace<'_>) -> Result<usize, RunFault> {
    Ok(usize::try_from(number(words)?).unwrap_or(0))
}

/// Does what a line names.
fn run_line<R: Print>(rt: &R, alloc: Global, script: &[u8], line: &str) -> Result<(), RunFault> {
    let expected: Expected = expected_of(alloc, script)?;
    let mut words = line.split_whitespace();
    let name = words.next().unwrap_or("");
    let setting = Setting {
        frames: count(&mut words)?,
        script,
        expected: &expected,
    };
    match name {
        "line" => print_line(rt, alloc, setting, count(&mut words)?),
        "replies" => print_replies(rt, alloc, setting, count(&mut words)?),
        "twice" => print_twice(rt, line, stop_twice(alloc, setting)?),
        _ => print_ends(rt, line, make_runs(alloc, setting, name, &mut words)?),
    }
}

/// Takes one line of the input.
fn take_line<R: Print>(
    rt: &R,
    alloc: Global,
    script: &mut Vec<u8>,
    line: &str,
) -> Result<(), RunFault> {
    match line.as_bytes() {
        [] | [b'#', ..] => println!(rt; "{line}")?,
        b"new" => script.clear(),
        [b'0'..=b'9', ..] => {
            script.extend_from_slice(line.as_bytes())?;
            script.push(b'\n')?;
        }
        _ => run_line(rt, alloc, script, line)?,
    }
    Ok(())
}

/// Takes each line of the input.
fn take_lines(rt: &HostRuntime) -> Result<(), RunFault> {
    let mut script = Vec::new(rt.alloc());
    for line in rt.lines(rt.alloc()) {
        take_line(rt, rt.alloc(), &mut script, line?.as_str())?;
    }
    Ok(())
}

fn main(rt: HostRuntime) -> ExitCode {
    match take_lines(&rt) {
        Ok(()) => ExitCode::from(0),
        Err(fault) => {
            let (what, number) = fault.text_and_number();
            let _ = println!(rt; "{what} {number}");
            ExitCode::from(1)
        }
    }
}
