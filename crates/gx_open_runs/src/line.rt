//! The device's calls that one line of a script makes, each of which stops the device; and what is found then.
use crate::again::stands;
use crate::fault::RunFault;
use crate::listing::DeviceCall;
use crate::ran::{Ran, new_device, run_failing, run_whole};
use crate::replies::{Answered, acknowledged_in, how_answered};
use crate::upward::Setting;
use crate::ways::{Left, Way};
use std::alloc::Global;

// How many bytes the first lines of a script have.
fn size_of_lines(script: &[u8], count: usize) -> usize {
    let mut size: usize = 0;
    for line in script.split_inclusive(|byte| *byte == b'\n').take(count) {
        size = size.saturating_add(line.len());
    }
    size
}

// The calls of the device of the first lines of a script.
fn calls_of_lines(
    alloc: Global,
    setting: Setting<'_>,
    count: usize,
) -> Result<Vec<DeviceCall>, RunFault> {
    let size = size_of_lines(setting.script, count);
    let front = setting.script.get(..size).unwrap_or(setting.script);
    let ran = run_whole(alloc, new_device(alloc)?, setting.frames, front, false)?;
    if ran.calls.len() as u64 != ran.passed {
        return Err(RunFault::Memory);
    }
    Ok(ran.calls)
}

// Stops the device at a call of a line, from 0 on, which is refused and so is each after it.
fn stop_line(
    alloc: Global,
    setting: Setting<'_>,
    line: usize,
    call: u64,
    way: Way,
) -> Result<Ran, RunFault> {
    let Setting {
        frames,
        script,
        expected,
    } = setting;
    let ran = run_failing(alloc, new_device(alloc)?, frames, script, call, way)?;
    if ran.passed != call {
        return Err(RunFault::Calls(call));
    }
    match how_answered(script, &expected.replies, &ran.replies) {
        Answered::RefusedAt(place) if place == line => Ok(ran),
        _ => Err(RunFault::Replies(call)),
    }
}

// The number that is found after a stop.
fn number_behind(
    alloc: Global,
    setting: Setting<'_>,
    ran: Ran,
    left: Left,
) -> Result<u64, RunFault> {
    let first = acknowledged_in(&ran.replies);
    let last = ran.sealed;
    let mut disk = ran.disk;
    left.crash(&mut disk);
    stands(
        alloc,
        disk,
        setting.frames,
        &setting.expected.sets,
        first,
        last,
    )
}

// The numbers that are found after a stop, by what the crash leaves.
fn numbers_behind(
    alloc: Global,
    setting: Setting<'_>,
    line: usize,
    call: u64,
    is_done: bool,
) -> Result<[u64; 4], RunFault> {
    let mut numbers = [0; 4];
    for place in 0..4 {
        let left = Left::ALL[place];
        let way = Way::stop(is_done, left);
        let ran = stop_line(alloc, setting, line, call, way)?;
        numbers[place] = number_behind(alloc, setting, ran, left)?;
    }
    Ok(numbers)
}

// Prints the numbers by what the crash leaves.
fn print_numbers<R: Print>(rt: &R, numbers: [u64; 4]) -> Result<(), RunFault> {
    let [old, new, mixed, torn] = numbers;
    println!(rt; "old {old}, new {new}, mixed {mixed}, torn {torn}")?;
    Ok(())
}

// Prints what is found when the device stops at a call, made and not.
fn print_call<R: Print>(
    rt: &R,
    alloc: Global,
    setting: Setting<'_>,
    line: usize,
    call: u64,
    kind: DeviceCall,
) -> Result<(), RunFault> {
    for is_done in [false, true] {
        let made = if is_done { "made" } else { "not made" };
        match kind {
            DeviceCall::Read => print!(rt; "  a read, {made}: ")?,
            DeviceCall::Write(first) => print!(rt; "  a write at sector {first}, {made}: ")?,
            DeviceCall::Sync => print!(rt; "  a sync, {made}: ")?,
        }
        print_numbers(rt, numbers_behind(alloc, setting, line, call, is_done)?)?;
    }
    Ok(())
}

// The calls of the device that a line makes, from 1 on: how many come before them, and all up to its end.
fn calls_of_line(
    alloc: Global,
    setting: Setting<'_>,
    line: usize,
) -> Result<(usize, Vec<DeviceCall>), RunFault> {
    let Some(before) = line.checked_sub(1) else {
        return Err(RunFault::BadLine);
    };
    let passed = calls_of_lines(alloc, setting, before)?.len();
    Ok((passed, calls_of_lines(alloc, setting, line)?))
}

/// Prints, for each call of the device that a line makes, from 1 on, which it is, and the number that an opening finds
/// if the device stops there, by what the crash leaves.
pub(crate) fn print_line<R: Print>(
    rt: &R,
    alloc: Global,
    setting: Setting<'_>,
    line: usize,
) -> Result<(), RunFault> {
    let (passed, calls) = calls_of_line(alloc, setting, line)?;
    println!(rt; "line {line}: {} calls", calls.len().saturating_sub(passed))?;
    for (place, kind) in calls.iter().enumerate() {
        if passed <= place {
            let before = line.saturating_sub(1);
            print_call(rt, alloc, setting, before, place as u64, *kind)?;
        }
    }
    Ok(())
}

/// Prints what a script is answered whose device stops at the first call that a line makes, from 1 on.
pub(crate) fn print_replies<R: Print>(
    rt: &R,
    alloc: Global,
    setting: Setting<'_>,
    line: usize,
) -> Result<(), RunFault> {
    let (passed, _) = calls_of_line(alloc, setting, line)?;
    let way = Way::stop(false, Left::Old);
    let before = line.saturating_sub(1);
    let ran = stop_line(alloc, setting, before, passed as u64, way)?;
    println!(rt; "line {line}:")?;
    for reply in ran.replies.split_inclusive(|byte| *byte == b'\n') {
        let text = reply.get(..reply.len().saturating_sub(1)).unwrap_or(reply);
        if let Ok(text) = std::str::from_utf8(text) {
            println!(rt; "  {text}")?;
        }
    }
    Ok(())
}
