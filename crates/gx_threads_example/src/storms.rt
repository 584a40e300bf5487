//! Storms over an index that was opened from a device.
ghost use Rattle.std.specs.Prelude.{◌≤◌, IfOk};
ghost use Rattle.gx_machine.specs.declared.limits.TheConstants.{SESSIONS};

use crate::index::{count, make, open_index, settle};
use crate::trouble::Trouble;
use gx_disk::{SectorDisk, SyncAhead};
use gx_storm::{Storm, Verdict, storm_over};
use std::alloc::Global;
use std::sync::Wait;
use std::thread::Threads;

/// How many entries a node has at most, so few that nodes are often split.
const MOST: u16 = 8;

/// A line's three numbers after its first word, and the file after them, if there is one.
pub(crate) fn read_storm(words: &str) -> Result<(Storm, Option<&str>), Trouble>
    ensures { IfOk result (λ read. read.0.sessions ≤ SESSIONS) }
{
    let Some((seed, rest)) = words.split_once(' ') else {
        return Err(Trouble::BadLine);
    };
    let Some((sessions, rest)) = rest.split_once(' ') else {
        return Err(Trouble::BadLine);
    };
    let (calls, file) = match rest.split_once(' ') {
        Some((calls, file)) => (calls, Some(file)),
        None => (rest, None),
    };
    match (
        seed.parse::<u32>(),
        sessions.parse::<u8>(),
        calls.parse::<u32>(),
    ) {
        (Ok(seed), Ok(sessions), Ok(calls)) if sessions <= 8 => Ok((
            Storm {
                seed,
                sessions,
                calls,
            },
            file,
        )),
        _ => Err(Trouble::BadLine),
    }
}

/// Makes an index on a device, opens it, has a storm over it, settles it, and opens it again.
pub(crate) fn storm<D: SectorDisk + Drop + Send, W: Threads + Wait + Sync + Print>(
    rt: &W,
    alloc: Global,
    disk: D,
    ahead: Option<SyncAhead>,
    pages: u32,
    wanted: &Storm,
) -> Result<(), Trouble>
    requires { wanted.now.sessions ≤ SESSIONS }
{
    let engine = open_index(alloc, make(alloc, disk, pages, MOST)?)?;
    let (verdict, engine) = storm_over(rt, alloc, engine, ahead, wanted)?;
    match verdict {
        Verdict::Sound => println!(rt; "the plain index replays the storm")?,
        Verdict::Mismatch(place) => println!(rt; "the storm differs at {place}")?,
        Verdict::Refused(why) => println!(rt; "the storm was refused: {}", why.text())?,
    }
    let _ = count(alloc, settle(engine)?)?;
    Ok(())
}
