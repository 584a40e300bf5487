//! Tries a crash at each call of a batch and of a turn, and a device that fails at each: prints a line for each case.
use crate::devices::{Device, crash, set_fuse};
use crate::extents::{Seen, log_of, say_seen};
use crate::fault::RunFault;
use crate::logs::{Logged, Work, append_commit, append_counters, make, make_calls, put_head};
use crate::words::{Line, Part, print_parts, say_end};
use gx_disk::{Fuse, MIN_SECTORS, Torn};
use std::alloc::Global;

/// What a crash leaves of what wasn't synced.
#[derive(Clone, Copy)]
enum Left {
    Old,
    New,
    /// Old and new bytes in turn.
    Mixed,
    /// Other bytes: as a gate they are open, as a selector they select extent A.
    Other,
}

/// All of these.
const ALL: [Left; 4] = [Left::Old, Left::New, Left::Mixed, Left::Other];

impl Left {
    fn name(self) -> &'static str {
        match self {
            Left::Old => "old",
            Left::New => "new",
            Left::Mixed => "old and new",
            Left::Other => "other",
        }
    }

    fn crash(self, disk: &mut Device, alloc: Global) {
        match self {
            Left::Old => crash(disk, alloc, &[]),
            Left::New => crash(disk, alloc, &[Torn::New]),
            Left::Mixed => crash(disk, alloc, &[Torn::Old, Torn::New]),
            Left::Other => crash(disk, alloc, &[Torn::Bytes([0xA7; 512])]),
        }
    }
}

/// So many calls, of which one may fail, and then a crash.
#[derive(Clone, Copy)]
struct Case {
    work: Work,
    calls: u64,
    /// Which call fails, if it is one of these.
    fault: u64,
    /// Whether that call is made all the same if it is a write.
    done: bool,
    left: Left,
}

impl Case {
    /// Gets a log ready: the counters are its first batch, and a commit waits for its batch; for a turn the commit's
    /// batch is written too, and a head put first.
    fn prepare(self, logged: &mut Logged) -> Result<(), RunFault> {
        let Logged { disk, log } = logged;
        append_counters(log)?;
        make_calls(Work::Batch, log, disk, 4)?;
        append_commit(log, 1)?;
        if let Work::Turn = self.work {
            make_calls(Work::Batch, log, disk, 4)?;
            put_head(log, 1)?;
        }
        Ok(())
    }

    /// Makes the calls, each of which is made or fails by the case.
    fn make_all(self, logged: &mut Logged) -> Result<(), RunFault> {
        let Logged { disk, log } = logged;
        for call in 0..self.calls {
            if make(self.work, log, disk)? == (call == self.fault) {
                return Err(RunFault::Unexpected);
            }
        }
        Ok(())
    }

    /// The log that is read back after the crash.
    fn run(self, alloc: Global, logged: &mut Logged) -> Result<Seen, RunFault> {
        self.prepare(logged)?;
        set_fuse(&mut logged.disk, alloc, self.fault, Fuse::Once, self.done);
        self.make_all(logged)?;
        self.left.crash(&mut logged.disk, alloc);
        log_of(alloc, &mut logged.disk)
    }

    /// Crashes another device so, and reads its log back.
    fn seen(self, alloc: Global) -> Result<Seen, RunFault> {
        let mut logged = Logged::new(alloc, MIN_SECTORS as usize)?;
        self.run(alloc, &mut logged)
    }

    /// The text of a case.
    fn parts(self) -> [Part<'static>; 7] {
        let (call, fault, done) = match (self.fault, self.done) {
            (u64::MAX, _) => (" calls", Part::Text(""), ", "),
            (fault, true) => (" calls, call", Part::Number(fault), " fails and is done, "),
            (fault, false) => (
                " calls, call",
                Part::Number(fault),
                " fails and isn't done, ",
            ),
        };
        [
            Part::Text(" "),
            Part::Number(self.calls),
            Part::Text(call),
            fault,
            Part::Text(done),
            Part::Text(self.left.name()),
            Part::Text(" sectors:"),
        ]
    }

    /// Prints the case, and the log after it.
    fn say<R: Print>(self, rt: &R, alloc: Global) -> Result<(), RunFault> {
        print_parts(rt, &self.parts())?;
        say_seen(rt, self.seen(alloc)?)
    }
}

/// A crash after each number of calls.
fn crashes<R: Print>(rt: &R, alloc: Global, work: Work) -> Result<(), RunFault> {
    for calls in 0..work.calls().saturating_add(1) {
        for left in ALL {
            let case = Case {
                work,
                calls,
                fault: u64::MAX,
                done: false,
                left,
            };
            case.say(rt, alloc)?;
        }
    }
    Ok(())
}

/// Crashes after a fault, and one once all calls were made: whether all were, and what the crash leaves.
const BEHIND: [(bool, Left); 5] = [
    (false, Left::Old),
    (false, Left::New),
    (false, Left::Mixed),
    (false, Left::Other),
    (true, Left::Old),
];

/// A fault at a call, done or not, and a crash.
fn fails<R: Print>(
    rt: &R,
    alloc: Global,
    work: Work,
    fault: u64,
    done: bool,
) -> Result<(), RunFault> {
    for (is_whole, left) in BEHIND {
        let last = if is_whole { work.calls() } else { fault };
        let case = Case {
            work,
            calls: last.saturating_add(1),
            fault,
            done,
            left,
        };
        case.say(rt, alloc)?;
    }
    Ok(())
}

/// A fault at each call, done or not.
fn faults<R: Print>(rt: &R, alloc: Global, work: Work) -> Result<(), RunFault> {
    for fault in 0..work.calls() {
        for done in [false, true] {
            fails(rt, alloc, work, fault, done)?;
        }
    }
    Ok(())
}

/// A line that asks for all cases.
pub(crate) fn call<R: Print>(rt: &R, alloc: Global, line: &Line<'_>) -> Result<(), RunFault> {
    let work = if line.words[1] == "batch" {
        Work::Batch
    } else {
        Work::Turn
    };
    say_end(rt)?;
    match line.asked() {
        "crashes" => crashes(rt, alloc, work),
        _ => faults(rt, alloc, work),
    }
}
