//! Runs for each call of a device in turn, up to one of which no call fails.
use crate::again::{copy_of, stands};
use crate::fault::RunFault;
use crate::ran::{End, Ran, new_device, run_failing, run_whole};
use crate::replies::{acknowledged_in, is_told};
use crate::sets::Expected;
use crate::ways::Way;
use gx_disk::MemDisk;
use std::alloc::Global;

/// What a run begins with: a device that was found, whose set has this number, or a new one.
#[derive(Drop)]
pub(crate) enum Start {
    New,
    Found(MemDisk, u64),
}

/// What is run: with how many frames, which script, and what is expected of it.
#[derive(Clone, Copy)]
pub(crate) struct Setting<'a> {
    pub(crate) frames: usize,
    pub(crate) script: &'a [u8],
    pub(crate) expected: &'a Expected,
}

/// Calls of the device: a first one, and those after it by a stride.
#[derive(Clone, Copy)]
pub(crate) struct Calls {
    pub(crate) first: u64,
    pub(crate) stride: u64,
}

/// How the runs of a line ended.
#[derive(Clone, Copy, Default)]
pub(crate) struct Endings {
    pub(crate) runs: u64,
    pub(crate) whole: u64,
    pub(crate) last: u64,
    pub(crate) later: u64,
}

impl Endings {
    // Counts a run of which no call failed, or one did, and that left the first number that it may, or a later one.
    fn count(&mut self, is_whole: bool, is_last: bool) {
        self.runs = self.runs.saturating_add(1);
        if is_whole {
            self.whole = self.whole.saturating_add(1);
        }
        if is_last {
            self.last = self.last.saturating_add(1);
        } else {
            self.later = self.later.saturating_add(1);
        }
    }
}

impl Start {
    // The device that a run begins with.
    fn device(&mut self, alloc: Global) -> Result<MemDisk, RunFault> {
        match self {
            Start::New => new_device(alloc),
            Start::Found(disk, _) => copy_of(alloc, disk),
        }
    }

    // The numbers that may be found after a run: a first one and a last one.
    fn allowed(&self, ran: &Ran) -> (u64, u64) {
        match self {
            Start::New => (acknowledged_in(&ran.replies), ran.sealed),
            Start::Found(_, number) => (*number, *number),
        }
    }
}

/// Runs of one kind.
#[derive(Drop)]
pub(crate) struct Runs<'a> {
    setting: Setting<'a>,
    start: Start,
    // how many calls of the device are made if none fails
    calls: u64,
    ends: Endings,
}

impl<'a> Runs<'a> {
    /// Makes a run of which no call fails, and counts its calls.
    pub(crate) fn new(
        alloc: Global,
        setting: Setting<'a>,
        start: Start,
    ) -> Result<Runs<'a>, RunFault> {
        let mut start = start;
        let disk = start.device(alloc)?;
        let whole = run_whole(alloc, disk, setting.frames, setting.script, true)?;
        Ok(Runs {
            setting,
            start,
            calls: whole.passed,
            ends: Endings::default(),
        })
    }

    // Judges a run of which this call fails, if it is made.
    fn judge(&mut self, alloc: Global, ran: Ran, call: u64, way: Way) -> Result<(), RunFault> {
        let Setting {
            frames,
            script,
            expected,
        } = self.setting;
        let is_whole = self.calls <= call;
        if ran.passed != call.min(self.calls) || (ran.end == End::Settled) != is_whole {
            return Err(RunFault::Calls(call));
        }
        if !is_told(script, &expected.replies, &ran) {
            return Err(RunFault::Replies(call));
        }
        let (first, last) = self.start.allowed(&ran);
        let mut disk = ran.disk;
        if let Some(left) = way.left {
            left.crash(&mut disk);
        }
        let stood = stands(alloc, disk, frames, &expected.sets, first, last)?;
        self.ends.count(is_whole, stood == first);
        Ok(())
    }

    // Makes a run in each way.
    fn run_each(&mut self, alloc: Global, call: u64, ways: &[Way]) -> Result<(), RunFault> {
        let Setting { frames, script, .. } = self.setting;
        for way in ways {
            let disk = self.start.device(alloc)?;
            let ran = run_failing(alloc, disk, frames, script, call, *way)?;
            self.judge(alloc, ran, call, *way)?;
        }
        Ok(())
    }

    /// Makes runs of which a call fails, in each way, and counts upward, up to those of which none fails.
    pub(crate) fn upward(
        &mut self,
        alloc: Global,
        calls: Calls,
        ways: &[Way],
    ) -> Result<Endings, RunFault> {
        let mut call = calls.first;
        for _turn in 0..self.calls {
            if self.calls <= call {
                break;
            }
            self.run_each(alloc, call, ways)?;
            call = call.saturating_add(calls.stride);
        }
        self.run_each(alloc, call, ways)?;
        Ok(self.ends)
    }
}
