//! How a run ends: all is settled, or a crash comes; and the device is read by its format alone.
ghost use Rattle.std.specs.Prelude.{◌≡◌, length, IfOk};

use crate::beside::{At, Beside, Ended, Went};
use crate::counts::Counts;
use crate::drawn::{draw_run, session_of};
use crate::fault::RunFault;
use crate::keys::Drawn;
use gx_disk::{Fuse, FuseDisk, MemDisk, SectorDisk, Torn};
use gx_engine_events::new_index;
use gx_events::{Event, Outcome};
use gx_format::sectors_for;
use gx_geom::Refusal;
use gx_machine::{Call, Reply, SESSIONS};
use gx_plain_reader::{Reading, read};
use rand_pcg::Pcg32;
use std::alloc::{AllocError, Global};

/// How many pages a device has.
const PAGES: u32 = 512;

/// How many steps of a checkpoint, or of the log, come one after another at most.
const STEPS: usize = 8192;

/// How a run is made.
#[derive(Clone, Copy)]
pub(crate) struct Setting {
    pub(crate) most: u16,
    pub(crate) frames: usize,
    pub(crate) seed: u64,
    pub(crate) steps: u64,
}

/// What a crash leaves of the sectors that weren't synced.
#[derive(Clone, Copy)]
pub(crate) enum Left {
    Old,
    New,
    Mixed,
    Torn,
}

/// How often a call of the device fails, whether it is made none the less, and what a crash then leaves.
pub(crate) type Way = (Fuse, bool, Left);

/// The call of the device that fails, and how.
#[derive(Clone, Copy)]
pub(crate) struct Failing {
    pub(crate) call: u64,
    pub(crate) way: Way,
}

impl Failing {
    /// No call fails, and nothing is lost.
    pub(crate) fn never() -> Failing {
        Failing {
            call: u64::MAX,
            way: (Fuse::Once, false, Left::New),
        }
    }
}

/// How a run ended.
#[derive(Clone, Copy)]
pub(crate) struct End {
    /// Whether all calls of the device were made.
    pub(crate) is_whole: bool,
    /// Whether the device has the last commit that was acknowledged, or a later one.
    pub(crate) is_last: bool,
    pub(crate) counts: Counts,
}

impl Left {
    fn crash(self, disk: &mut MemDisk) {
        match self {
            Left::Old => disk.crash(&[]),
            Left::New => disk.crash(&[Torn::New]),
            Left::Mixed => disk.crash(&[Torn::Old, Torn::New]),
            Left::Torn => disk.crash(&[Torn::Bytes([0xA7; 512])]),
        }
    }
}

/// So many bytes.
fn zeros(alloc: Global, size: usize) -> Result<Vec<u8>, AllocError>
    ensures { IfOk result (λ bytes. length bytes.items ≡ size) }
{
    vec![in alloc; 0; size]
}

/// The bytes of a device.
fn image(alloc: Global, disk: &mut MemDisk) -> Result<Vec<u8>, RunFault> {
    let sectors = disk.sectors();
    let mut bytes = zeros(
        alloc,
        usize::try_from(sectors).unwrap_or(0).saturating_mul(512),
    )?;
    if bytes.is_empty() || bytes.len() % 512 != 0 || (bytes.len() / 512) as u64 > sectors {
        return Err(RunFault::Memory);
    }
    match disk.read(0, &mut bytes) {
        Ok(()) => Ok(bytes),
        Err(_) => Err(RunFault::Memory),
    }
}

/// What the plain reader finds on a device.
fn read_back(alloc: Global, disk: &mut MemDisk, class: u16) -> Result<Reading, RunFault> {
    let bytes = image(alloc, disk)?;
    match read(alloc, &bytes, class) {
        Ok(reading) => Ok(reading),
        Err(damage) => Err(RunFault::Damaged(damage)),
    }
}

/// Makes an event over and over, until there is nothing to do. Returns whether no call of the device failed.
fn repeat<K: Drawn>(beside: &mut Beside<K>, event: Event<K::Key>) -> Result<bool, RunFault> {
    for _step in 0..STEPS {
        match beside.step(event)? {
            Went::Failed => return Ok(false),
            Went::Nothing => return Ok(true),
            Went::On | Went::Waits(_) => {}
        }
    }
    Err(RunFault::Event)
}

/// Settles what was logged. Returns whether no call of the device failed.
fn settle<K: Drawn>(beside: &mut Beside<K>) -> Result<bool, RunFault> {
    Ok(repeat(beside, Event::CheckpointStep)? && repeat(beside, Event::LogStep)?)
}

/// Whether an event of no session is refused with `Failed`.
fn is_refused<K: Drawn>(beside: &mut Beside<K>, event: Event<K::Key>) -> bool {
    matches!(beside.engine.step(event), Outcome::Refused(Refusal::Failed))
}

/// Whether a session's ask is answered with `Failed`, and so is its move if a call is open, which is else refused with
/// `NoCall`.
fn is_refused_to<K: Drawn>(beside: &mut Beside<K>, session: u8) -> bool {
    let is_asked_in_vain = matches!(
        beside.engine.step(Event::Ask(session, Call::Begin)),
        Outcome::Replied(Reply::Refused(Refusal::Failed))
    );
    let has_call = matches!(beside.at(session), At::Open(_) | At::Waiting(_));
    is_asked_in_vain
        && match beside.engine.step(Event::Move(session)) {
            Outcome::Replied(Reply::Refused(Refusal::Failed)) => has_call,
            Outcome::Refused(Refusal::NoCall) => !has_call,
            _ => false,
        }
}

/// After a failed call each event is refused.
fn refuses_all<K: Drawn>(beside: &mut Beside<K>) -> Result<(), RunFault> {
    let refuses_flusher = is_refused(beside, Event::LogStep)
        && is_refused(beside, Event::WritePage(1))
        && is_refused(beside, Event::CheckpointStep)
        && is_refused(beside, Event::Sweep(1));
    if !refuses_flusher {
        return Err(RunFault::Event);
    }
    for place in 0..SESSIONS {
        let session = session_of(place);
        if !is_refused_to(beside, session) {
            return Err(RunFault::Reply(session));
        }
    }
    Ok(())
}

/// Makes a random run up to its end, or to a call of the device that fails. Returns whether all were made.
fn run_to_end<K: Drawn>(beside: &mut Beside<K>, setting: Setting) -> Result<bool, RunFault> {
    let mut draw = Pcg32::new(setting.seed, 11);
    if draw_run(beside, &mut draw, setting.steps)? && settle(beside)? {
        return Ok(true);
    }
    refuses_all(beside)?;
    Ok(false)
}

/// After a crash the device has the set of a commit, from the last that was acknowledged to the last that was sealed.
fn judge(
    alloc: Global,
    mut ended: Ended,
    class: u16,
    is_whole: bool,
    left: Left,
) -> Result<End, RunFault> {
    left.crash(&mut ended.disk);
    let found = read_back(alloc, &mut ended.disk, class)?;
    if found.number < ended.acknowledged || ended.sealed < found.number {
        return Err(RunFault::Number(found.number));
    }
    ended.sets.stands(found.number, &found.set)?;
    Ok(End {
        is_whole,
        is_last: found.number == ended.acknowledged,
        counts: ended.counts,
    })
}

/// A new index on a new device, of which a call fails.
pub(crate) fn begin_run<K: Drawn>(
    alloc: Global,
    setting: Setting,
    failing: Failing,
) -> Result<Beside<K>, RunFault> {
    let sectors = usize::try_from(sectors_for(PAGES)).unwrap_or(0);
    let disk = MemDisk::new(alloc, sectors)?;
    let (fuse, is_done, _) = failing.way;
    let fused = FuseDisk::new(disk, failing.call, fuse, is_done);
    let Setting { most, frames, .. } = setting;
    match new_index::<FuseDisk<MemDisk>, K>(alloc, fused, PAGES, most, frames) {
        Ok(events) => Beside::new(alloc, events.into_inner()),
        Err(refused) => Err(RunFault::NotBegun(refused.why)),
    }
}

/// Makes a random run up to its end or to a call that fails, and reads what the device then has.
pub(crate) fn make_run<K: Drawn>(
    alloc: Global,
    mut beside: Beside<K>,
    setting: Setting,
    left: Left,
) -> Result<End, RunFault> {
    let is_whole = run_to_end(&mut beside, setting)?;
    judge(alloc, beside.into_ended(), K::CLASS, is_whole, left)
}
