//! Starts an engine over the index that was found on a device, once the gates behind its log are closed.
ghost use Rattle.std.specs.Prelude.{◌≡◌, ◌≤◌, ◌+◌, ◌*◌, false, true, length, IfOk, MatchResult};
ghost use Rattle.gx_disk.specs.declared.layout.TheConstants.{PAGES_AT, PAGE_SECTORS};
ghost use Rattle.gx_opening.specs.Formatted.{IsAllowed};
ghost use Rattle.gx_opening.specs.Standing.{MayStart};
ghost use Rattle.gx_opening.specs.Setting.{IndexStands};
ghost use Rattle.gx_restart.specs.Beginning.{CountsOpening, IsSameDevice, StartsFrom};
ghost use Rattle.gx_restart.specs.Setting.{HasBegunAs, HasNotBegunAs};
ghost use Rattle.gx_restart.specs.Undoing.{OnlyUndoes};

use gx_class::ReadKeys;
use gx_disk::SectorDisk;
use gx_engine::laws::{a_class_is_lawful, a_log_tells_who_was_cut_off};
use gx_engine::{Engine, NotOpened, Start};
use gx_geom::{Refusal, Shape};
use gx_glog::close_later;
use gx_machine::Entry;
use gx_opening::Standing;
use gx_opening::laws::what_is_found_stands;
use gx_recovery::Touch;
use std::alloc::{AllocError, Global};

// Copies what transactions touched.
fn copied<B: Copy>(
    alloc: Global,
    touched: &[Touch<Entry<B>>],
) -> Result<Vec<Touch<Entry<B>>>, AllocError>
    ensures { IfOk result (λ losers. losers.items ≡ touched.now) }
{
    let mut losers = Vec::with_capacity(alloc, touched.len())?;
    for touch in touched {
        losers.push(*touch)?;
    }
    Ok(losers)
}

// The state that an engine starts from, by what was found.
fn start_of<B: Shape>(
    alloc: Global,
    standing: &Standing<B>,
    frames: usize,
) -> Result<Start<B>, AllocError>
    ensures { IfOk result (StartsFrom standing.now frames) }
{
    let told = &standing.log.analysis;
    Ok(Start {
        extent: standing.log.extent,
        bodies: standing.log.bodies,
        pages: standing.parameters.pages,
        fanout: standing.parameters.most,
        frames,
        commits: told.number(),
        counter: told.counter(),
        used: told.used(),
        next: told.next(),
        losers: copied(alloc, told.touched())?,
    })
}

/// Closes the gates behind the log on a device, and starts an engine there: a checkpoint runs, each transaction that a
/// crash cut off has a session that undoes it, and the other sessions are free.
///
/// Refused with `Device` if a call fails, and with `Memory`. On an honest device, at each moment, also if it is
/// refused, what a crash may leave stands for the set that the log keeps, under its number.
pub(crate) fn begin_engine<D: SectorDisk, K: ReadKeys>(
    alloc: Global,
    disk: D,
    standing: &Standing<K::Key>,
    frames: usize,
) -> Result<Engine<D, K>, NotOpened<D>>
    requires start { MayStart standing.now }
    requires allowed { IsAllowed K.CLASS standing.now.parameters }
    requires inside { PAGES_AT + PAGE_SECTORS * standing.now.parameters.pages ≤ (D.state disk).sectors }
    requires frames { (16 ≤ frames) × (frames ≤ 4096) }
    ensures device { MatchResult result (λ engine. IsSameDevice (D.state disk) (D.state engine.volume.shelf.disk))
        (λ n. IsSameDevice (D.state disk) (D.state n.disk)) }
    ensures faults { CountsOpening D.state (D.state disk).faults result }
    ensures count { IfOk result (λ engine. length engine.volume.shelf.frames.marks ≡ frames) }
    ensures undoes { IfOk result OnlyUndoes }
    ensures works { IfOk result (λ engine. engine.sessions.failed ≡ false) }
    ensures begun { (a : D) → (D.state disk).honest ≡ true
        → IndexStands K.Key.Shape K.ReadKeys (D.state a) (D.state disk) standing.now
        → MatchResult result
        (λ engine. HasBegunAs K.Key.Shape K.ReadKeys standing.now.parameters
        (D.state a).seen (D.state disk) (D.state engine.volume.shelf.disk) engine)
        (λ n. HasNotBegunAs K.Key.Shape K.ReadKeys standing.now.parameters (D.state a).seen
        (D.state disk) (D.state n.disk) n.why) }
{
    a_class_is_lawful::<K>();
    a_log_tells_who_was_cut_off::<K::Key>();
    what_is_found_stands::<D, K>();
    let mut disk = disk;
    let Ok(start) = start_of(alloc, standing, frames) else {
        return Err(NotOpened {
            why: Refusal::Memory,
            disk,
        });
    };
    match close_later(&mut disk, start.extent, start.bodies) {
        Ok(()) => Engine::start(alloc, disk, start),
        Err(why) => Err(NotOpened { why, disk }),
    }
}
