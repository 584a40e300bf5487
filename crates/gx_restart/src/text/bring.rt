//! Brings a page, after the events that free a frame for it.
ghost use Rattle.std.specs.Prelude.{◌≡◌, ◌≤◌, true, OnOk, IfOk};
ghost use Rattle.gx_store.specs.State.{IsHeld};
ghost use Rattle.gx_restart.specs.Bringing.{Brings, Helps, IsBrought, IsHelped, IsTaken};

use super::stop::Stop;
use gx_class::ReadKeys;
use gx_disk::SectorDisk;
use gx_engine::{EVENTS, Engine};
use gx_events::{Need, Outcome};
use gx_geom::Refusal;

// Makes the event that is named.
fn make<D: SectorDisk, K: ReadKeys>(engine: &mut Engine<D, K>, named: Need) -> Outcome<K::Key>
    ensures { Helps K.Key.Shape K.ReadKeys D.state named engine.old result engine.new }
{
    match named {
        Need::Log => engine.log_step(),
        Need::Write(page) => engine.write_page(page),
        Need::Checkpoint => engine.checkpoint_step(),
    }
}

// Makes the event that is named. Returns why it was refused, if it was.
fn help<D: SectorDisk, K: ReadKeys>(engine: &mut Engine<D, K>, named: Need) -> Result<(), Refusal>
    ensures { IsHelped (Helps K.Key.Shape K.ReadKeys D.state) named engine.old result engine.new }
{
    match make(engine, named) {
        Outcome::Refused(why) => Err(why),
        Outcome::Replied(_) | Outcome::More | Outcome::Help(_) | Outcome::Nothing => Ok(()),
    }
}

// Tries to bring a page, and returns whether it was brought. If no frame is free, makes the event that frees one.
fn take<D: SectorDisk, K: ReadKeys>(engine: &mut Engine<D, K>, page: u32) -> Result<bool, Refusal>
    requires from { 1 ≤ page }
    requires to { page ≤ engine.old.volume.shelf.used }
    ensures taken { IsTaken (Brings K.Key.Shape K.ReadKeys D.state page)
        (Helps K.Key.Shape K.ReadKeys D.state) engine.old result engine.new }
    ensures held { IfOk result (λ brought. brought ≡ true → IsHeld engine.new.volume.shelf page) }
{
    match engine.bring_page(page) {
        Ok(()) => Ok(true),
        Err(Outcome::Help(named)) => {
            help(engine, named)?;
            Ok(false)
        }
        Err(Outcome::Refused(why)) => Err(why),
        Err(Outcome::Replied(_) | Outcome::More | Outcome::Nothing) => unreachable!(),
    }
}

/// Brings a page in use into a frame, which holds it until pages are brought again. If no frame is free, it makes the
/// events that free one: steps of the log and of a checkpoint, and writes of pages. It changes no node, no set, claim,
/// predicate or open call.
///
/// `Refused` as an event was, and `GivenUp` if the page isn't brought within `EVENTS` turns of one or two events. It
/// takes no memory.
pub(crate) fn bring<D: SectorDisk, K: ReadKeys>(
    engine: &mut Engine<D, K>,
    page: u32,
) -> Result<(), Stop>
    requires from { 1 ≤ page }
    requires to { page ≤ engine.old.volume.shelf.used }
    ensures brought { IsBrought (Brings K.Key.Shape K.ReadKeys D.state page)
        (Helps K.Key.Shape K.ReadKeys D.state) engine.old result engine.new }
    ensures held { OnOk result (IsHeld engine.new.volume.shelf page) }
{
    for _turn in 0..EVENTS {
        match take(engine, page) {
            Ok(true) => return Ok(()),
            Ok(false) => {}
            Err(why) => return Err(Stop::Refused(why)),
        }
    }
    Err(Stop::GivenUp)
}
