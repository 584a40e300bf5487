//! What an engine does before an opening returns it: it ends its checkpoint, and undoes the transactions that a crash
//! cut off.
ghost use Rattle.std.specs.Prelude.{◌≡◌, ◌-◌, false, true, IfErr, IfOk};
ghost use Rattle.gx_machine.specs.Machine.{is_session};
ghost use Rattle.gx_engine.specs.Calls.{TellsWhy};
ghost use Rattle.gx_engine.specs.Made.{Makes};
ghost use Rattle.gx_engine.specs.Resting.{WorksOff};
ghost use Rattle.gx_restart.specs.Undoing.{AreFreeBelow, GoesBy, IsFreeAt, OnlyUndoes, WhyStopped, undone_by};

use gx_class::{Probing, ReadKeys};
use gx_disk::SectorDisk;
use gx_engine::{Engine, drive, repeat};
use gx_events::Event;
use gx_geom::Refusal;
use gx_machine::Reply;

// Ends the checkpoint that runs.
fn end_checkpoint<D: SectorDisk, K: ReadKeys + Probing>(
    engine: &mut Engine<D, K>,
) -> Result<(), Refusal>
    requires works { engine.old.sessions.failed ≡ false }
    ensures goes { GoesBy (Makes K.Key.Shape K.ReadKeys D.state) engine.old engine.new }
    ensures told { TellsWhy D.state engine.old engine.new result }
    ensures ended { IfOk result (λ _. WorksOff engine.new) }
    ensures why { IfErr result (λ why. WhyStopped (Makes K.Key.Shape K.ReadKeys D.state) engine.old why engine.new) }
{
    match repeat(engine, Event::CheckpointStep) {
        Some(ends) => ends,
        None => unreachable!(),
    }
}

// Whether a session has nothing left to undo, by the reply that ended its moves.
fn undone<B: Copy>(reply: Option<Reply<B>>) -> Result<(), Refusal>
    ensures { result ≡ undone_by reply }
{
    match reply {
        Some(Reply::Aborted | Reply::Refused(Refusal::NoCall)) => Ok(()),
        Some(Reply::Refused(why)) => Err(why),
        Some(_) | None => Err(Refusal::Damaged),
    }
}

// Undoes a session's transaction, if it has one.
fn undo<D: SectorDisk, K: ReadKeys + Probing>(
    engine: &mut Engine<D, K>,
    session: u8,
) -> Result<(), Refusal>
    requires session { is_session session ≡ true }
    requires undoes { OnlyUndoes engine.old }
    requires works { WorksOff engine.old }
    ensures goes { GoesBy (Makes K.Key.Shape K.ReadKeys D.state) engine.old engine.new }
    ensures told { TellsWhy D.state engine.old engine.new result }
    ensures undone { IfOk result (λ _. IsFreeAt (session - 1) engine.new) }
    ensures works { IfOk result (λ _. WorksOff engine.new) }
    ensures why { IfErr result (λ why. WhyStopped (Makes K.Key.Shape K.ReadKeys D.state) engine.old why engine.new) }
{
    undone(drive(engine, session, Event::Move(session)))
}

// Undoes the transaction of each session that has one.
fn undo_all<D: SectorDisk, K: ReadKeys + Probing>(engine: &mut Engine<D, K>) -> Result<(), Refusal>
    requires undoes { OnlyUndoes engine.old }
    requires works { WorksOff engine.old }
    ensures goes { GoesBy (Makes K.Key.Shape K.ReadKeys D.state) engine.old engine.new }
    ensures told { TellsWhy D.state engine.old engine.new result }
    ensures free { IfOk result (λ _. AreFreeBelow 8 engine.new) }
    ensures works { IfOk result (λ _. WorksOff engine.new) }
    ensures why { IfErr result (λ why. WhyStopped (Makes K.Key.Shape K.ReadKeys D.state) engine.old why engine.new) }
{
    for place in 0..8u8 {
        undo(engine, place + 1)?;
    }
    Ok(())
}

/// Ends the checkpoint that an engine began with, and undoes the transactions that a crash cut off: no session has a
/// transaction then, and no checkpoint runs.
///
/// Refused as an event was refused, and with `Damaged` if a session's undo doesn't end within 2^56 events, as can
/// happen on a device that isn't honest. It takes no memory.
pub(crate) fn finish<D: SectorDisk, K: ReadKeys + Probing>(
    engine: &mut Engine<D, K>,
) -> Result<(), Refusal>
    requires undoes { OnlyUndoes engine.old }
    requires works { engine.old.sessions.failed ≡ false }
    ensures goes { GoesBy (Makes K.Key.Shape K.ReadKeys D.state) engine.old engine.new }
    ensures told { TellsWhy D.state engine.old engine.new result }
    ensures free { IfOk result (λ _. AreFreeBelow 8 engine.new) }
    ensures works { IfOk result (λ _. WorksOff engine.new) }
    ensures why { IfErr result (λ why. WhyStopped (Makes K.Key.Shape K.ReadKeys D.state) engine.old why engine.new) }
{
    end_checkpoint(engine)?;
    undo_all(engine)
}
