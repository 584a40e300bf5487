//! What is read of a session by its phase, and how its work is changed.
ghost use Rattle.std.specs.Prelude.{◌≡◌, ◌-◌, ◌<◌, true, length};
ghost use Rattle.gx_machine.specs.declared.limits.TheConstants.{SESSIONS};
ghost use Rattle.gx_machine.specs.Machine.{is_session};
ghost use Rattle.gx_machine.specs.declared.call.Call.TheVariants.{Insert};
ghost use Rattle.gx_machine.specs.Keys.{keys_of};
ghost use Rattle.gx_txn.specs.Tables.{nothing_held, held_by, with_held, locks_for};
ghost use Rattle.gx_phases.specs.declared.phase.Phase.TheVariants as phase;
ghost use Rattle.gx_phases.specs.Moves.{HeldNote, MovedIn, restored_by, waits_for, with_work};
ghost use Rattle.gx_phases.specs.States.{phase_at, with_phase};

use crate::asks::{place_of, set_phase};
use crate::phase::Phase;
use gx_geom::{Refusal, Shape};
use gx_txn::{Note, Transactions};
use std::mem;

/// Closes a session's call: it has a transaction, and no call open.
pub fn close<B: Shape, W: Drop>(phases: &mut Vec<Phase<B, W>>, session: u8)
    requires session { is_session session ≡ true }
    requires eight { length phases.old.items ≡ SESSIONS }
    ensures { phases.new.items ≡ with_phase session phase.Working phases.old.items }
{
    set_phase(phases, session, Phase::Working);
}

/// A session has no transaction.
pub fn free<B: Shape, W: Drop>(phases: &mut Vec<Phase<B, W>>, session: u8)
    requires session { is_session session ≡ true }
    requires eight { length phases.old.items ≡ SESSIONS }
    ensures { phases.new.items ≡ with_phase session phase.Free phases.old.items }
{
    set_phase(phases, session, Phase::Free);
}

/// A session holds nothing.
pub fn release<B: Shape>(table: &mut Transactions<B>, session: u8)
    requires { is_session session ≡ true }
    ensures { table.new ≡ with_held session nothing_held table.old }
{
    table.end(session);
}

/// Claims a note's entry for a session, and notes it; or returns why it can't be claimed.
pub fn hold<B: Shape>(
    table: &mut Transactions<B>,
    session: u8,
    note: Note<B>,
) -> Result<(), Refusal>
    requires session { is_session session ≡ true }
    requires eight { length table.old ≡ SESSIONS }
    ensures { HeldNote (keys_of B.Shape) (locks_for (keys_of B.Shape) (Insert note.entry) session table.old) session
        note table.old result table.new }
{
    table.claim(session, note.entry)?;
    table.note(session, note.entry, note.before, note.leaf);
    Ok(())
}

/// A session's note at a place is written again, in this leaf.
pub fn write_again<B: Shape>(table: &mut Transactions<B>, session: u8, place: usize, leaf: u32)
    requires session { is_session session ≡ true }
    requires there { place < length (held_by session table.old).notes }
    ensures { MovedIn session place leaf table.old table.new }
{
    let note = table.notes(session)[place];
    table.note(session, note.entry, note.before, leaf);
}

/// The number of a commit that isn't acknowledged.
pub fn waits_for<B: Shape, W>(phase: &Phase<B, W>) -> Option<u64>
    ensures { result ≡ waits_for phase.now }
{
    match phase {
        Phase::Free => None,
        Phase::Working => None,
        Phase::Open(_, _) => None,
        Phase::Undoing(_, _) => None,
        Phase::Waiting(number) => Some(*number),
    }
}

/// How many notes of a transaction that is undone are restored.
pub fn restored_by<B: Shape, W>(phase: &Phase<B, W>) -> Option<usize>
    ensures { result ≡ restored_by phase.now }
{
    match phase {
        Phase::Free => None,
        Phase::Working => None,
        Phase::Open(_, _) => None,
        Phase::Undoing(restored, _) => Some(*restored),
        Phase::Waiting(_) => None,
    }
}

/// Gives a phase this work, and returns what it had; or returns this work.
fn put_work<B: Shape, W: Drop>(phase: &mut Phase<B, W>, work: W) -> W
    ensures given { result ≡ (with_work work phase.old).0 }
    ensures phase { phase.new ≡ (with_work work phase.old).1 }
{
    match phase {
        Phase::Open(_, now) => mem::replace(now, work),
        Phase::Undoing(_, now) => mem::replace(now, work),
        Phase::Free | Phase::Working | Phase::Waiting(_) => work,
    }
}

/// Gives a session this work, and returns what it had; or returns this work.
pub fn replace_work<B: Shape, W: Drop>(phases: &mut Vec<Phase<B, W>>, session: u8, work: W) -> W
    requires session { is_session session ≡ true }
    requires eight { length phases.old.items ≡ SESSIONS }
    ensures given { result ≡ (with_work work (phase_at (session - 1) phases.old.items)).0 }
    ensures phases { phases.new.items ≡ with_phase session
        (with_work work (phase_at (session - 1) phases.old.items)).1 phases.old.items }
{
    put_work(&mut phases[place_of(session)], work)
}
