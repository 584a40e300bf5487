//! Asks, by a session's phase and by what it holds.
ghost use Rattle.std.specs.Prelude.{◌≡◌, ◌<◌, ◌-◌, true, length};
ghost use Rattle.gx_machine.specs.declared.limits.TheConstants.{SESSIONS};
ghost use Rattle.gx_machine.specs.Keys.{keys_of};
ghost use Rattle.gx_machine.specs.Machine.{is_session};
ghost use Rattle.gx_phases.specs.Asked.{is_begin, is_free};
ghost use Rattle.gx_phases.specs.Parts.{PartsAsked, Settled, WorkingAsked};
ghost use Rattle.gx_phases.specs.States.{phase_at, with_phase};

use crate::phase::Phase;
use gx_geom::{Refusal, Shape};
use gx_machine::{Asked, Call, Reply, SESSIONS};
use gx_txn::Transactions;

/// A call refused.
pub fn refused<B>(why: Refusal) -> Asked<B>
    ensures { result ≡ Asked.Now (Reply.Refused why) }
{
    Asked::Now(Reply::Refused(why))
}

/// Whether there is a session of this number.
pub fn is_session(session: u8) -> bool
    ensures { result ≡ is_session session }
{
    0 < session && usize::from(session) <= SESSIONS
}

/// The place of a session in a list of all.
pub fn place_of(session: u8) -> usize
    requires { is_session session ≡ true }
    ensures place { result ≡ session - 1 }
    ensures within { result < SESSIONS }
{
    usize::from(session) - 1
}

/// Whether a call begins a transaction.
pub fn is_begin<B>(call: &Call<B>) -> bool
    ensures { result ≡ is_begin call.now }
{
    matches!(call, Call::Begin)
}

/// Whether a session in this phase has no transaction.
pub fn is_free<B: Shape, W>(phase: &Phase<B, W>) -> bool
    ensures { result ≡ is_free phase.now }
{
    matches!(phase, Phase::Free)
}

/// Sets a session's phase.
pub fn set_phase<B: Shape, W: Drop>(phases: &mut Vec<Phase<B, W>>, session: u8, phase: Phase<B, W>)
    requires session { is_session session ≡ true }
    requires eight { length phases.old.items ≡ SESSIONS }
    ensures { phases.new.items ≡ with_phase session phase phases.old.items }
{
    phases[place_of(session)] = phase;
}

/// Opens a call of a session that gets its lock, or returns why it doesn't.
fn settle<B: Shape, W: Drop>(
    phases: &mut Vec<Phase<B, W>>,
    session: u8,
    call: Call<B>,
    work: W,
    lock: Result<(), Refusal>,
) -> Asked<B>
    requires session { is_session session ≡ true }
    requires eight { length phases.old.items ≡ SESSIONS }
    ensures { Settled lock session call work phases.old.items result phases.new.items }
{
    match lock {
        Ok(()) => {
            set_phase(phases, session, Phase::Open(call, work));
            Asked::Open
        }
        Err(why) => refused(why),
    }
}

/// Asks a call of a session that has a transaction and no open call.
fn ask_working<B: Shape, W: Drop>(
    phases: &mut Vec<Phase<B, W>>,
    table: &mut Transactions<B>,
    session: u8,
    call: Call<B>,
    work: W,
) -> Asked<B>
    requires session { is_session session ≡ true }
    requires eight { length phases.old.items ≡ SESSIONS }
    ensures { WorkingAsked (keys_of B.Shape) session call work phases.old.items table.old
        result phases.new.items table.new }
{
    match call {
        Call::Begin => refused(Refusal::InTransaction),
        Call::Insert(e) => {
            let lock = table.claim(session, e);
            settle(phases, session, Call::Insert(e), work, lock)
        }
        Call::Delete(e) => {
            let lock = table.claim(session, e);
            settle(phases, session, Call::Delete(e), work, lock)
        }
        Call::Search(query) => {
            let lock = table.predicate(session, query);
            settle(phases, session, Call::Search(query), work, lock)
        }
        Call::Commit => {
            set_phase(phases, session, Phase::Open(Call::Commit, work));
            Asked::Open
        }
        Call::Abort => {
            set_phase(phases, session, Phase::Undoing(0, work));
            Asked::Open
        }
    }
}

/// Asks a call of a session, except for a Begin of one that has no transaction.
pub fn ask_at<B: Shape, W: Drop>(
    phases: &mut Vec<Phase<B, W>>,
    table: &mut Transactions<B>,
    session: u8,
    call: Call<B>,
    work: W,
) -> Asked<B>
    requires session { is_session session ≡ true }
    requires eight { length phases.old.items ≡ SESSIONS }
    ensures { PartsAsked (keys_of B.Shape) session call work (phase_at (session - 1) phases.old.items)
        phases.old.items table.old result phases.new.items table.new }
{
    match &phases[place_of(session)] {
        Phase::Free => refused(Refusal::NoTransaction),
        Phase::Working => ask_working(phases, table, session, call, work),
        Phase::Open(_, _) | Phase::Undoing(_, _) | Phase::Waiting(_) => refused(Refusal::CallOpen),
    }
}
