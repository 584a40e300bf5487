//! Transactions that a crash cut off: each gets a session, which undoes it.
ghost use Rattle.std.specs.Prelude.{◌≡◌, ◌≤◌};
ghost use Rattle.gx_machine.specs.Keys.{keys_of};
ghost use Rattle.gx_machine.specs.declared.limits.TheConstants.{SESSIONS};
ghost use Rattle.gx_phases.specs.States.{fresh_state};
ghost use Rattle.gx_engine.specs.declared.work.Work.{Work};
ghost use Rattle.gx_engine.specs.Losing.{AllRest, HoldsAll, OnlyHeld, note_in, session_after};

use crate::work::Work;
use gx_geom::{Refusal, Shape};
use gx_machine::Entry;
use gx_phases::Sessions;
use gx_recovery::Touch;
use gx_txn::Note;

/// The note that undoes an entry which a transaction wrote.
fn note_in<B: Copy>(touch: &Touch<Entry<B>>) -> Note<B>
    ensures { result ≡ note_in touch.now }
{
    Note {
        entry: touch.entry(),
        before: touch.before(),
        leaf: touch.leaf(),
    }
}

/// The session of a touch's transaction, by the touch before it, if any: that has this session and is of that
/// transaction.
fn session_after(session: u8, last: Option<u64>, transaction: u64) -> u8
    requires { session ≤ SESSIONS }
    ensures { result ≡ session_after session last transaction }
{
    match last {
        Some(before) => if before == transaction {
            session
        } else {
            session + 1
        },
        None => session + 1,
    }
}

/// Gives each transaction that a crash cut off a session, from 1 on in the order of their numbers, which claims the
/// entries that it touched and undoes it from its first note on. The touches come by transaction, then by entry.
///
/// `Damaged` if they are of more than eight transactions, if two transactions have touched one entry, or if they are of
/// more than 512 entries: an undamaged log has none such. The first transactions have sessions then.
pub(crate) fn hold_losers<B: Shape>(
    sessions: &mut Sessions<B, Work<B>>,
    losers: &[Touch<Entry<B>>],
) -> Result<(), Refusal>
    requires fresh { sessions.old ≡ fresh_state (Work B) sessions.old.latest sessions.old.durable sessions.old.next }
    ensures holds { HoldsAll (keys_of B.Shape) losers.now sessions.new result }
    ensures rests { AllRest sessions.new.phases }
    ensures only { OnlyHeld sessions.old sessions.new }
{
    let mut session = 0;
    let mut last = None;
    for loser in losers {
        let transaction = loser.transaction();
        session = session_after(session, last, transaction);
        if session > 8 {
            return Err(Refusal::Damaged);
        }
        last = Some(transaction);
        if let Err(_) = sessions.hold_loser(session, transaction, note_in(loser), Work::Rests) {
            return Err(Refusal::Damaged);
        }
    }
    Ok(())
}
