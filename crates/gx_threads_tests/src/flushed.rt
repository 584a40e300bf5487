//! A flusher's rounds over an engine after all calls.
ghost use Rattle.std.specs.Prelude.{◌≡◌};
ghost use Rattle.gx_machine.specs.declared.limits.TheConstants.{SESSIONS};
ghost use Rattle.gx_shared.specs.Books.{MayBeShared};

use crate::callers::{back, entry, next_caller, start};
use gx_events::Events;
use gx_geom::Box2;
use gx_machine::Call;
use gx_shared::{NoBetween, Run, flusher};
use std::alloc::Global;
use std::process::Abort;
use std::sync::Wait;
use std::sync::ledger::Blank;

/// Two rows are committed, and one of them deleted and that committed; then a flusher makes so many rounds. Gives the
/// engine back.
pub fn flushed<E: Events<Box2> + Drop, R: Run<Box2>, W: Wait + Abort>(
    rt: &W,
    alloc: Global,
    blank: Blank,
    engine: E,
    rounds: u64,
) -> E
    requires name { blank.name ≡ R.name }
    requires parts { (blank.parts ≡ R.parts) × (R.parts ≡ SESSIONS) }
    requires starts { E.granted → MayBeShared E.sees R.starts engine }
{
    let (shared, mut sessions) = start::<E, R>(rt, alloc, blank, engine);
    let mut caller = next_caller(rt, alloc, &mut sessions);
    let calls = [
        Call::Begin,
        Call::Insert(entry(1, 0, 0)),
        Call::Insert(entry(2, 5, 5)),
        Call::Commit,
        Call::Begin,
        Call::Delete(entry(1, 0, 0)),
        Call::Commit,
    ];
    caller.calls(rt, &shared, &calls);
    flusher(rt, &shared, rounds, &NoBetween);
    let _replies = back(rt, &mut sessions, caller);
    shared.close(sessions).into_engine()
}
