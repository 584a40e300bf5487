//! Asks of an engine's sessions at a concrete key, one after another.
use crate::asserts::holds;
use Kind::{Abort, Begin, Commit, Insert, Search};
use gx_geom::{Box2, Refusal};
use gx_machine::{Asked, Call, Entry, LAST_NUMBER, Query, Reply};
use gx_phases::Sessions;
use std::process;
use std::test::Fail;

// Why a call was refused.
fn why(asked: Asked<Box2>) -> Option<Refusal> {
    match asked {
        Asked::Now(Reply::Refused(why)) => Some(why),
        _ => None,
    }
}

// A call; those with a key are of the box at the origin.
#[derive(Clone, Copy)]
enum Kind {
    Begin,
    Commit,
    Abort,
    Search,
    // a row
    Insert(u64),
}

fn call(kind: Kind) -> Call<Box2> {
    let key = Box2::point(0, 0);
    match kind {
        Begin => Call::Begin,
        Commit => Call::Commit,
        Abort => Call::Abort,
        Search => Call::Search(Query::Overlap(key)),
        Insert(row) => Call::Insert(Entry { row, key }),
    }
}

// A session's ask, and why it is refused.
type Ask = (u8, Kind, Option<Refusal>);

// Fails unless each ask is refused so, or not.
fn all_answer(rt: &impl process::Abort, sessions: &mut Sessions<Box2, u8>, asks: &[Ask]) {
    for (session, kind, wanted) in asks {
        holds(rt, why(sessions.ask(*session, call(*kind), 0)) == *wanted);
    }
}

#[test]
fn a_begin_takes_the_next_number(rt: HostRuntime) -> Result<(), Fail> {
    let mut sessions: Sessions<Box2, u8> = Sessions::new(rt.alloc(), 4, 3, 7)?;
    all_answer(&rt, &mut sessions, &[(2, Begin, None)]);
    holds(&rt, sessions.transaction(2) == 7 && sessions.next() == 8);
    all_answer(&rt, &mut sessions, &[(5, Begin, None)]);
    holds(
        &rt,
        sessions.transaction(5) == 8 && sessions.transaction(2) == 7,
    );
    Ok(())
}

static ORDER: [Ask; 8] = [
    (9, Begin, Some(Refusal::BadSession)),
    (1, Commit, Some(Refusal::NoTransaction)),
    (1, Begin, None),
    (1, Begin, Some(Refusal::InTransaction)),
    (1, Search, None),
    (1, Begin, Some(Refusal::CallOpen)),
    (2, Begin, None),
    (2, Insert(1), Some(Refusal::Busy(1))),
];

#[test]
fn refusals_come_in_their_order(rt: HostRuntime) -> Result<(), Fail> {
    let mut sessions: Sessions<Box2, u8> = Sessions::new(rt.alloc(), 0, 0, 1)?;
    all_answer(&rt, &mut sessions, &ORDER);
    sessions.fail();
    all_answer(&rt, &mut sessions, &[(9, Begin, Some(Refusal::Failed))]);
    Ok(())
}

// The last commit's number, and the next transaction's; and asks of sessions then.
static USED_UP: [(u64, u64, &[Ask]); 3] = [
    (
        LAST_NUMBER,
        1,
        &[
            (1, Begin, Some(Refusal::HistoryFull)),
            (1, Abort, Some(Refusal::NoTransaction)),
        ],
    ),
    (0, LAST_NUMBER, &[(1, Begin, Some(Refusal::HistoryFull))]),
    (
        0,
        LAST_NUMBER - 1,
        &[(1, Begin, None), (2, Begin, Some(Refusal::HistoryFull))],
    ),
];

#[test]
fn a_begin_finds_the_numbers_used_up(rt: HostRuntime) -> Result<(), Fail> {
    for (commits, next, asks) in &USED_UP {
        let mut sessions: Sessions<Box2, u8> = Sessions::new(rt.alloc(), *commits, 0, *next)?;
        all_answer(&rt, &mut sessions, asks);
    }
    Ok(())
}
