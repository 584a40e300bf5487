//! Sessions with the replies that they got.
ghost use Rattle.std.specs.Prelude.{◌≡◌};
ghost use Rattle.gx_machine.specs.declared.limits.TheConstants.{SESSIONS};
ghost use Rattle.gx_shared.specs.Books.{MayBeShared};

use crate::asserts::{got, holds};
use gx_events::Events;
use gx_geom::Box2;
use gx_machine::{Call, Entry, Query, Reply};
use gx_shared::{Between, NoBetween, Run, Session, Shared};
use std::alloc::Global;
use std::process::Abort;
use std::sync::Wait;
use std::sync::ledger::{Blank, Ledger};

/// A box with this corner, one wide and one high.
pub fn at(x: i32, y: i32) -> Box2 {
    match Box2::new(x, y, x.saturating_add(1), y.saturating_add(1)) {
        Ok(key) => key,
        Err(_) => Box2::point(x, y),
    }
}

/// An entry of a row at a corner.
pub fn entry(row: u64, x: i32, y: i32) -> Entry<Box2> {
    Entry { row, key: at(x, y) }
}

/// A search for what overlaps this box.
pub fn overlap(key: Box2) -> Call<Box2> {
    Call::Search(Query::Overlap(key))
}

/// A session, and the replies that it got, in their order.
#[derive(Drop)]
pub struct Caller<R: Ledger> {
    pub session: Session<Box2, R>,
    pub replies: Vec<Reply<Box2>>,
}

impl<R: Ledger> Caller<R> {
    /// A session without replies yet.
    pub fn new(alloc: Global, session: Session<Box2, R>) -> Self {
        Caller {
            session,
            replies: Vec::new(alloc),
        }
    }

    /// One call, with what comes between its events.
    pub fn held<E: Events<Box2>, G: Between, W: Wait + Abort>(
        &mut self,
        rt: &W,
        shared: &Shared<Box2, E, R>,
        call: Call<Box2>,
        between: &G,
    )
    where
        R: Run<Box2>,
    {
        let reply = self.session.call(rt, shared, call, between);
        got(rt, self.replies.push(reply), "no memory for a reply");
    }

    /// Calls, one after another.
    pub fn calls<E: Events<Box2>, W: Wait + Abort>(
        &mut self,
        rt: &W,
        shared: &Shared<Box2, E, R>,
        calls: &[Call<Box2>],
    )
    where
        R: Run<Box2>,
    {
        for call in calls {
            self.held(rt, shared, *call, &NoBetween);
        }
    }
}

/// An engine with nothing committed, shared by eight sessions.
pub fn start<E: Events<Box2> + Drop, R: Run<Box2>>(
    rt: &impl Abort,
    alloc: Global,
    blank: Blank,
    engine: E,
) -> (Shared<Box2, E, R>, Vec<Session<Box2, R>>)
    requires name { blank.name ≡ R.name }
    requires parts { (blank.parts ≡ R.parts) × (R.parts ≡ SESSIONS) }
    requires starts { E.granted → MayBeShared E.sees R.starts engine }
{
    got(
        rt,
        Shared::new(alloc, blank, engine),
        "no memory for the record",
    )
}

/// A caller by the first session that is left.
pub fn next_caller<R: Run<Box2>>(
    rt: &impl Abort,
    alloc: Global,
    sessions: &mut Vec<Session<Box2, R>>,
) -> Caller<R> {
    let some = !sessions.is_empty();
    holds(rt, some, "no session is left");
    Caller::new(alloc, sessions.remove(0))
}

/// A caller's session back among the others; its replies.
pub fn back<R: Run<Box2>>(
    rt: &impl Abort,
    sessions: &mut Vec<Session<Box2, R>>,
    caller: Caller<R>,
) -> Vec<Reply<Box2>> {
    let Caller { session, replies } = caller;
    got(rt, sessions.push(session), "no memory for a session");
    replies
}
