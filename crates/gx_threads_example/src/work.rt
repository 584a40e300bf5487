//! What one thread does.
use crate::trouble::Trouble;
use gx_events::Events;
use gx_geom::{Box2, Refusal};
use gx_machine::{Call, Entry, Query, Reply};
use gx_shared::{NoBetween, Run, Session, Shared};
use std::alloc::{AllocError, Global};
use std::sync::Wait;
use std::sync::ledger::Ledger;

/// What a transaction asks between its begin and its commit.
#[derive(Clone, Copy)]
pub(crate) enum Kind {
    /// One insert, at a place in no order.
    Single,
    /// The same; its commit is printed once it is acknowledged.
    Told,
    /// A search, and then such an insert.
    Pair,
    /// Three inserts, in order, and then a search.
    Several,
}

impl Kind {
    /// The kind that a line's first word names, and the rest of the line. Without such a word it is the last.
    pub(crate) fn read(line: &str) -> (Kind, &str) {
        if let Some(rest) = line.strip_prefix("single ") {
            return (Kind::Single, rest);
        }
        if let Some(rest) = line.strip_prefix("told ") {
            return (Kind::Told, rest);
        }
        match line.strip_prefix("pair ") {
            Some(rest) => (Kind::Pair, rest),
            None => (Kind::Several, line),
        }
    }
}

/// A session with the replies that it got, in their order. A call that is given up, for a fault, has none in the
/// record, and none here.
#[derive(Drop)]
pub(crate) struct Worker<R: Ledger> {
    pub(crate) session: Session<Box2, R>,
    pub(crate) replies: Vec<Reply<Box2>>,
    /// The first fault by which a call was refused.
    pub(crate) fault: Option<Refusal>,
}

/// The fault by which a call was refused, if it was.
fn fault_of(reply: &Reply<Box2>) -> Option<Refusal> {
    match reply {
        Reply::Refused(why) if matches!(*why, Refusal::Device | Refusal::Failed) => Some(*why),
        _ => None,
    }
}

/// The box between two corners, which are in order.
fn between(x1: i32, y1: i32, x2: i32, y2: i32) -> Box2 {
    match Box2::new(x1, y1, x2, y2) {
        Ok(key) => key,
        Err(_) => Box2::point(x1, y1),
    }
}

/// The place of a turn's entry among up to 8,191, in no order.
fn scattered(turn: u16) -> i32 {
    i32::from(turn) * 7919 % 8191 * 100
}

impl<R: Ledger> Worker<R> {
    /// A session without replies yet.
    pub(crate) fn new(alloc: Global, session: Session<Box2, R>) -> Self {
        Worker {
            session,
            replies: Vec::new(alloc),
            fault: None,
        }
    }

    /// One call, to its end; its reply is kept if the session's share rose.
    pub(crate) fn call<E: Events<Box2>, W: Wait>(
        &mut self,
        rt: &W,
        shared: &Shared<Box2, E, R>,
        call: Call<Box2>,
    ) -> Result<(), AllocError>
    where
        R: Run<Box2>,
    {
        let finished = self.session.share();
        let reply = self.session.call(rt, shared, call, &NoBetween);
        self.fault = self.fault.or(fault_of(&reply));
        if self.session.share() > finished {
            self.replies.push(reply)?;
        }
        Ok(())
    }

    /// Inserts an entry at this place of a strip that this session alone uses.
    fn insert<E: Events<Box2>, W: Wait>(
        &mut self,
        rt: &W,
        shared: &Shared<Box2, E, R>,
        x: i32,
    ) -> Result<(), AllocError>
    where
        R: Run<Box2>,
    {
        let row = u64::from(self.session.number());
        let y = self.strip();
        let key = between(x, y, x.saturating_add(1), y.saturating_add(1));
        self.call(rt, shared, Call::Insert(Entry { row, key }))
    }

    /// Searches the strip's first places.
    pub(crate) fn search<E: Events<Box2>, W: Wait>(
        &mut self,
        rt: &W,
        shared: &Shared<Box2, E, R>,
    ) -> Result<(), AllocError>
    where
        R: Run<Box2>,
    {
        let y = self.strip();
        let strip = Query::Overlap(between(0, y, 1000, y.saturating_add(1)));
        self.call(rt, shared, Call::Search(strip))
    }

    /// Where the strip of this session begins.
    fn strip(&self) -> i32 {
        i32::from(self.session.number()) * 100
    }

    /// A transaction.
    pub(crate) fn transact<E: Events<Box2>, W: Wait>(
        &mut self,
        rt: &W,
        shared: &Shared<Box2, E, R>,
        turn: u16,
        kind: Kind,
    ) -> Result<(), AllocError>
    where
        R: Run<Box2>,
    {
        self.call(rt, shared, Call::Begin)?;
        match kind {
            Kind::Single | Kind::Told => self.insert(rt, shared, scattered(turn))?,
            Kind::Pair => {
                self.search(rt, shared)?;
                self.insert(rt, shared, scattered(turn))?;
            }
            Kind::Several => {
                for number in 0..3u8 {
                    let x = i32::from(turn) * 100 + i32::from(number) * 10;
                    self.insert(rt, shared, x)?;
                }
                self.search(rt, shared)?;
            }
        }
        self.call(rt, shared, Call::Commit)
    }

    /// Prints the number of the commit that was acknowledged last, if that was the last reply.
    fn print_commit<W: Print>(&self, rt: &W) -> Result<(), Trouble> {
        if let Some(Reply::Committed(number)) = self.replies.as_slice().last() {
            let session = self.session.number();
            println!(rt; "session {session} committed {number}")?;
        }
        Ok(())
    }

    /// Transactions, one after another.
    pub(crate) fn work<E: Events<Box2>, W: Wait + Print>(
        self,
        rt: &W,
        shared: &Shared<Box2, E, R>,
        transactions: u16,
        kind: Kind,
    ) -> Result<Self, Trouble>
    where
        R: Run<Box2>,
    {
        let mut worker = self;
        for turn in 0..transactions {
            worker.transact(rt, shared, turn, kind)?;
            if matches!(kind, Kind::Told) {
                worker.print_commit(rt)?;
            }
        }
        Ok(worker)
    }
}
