//! Asks of full tables of claims and predicates: `claims`, `searches` or `sweeps`. The sum is of the answers.
ghost use Rattle.std.specs.Prelude.{◌≡◌, true};
ghost use Rattle.gx_machine.specs.Machine.{is_session};

use crate::numbers::draw;
use gx_geom::{Box2, Refusal};
use gx_machine::{Entry, MAX_CLAIMS, MAX_PREDICATES, Query, SESSIONS};
use gx_txn::Transactions;
use std::alloc::Global;

/// What is asked.
#[derive(Clone, Copy)]
pub(crate) enum Kind {
    /// Claims of random entries.
    Claims,
    /// Predicates that match nothing.
    Searches,
    /// Whether random entries are claimed.
    Sweeps,
}

impl Kind {
    /// The one of this name.
    pub(crate) fn named(word: &str) -> Option<Kind> {
        match word {
            "claims" => Some(Kind::Claims),
            "searches" => Some(Kind::Searches),
            "sweeps" => Some(Kind::Sweeps),
            _ => None,
        }
    }
}

/// A session's number.
fn session(drawn: u32) -> u8
    ensures { is_session result ≡ true }
{
    1 + (drawn % 8) as u8
}

/// A box whose sides are this long.
fn square(x: i32, y: i32, side: i32) -> Box2 {
    Box2::new(x, y, x.saturating_add(side), y.saturating_add(side)).unwrap_or(Box2::point(x, y))
}

/// A small box of a wide grid.
fn key(drawn: u32) -> Box2 {
    square((drawn % 1024) as i32, (drawn / 1024 % 1024) as i32, 2)
}

/// A query on a box that is as far up as `y`.
fn query(drawn: u32, y: i32) -> Query<Box2> {
    let wanted = square((drawn % 1024) as i32, y, 8);
    match drawn / 1024 % 3 {
        0 => Query::Overlap(wanted),
        1 => Query::Within(wanted),
        _ => Query::Equal(wanted),
    }
}

/// An answer as a number.
fn code(answer: Result<(), Refusal>) -> u64 {
    match answer {
        Ok(()) => 0,
        Err(Refusal::Busy(other)) => 10 + u64::from(other),
        Err(why) => u64::from(why.number()),
    }
}

/// Fills the tables.
fn fill(table: &mut Transactions<Box2>, state: &mut u32) -> u64 {
    let mut sum: u64 = 0;
    for n in 0..MAX_CLAIMS as u32 {
        let e = Entry {
            row: u64::from(n * 37 % 1000),
            key: key(draw(state)),
        };
        sum = sum.wrapping_add(code(table.claim(session(n), e)));
    }
    for n in 0..(SESSIONS * MAX_PREDICATES) as u32 {
        sum = sum.wrapping_add(code(table.predicate(session(n), query(draw(state), 2000))));
    }
    sum
}

/// Asks once.
fn ask(table: &mut Transactions<Box2>, kind: Kind, state: &mut u32) -> u64 {
    let drawn = draw(state);
    let e = Entry {
        row: u64::from(drawn / 8 % 1000),
        key: key(draw(state)),
    };
    match kind {
        Kind::Claims => code(table.claim(session(drawn), e)),
        Kind::Searches => code(table.predicate(session(drawn), query(drawn, 3000))),
        Kind::Sweeps => u64::from(table.is_claimed(&e)),
    }
}

/// Fills tables and asks so often, and returns the sum. `None` if memory is refused.
pub(crate) fn run(alloc: Global, kind: Kind, asks: u64) -> Option<u64> {
    let mut table = Transactions::new(alloc).ok()?;
    let mut state = 7;
    let mut sum = fill(&mut table, &mut state);
    for _ in 0..asks {
        sum = sum.wrapping_add(ask(&mut table, kind, &mut state));
    }
    Some(sum)
}
