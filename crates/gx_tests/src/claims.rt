//! The tables of claims, predicates and notes beside the plain index, with places to the last and one more.
ghost use Rattle.std.specs.Prelude.{◌≡◌, true};
ghost use Rattle.gx_machine.specs.Machine.{is_session};

use crate::asserts::{got, holds, same};
use crate::plain::fresh;
use gx_geom::{Box2, Refusal};
use gx_machine::{Asked, Call, Entry, Query, Reply};
use gx_plain::PlainIndex;
use gx_txn::Transactions;
use std::process::Abort;

// The tables, and the plain index whose sessions are asked the same.
#[derive(Drop)]
struct Beside {
    table: Transactions<Box2>,
    plain: PlainIndex<Box2>,
}

// Eight sessions begin.
fn begin_all(plain: &mut PlainIndex<Box2>) {
    for s in 1..9 {
        let _ = plain.ask(s, Call::Begin);
    }
}

// Tables with nothing in them.
fn empty<R: Abort + AllocGlobal>(rt: &R) -> Transactions<Box2> {
    got(rt, Transactions::new(rt.alloc()))
}

fn begun<R: Abort + AllocGlobal>(rt: &R) -> Beside {
    let mut plain = fresh(rt);
    begin_all(&mut plain);
    let table = empty(rt);
    Beside { table, plain }
}

// What the tables have to return if the plain index gives this.
fn given(asked: Asked<Box2>) -> Result<(), Refusal> {
    match asked {
        Asked::Open => Ok(()),
        Asked::Now(Reply::Refused(why)) => Err(why),
        Asked::Now(_) => Err(Refusal::NoCall),
    }
}

// The reply that the tables have to give to a call: the plain index's.
fn plainly(plain: &mut PlainIndex<Box2>, s: u8, call: Call<Box2>) -> Result<(), Refusal> {
    let given = given(plain.ask(s, call));
    if given.is_ok() {
        let _ = plain.answer(s);
    }
    given
}

// A session's number.
fn session(drawn: u32) -> u8
    ensures { is_session result ≡ true }
{
    1 + (drawn % 8) as u8
}

fn is_committed(reply: &Reply<Box2>) -> bool {
    matches!(reply, Reply::Committed(_))
}

impl Beside {
    fn commit<R: Abort>(&mut self, rt: &R, s: u8)
        requires { is_session s ≡ true }
    {
        holds(rt, is_committed(&self.plain.call(s, Call::Commit)));
        self.table.end(s);
        let _ = self.plain.ask(s, Call::Begin);
    }
}

fn row(row: u64) -> Entry<Box2> {
    Entry {
        row,
        key: Box2::point(0, 0),
    }
}

fn claim<R: Abort>(rt: &R, both: &mut Beside, s: u8, n: u64, answer: Result<(), Refusal>)
    requires { is_session s ≡ true }
{
    same(rt, &both.table.claim(s, row(n)), &answer);
    same(
        rt,
        &plainly(&mut both.plain, s, Call::Insert(row(n))),
        &answer,
    );
}

#[test]
fn claims_are_full_at_512(rt: HostRuntime) {
    let mut both = begun(&rt);
    for place in 0..512 {
        claim(&rt, &mut both, session(place), u64::from(place), Ok(()));
    }
    claim(&rt, &mut both, 1, 512, Err(Refusal::ClaimsFull));
    claim(&rt, &mut both, 1, 0, Ok(()));
    claim(&rt, &mut both, 1, 15, Err(Refusal::Busy(8)));
    both.commit(&rt, 8);
    claim(&rt, &mut both, 1, 15, Ok(()));
    holds(&rt, !both.table.is_claimed(&row(7)));
}

// Claims an entry for session 3, and notes a write of it.
fn write<R: Abort>(rt: &R, table: &mut Transactions<Box2>, drawn: u64, leaf: u32) {
    let e = row(drawn);
    let given = table.claim(3, e);
    same(rt, &given, &Ok(()));
    if given.is_ok() {
        table.note(3, e, leaf % 2 == 0, leaf);
        holds(rt, table.is_claimed(&e));
    }
}

// Writes 512 entries for session 3.
fn write_all<R: Abort>(rt: &R, table: &mut Transactions<Box2>) {
    for place in 0..512 {
        write(rt, table, u64::from(place * 5 % 512), place);
    }
}

#[test]
fn one_session_may_have_all_claims_and_notes(rt: HostRuntime) {
    let mut table = empty(&rt);
    write_all(&rt, &mut table);
    same(&rt, &table.notes(3).len(), &512);
    let answers = [table.claim(3, row(512)), table.claim(4, row(512))];
    same(&rt, &answers, &[Err(Refusal::ClaimsFull); 2]);
}

fn at(x: i32) -> Query<Box2> {
    Query::Equal(Box2::point(x, 0))
}

fn search<R: Abort>(rt: &R, both: &mut Beside, s: u8, x: i32, answer: Result<(), Refusal>)
    requires { is_session s ≡ true }
{
    same(rt, &both.table.predicate(s, at(x)), &answer);
    same(
        rt,
        &plainly(&mut both.plain, s, Call::Search(at(x))),
        &answer,
    );
}

#[test]
fn predicates_are_full_at_16(rt: HostRuntime) {
    let mut both = begun(&rt);
    for place in 0..16 {
        search(&rt, &mut both, 2, place, Ok(()));
    }
    search(&rt, &mut both, 2, 16, Err(Refusal::PredicatesFull));
    search(&rt, &mut both, 3, 16, Ok(()));
    search(&rt, &mut both, 2, 0, Ok(()));
    claim(&rt, &mut both, 4, 1, Err(Refusal::Busy(2)));
}
