//! Sessions in threads.
ghost use Rattle.std.specs.Prelude.{◌≡◌};
ghost use Rattle.gx_machine.specs.declared.limits.TheConstants.{SESSIONS};
ghost use Rattle.gx_shared.specs.Books.{MayBeShared};

use crate::asserts::{got, holds};
use crate::callers::{Caller, at, back, entry, next_caller, overlap, start};
use crate::draws::draws;
use crate::held::Hold;
use gx_events::Events;
use gx_geom::Box2;
use gx_machine::{Call, Reply};
use gx_shared::{Book, NoBetween, Run, Shared, flusher};
use std::alloc::Global;
use std::process::Abort;
use std::sync::Wait;
use std::sync::ledger::Blank;
use std::thread::{Threads, join};

/// Begins, inserts a row and commits; the commit is held.
fn commits_held<E: Events<Box2>, R: Run<Box2>, W: Wait + Abort>(
    rt: &W,
    shared: &Shared<Box2, E, R>,
    caller: Caller<R>,
    hold: &Hold,
) -> Caller<R> {
    let mut caller = caller;
    caller.held(rt, shared, Call::Begin, &NoBetween);
    caller.held(rt, shared, Call::Insert(entry(1, 0, 0)), &NoBetween);
    caller.held(rt, shared, Call::Commit, hold);
    caller
}

/// Makes these calls while another session's call is held, and lets that one go; none if it isn't held.
fn calls_while_held<E: Events<Box2>, R: Run<Box2>, W: Wait + Abort>(
    rt: &W,
    shared: &Shared<Box2, E, R>,
    caller: &mut Caller<R>,
    hold: &Hold,
    calls: &[Call<Box2>],
) {
    if hold.is_reached() {
        caller.calls(rt, shared, calls);
    }
    hold.let_go();
}

/// While a call is held: begins and searches; then lets it go.
fn looks_meanwhile<E: Events<Box2>, R: Run<Box2>, W: Wait + Abort>(
    rt: &W,
    shared: &Shared<Box2, E, R>,
    caller: Caller<R>,
    hold: &Hold,
) -> Caller<R> {
    let mut caller = caller;
    let calls = [Call::Begin, overlap(at(50, 50))];
    calls_while_held(rt, shared, &mut caller, hold, &calls);
    caller
}

/// While a call is held: a flusher of four rounds runs to its end.
fn flushes_meanwhile<E: Events<Box2>, R: Run<Box2>, W: Wait + Abort>(
    rt: &W,
    shared: &Shared<Box2, E, R>,
    hold: &Hold,
) {
    if hold.is_reached() {
        flusher(rt, shared, 4, &NoBetween);
    }
    hold.let_go();
}

/// Fails unless session 2 was answered while session 1's commit was held.
fn first_judged(rt: &impl Abort, hold: &Hold, one: &[Reply<Box2>], two: &[Reply<Box2>]) {
    holds(rt, !hold.was_late(), "session 2 wasn't answered in a hold");
    holds(
        rt,
        matches!(two.get(0), Some(Reply::Ok)),
        "session 2 didn't begin",
    );
    holds(
        rt,
        matches!(two.get(1), Some(Reply::Found(_))),
        "session 2 wasn't answered",
    );
    holds(
        rt,
        matches!(one.get(2), Some(Reply::Committed(1))),
        "session 1 didn't commit",
    );
}

/// Session 1's commit is held after its first event, until session 2 has begun and has searched.
pub fn first_hold<
    E: Events<Box2> + Drop + Send,
    R: Run<Box2> + Send + Sync,
    W: Threads + Wait + Abort + Sync,
>(rt: &W, alloc: Global, blank: Blank, engine: E)
    requires name { blank.name ≡ R.name }
    requires parts { (blank.parts ≡ R.parts) × (R.parts ≡ SESSIONS) }
    requires starts { E.granted → MayBeShared E.sees R.starts engine }
{
    let (shared, mut sessions) = start::<E, R>(rt, alloc, blank, engine);
    let hold = Hold::new(1);
    let one = next_caller(rt, alloc, &mut sessions);
    let two = next_caller(rt, alloc, &mut sessions);
    let (one, two) = join(
        rt,
        || commits_held(rt, &shared, one, &hold),
        || looks_meanwhile(rt, &shared, two, &hold),
    );
    let one = back(rt, &mut sessions, one);
    let two = back(rt, &mut sessions, two);
    let _book = shared.close(sessions);
    first_judged(rt, &hold, one.as_slice(), two.as_slice())
}

/// Fails unless a flusher ended while session 1's commit was held, and made it durable.
fn flusher_judged(rt: &impl Abort, hold: &Hold, one: &[Reply<Box2>]) {
    holds(rt, !hold.was_late(), "the flusher didn't end in a hold");
    holds(
        rt,
        hold.steps() == (2, 2),
        "the flusher didn't make the commit durable",
    );
    holds(
        rt,
        matches!(one.get(2), Some(Reply::Committed(1))),
        "session 1 didn't commit",
    );
}

/// Session 1's commit is held after its second event, until a flusher of four rounds has ended: it has made the commit
/// durable, so that the third event acknowledges it.
pub fn flusher_hold<
    E: Events<Box2> + Drop + Send,
    R: Run<Box2> + Send + Sync,
    W: Threads + Wait + Abort + Sync,
>(rt: &W, alloc: Global, blank: Blank, engine: E)
    requires name { blank.name ≡ R.name }
    requires parts { (blank.parts ≡ R.parts) × (R.parts ≡ SESSIONS) }
    requires starts { E.granted → MayBeShared E.sees R.starts engine }
{
    let (shared, mut sessions) = start::<E, R>(rt, alloc, blank, engine);
    let hold = Hold::new(2);
    let one = next_caller(rt, alloc, &mut sessions);
    let (one, ()) = join(
        rt,
        || commits_held(rt, &shared, one, &hold),
        || flushes_meanwhile(rt, &shared, &hold),
    );
    let one = back(rt, &mut sessions, one);
    let _book = shared.close(sessions);
    flusher_judged(rt, &hold, one.as_slice())
}

/// Commits two rows, of which a search for what is near the origin finds row 2.
fn commits_two<E: Events<Box2>, R: Run<Box2>, W: Wait + Abort>(
    rt: &W,
    shared: &Shared<Box2, E, R>,
    caller: Caller<R>,
) -> Caller<R> {
    let mut caller = caller;
    caller.held(rt, shared, Call::Begin, &NoBetween);
    caller.held(rt, shared, Call::Insert(entry(1, 100, 4)), &NoBetween);
    caller.held(rt, shared, Call::Insert(entry(2, 0, 0)), &NoBetween);
    caller.held(rt, shared, Call::Commit, &NoBetween);
    caller
}

/// The box from 0 to 5 in both coordinates.
fn near_origin() -> Box2 {
    match Box2::new(0, 0, 5, 5) {
        Ok(key) => key,
        Err(_) => at(0, 0),
    }
}

/// Begins, and searches near the origin; the search is held.
fn searches_held<E: Events<Box2>, R: Run<Box2>, W: Wait + Abort>(
    rt: &W,
    shared: &Shared<Box2, E, R>,
    caller: Caller<R>,
    hold: &Hold,
) -> Caller<R> {
    let mut caller = caller;
    caller.held(rt, shared, Call::Begin, &NoBetween);
    caller.held(rt, shared, overlap(near_origin()), hold);
    caller
}

/// While a call is held: inserts five rows elsewhere and commits them; then lets it go.
fn inserts_meanwhile<E: Events<Box2>, R: Run<Box2>, W: Wait + Abort>(
    rt: &W,
    shared: &Shared<Box2, E, R>,
    caller: Caller<R>,
    hold: &Hold,
) -> Caller<R> {
    let mut caller = caller;
    let calls = [
        Call::Begin,
        Call::Insert(entry(3, 100, 2)),
        Call::Insert(entry(4, 100, 0)),
        Call::Insert(entry(5, 100, 6)),
        Call::Insert(entry(6, 100, 8)),
        Call::Insert(entry(7, 100, 10)),
        Call::Commit,
    ];
    calls_while_held(rt, shared, &mut caller, hold, &calls);
    caller
}

/// Whether a reply has found row 2 with its key and nothing else.
fn finds_row_2(reply: Option<&Reply<Box2>>) -> bool {
    match reply {
        Some(Reply::Found(found)) => match found.as_slice().first() {
            Some(first) => *first == entry(2, 0, 0) && found.as_slice().len() == 1,
            None => false,
        },
        _ => false,
    }
}

/// Fails unless session 2 committed while session 1's search was held, which found row 2 all the same, after so many
/// events.
fn search_judged(
    rt: &impl Abort,
    hold: &Hold,
    events: u64,
    one: &[Reply<Box2>],
    two: &[Reply<Box2>],
) {
    holds(rt, !hold.was_late(), "session 2 wasn't answered in a hold");
    holds(
        rt,
        hold.steps() == (events, events),
        "session 1's search took other events",
    );
    holds(
        rt,
        matches!(two.get(10), Some(Reply::Committed(2))),
        "session 2 didn't commit",
    );
    holds(
        rt,
        finds_row_2(one.get(1)),
        "session 1 found something else than row 2",
    );
}

/// Session 1's search is held after its second event, until session 2 has inserted five rows and committed them. It
/// comes after so many events before its last.
pub fn search_hold<
    E: Events<Box2> + Drop + Send,
    R: Run<Box2> + Send + Sync,
    W: Threads + Wait + Abort + Sync,
>(rt: &W, alloc: Global, blank: Blank, engine: E, events: u64)
    requires name { blank.name ≡ R.name }
    requires parts { (blank.parts ≡ R.parts) × (R.parts ≡ SESSIONS) }
    requires starts { E.granted → MayBeShared E.sees R.starts engine }
{
    let (shared, mut sessions) = start::<E, R>(rt, alloc, blank, engine);
    let hold = Hold::new(2);
    let one = next_caller(rt, alloc, &mut sessions);
    let two = next_caller(rt, alloc, &mut sessions);
    let two = commits_two(rt, &shared, two);
    let (one, two) = join(
        rt,
        || searches_held(rt, &shared, one, &hold),
        || inserts_meanwhile(rt, &shared, two, &hold),
    );
    let one = back(rt, &mut sessions, one);
    let two = back(rt, &mut sessions, two);
    let _book = shared.close(sessions);
    search_judged(rt, &hold, events, one.as_slice(), two.as_slice())
}

/// Fails unless the record has the replies that both sessions got, each under its own session.
fn paired<E: Events<Box2>, R: Run<Box2>>(
    rt: &impl Abort,
    book: &Book<Box2, E, R>,
    one: &[Reply<Box2>],
    two: &[Reply<Box2>],
) {
    holds(
        rt,
        book.agrees(1, one),
        "the record has other replies of session 1",
    );
    holds(
        rt,
        book.agrees(2, two),
        "the record has other replies of session 2",
    );
    holds(
        rt,
        !book.agrees(2, one),
        "the record has session 1's replies for session 2",
    );
}

/// Two sessions keep the replies that they got; the record has just these, and no others.
pub fn pairing<
    E: Events<Box2> + Drop + Send,
    R: Run<Box2> + Send + Sync,
    W: Threads + Wait + Abort + Sync,
>(rt: &W, alloc: Global, blank: Blank, engine: E)
    requires name { blank.name ≡ R.name }
    requires parts { (blank.parts ≡ R.parts) × (R.parts ≡ SESSIONS) }
    requires starts { E.granted → MayBeShared E.sees R.starts engine }
{
    let (shared, mut sessions) = start::<E, R>(rt, alloc, blank, engine);
    let one = next_caller(rt, alloc, &mut sessions);
    let two = next_caller(rt, alloc, &mut sessions);
    let (one, two) = join(
        rt,
        || draws(rt, &shared, one, 1, 100),
        || draws(rt, &shared, two, 2, 100),
    );
    let mut one = back(rt, &mut sessions, one);
    let two = back(rt, &mut sessions, two);
    let book = shared.close(sessions);
    paired(rt, &book, one.as_slice(), two.as_slice());
    let _ = one.pop();
    got(
        rt,
        one.push(Reply::Committed(1_000)),
        "no memory for a reply",
    );
    holds(
        rt,
        !book.agrees(1, one.as_slice()),
        "a changed reply is accepted",
    );
}

/// A run without calls has an empty record, and no share counts a call.
pub fn empty<E: Events<Box2> + Drop, R: Run<Box2>>(
    rt: &impl Abort,
    alloc: Global,
    blank: Blank,
    engine: E,
)
    requires name { blank.name ≡ R.name }
    requires parts { (blank.parts ≡ R.parts) × (R.parts ≡ SESSIONS) }
    requires starts { E.granted → MayBeShared E.sees R.starts engine }
{
    let (shared, sessions) = start::<E, R>(rt, alloc, blank, engine);
    let none = sessions.iter().all(|session| session.share() == 0);
    let eight = sessions.len() == 8;
    let book = shared.close(sessions);
    holds(rt, none && eight, "a share counts a call");
    holds(rt, book.calls().is_empty(), "the record isn't empty");
}
