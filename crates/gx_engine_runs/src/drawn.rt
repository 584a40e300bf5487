//! Runs of random events: of eight sessions, and the flusher's in any order between them.
use crate::beside::{At, Beside, Went};
use crate::fault::RunFault;
use crate::keys::{Drawn, below};
use gx_events::{Event, Need};
use gx_machine::{Call, Entry, Query, SESSIONS};
use rand_pcg::Pcg32;

/// How many rows there are.
const ROWS: usize = 300;

/// How many events a session's call takes at most, once no other's comes between.
const CALL_EVENTS: usize = 100_000;

/// An entry: a row with a random key by its number, so that rows come back.
fn draw_entry<K: Drawn>(draw: &mut Pcg32) -> Entry<K::Key> {
    let row = below(draw, ROWS) as u64;
    let mut keys = Pcg32::new(row, 7);
    Entry {
        row,
        key: K::draw(&mut keys),
    }
}

fn draw_query<K: Drawn>(draw: &mut Pcg32) -> Query<K::Key> {
    let key = K::draw(draw);
    match below(draw, 4) {
        0 => Query::Within(key),
        1 => Query::Equal(draw_entry::<K>(draw).key),
        _ => Query::Overlap(key),
    }
}

/// A call of a session, which mostly fits what the session is at.
fn draw_call<K: Drawn>(draw: &mut Pcg32, at: At<K::Key>) -> Call<K::Key> {
    if matches!(at, At::Idle) && below(draw, 16) > 0 {
        return Call::Begin;
    }
    match below(draw, 32) {
        0..=15 => Call::Insert(draw_entry::<K>(draw)),
        16..=21 => Call::Delete(draw_entry::<K>(draw)),
        22..=27 => Call::Search(draw_query::<K>(draw)),
        28..=29 => Call::Commit,
        30 => Call::Abort,
        _ => Call::Begin,
    }
}

/// The number of the session at a place.
pub(crate) fn session_of(place: usize) -> u8 {
    u8::try_from(place.saturating_add(1)).unwrap_or(1)
}

fn draw_session(draw: &mut Pcg32) -> u8 {
    session_of(below(draw, SESSIONS))
}

/// A session's event: its call goes on, or it asks one; now and then it asks one although a call is open.
fn session_event<K: Drawn>(beside: &Beside<K>, draw: &mut Pcg32) -> Event<K::Key> {
    let session = draw_session(draw);
    let at = beside.at(session);
    match at {
        At::Idle | At::Working => Event::Ask(session, draw_call::<K>(draw, at)),
        At::Open(_) if below(draw, 64) == 0 => Event::Ask(session, draw_call::<K>(draw, at)),
        At::Open(_) | At::Waiting(_) => Event::Move(session),
    }
}

/// A page: one that may be written, or any.
fn draw_page<K: Drawn>(beside: &Beside<K>, draw: &mut Pcg32) -> u32 {
    match beside.engine.dirty() {
        Some(page) if below(draw, 4) > 0 => page,
        _ => {
            let before = below(draw, beside.engine.used() as usize);
            u32::try_from(before.saturating_add(1)).unwrap_or(1)
        }
    }
}

/// The event that helps.
fn helping<B>(need: Need) -> Event<B> {
    match need {
        Need::Log => Event::LogStep,
        Need::Write(page) => Event::WritePage(page),
        Need::Checkpoint => Event::CheckpointStep,
    }
}

/// Any event. If the last one waits, it is perhaps the one that helps it.
fn draw_event<K: Drawn>(beside: &Beside<K>, last: Went, draw: &mut Pcg32) -> Event<K::Key> {
    if let Went::Waits(need) = last
        && below(draw, 3) > 0
    {
        return helping(need);
    }
    match below(draw, 64) {
        0..=2 => Event::LogStep,
        3..=4 => Event::WritePage(draw_page(beside, draw)),
        5 => Event::CheckpointStep,
        6..=7 => Event::Sweep(draw_page(beside, draw)),
        _ => session_event(beside, draw),
    }
}

/// A session's open call goes on to its end, with the events that help it. Returns whether no call of the device
/// failed.
pub(crate) fn finish<K: Drawn>(beside: &mut Beside<K>, session: u8) -> Result<bool, RunFault> {
    let mut next = Event::Move(session);
    for _event in 0..CALL_EVENTS {
        if matches!(beside.at(session), At::Idle | At::Working) {
            return Ok(true);
        }
        next = match beside.step(next)? {
            Went::Failed => return Ok(false),
            Went::Waits(need) => helping(need),
            Went::On | Went::Nothing => Event::Move(session),
        };
    }
    Err(RunFault::Endless(session))
}

/// Ends a session's transaction: every other one commits.
fn end_transaction<K: Drawn>(beside: &mut Beside<K>, session: u8) -> Result<bool, RunFault> {
    if !finish(beside, session)? {
        return Ok(false);
    }
    if matches!(beside.at(session), At::Idle) {
        return Ok(true);
    }
    let call = if session % 2 == 0 {
        Call::Abort
    } else {
        Call::Commit
    };
    match beside.step(Event::Ask(session, call))? {
        Went::Failed => Ok(false),
        Went::On | Went::Waits(_) | Went::Nothing => finish(beside, session),
    }
}

/// Makes so many random events, and then ends each session's transaction. Returns whether no call of the device failed.
pub(crate) fn draw_run<K: Drawn>(
    beside: &mut Beside<K>,
    draw: &mut Pcg32,
    steps: u64,
) -> Result<bool, RunFault> {
    let mut last = Went::On;
    for _step in 0..steps {
        let event = draw_event(beside, last, draw);
        last = beside.step(event)?;
        if matches!(last, Went::Failed) {
            return Ok(false);
        }
    }
    for place in 0..SESSIONS {
        if !end_transaction(beside, session_of(place))? {
            return Ok(false);
        }
    }
    Ok(true)
}
