//! Events by lines, one after another: what comes of each is printed.
use crate::fault::RunFault;
use crate::forms::{Kind, Line, to_u8, to_u16, to_u32, to_usize};
use crate::parts::{Part, print_parts};
use crate::replies::word;
use gx_class::Box2Class;
use gx_disk::MemDisk;
use gx_engine::{Engine, NotLent};
use gx_engine_events::new_index;
use gx_events::{Driver, Event, Need, Next, Outcome};
use gx_format::sectors_for;
use gx_geom::{Box2, Refusal};
use gx_machine::{Entry, Reply};
use gx_script::{Line as ScriptLine, parse};
use std::alloc::Global;

/// How many events a call takes at most.
const CALL_EVENTS: usize = 100_000;

/// An engine whose events are lines.
pub(crate) type Listed = Engine<MemDisk, Box2Class>;

/// An engine with nothing committed, on so many pages, with so many entries a node and so many frames.
pub(crate) fn begin_engine(alloc: Global, line: &Line<'_>) -> Result<Listed, RunFault> {
    let [pages, most, frames, ..] = line.numbers;
    let pages = to_u32(pages);
    let sectors = usize::try_from(sectors_for(pages.min(65_536))).unwrap_or(0);
    let disk = MemDisk::new(alloc, sectors)?;
    match new_index::<MemDisk, Box2Class>(alloc, disk, pages, to_u16(most), to_usize(frames)) {
        Ok(events) => Ok(events.into_inner()),
        Err(refused) => Err(RunFault::NotBegun(refused.why)),
    }
}

fn print_entries<R: Print>(rt: &R, entries: &[Entry<Box2>]) -> Result<(), RunFault> {
    print_parts(rt, &[Part::Number(entries.len() as u64)])?;
    for entry in entries.iter() {
        let Entry { row, key } = entry;
        print_parts(
            rt,
            &[
                Part::Text("; entry"),
                Part::Number(*row),
                Part::Coordinate(key.x1()),
                Part::Coordinate(key.y1()),
                Part::Coordinate(key.x2()),
                Part::Coordinate(key.y2()),
            ],
        )?;
    }
    Ok(())
}

fn print_reply<R: Print>(rt: &R, reply: &Reply<Box2>) -> Result<(), RunFault> {
    print_parts(rt, &[Part::Text(" "), Part::Text(word(reply))])?;
    match reply {
        Reply::Found(entries) => print_entries(rt, entries.as_slice()),
        Reply::Committed(number) => print_parts(rt, &[Part::Number(*number)]),
        Reply::Refused(why) => print_parts(
            rt,
            &[
                Part::Number(u64::from(why.number())),
                Part::Text(" "),
                Part::Text(why.text().as_str()),
            ],
        ),
        Reply::Ok | Reply::Inserted | Reply::Deleted | Reply::Aborted => Ok(()),
    }
}

fn print_need<R: Print>(rt: &R, need: Need) -> Result<(), RunFault> {
    match need {
        Need::Log => print_parts(rt, &[Part::Text(" help log")]),
        Need::Write(page) => print_parts(
            rt,
            &[Part::Text(" help write"), Part::Number(u64::from(page))],
        ),
        Need::Checkpoint => print_parts(rt, &[Part::Text(" help checkpoint")]),
    }
}

fn print_refusal<R: Print>(rt: &R, why: Refusal) -> Result<(), RunFault> {
    print_parts(
        rt,
        &[
            Part::Text(" event refused"),
            Part::Number(u64::from(why.number())),
        ],
    )
}

/// Prints what came of an event.
fn print_outcome<R: Print>(rt: &R, outcome: &Outcome<Box2>) -> Result<(), RunFault> {
    match outcome {
        Outcome::Replied(reply) => print_reply(rt, reply),
        Outcome::More => print_parts(rt, &[Part::Text(" more")]),
        Outcome::Help(need) => print_need(rt, *need),
        Outcome::Nothing => print_parts(rt, &[Part::Text(" nothing")]),
        Outcome::Refused(why) => print_refusal(rt, *why),
    }
}

/// Asks a call, or takes one that is open on, up to its reply.
fn run_on(
    engine: &mut Listed,
    session: u8,
    first: Event<Box2>,
) -> Result<(u64, Reply<Box2>), RunFault> {
    let mut driver = Driver::new(session);
    let mut next = first;
    let mut events: u64 = 0;
    for _event in 0..CALL_EVENTS {
        events = events.saturating_add(1);
        match driver.next(engine.step(next)) {
            Next::Run(event) => next = event,
            Next::Done(reply) => return Ok((events, reply)),
        }
    }
    Err(RunFault::Endless(session))
}

/// The call that a line asks.
fn asked(line: &str) -> Result<(u8, Event<Box2>), RunFault> {
    match parse::<Box2>(line.as_bytes()) {
        ScriptLine::Asks(session, call) => {
            let session = u8::try_from(session).unwrap_or(u8::MAX);
            Ok((session, Event::Ask(session, call)))
        }
        ScriptLine::Blank | ScriptLine::Bad | ScriptLine::Reversed(_) => Err(RunFault::BadLine),
    }
}

/// The event that a line is.
fn event_of(line: &Line<'_>) -> Result<Event<Box2>, RunFault> {
    let [number, ..] = line.numbers;
    match line.kind {
        Kind::Move => Ok(Event::Move(to_u8(number))),
        Kind::Log => Ok(Event::LogStep),
        Kind::Write => Ok(Event::WritePage(to_u32(number))),
        Kind::Checkpoint => Ok(Event::CheckpointStep),
        Kind::Sweep => Ok(Event::Sweep(to_u32(number))),
        _ => Ok(asked(line.script)?.1),
    }
}

/// Prints what a page has: its level, number and rightlink, and how many entries.
fn print_page<R: Print>(rt: &R, engine: &mut Listed, page: u32) -> Result<(), RunFault> {
    if page == 0 || engine.used() < page {
        return Err(RunFault::BadLine);
    }
    match engine.page(page) {
        Ok(page) => print_parts(
            rt,
            &[
                Part::Text(" level"),
                Part::Number(u64::from(page.level())),
                Part::Text(" nsn"),
                Part::Number(page.nsn()),
                Part::Text(" right"),
                Part::Number(u64::from(page.right())),
                Part::Text(" count"),
                Part::Number(page.count() as u64),
            ],
        ),
        Err(NotLent::Help(need)) => print_need(rt, need),
        Err(NotLent::Refused(why)) => print_refusal(rt, why),
    }
}

/// Prints the reply of a call that is asked, or taken on, and the number of its events.
fn print_call<R: Print>(
    rt: &R,
    engine: &mut Listed,
    session: u8,
    first: Event<Box2>,
) -> Result<(), RunFault> {
    let (events, reply) = run_on(engine, session, first)?;
    print_reply(rt, &reply)?;
    print_parts(
        rt,
        &[
            Part::Text(", by"),
            Part::Number(events),
            Part::Text(" events"),
        ],
    )
}

/// Makes what a line says: an event; after `call`, a call from its ask to its reply, and after `rest`, the rest of an
/// open one, both with the number of events; or a page is printed.
pub(crate) fn take<R: Print>(rt: &R, engine: &mut Listed, line: &Line<'_>) -> Result<(), RunFault> {
    let [number, ..] = line.numbers;
    match line.kind {
        Kind::Call => {
            let (session, first) = asked(line.script)?;
            print_call(rt, engine, session, first)
        }
        Kind::Rest => {
            let session = to_u8(number);
            print_call(rt, engine, session, Event::Move(session))
        }
        Kind::Page => print_page(rt, engine, to_u32(number)),
        _ => print_outcome(rt, &engine.step(event_of(line)?)),
    }
}
