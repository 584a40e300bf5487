//! Events of an engine, one after another beside the machine: a session's next event is what its driver says, or its
//! next ask.
use gx_class::Box2Class;
use gx_disk::{FuseDisk, MemDisk};
use gx_engine::Engine;
use gx_events::{Driver, Event, Next, Outcome};
use gx_geom::Box2;
use gx_lives::step;
use gx_machine::{Asked, Call, Reply};
use gx_plain::PlainIndex;

/// How many events calls take at most.
pub(crate) const EVENTS: u32 = 10_000;

/// The device of the whole life.
pub(crate) type Device = FuseDisk<MemDisk>;

/// An engine over it.
pub(crate) type Working = Engine<Device, Box2Class>;

/// The machine.
pub(crate) type Plain = PlainIndex<Box2>;

// Whether two replies are the same.
fn are_same(here: &Reply<Box2>, there: &Reply<Box2>) -> bool {
    match (here, there) {
        (Reply::Ok, Reply::Ok) => true,
        (Reply::Inserted, Reply::Inserted) => true,
        (Reply::Deleted, Reply::Deleted) => true,
        (Reply::Aborted, Reply::Aborted) => true,
        (Reply::Found(found), Reply::Found(wanted)) => found.as_slice() == wanted.as_slice(),
        (Reply::Committed(number), Reply::Committed(wanted)) => number == wanted,
        _ => false,
    }
}

// Whether a call that was asked is answered as by the machine, or open as there.
fn is_asked(outcome: &Outcome<Box2>, asked: &Asked<Box2>) -> bool {
    match (outcome, asked) {
        (Outcome::More, Asked::Open) => true,
        (Outcome::Replied(here), Asked::Now(there)) => are_same(here, there),
        _ => false,
    }
}

// Whether a call that went on is answered as by the machine, or not yet. A commit that is sealed is sealed there, under
// the same number.
fn is_moved(plain: &mut Plain, session: u8, sealed: Option<u64>, outcome: &Outcome<Box2>) -> bool {
    match outcome {
        Outcome::More => sealed.is_none() || plain.seal(session) == sealed,
        Outcome::Replied(reply) => are_same(reply, &plain.answer(session)),
        Outcome::Help(_) => true,
        Outcome::Nothing | Outcome::Refused(_) => false,
    }
}

// Whether the outcome of an event is what the machine does by it; it does it.
fn is_the_machines(
    plain: &mut Plain,
    event: &Event<Box2>,
    sealed: Option<u64>,
    outcome: &Outcome<Box2>,
) -> bool {
    match event {
        Event::Ask(session, call) => is_asked(outcome, &plain.ask(*session, *call)),
        Event::Move(session) => is_moved(plain, *session, sealed, outcome),
        Event::LogStep | Event::WritePage(_) | Event::CheckpointStep | Event::Sweep(_) => {
            matches!(outcome, Outcome::More | Outcome::Nothing)
        }
    }
}

// The number of the commit that an event sealed, by the last numbers before it and now.
fn sealed_by(before: u64, now: u64) -> Option<u64> {
    if now == before { None } else { Some(now) }
}

/// Makes an event of an engine and of the machine. None if the outcome differs, or it is refused.
pub(crate) fn make(
    engine: &mut Working,
    plain: &mut Plain,
    event: Event<Box2>,
) -> Option<Outcome<Box2>> {
    let before = engine.commits();
    let outcome = step(engine, event);
    let number = engine.commits();
    let is_same = is_the_machines(plain, &event, sealed_by(before, number), &outcome);
    if is_same { Some(outcome) } else { None }
}

/// Makes an event that has work to do.
pub(crate) fn work(engine: &mut Working, plain: &mut Plain, event: Event<Box2>) -> Option<()> {
    match make(engine, plain, event)? {
        Outcome::More => Some(()),
        _ => None,
    }
}

// A session, the next event of its open call, and the calls that it is to ask yet.
#[derive(Drop)]
struct Asking<'a> {
    session: u8,
    next: Option<Event<Box2>>,
    calls: &'a [Call<Box2>],
}

impl<'a> Asking<'a> {
    fn new(session: u8, calls: &'a [Call<Box2>]) -> Self {
        Asking {
            session,
            next: None,
            calls,
        }
    }

    // The next event of its call, or the ask of its next one.
    fn due(&mut self) -> Option<Event<Box2>> {
        if let Some(event) = self.next {
            return Some(event);
        }
        let (call, rest) = self.calls.split_first()?;
        self.calls = rest;
        Some(Event::Ask(self.session, *call))
    }

    // Takes what its driver says of an outcome.
    fn go_on(&mut self, outcome: Outcome<Box2>) {
        let next = Driver::new(self.session).next(outcome);
        self.next = event_of(&next);
    }
}

// The event that comes next, if the call goes on.
fn event_of(next: &Next<Box2>) -> Option<Event<Box2>> {
    match next {
        Next::Run(event) => Some(*event),
        Next::Done(_) => None,
    }
}

// Makes a session's next event, if it has one. Returns whether it had.
fn turn(engine: &mut Working, plain: &mut Plain, asking: &mut Asking<'_>) -> Option<bool> {
    match asking.due() {
        Some(event) => {
            asking.go_on(make(engine, plain, event)?);
            Some(true)
        }
        None => Some(false),
    }
}

/// Sessions 1 and 2 ask these calls, an event each in turn, to their last replies.
pub(crate) fn interleave(
    engine: &mut Working,
    plain: &mut Plain,
    first: &[Call<Box2>],
    second: &[Call<Box2>],
) -> Option<()> {
    let mut one = Asking::new(1, first);
    let mut two = Asking::new(2, second);
    for _event in 0..EVENTS {
        let has_one = turn(engine, plain, &mut one)?;
        let has_two = turn(engine, plain, &mut two)?;
        if !has_one && !has_two {
            return Some(());
        }
    }
    None
}

/// A session's call, to its end.
pub(crate) fn call(
    engine: &mut Working,
    plain: &mut Plain,
    session: u8,
    call: Call<Box2>,
) -> Option<Reply<Box2>> {
    let mut driver = Driver::new(session);
    let mut next = Event::Ask(session, call);
    for _event in 0..EVENTS {
        match driver.next(make(engine, plain, next)?) {
            Next::Run(event) => next = event,
            Next::Done(reply) => return Some(reply),
        }
    }
    None
}
