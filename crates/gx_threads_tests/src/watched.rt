//! An engine that sees whether sessions and a flusher work at once.
ghost use Rattle.std.specs.Prelude.{◌≡◌, ◌<◌, true};
ghost use Rattle.gx_geom.specs.Rectangles.{Rectangle};
ghost use Rattle.gx_machine.specs.Keys.{keys_of};
ghost use Rattle.gx_machine.specs.Machine.{Machine, newest};
ghost use Rattle.gx_events.specs.Happens.{Happens};
ghost use Rattle.gx_events.specs.Work.{is_work, replied};

use gx_events::{Event, Events, Outcome};
use gx_geom::{Box2, Shape};
use std::marker::Model;
use std::thread;

/// How many yielding turns a hold lasts until all have met, so that others come to the lock.
const TURNS: u32 = 64;

/// What was seen of a storm.
#[derive(Clone, Copy, Drop)]
struct Seen {
    /// The session that asked last and has no reply yet, or 0.
    open: u8,
    /// How many asks came.
    asks: u64,
    /// How many came before the reply to another session.
    asks_amid: u64,
    /// How many sweeps came. Sessions make none.
    sweeps: u64,
    /// How many asks came after a sweep.
    asks_behind: u64,
    /// How many sweeps came after an ask.
    sweeps_behind: u64,
}

impl Seen {
    /// A session asks.
    fn ask(&mut self, session: u8) {
        self.asks = self.asks.saturating_add(1);
        if self.open != 0 && self.open != session {
            self.asks_amid = self.asks_amid.saturating_add(1);
        }
        if self.sweeps > 0 {
            self.asks_behind = self.asks_behind.saturating_add(1);
        }
        self.open = session;
    }

    /// A flusher sweeps.
    fn sweep(&mut self) {
        self.sweeps = self.sweeps.saturating_add(1);
        if self.asks > 0 {
            self.sweeps_behind = self.sweeps_behind.saturating_add(1);
        }
    }

    /// Whether sessions met, and the flusher worked amid their calls.
    fn has_met(&self) -> bool {
        self.asks_amid > 0 && self.asks_behind > 0 && self.sweeps_behind > 0
    }
}

/// An engine that is watched. Contracts see it as the engine.
///
/// Until all have met each hold of the lock takes longer, so that they meet however the machine is loaded, unless no
/// two work at once.
#[derive(Drop)]
pub(crate) struct Watched<E: Events<Box2>> {
    engine: E,
    seen: Seen,
}

impl<E: Events<Box2>> Model for Watched<E> {
    ghost Value = { E };

    ghost view = { λ w. w.engine };
}

impl<E: Events<Box2>> Watched<E> {
    /// An engine of which nothing was seen.
    pub(crate) fn new(engine: E) -> Self
        ensures { result ≡ engine }
    {
        Watched {
            engine,
            seen: Seen {
                open: 0,
                asks: 0,
                asks_amid: 0,
                sweeps: 0,
                asks_behind: 0,
                sweeps_behind: 0,
            },
        }
    }

    /// Whether a flusher worked amid the calls.
    pub(crate) fn was_flushed(&self) -> bool {
        self.seen.asks_behind > 0 && self.seen.sweeps_behind > 0
    }

    /// An event comes.
    fn watch(&mut self, event: &Event<Box2>)
        ensures { self.new ≡ self.old }
    {
        if !self.seen.has_met() {
            for _ in 0..TURNS {
                thread::yield_now();
            }
        }
        match event {
            Event::Ask(session, _) => self.seen.ask(*session),
            Event::Sweep(_) => self.seen.sweep(),
            _ => {}
        }
    }

    /// A session was replied.
    fn close(&mut self, session: u8)
        ensures { self.new ≡ self.old }
    {
        if self.seen.open == session {
            self.seen.open = 0;
        }
    }
}

/// The session of an event; 0 for one that is no session's.
fn session_of(event: &Event<Box2>) -> u8 {
    match event {
        Event::Ask(session, _) | Event::Move(session) => *session,
        _ => 0,
    }
}

impl<E: Events<Box2>> Events<Box2> for Watched<E> {
    ghost granted = { E.granted };

    ghost sees = { λ w m. E.sees w m };

    ghost makes = { λ old event outcome new. E.makes old event outcome new };

    ghost uses = { λ w. E.uses w };

    ghost dirties = { λ w page. E.dirties w page };

    fn step(&mut self, event: Event<Box2>) -> Outcome<Box2>
        ensures happens { (m : Machine Rectangle) → E.sees self.old m → (n : Machine Rectangle)
            × Happens (keys_of ⟦<Box2 as Shape>⟧) m event result n × E.sees self.new n }
        ensures made { E.makes self.old event result self.new }
        ensures quiet { is_work event ≡ true → replied result ≡ 0 }
    {
        let session = session_of(&event);
        self.watch(&event);
        let outcome = self.engine.step(event);
        if matches!(outcome, Outcome::Replied(_)) {
            self.close(session);
        }
        outcome
    }

    fn commits(&self) -> u64
        ensures { (m : Machine Rectangle) → E.sees self.now m → result ≡ newest m }
    {
        self.engine.commits()
    }

    fn used(&self) -> u32
        ensures some { 0 < result }
        ensures uses { result ≡ E.uses self.now }
    {
        self.engine.used()
    }

    fn dirty(&self) -> Option<u32>
        ensures { E.dirties self.now result }
    {
        self.engine.dirty()
    }

    ghost one = { λ w m n. E.one w m n };
}
