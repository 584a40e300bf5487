//! An index on a device in memory, and one session's calls of it.
use crate::index::counted::Counted;
use gx_class::Box2Class;
use gx_disk::MemDisk;
use gx_engine_events::{EngineEvents, new_index};
use gx_events::{Driver, Event, Events, Next, Outcome};
use gx_format::sectors_for;
use gx_geom::Box2;
use gx_machine::{Call, Reply};
use std::alloc::Global;

/// How many pages there may be, each of which has a frame.
const PAGES: u32 = 4096;

/// How many entries a node has at most.
const MOST: u16 = 100;

/// The session that asks.
const SESSION: u8 = 1;

/// How many events a call takes at most.
const EVENTS: u32 = 1_000_000;

/// How many events of each kind there were.
#[derive(Clone, Copy, Default)]
pub(crate) struct Tally {
    pub(crate) asks: u64,
    pub(crate) moves: u64,
    pub(crate) helps: u64,
    pub(crate) log_steps: u64,
    pub(crate) page_writes: u64,
    pub(crate) checkpoint_steps: u64,
}

impl Tally {
    /// One event more of its kind. A session's calls sweep no leaf.
    fn count(&mut self, event: &Event<Box2>) {
        let kind = match event {
            Event::Ask(..) => &mut self.asks,
            Event::Move(_) => &mut self.moves,
            Event::LogStep => &mut self.log_steps,
            Event::WritePage(_) => &mut self.page_writes,
            Event::CheckpointStep => &mut self.checkpoint_steps,
            Event::Sweep(_) => return,
        };
        *kind = kind.wrapping_add(1);
    }
}

/// An index of boxes, and the events that it has made.
#[derive(Drop)]
pub(crate) struct Index {
    engine: EngineEvents<Counted<MemDisk>, Box2Class>,
    tally: Tally,
}

impl Index {
    /// A new one. `None` if memory is refused.
    pub(crate) fn fresh(alloc: Global) -> Option<Index> {
        let sectors = usize::try_from(sectors_for(PAGES)).ok()?;
        let disk = Counted::new(MemDisk::new(alloc, sectors).ok()?);
        let engine = new_index(alloc, disk, PAGES, MOST, PAGES as usize).ok()?;
        Some(Index {
            engine,
            tally: Tally::default(),
        })
    }

    /// A call from its ask to its reply, with the events that it waits for. `None` if it takes too many.
    pub(crate) fn call(&mut self, call: Call<Box2>) -> Option<Reply<Box2>> {
        let mut driver = Driver::new(SESSION);
        let mut event = Event::Ask(SESSION, call);
        for _event in 0..EVENTS {
            self.tally.count(&event);
            let outcome = self.engine.step(event);
            if let Outcome::Help(_) = outcome {
                self.tally.helps = self.tally.helps.wrapping_add(1);
            }
            match driver.next(outcome) {
                Next::Run(next) => event = next,
                Next::Done(reply) => return Some(reply),
            }
        }
        None
    }

    /// The greatest page in use.
    pub(crate) fn used(&self) -> u32 {
        self.engine.used()
    }

    /// How many events there were.
    pub(crate) fn tally(&self) -> Tally {
        self.tally
    }

    /// How many bytes were written to the device. The index is given up.
    pub(crate) fn written(self) -> u64 {
        self.engine.into_inner().into_disk().written()
    }
}
