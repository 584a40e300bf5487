//! Events of an engine between two marks, between which a library that is loaded before the C library refuses memory
//! (`trials/refuse_memory.c`). Without that library nothing is refused.
use crate::bytes::FIRST_OF_PAGES;
use crate::draw::{below, one_in};
use crate::fault::RunFault;
use crate::opened::FRAMES;
use gx_class::Box2Class;
use gx_disk::MemDisk;
use gx_engine::{Engine, Event, Need, Outcome};
use gx_geom::{Box2, Refusal};
use gx_machine::{Call, Entry, Query, Reply};
use gx_restart::{Index, format, open};
use rand_pcg::Pcg32;
use std::alloc::Global;
use std::fmt;

/// How many pages there are, and how many entries a node.
const PAGES: u32 = 512;

const MOST: u16 = 4;

/// Room for the calls of the device that are recorded, and for the sectors that they write.
const CALLS: usize = 20_000;

const SECTORS: usize = 200_000;

/// The bytes of the allocation from which on memory is refused, and of the one up to which it is.
const FROM_HERE: usize = 1_000_003;

const UP_TO_HERE: usize = 1_000_033;

/// The state of a session.
#[derive(Clone, Copy)]
enum At {
    Idle,
    Working,
    Searching,
    Writing,
    Ending,
}

/// How often events of a kind were refused memory.
#[derive(Clone, Copy, Default)]
pub(crate) struct Lacked {
    asks: u64,
    ends: u64,
    writes: u64,
    searches: u64,
    others: u64,
}

impl fmt::Display for Lacked {
    fn fmt<W: fmt::Write>(&self, f: &mut fmt::Formatter<W>) -> fmt::Result {
        let (asks, ends, others) = (self.asks, self.ends, self.others);
        let (writes, searches) = (self.writes, self.searches);
        write!(
            f,
            "refused for want of memory: asks {asks}, ends of transactions {ends}, "
        )?;
        write!(
            f,
            "writes {writes}, the flusher's {others}, searches {searches}"
        )
    }
}

/// An engine whose events are refused memory.
#[derive(Drop)]
struct Lacking {
    alloc: Global,
    engine: Engine<MemDisk, Box2Class>,
    /// The last mark.
    mark: Vec<u8>,
    at: [At; 8],
    lacked: Lacked,
}

/// Whether an event was refused memory.
fn lacks(outcome: &Outcome<Box2>) -> bool {
    matches!(
        outcome,
        Outcome::Replied(Reply::Refused(Refusal::Memory)) | Outcome::Refused(Refusal::Memory)
    )
}

/// The box of a row, which touches no other row's.
fn box_of(row: u64) -> Box2 {
    let corner = i32::try_from(row).unwrap_or(0).saturating_mul(2);
    Box2::point(corner, corner)
}

/// A call of a session in a transaction.
fn draw_call(draw: &mut Pcg32) -> (Call<Box2>, At) {
    let row = below(draw, 400) as u64;
    let entry = Entry {
        row,
        key: box_of(row),
    };
    match below(draw, 16) {
        0..=7 => (Call::Insert(entry), At::Writing),
        8..=11 => (Call::Delete(entry), At::Writing),
        12 | 13 => (Call::Search(Query::Overlap(entry.key)), At::Searching),
        14 => (Call::Commit, At::Ending),
        _ => (Call::Abort, At::Ending),
    }
}

impl Lacking {
    /// Makes an event during which memory is refused.
    fn step(&mut self, event: Event<Box2>) -> Result<Outcome<Box2>, RunFault> {
        self.mark = Vec::with_capacity(self.alloc, FROM_HERE)?;
        let outcome = self.engine.step(event);
        self.mark = Vec::with_capacity(self.alloc, UP_TO_HERE)?;
        Ok(outcome)
    }

    /// An event of the flusher.
    fn flush(&mut self, event: Event<Box2>) -> Result<(), RunFault> {
        if lacks(&self.step(event)?) {
            self.lacked.others = self.lacked.others.saturating_add(1);
        }
        Ok(())
    }

    /// A session asks.
    fn ask(&mut self, session: u8, draw: &mut Pcg32) -> Result<(), RunFault> {
        let place = usize::from(session.saturating_sub(1)) % 8;
        let (call, then) = match self.at[place] {
            At::Idle => (Call::Begin, At::Idle),
            _ => draw_call(draw),
        };
        let outcome = self.step(Event::Ask(session, call))?;
        if lacks(&outcome) {
            self.lacked.asks = self.lacked.asks.saturating_add(1);
        }
        match outcome {
            Outcome::Replied(Reply::Ok) => self.at[place] = At::Working,
            Outcome::More => self.at[place] = then,
            _ => {}
        }
        Ok(())
    }

    /// A session's call goes on.
    fn go_on(&mut self, session: u8) -> Result<(), RunFault> {
        let place = usize::from(session.saturating_sub(1)) % 8;
        let at = self.at[place];
        let outcome = self.step(Event::Move(session))?;
        if lacks(&outcome) {
            let count = match at {
                At::Searching => &mut self.lacked.searches,
                At::Writing => &mut self.lacked.writes,
                _ => &mut self.lacked.ends,
            };
            *count = count.saturating_add(1);
        }
        match outcome {
            Outcome::Replied(Reply::Committed(_) | Reply::Aborted) => self.at[place] = At::Idle,
            Outcome::Replied(_) => self.at[place] = At::Working,
            Outcome::Help(need) => self.flush(helping(need))?,
            _ => {}
        }
        Ok(())
    }

    /// A random event of the flusher.
    fn draw_flush(&mut self, draw: &mut Pcg32) -> Event<Box2> {
        match below(draw, 4) {
            0 => Event::LogStep,
            1 => Event::CheckpointStep,
            2 => Event::WritePage(self.engine.dirty().unwrap_or(1)),
            _ => {
                let before = below(draw, self.engine.used() as usize);
                Event::Sweep(u32::try_from(before).unwrap_or(0).saturating_add(1))
            }
        }
    }

    /// A random event.
    fn draw(&mut self, draw: &mut Pcg32) -> Result<(), RunFault> {
        if one_in(draw, 6) {
            let event = self.draw_flush(draw);
            return self.flush(event);
        }
        let place = below(draw, 8);
        let session = u8::try_from(place).unwrap_or(0).saturating_add(1);
        match self.at[place % 8] {
            At::Idle | At::Working => self.ask(session, draw),
            At::Searching | At::Writing | At::Ending => self.go_on(session),
        }
    }

    /// Gates all that was logged.
    fn settle(self) -> Result<Lacked, RunFault> {
        let Lacking {
            alloc,
            engine,
            mark,
            lacked,
            ..
        } = self;
        let mut index = Index::new(engine);
        let mut kept = Vec::new(alloc);
        kept.push(mark)?;
        kept.push(Vec::with_capacity(alloc, FROM_HERE)?)?;
        let ended = index.settle();
        kept.push(Vec::with_capacity(alloc, UP_TO_HERE)?)?;
        ended?;
        Ok(lacked)
    }
}

/// The event that helps.
fn helping(need: Need) -> Event<Box2> {
    match need {
        Need::Log => Event::LogStep,
        Need::Write(page) => Event::WritePage(page),
        Need::Checkpoint => Event::CheckpointStep,
    }
}

/// Makes so many random events of a new index, of eight sessions and of the flusher, settles it, and returns how often
/// memory was refused.
pub(crate) fn run_lacking(alloc: Global, seed: u64, events: u64) -> Result<Lacked, RunFault> {
    let sectors = (PAGES as usize)
        .saturating_mul(8)
        .saturating_add(FIRST_OF_PAGES);
    let mut disk = MemDisk::new(alloc, sectors)?;
    disk.reserve(CALLS, SECTORS)?;
    format::<MemDisk, Box2Class>(alloc, &mut disk, PAGES, MOST)?;
    let Ok(engine) = open::<MemDisk, Box2Class>(alloc, disk, FRAMES) else {
        return Err(RunFault::Unexpected);
    };
    let mut lacking = Lacking {
        alloc,
        engine,
        mark: Vec::new(alloc),
        at: [At::Idle; 8],
        lacked: Lacked::default(),
    };
    let mut draw = Pcg32::new(seed, 7);
    for _event in 0..events {
        lacking.draw(&mut draw)?;
    }
    lacking.settle()
}
