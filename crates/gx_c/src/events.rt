//! Makes one event of an index at a time, so that other threads of C may call between two events of a call.
ghost use Rattle.std.specs.Prelude.{◌≡◌, ◌≢◌, length};
ghost use Rattle.gx_c.specs.Stages.{IsCreated, OfStage};
ghost use Rattle.gx_c.specs.Stepping.{MakesOpen, StepsEach, StepsOpen};
ghost use Rattle.gx_c.specs.Stepping.{ended, event_of, keeps_outcome, sent_outcome, stepped};

use crate::handle::Handle;
use crate::held::Stage;
use crate::opened::{Open, keep};
use crate::rest::Rest;
use crate::status::{NOTHING, number_in, refused, replied};
use gx_class::{Box2Class, Box3Class, Probing, ReadKeys};
use gx_disk::SectorDisk;
use gx_events::{Event, Need, Outcome};
use gx_geom::{Box2, Box3, Shape};
use gx_machine::Call;
use gx_queue_disk::QueueDisk;
use std::alloc::Global;

// The kinds of events: a session asks to begin, to commit or to abort, or makes a move; the log's next call is made, a
// page is written, a checkpoint's next call is made, a leaf is swept.
const ASK_BEGIN: u32 = 0;

const ASK_COMMIT: u32 = 1;

const ASK_ABORT: u32 = 2;

const MOVE: u32 = 3;

const LOG_STEP: u32 = 4;

const WRITE_PAGE: u32 = 5;

const CHECKPOINT_STEP: u32 = 6;

const SWEEP: u32 = 7;

// The kinds of outcomes: a session's call has ended, or the event was refused; it did its work; there was nothing to
// do; a step of the log, a write of a page, or a step of the checkpoint has to come first.
const REPLIED: u32 = 0;

const MORE: u32 = 1;

const IDLE: u32 = 2;

const HELP_LOG: u32 = 3;

const HELP_WRITE: u32 = 4;

const HELP_CHECKPOINT: u32 = 5;

/// An event: its kind, the session that asks or moves, and the page that is written or swept.
#[repr(C)]
#[derive(Clone, Copy)]
pub struct SentEvent {
    pub kind: u32,
    pub session: u8,
    pub page: u32,
}

/// An outcome: its kind, the page that has to be written first, and the number of a commit; else these are 0.
#[repr(C)]
#[derive(Clone, Copy)]
pub struct SentOutcome {
    pub kind: u32,
    pub page: u32,
    pub number: u64,
}

/// The outcome of a reply without a number, and of an event that isn't made.
const ENDED: SentOutcome = SentOutcome {
    kind: REPLIED,
    page: 0,
    number: 0,
};

// The event that C sends, if it is of a kind.
fn event_of<B>(sent: &SentEvent) -> Option<Event<B>>
    ensures { result ≡ event_of sent.now }
{
    if sent.kind == ASK_BEGIN {
        Some(Event::Ask(sent.session, Call::Begin))
    } else if sent.kind == ASK_COMMIT {
        Some(Event::Ask(sent.session, Call::Commit))
    } else if sent.kind == ASK_ABORT {
        Some(Event::Ask(sent.session, Call::Abort))
    } else if sent.kind == MOVE {
        Some(Event::Move(sent.session))
    } else if sent.kind == LOG_STEP {
        Some(Event::LogStep)
    } else if sent.kind == WRITE_PAGE {
        Some(Event::WritePage(sent.page))
    } else if sent.kind == CHECKPOINT_STEP {
        Some(Event::CheckpointStep)
    } else if sent.kind == SWEEP {
        Some(Event::Sweep(sent.page))
    } else {
        None
    }
}

// An outcome as C has it.
fn sent_outcome<B>(outcome: &Outcome<B>) -> SentOutcome
    ensures { result ≡ sent_outcome outcome.now }
{
    match outcome {
        Outcome::Replied(reply) => SentOutcome {
            number: number_in(reply, 0),
            ..ENDED
        },
        Outcome::More => SentOutcome {
            kind: MORE,
            ..ENDED
        },
        Outcome::Help(Need::Log) => SentOutcome {
            kind: HELP_LOG,
            ..ENDED
        },
        Outcome::Help(Need::Write(page)) => SentOutcome {
            kind: HELP_WRITE,
            page: *page,
            ..ENDED
        },
        Outcome::Help(Need::Checkpoint) => SentOutcome {
            kind: HELP_CHECKPOINT,
            ..ENDED
        },
        Outcome::Nothing => SentOutcome {
            kind: IDLE,
            ..ENDED
        },
        Outcome::Refused(_) => ENDED,
    }
}

// The status of an outcome: that of a reply or a refusal, else 0.
fn stepped<B>(outcome: &Outcome<B>) -> u16
    ensures { result ≡ stepped outcome.now }
{
    match outcome {
        Outcome::Replied(reply) => replied(reply),
        Outcome::Refused(why) => refused(*why),
        _ => 0,
    }
}

// Keeps what a session found, if an outcome is a reply that has that.
fn keep_outcome<B: Copy>(found: &mut Vec<Rest<B>>, session: u8, outcome: Outcome<B>)
    requires { length found.old.items ≡ 8 }
    ensures found { found.new.items ≡ keeps_outcome session outcome found.old.items }
    ensures as_many { length found.new.items ≡ 8 }
{
    match outcome {
        Outcome::Replied(reply) => keep(found, session, reply),
        _ => {}
    }
}

impl<K: ReadKeys + Probing> Open<K> {
    // Makes an event, writes its outcome, and keeps what this session found.
    fn make(&mut self, session: u8, event: Event<K::Key>, outcome: &mut SentOutcome) -> u16
        ensures makes { MakesOpen K.Key.Shape K.ReadKeys ⟦<QueueDisk as SectorDisk>⟧.state session event outcome.new
            self.old self.new result }
        ensures ended { result ≢ 0 → outcome.new ≡ ended }
    {
        let made = self.index.step(event);
        *outcome = sent_outcome(&made);
        let status = stepped(&made);
        keep_outcome(&mut self.found, session, made);
        status
    }

    // Makes the event that C sends, if it is of a kind.
    fn step(&mut self, event: &SentEvent, outcome: &mut SentOutcome) -> u16
        ensures steps { StepsOpen K.Key.Shape K.ReadKeys ⟦<QueueDisk as SectorDisk>⟧.state event.now outcome.new
            self.old self.new result }
        ensures ended { result ≢ 0 → outcome.new ≡ ended }
    {
        match event_of(event) {
            Some(made) => self.make(event.session, made, outcome),
            None => {
                *outcome = ENDED;
                NOTHING
            }
        }
    }
}

// Makes the event that C sends, of whatever index is open.
fn step(stage: &mut Stage, event: &SentEvent, outcome: &mut SentOutcome) -> u16
    ensures steps { StepsEach ⟦<Box2 as Shape>⟧ ⟦<Box2Class as ReadKeys>⟧ ⟦<Box3 as Shape>⟧
        ⟦<Box3Class as ReadKeys>⟧ ⟦<QueueDisk as SectorDisk>⟧.state event.now outcome.new stage.old stage.new result }
    ensures ended { result ≢ 0 → outcome.new ≡ ended }
{
    match stage {
        Stage::Plane(open) => open.step(event, outcome),
        Stage::Space(open) => open.step(event, outcome),
        _ => {
            *outcome = ENDED;
            NOTHING
        }
    }
}

/// Makes one event, with at most one write or sync of the device, and writes its outcome. The status is that of the
/// reply with which a session's call ended, or with which the event was refused; else 0. What a search found is kept
/// for its session, as by `gx_c_search`. The status is 18, and nothing is done, if the event is of no kind or no index
/// is open.
///
/// After help the event that it names has to come first; after any other outcome but a reply the call goes on by its
/// session's next move.
#[unsafe(no_mangle)]
pub extern "C" fn gx_c_step(
    alloc: Global,
    handle: &mut Handle,
    event: &SentEvent,
    outcome: &mut SentOutcome,
) -> u16
    requires { IsCreated handle.old.held }
    ensures steps { OfStage (λ old new. StepsEach ⟦<Box2 as Shape>⟧ ⟦<Box2Class as ReadKeys>⟧ ⟦<Box3 as Shape>⟧
        ⟦<Box3Class as ReadKeys>⟧ ⟦<QueueDisk as SectorDisk>⟧.state event.now outcome.new old new result)
        handle.old.held handle.new.held }
    ensures ended { result ≢ 0 → outcome.new ≡ ended }
{
    let mut held = handle.take(alloc);
    let status = step(&mut held.stage, event, outcome);
    handle.put(held);
    status
}
