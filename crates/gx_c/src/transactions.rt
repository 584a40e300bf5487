//! Begins and ends transactions.
ghost use Rattle.std.specs.Prelude.{◌≡◌, ◌≢◌};
ghost use Rattle.gx_c.specs.Asking.{AsksEach, CommitsEach, call_of};
ghost use Rattle.gx_c.specs.Stages.{IsCreated, OfStage};
ghost use Rattle.gx_c.specs.declared.transactions.Word.TheVariants.{Abort, Begin};

use crate::handle::Handle;
use crate::held::Stage;
use crate::status::NOTHING;
use gx_class::{Box2Class, Box3Class, ReadKeys};
use gx_disk::SectorDisk;
use gx_geom::{Box2, Box3, Shape};
use gx_machine::Call;
use gx_queue_disk::QueueDisk;
use std::alloc::Global;

/// A call without a key, and without a number in its reply.
#[derive(Clone, Copy)]
pub(crate) enum Word {
    Begin,
    Abort,
}

// The call.
fn call_of<B>(word: Word) -> Call<B>
    ensures { result ≡ call_of word }
{
    match word {
        Word::Begin => Call::Begin,
        Word::Abort => Call::Abort,
    }
}

// Asks it of whatever index is open.
fn ask(stage: &mut Stage, session: u8, word: Word) -> u16
    ensures { AsksEach ⟦<Box2 as Shape>⟧ ⟦<Box2Class as ReadKeys>⟧ ⟦<Box3 as Shape>⟧ ⟦<Box3Class as ReadKeys>⟧
        ⟦<QueueDisk as SectorDisk>⟧.state word session stage.old stage.new result }
{
    match stage {
        Stage::Plane(open) => open.ask(session, call_of(word)),
        Stage::Space(open) => open.ask(session, call_of(word)),
        _ => NOTHING,
    }
}

// Asks a commit of whatever index is open.
fn commit(stage: &mut Stage, session: u8, number: &mut u64) -> u16
    ensures commits { CommitsEach ⟦<Box2 as Shape>⟧ ⟦<Box2Class as ReadKeys>⟧ ⟦<Box3 as Shape>⟧
        ⟦<Box3Class as ReadKeys>⟧ ⟦<QueueDisk as SectorDisk>⟧.state session number.old number.new
        stage.old stage.new result }
    ensures kept { result ≢ 0 → number.new ≡ number.old }
{
    match stage {
        Stage::Plane(open) => open.commit(session, number),
        Stage::Space(open) => open.commit(session, number),
        _ => NOTHING,
    }
}

/// Begins a session's transaction.
#[unsafe(no_mangle)]
pub extern "C" fn gx_c_begin(alloc: Global, handle: &mut Handle, session: u8) -> u16
    requires { IsCreated handle.old.held }
    ensures { OfStage (λ old new. AsksEach ⟦<Box2 as Shape>⟧ ⟦<Box2Class as ReadKeys>⟧ ⟦<Box3 as Shape>⟧
        ⟦<Box3Class as ReadKeys>⟧ ⟦<QueueDisk as SectorDisk>⟧.state Begin session old new result)
        handle.old.held handle.new.held }
{
    let mut held = handle.take(alloc);
    let status = ask(&mut held.stage, session, Word::Begin);
    handle.put(held);
    status
}

/// Ends a session's transaction and drops its changes.
#[unsafe(no_mangle)]
pub extern "C" fn gx_c_abort(alloc: Global, handle: &mut Handle, session: u8) -> u16
    requires { IsCreated handle.old.held }
    ensures { OfStage (λ old new. AsksEach ⟦<Box2 as Shape>⟧ ⟦<Box2Class as ReadKeys>⟧ ⟦<Box3 as Shape>⟧
        ⟦<Box3Class as ReadKeys>⟧ ⟦<QueueDisk as SectorDisk>⟧.state Abort session old new result)
        handle.old.held handle.new.held }
{
    let mut held = handle.take(alloc);
    let status = ask(&mut held.stage, session, Word::Abort);
    handle.put(held);
    status
}

/// Ends a session's transaction and keeps its changes, under the number that is written. They are in C's file once C
/// has made the calls that wait.
#[unsafe(no_mangle)]
pub extern "C" fn gx_c_commit(
    alloc: Global,
    handle: &mut Handle,
    session: u8,
    number: &mut u64,
) -> u16
    requires { IsCreated handle.old.held }
    ensures commits { OfStage (λ old new. CommitsEach ⟦<Box2 as Shape>⟧ ⟦<Box2Class as ReadKeys>⟧ ⟦<Box3 as Shape>⟧
        ⟦<Box3Class as ReadKeys>⟧ ⟦<QueueDisk as SectorDisk>⟧.state session number.old number.new old new result)
        handle.old.held handle.new.held }
    ensures kept { result ≢ 0 → number.new ≡ number.old }
{
    let mut held = handle.take(alloc);
    let status = commit(&mut held.stage, session, number);
    handle.put(held);
    status
}
