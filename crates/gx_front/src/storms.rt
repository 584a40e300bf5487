//! A storm over an index in memory, and what is printed of it.
ghost use Rattle.std.specs.Prelude.{◌≡◌, ◌*◌, ◌<◌, ◌≤◌, ◌^◌, IfErr, IfOk};
ghost use Rattle.gx_commands.specs.Streams.{outputs_of};
ghost use Rattle.gx_machine.specs.Keys.{keys_of};
ghost use Rattle.gx_machine.specs.declared.limits.TheConstants.{SESSIONS};
ghost use Rattle.gx_front.specs.Storms.{EndsStormed, IsFresh, TellsSound, TellsVerdict, differs_line, sound_line};

use arrayvec::ArrayString;
use gx_class::Box2Class;
use gx_commands::{Noted, print, refuse, tell_fault, tell_person};
use gx_disk::RamDisk;
use gx_engine_events::laws::in_memory_all_is_granted;
use gx_engine_events::{EngineEvents, new_index};
use gx_events::Events;
use gx_format::sectors_for;
use gx_geom::{Box2, Refusal, Shape};
use gx_script::write_whole;
use gx_shared::laws::an_idle_engine_may_be_shared;
use gx_storm::{Storm, Verdict, storm_over};
use itoa::Buffer;
use std::alloc::Global;
use std::io::Write;
use std::sync::Wait;
use std::thread::Threads;

/// How many pages the index of a storm has.
const PAGES: u32 = 4096;

/// How many entries a node has at most.
const MOST: u16 = 8;

/// How many pages are held in memory.
const FRAMES: usize = 64;

/// Status: the storm is sound, and its line was written.
const DONE: u8 = 0;

/// Status: the record isn't what the plain index replays, or the line couldn't be written.
const DIFFERS: u8 = 1;

/// More bytes than a line has.
const LONGEST: usize = 48;

// The line of a storm that is sound.
fn line_of_calls(calls: u32) -> ArrayString<LONGEST>
    ensures { result.bytes ≡ sound_line calls }
{
    let mut digits = Buffer::new();
    let mut line = ArrayString::new();
    line.push_str("storm ok calls ");
    line.push_str(digits.format(calls));
    line.push_str("\n");
    line
}

// The line of a storm that isn't.
fn line_of_place(place: u64) -> ArrayString<LONGEST>
    ensures { result.bytes ≡ differs_line place }
{
    let mut digits = Buffer::new();
    let mut line = ArrayString::new();
    line.push_str("storm mismatch at ");
    line.push_str(digits.format(place));
    line.push_str("\n");
    line
}

// Writes that all calls of a storm are sound, and returns the status.
fn tell_sound<W: Write, E: Write>(calls: u32, writer: &mut Noted<W>, faults: &mut Noted<E>) -> u8
    ensures { TellsSound calls (outputs_of W.contents E.contents writer.old faults.old)
        (outputs_of W.contents E.contents writer.new faults.new) result }
{
    match write_whole(writer, line_of_calls(calls).as_str().as_bytes()) {
        Ok(()) => DONE,
        Err(fault) => {
            tell_fault(faults, fault, writer.kind);
            DIFFERS
        }
    }
}

// Reports the verdict on a storm, and returns the status.
fn tell_verdict<W: Write, E: Write>(
    storm: &Storm,
    verdict: Verdict,
    writer: &mut Noted<W>,
    faults: &mut Noted<E>,
) -> u8
    requires { storm.now.sessions * storm.now.calls < 2 ^ 32 }
    ensures { TellsVerdict storm.now verdict (outputs_of W.contents E.contents writer.old faults.old)
        (outputs_of W.contents E.contents writer.new faults.new) result }
{
    match verdict {
        Verdict::Sound => tell_sound(u32::from(storm.sessions) * storm.calls, writer, faults),
        Verdict::Mismatch(place) => {
            tell_person(faults, "a reply isn't the one that the plain index gives");
            print(writer, line_of_place(place).as_str().as_bytes());
            DIFFERS
        }
        Verdict::Refused(why) => refuse(writer, faults, why),
    }
}

// Makes a new index in memory, with nothing committed. Its device never fails, so only a lack of memory can refuse it.
fn fresh(alloc: Global) -> Result<EngineEvents<RamDisk, Box2Class>, Refusal>
    ensures new { IfOk result (IsFresh ⟦<EngineEvents<RamDisk, Box2Class> as Events<Box2>>⟧) }
    ensures refused { IfErr result (λ why. why ≡ Refusal.Memory) }
{
    let Ok(disk) = RamDisk::new(alloc, sectors_for(PAGES) as usize) else {
        return Err(Refusal::Memory);
    };
    match new_index::<RamDisk, Box2Class>(alloc, disk, PAGES, MOST, FRAMES) {
        Ok(engine) => Ok(engine),
        Err(refused) => Err(refused.why),
    }
}

/// Runs a storm over a new index in memory, prints its line, and returns the status.
///
/// The status is 0 if the storm is sound and its line was written. It is 1 if the plain index replies otherwise; if a
/// call was refused for a fault, a full record or lack of memory, which writes `refused N text`; and if the line
/// couldn't be written.
pub(crate) fn tell_storm<T: Threads + Wait + Sync, W: Write, E: Write>(
    rt: &T,
    alloc: Global,
    storm: &Storm,
    writer: &mut Noted<W>,
    faults: &mut Noted<E>,
) -> u8
    requires sessions { storm.now.sessions ≤ SESSIONS }
    requires calls { storm.now.sessions * storm.now.calls < 2 ^ 32 }
    ensures { EndsStormed (keys_of ⟦<Box2 as Shape>⟧) ⟦<EngineEvents<RamDisk, Box2Class> as Events<Box2>>⟧ storm.now
        (outputs_of W.contents E.contents writer.old faults.old)
        (outputs_of W.contents E.contents writer.new faults.new) result }
{
    in_memory_all_is_granted::<Box2Class>();
    an_idle_engine_may_be_shared::<Box2, EngineEvents<RamDisk, Box2Class>>();
    let index = match fresh(alloc) {
        Ok(index) => index,
        Err(why) => return refuse(writer, faults, why),
    };
    match storm_over(rt, alloc, index, None, storm) {
        Ok((verdict, _engine)) => tell_verdict(storm, verdict, writer, faults),
        Err(_) => refuse(writer, faults, Refusal::Memory),
    }
}
