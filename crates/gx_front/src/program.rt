//! The whole program, as a function of what it is given.
ghost use Rattle.std.specs.Prelude.{◌≡◌, ◌≢◌, ℕ, List, [], map, IfErr, IfOk, MatchResult};
ghost use Rattle.gx_commands.specs.Streams.{Prints, outputs_of, stream_of};
ghost use Rattle.gx_front.specs.Endings.{AwaitsStorm, EndsAsked, EndsOnWords, EndsUnread, FormatsBoxes, WantsStorm};
ghost use Rattle.gx_front.specs.Endings.{unread_text};
ghost use Rattle.gx_front.specs.World.{world_of};

use crate::storms::tell_storm;
use arrayvec::ArrayString;
use clap::error::ErrorKind;
use gx_class::{Box2Class, Box3Class, KeyClass};
use gx_commands::{
    Noted, Opener, dump_file, format_file, migrate_file, print, refuse_memory, run_file,
    run_script, verify_file,
};
use gx_disk::{FileDisk, RamDisk, SectorDisk};
use gx_engine_events::EngineEvents;
use gx_events::Events;
use gx_geom::{Box2, Box3, Shape};
use gx_storm::Storm;
use gx_words::{AskedCommand, Dimensions, WordsFault};
use itoa::Buffer;
use std::alloc::Global;
use std::convert::AsStr;
use std::fmt::Display;
use std::fs::{File, Files};
use std::io::{Read, Write};
use std::sync::Wait;
use std::thread::Threads;

/// Status: the arguments are wrong, or ask for help.
const WRONG_WORDS: u8 = 2;

/// More bytes than the line about an argument that isn't text has.
const LONGEST: usize = 64;

/// The program. It reads its arguments, of which the first is the program's name, does what they ask, and returns its
/// status.
///
/// - `gist plain [--class C]` reads a script from the reader and writes the replies of an index in memory to the
///   writer.
/// - `gist format FILE PAGES M [--class C]` lays a new index down in a file, and writes `formatted pages PAGES fanout
///   M`.
/// - `gist run FILE [--frames N]` reads a script from the reader and writes the replies of the index in a file.
/// - `gist dump FILE` writes the text of the tree of the index in a file.
/// - `gist verify FILE` tests the index in a file, and writes `ok commits N entries E used U`; the file doesn't change.
/// - `gist migrate OLD NEW [--frames N]` brings the index of the format's first version that one file holds into
///   another file, and writes `migrated commits N used U`; the first file doesn't change.
/// - `gist storm SEED SESSIONS CALLS` runs sessions in threads on an index in memory, and writes whether a plain index
///   replies the same. No other command has threads or waits: `before_threads` is all that they do.
///
/// C is 1 for boxes of the plane, the default, or 3 for boxes of space. The other commands read the class from the
/// file; an index of intervals is refused (`BadParameter`). Storms are of boxes of the plane.
///
/// The status is 0 if the command did all of its work. It is 1 if a call outside of a script was refused, which writes
/// `refused N text`, with 11 for a file that can't be opened or is in use; if a reply to a script on a file was refused
/// with 11, 12 or 13; and if a read or a write failed. The user gets lines in `faults`, unless the reader of the
/// replies has closed its end, or memory was refused for the arguments or for an index in memory. The status is 2 for
/// arguments that ask for something else or for help: then a text is written to `faults` and nothing to the writer.
///
/// It opens no files but those that the arguments name, each once, by the opener, which keeps the device that the
/// command left.
pub fn gist<
    'w,
    F: Files<File = File>,
    T: Threads + Wait + Sync,
    S: AsStr,
    R: Read,
    W: Write,
    E: Write,
>(
    opener: &mut Opener<'w, F>,
    rt: &T,
    alloc: Global,
    words: Result<&'w [S], WordsFault>,
    reader: &mut Noted<R>,
    writer: &mut Noted<W>,
    faults: &mut Noted<E>,
) -> u8
    ensures { let from = world_of R.remaining W.contents E.contents opener.old reader.old writer.old faults.old in
        let to = world_of R.remaining W.contents E.contents opener.new reader.new writer.new faults.new in
        MatchResult words.entry
        (λ given. EndsOnWords ⟦<Box2 as Shape>⟧ ⟦<Box2Class as KeyClass>⟧
        ⟦<Box3 as Shape>⟧ ⟦<Box3Class as KeyClass>⟧ ⟦<FileDisk as SectorDisk>⟧.state
        ⟦<EngineEvents<RamDisk, Box2Class> as Events<Box2>>⟧ (map S.text given.now) from to result)
        (λ fault. EndsUnread fault from to result) }
{
    match before_threads(opener, alloc, words, reader, writer, faults) {
        Ok(status) => status,
        Err(storm) => tell_storm(rt, alloc, &storm, writer, faults),
    }
}

/// The program up to the point where it would start threads. It returns its status; or the storm that the arguments ask
/// for, and then it has opened no file, and neither read nor written. It waits for no thread.
pub fn before_threads<'w, F: Files<File = File>, S: AsStr, R: Read, W: Write, E: Write>(
    opener: &mut Opener<'w, F>,
    alloc: Global,
    words: Result<&'w [S], WordsFault>,
    reader: &mut Noted<R>,
    writer: &mut Noted<W>,
    faults: &mut Noted<E>,
) -> Result<u8, Storm>
    ensures ended { let from = world_of R.remaining W.contents E.contents opener.old reader.old writer.old faults.old in
        let to = world_of R.remaining W.contents E.contents opener.new reader.new writer.new faults.new in
        IfOk result (λ status. MatchResult words.entry
        (λ given. EndsOnWords ⟦<Box2 as Shape>⟧ ⟦<Box2Class as KeyClass>⟧
        ⟦<Box3 as Shape>⟧ ⟦<Box3Class as KeyClass>⟧ ⟦<FileDisk as SectorDisk>⟧.state
        ⟦<EngineEvents<RamDisk, Box2Class> as Events<Box2>>⟧ (map S.text given.now) from to status)
        (λ fault. EndsUnread fault from to status)) }
    ensures storm { let from = world_of R.remaining W.contents E.contents opener.old reader.old writer.old faults.old in
        let to = world_of R.remaining W.contents E.contents opener.new reader.new writer.new faults.new in
        IfErr result (λ storm. MatchResult words.entry
        (λ given. AwaitsStorm (map S.text given.now) storm from to) (λ _. ⊥)) }
{
    match words {
        Ok(given) => match gx_words::read(alloc, given) {
            Ok(asked) => Ok(carry_out(opener, alloc, asked, reader, writer, faults)?),
            Err(error) if error.kind() == ErrorKind::OutOfMemory => Ok(refuse_memory(writer)),
            Err(error) => Ok(refuse_words(alloc, faults, &error)),
        },
        Err(WordsFault::Memory) => Ok(refuse_memory(writer)),
        Err(WordsFault::NotText(place)) => Ok(refuse_unread(faults, place)),
    }
}

// Does what the arguments ask for, and returns the status; of a storm it returns only what is asked.
fn carry_out<'w, F: Files<File = File>, R: Read, W: Write, E: Write>(
    opener: &mut Opener<'w, F>,
    alloc: Global,
    asked: AskedCommand<'w>,
    reader: &mut Noted<R>,
    writer: &mut Noted<W>,
    faults: &mut Noted<E>,
) -> Result<u8, Storm>
    ensures { let from = world_of R.remaining W.contents E.contents opener.old reader.old writer.old faults.old in
        let to = world_of R.remaining W.contents E.contents opener.new reader.new writer.new faults.new in
        MatchResult result
        (λ status. EndsAsked ⟦<Box2 as Shape>⟧ ⟦<Box2Class as KeyClass>⟧
        ⟦<Box3 as Shape>⟧ ⟦<Box3Class as KeyClass>⟧ ⟦<FileDisk as SectorDisk>⟧.state
        ⟦<EngineEvents<RamDisk, Box2Class> as Events<Box2>>⟧ asked.entry from to status)
        (λ storm. WantsStorm asked.entry storm from to) }
{
    match asked {
        AskedCommand::Plain { dimensions } => Ok(match dimensions {
            Dimensions::Two => run_script::<Box2, R, W, E>(alloc, reader, writer, faults),
            Dimensions::Three => run_script::<Box3, R, W, E>(alloc, reader, writer, faults),
        }),
        AskedCommand::Format {
            file,
            pages,
            most,
            dimensions,
        } => Ok(format_boxes(opener, alloc, dimensions, file, pages, most, writer, faults)),
        AskedCommand::Run { file, frames } => Ok(run_file(
            opener, alloc, file, frames, reader, writer, faults,
        )),
        AskedCommand::Dump { file } => Ok(dump_file(opener, alloc, file, writer, faults)),
        AskedCommand::Verify { file } => Ok(verify_file(opener, alloc, file, writer, faults)),
        AskedCommand::Migrate { old, new, frames } => Ok(migrate_file(
            opener, alloc, old, new, frames, writer, faults,
        )),
        AskedCommand::Storm {
            seed,
            sessions,
            calls,
        } => Err(Storm {
            seed,
            sessions,
            calls,
        }),
    }
}

// Writes a new index of boxes of so many dimensions to a file.
fn format_boxes<'w, F: Files<File = File>, W: Write, E: Write>(
    opener: &mut Opener<'w, F>,
    alloc: Global,
    dimensions: Dimensions,
    file: &'w str,
    pages: u32,
    most: u16,
    writer: &mut Noted<W>,
    faults: &mut Noted<E>,
) -> u8
    ensures { FormatsBoxes ⟦<Box2Class as KeyClass>⟧ ⟦<Box3Class as KeyClass>⟧ ⟦<FileDisk as SectorDisk>⟧.state
        dimensions file.now opener.old opener.new pages most (outputs_of W.contents E.contents writer.old faults.old)
        (outputs_of W.contents E.contents writer.new faults.new) result }
{
    match dimensions {
        Dimensions::Two => format_file::<Box2Class, F, W, E>(
            opener, alloc, file, pages, most, writer, faults,
        ),
        Dimensions::Three => format_file::<Box3Class, F, W, E>(
            opener, alloc, file, pages, most, writer, faults,
        ),
    }
}

// Reports to the user what is wrong with the arguments, or the help that they ask for, and returns the status.
fn refuse_words<E: Write, D: Display>(alloc: Global, faults: &mut Noted<E>, why: &D) -> u8
    ensures status { result ≡ 2 }
    ensures told { (text : List ℕ) × ((text ≢ []) × Prints text (stream_of E.contents faults.old)
        (stream_of E.contents faults.new)) }
{
    match format!(in alloc; "{why}") {
        Ok(text) if !text.is_empty() => print(faults, text.as_bytes()),
        _ => print(faults, b"error: these words ask for nothing\n"),
    }
    WRONG_WORDS
}

// The line for an argument, by its place, that isn't text.
fn unread_line(place: usize) -> ArrayString<LONGEST>
    ensures { result.bytes ≡ unread_text place }
{
    let mut digits = Buffer::new();
    let mut line = ArrayString::new();
    line.push_str("error: word ");
    line.push_str(digits.format(place));
    line.push_str(" isn't UTF-8 text\n");
    line
}

// Reports to the user that the argument at this place isn't text, and returns the status.
fn refuse_unread<E: Write>(faults: &mut Noted<E>, place: usize) -> u8
    ensures status { result ≡ 2 }
    ensures told { Prints (unread_text place) (stream_of E.contents faults.old) (stream_of E.contents faults.new) }
{
    print(faults, unread_line(place).as_str().as_bytes());
    WRONG_WORDS
}
