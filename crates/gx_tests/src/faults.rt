//! Readers and writers that fail with each common kind of error, once or for ever: what a script makes of it, and that
//! neither is called again after an error or after the end.
use crate::asserts::{got, holds, same};
use gx_geom::Box2;
use gx_plain::{PlainIndex, run_plain};
use gx_script::{Noted, ScriptFault, Transfer};
use std::io::{self, ErrorKind, Read, Write};
use std::process::Abort;

static KINDS: [ErrorKind; 14] = [
    ErrorKind::NotFound,
    ErrorKind::PermissionDenied,
    ErrorKind::ConnectionReset,
    ErrorKind::NotConnected,
    ErrorKind::BrokenPipe,
    ErrorKind::WouldBlock,
    ErrorKind::IsADirectory,
    ErrorKind::InvalidInput,
    ErrorKind::InvalidData,
    ErrorKind::TimedOut,
    ErrorKind::StorageFull,
    ErrorKind::UnexpectedEof,
    ErrorKind::OutOfMemory,
    ErrorKind::Other,
];

// How a reader or a writer fails, from one of its calls on.
#[derive(Clone, Copy)]
enum Failing {
    Never,
    Once(ErrorKind),
    ForEver(ErrorKind),
}

// The errors of a reader or a writer with the last that it gave, how often it was called, and how often after one of
// them, except for interrupted calls.
#[derive(Drop)]
struct Errors {
    failing: Failing,
    passes: u32,
    failed: bool,
    given: Option<ErrorKind>,
    calls: u64,
    calls_after: u32,
}

impl Errors {
    fn new(failing: Failing, passes: u32) -> Errors {
        Errors {
            failing,
            passes,
            failed: false,
            given: None,
            calls: 0,
            calls_after: 0,
        }
    }

    // The error of the next call, if it fails.
    fn next(&mut self) -> Option<ErrorKind> {
        self.calls = self.calls.saturating_add(1);
        if self.failed {
            self.calls_after = self.calls_after.saturating_add(1);
        }
        if self.passes > 0 {
            self.passes -= 1;
            return None;
        }
        let kind = match self.failing {
            Failing::Never => return None,
            Failing::Once(kind) => {
                self.failing = Failing::Never;
                kind
            }
            Failing::ForEver(kind) => kind,
        };
        self.failed = kind != ErrorKind::Interrupted;
        self.given = Some(kind);
        Some(kind)
    }
}

// Gives one byte a read.
#[derive(Drop)]
struct Bytes<'a> {
    rest: &'a [u8],
    errors: Errors,
}

impl Read for Bytes<'_> {
    fn read(&mut self, buffer: &mut [u8]) -> io::Result<usize> {
        if let Some(kind) = self.errors.next() {
            return Err(io::Error::from(kind));
        }
        match (self.rest.split_first(), buffer.first_mut()) {
            (Some((byte, rest)), Some(place)) => {
                *place = *byte;
                self.rest = rest;
                Ok(1)
            }
            _ => {
                self.errors.failed = true;
                Ok(0)
            }
        }
    }
}

// Takes three bytes a write.
#[derive(Drop)]
struct Taken {
    bytes: Vec<u8>,
    errors: Errors,
}

impl Write for Taken {
    fn write(&mut self, bytes: &[u8]) -> io::Result<usize> {
        if let Some(kind) = self.errors.next() {
            return Err(io::Error::from(kind));
        }
        let count = bytes.len().min(3);
        self.bytes.extend_from_slice(bytes.split_at(count).0)?;
        Ok(count)
    }

    fn flush(&mut self) -> io::Result<()> {
        Ok(())
    }
}

const SCRIPT: &[u8] = b"1 BEGIN\n1 INSERT 3 0 0 1 1\n1 COMMIT\n";

const TEXT: &[u8] = b"1 ok\n1 inserted\n1 committed 1\n";

// A reader or a writer is noted to have failed, with the last error that it gave, only if it was given one of these.
fn is_noted<R: Abort, T>(rt: &R, noted: &Noted<T>, errors: &Errors, is_fault: bool) {
    let has_failed = noted.last == Some(Transfer::Failed);
    holds(rt, is_fault == has_failed);
    holds(rt, noted.kind == errors.given);
    same(rt, &(noted.calls, errors.calls_after), &(errors.calls, 0));
}

// Fails unless the script ends so, and gives this text, if reader and writer fail so.
fn ends<R: Abort + AllocGlobal>(
    rt: &R,
    (reading, writing): (Errors, Errors),
    wanted: Result<(), ScriptFault>,
    text: &[u8],
) {
    let mut index: PlainIndex<Box2> = got(rt, PlainIndex::new(rt.alloc()));
    let mut reader = Noted::new(Bytes {
        rest: SCRIPT,
        errors: reading,
    });
    let mut writer = Noted::new(Taken {
        bytes: Vec::new(rt.alloc()),
        errors: writing,
    });
    let result = run_plain(&mut reader, &mut writer, &mut index);
    holds(rt, result == wanted);
    let is_read = wanted == Err(ScriptFault::Read);
    is_noted(rt, &reader, &reader.inner.errors, is_read);
    let is_write = wanted == Err(ScriptFault::Write);
    is_noted(rt, &writer, &writer.inner.errors, is_write);
    same(rt, &writer.inner.bytes.as_slice(), &text);
}

fn reading_fails<R: Abort + AllocGlobal>(rt: &R, failing: Failing) {
    let errors = (Errors::new(failing, 20), Errors::new(Failing::Never, 0));
    ends(rt, errors, Err(ScriptFault::Read), b"1 ok\n");
}

fn writing_fails<R: Abort + AllocGlobal>(rt: &R, failing: Failing) {
    let errors = (Errors::new(Failing::Never, 0), Errors::new(failing, 3));
    ends(rt, errors, Err(ScriptFault::Write), b"1 ok\n1 i");
}

#[test]
fn a_reader_that_fails_is_not_asked_again(rt: HostRuntime) {
    for kind in &KINDS {
        reading_fails(&rt, Failing::Once(*kind));
        reading_fails(&rt, Failing::ForEver(*kind));
    }
}

#[test]
fn a_writer_that_fails_is_not_asked_again(rt: HostRuntime) {
    for kind in &KINDS {
        writing_fails(&rt, Failing::Once(*kind));
        writing_fails(&rt, Failing::ForEver(*kind));
    }
}

#[test]
fn an_interrupted_call_is_made_again(rt: HostRuntime) {
    let once = Failing::Once(ErrorKind::Interrupted);
    for passes in 0..12 {
        let errors = (Errors::new(once, passes), Errors::new(once, passes));
        ends(&rt, errors, Ok(()), TEXT);
    }
}

#[test]
fn after_the_end_nothing_is_read(rt: HostRuntime) {
    let never = Failing::Never;
    let errors = (Errors::new(never, 0), Errors::new(never, 0));
    ends(&rt, errors, Ok(()), TEXT);
}
