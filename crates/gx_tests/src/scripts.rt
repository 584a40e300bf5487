//! Scripts against an index that answers from a list, in pieces of any size.
use crate::asserts::{got, holds, same};
use gx_geom::{Box2, Refusal};
use gx_machine::{Call, Entries, Entry, Query, Reply};
use gx_script::{Answers, Noted, ScriptFault, run};
use std::alloc::{AllocError, Global};
use std::io::{self, ErrorKind, Read, Write};
use std::process::Abort;

// It keeps what was inserted. An overlap finds all of it, a search within or for covers nothing; an equal one is busy.
#[derive(Drop)]
struct List {
    alloc: Global,
    entries: Vec<Entry<Box2>>,
    calls: u64,
}

impl List {
    fn new(alloc: Global) -> List {
        List {
            alloc,
            entries: Vec::new(alloc),
            calls: 0,
        }
    }

    fn search(&self, query: Query<Box2>) -> Result<Reply<Box2>, AllocError> {
        Ok(match query {
            Query::Overlap(_) => {
                Reply::Found(Entries::new(Vec::from_slice(self.alloc, self.entries.as_slice())?))
            }
            Query::Within(_) | Query::Covers(_) => Reply::Found(Entries::new(Vec::new(self.alloc))),
            Query::Equal(_) => Reply::Refused(Refusal::Busy(3)),
        })
    }
}

impl Answers<Box2> for List {
    ghost answered = { λ old session call reply new. Unit {0} };

    fn call(&mut self, session: u8, call: Call<Box2>) -> Reply<Box2>
        ensures { Unit {0} }
    {
        self.calls = self.calls.wrapping_add(1);
        if session == 0 || session > 8 {
            return Reply::Refused(Refusal::BadSession);
        }
        match call {
            Call::Begin => Reply::Ok,
            Call::Insert(entry) => match self.entries.push(entry) {
                Ok(()) => Reply::Inserted,
                Err(_) => Reply::Refused(Refusal::Memory),
            },
            Call::Delete(_) => Reply::Deleted,
            Call::Search(query) => match self.search(query) {
                Ok(reply) => reply,
                Err(_) => Reply::Refused(Refusal::Memory),
            },
            Call::Commit => Reply::Committed(u64::MAX),
            Call::Abort => Reply::Aborted,
        }
    }
}

// Gives so many bytes a read, each time after an interrupted read, and fails after the last if that is asked.
#[derive(Drop)]
struct Drip<'a> {
    rest: &'a [u8],
    size: usize,
    interrupts: bool,
    fails: bool,
}

impl Read for Drip<'_> {
    fn read(&mut self, buffer: &mut [u8]) -> io::Result<usize> {
        self.interrupts = !self.interrupts;
        if !self.interrupts {
            return Err(io::Error::from(ErrorKind::Interrupted));
        }
        if self.rest.is_empty() && self.fails {
            return Err(io::Error::from(ErrorKind::Other));
        }
        let count = self.size.min(buffer.len()).min(self.rest.len());
        let (piece, rest) = self.rest.split_at(count);
        self.rest = rest;
        for (to, from) in buffer.iter_mut().zip(piece) {
            *to = *from;
        }
        Ok(count)
    }
}

// Takes so many bytes a write, each time after an interrupted write, and fails once it has taken so many in all.
#[derive(Drop)]
struct Sip {
    taken: Vec<u8>,
    size: usize,
    interrupts: bool,
    most: usize,
}

impl Write for Sip {
    fn write(&mut self, bytes: &[u8]) -> io::Result<usize> {
        self.interrupts = !self.interrupts;
        if !self.interrupts {
            return Err(io::Error::from(ErrorKind::Interrupted));
        }
        let room = self.most.saturating_sub(self.taken.len());
        let count = self.size.min(bytes.len()).min(room);
        if count == 0 {
            return Err(io::Error::from(ErrorKind::Other));
        }
        self.taken.extend_from_slice(bytes.split_at(count).0)?;
        Ok(count)
    }

    fn flush(&mut self) -> io::Result<()> {
        Ok(())
    }
}

// The result of a script over a list.
fn result_of<R: Read, W: Write>(
    list: &mut List,
    reader: &mut R,
    writer: &mut W,
) -> Result<(), ScriptFault> {
    run(&mut Noted::new(reader), &mut Noted::new(writer), list)
}

fn ends(rt: &impl Abort, found: Result<(), ScriptFault>, wanted: Result<(), ScriptFault>) {
    holds(rt, found == wanted);
}

// A script that comes in pieces of so many bytes gives this text in such pieces.
fn gives_in_pieces<R: Abort + AllocGlobal>(rt: &R, script: &[u8], text: &[u8], size: usize) {
    let mut reader = Drip {
        rest: script,
        size,
        interrupts: false,
        fails: false,
    };
    let mut writer = Sip {
        taken: Vec::new(rt.alloc()),
        size,
        interrupts: false,
        most: usize::MAX,
    };
    let mut list = List::new(rt.alloc());
    let result = result_of(&mut list, &mut reader, &mut writer);
    ends(rt, result, Ok(()));
    same(rt, &writer.taken.as_slice(), &text);
}

// A script that comes whole gives this text.
fn gives_at_once<R: Abort + AllocGlobal>(rt: &R, script: &[u8], text: &[u8]) {
    let mut reader = script;
    let mut writer = Vec::new(rt.alloc());
    let mut list = List::new(rt.alloc());
    let result = result_of(&mut list, &mut reader, &mut writer);
    ends(rt, result, Ok(()));
    same(rt, &writer.as_slice(), &text);
}

// A script gives this text, whatever pieces it comes in and goes out in.
fn gives<R: Abort + AllocGlobal>(rt: &R, script: &[u8], text: &[u8]) {
    gives_at_once(rt, script, text);
    for size in &[1, 2, 3, 7, 1000] {
        gives_in_pieces(rt, script, text, *size);
    }
}

/// A script and the text that it gives.
type Row = (&'static [u8], &'static [u8]);

fn each_gives<R: Abort + AllocGlobal>(rt: &R, rows: &[Row]) {
    for (script, text) in rows {
        gives(rt, script, text);
    }
}

// Ends of lines.
static ENDS: [Row; 7] = [
    (b"", b""),
    (b"1 BEGIN", b"1 ok\n"),
    (
        b"1 BEGIN\r\n1 COMMIT\r\n",
        b"1 ok\n1 committed 18446744073709551615\n",
    ),
    (b"1 BEGIN\r\r\n", b"line 1 bad\n"),
    (b"\r", b""),
    (b"\r\n \t\nx\r", b"line 3 bad\n"),
    (b"\n\n1 ABORT", b"1 aborted\n"),
];

// Words and what separates them.
static WORDS: [Row; 6] = [
    (b"\t1\t \tBEGIN\t \n", b"1 ok\n"),
    (
        b"1 begin\n1 Begin\n1 HELLO\n1BEGIN\n",
        b"line 1 bad\nline 2 bad\nline 3 bad\nline 4 bad\n",
    ),
    (
        b"1\n1 BEGIN 1\n1 COMMIT now\n1 ABORT -\n",
        b"line 1 bad\nline 2 bad\nline 3 bad\nline 4 bad\n",
    ),
    (
        b"1 INSERT 7 0 0 1\n1 INSERT 7 0 0 1 1 1\n",
        b"line 1 bad\nline 2 bad\n",
    ),
    (
        b"1 OVERLAP 0 0 1\n1 WITHIN 0 0 1 1 1\n1 EQUAL\n1 COVERS 0 0 1 1 now\n1 COVER 0 0 1 1\n",
        b"line 1 bad\nline 2 bad\nline 3 bad\nline 4 bad\nline 5 bad\n",
    ),
    (
        b"1 BEGIN\0\n\0\n1 BEGIN\xff\n\x80\n1\x0bBEGIN\n",
        b"line 1 bad\nline 2 bad\nline 3 bad\nline 4 bad\nline 5 bad\n",
    ),
];

// Rows and corners at their bounds.
static NUMBERS: [Row; 7] = [
    (
        b"0001 INSERT 007 -00 0000 01 2\n1 OVERLAP 0 0 1 1\n",
        b"1 inserted\n1 found 1\n1 entry 7 0 0 1 2\n",
    ),
    (
        b"+1 BEGIN\n-1 BEGIN\n1 INSERT +7 0 0 1 1\n1 INSERT -7 0 0 1 1\n",
        b"line 1 bad\nline 2 bad\nline 3 bad\nline 4 bad\n",
    ),
    (
        b"1 INSERT 7 - 0 1 1\n1 INSERT 7 --1 0 1 1\n1 DELETE 7 -0 0 +1 1\n1 DELETE 7 0x0 0 1 1\n",
        b"line 1 bad\nline 2 bad\nline 3 bad\nline 4 bad\n",
    ),
    (
        b"1 INSERT 18446744073709551615 0 0 1 1\n1 OVERLAP 0 0 0 0\n",
        b"1 inserted\n1 found 1\n1 entry 18446744073709551615 0 0 1 1\n",
    ),
    (
        b"1 INSERT 18446744073709551616 0 0 1 1\n1 DELETE 99999999999999999999 0 0 1 1\n",
        b"line 1 bad\nline 2 bad\n",
    ),
    (
        b"1 INSERT 1 -2147483648 -2147483648 2147483647 2147483647\n1 OVERLAP 0 0 0 0\n",
        b"1 inserted\n1 found 1\n1 entry 1 -2147483648 -2147483648 2147483647 2147483647\n",
    ),
    (
        b"1 OVERLAP 0 0 2147483648 0\n1 OVERLAP -2147483649 0 0 0\n",
        b"line 1 bad\nline 2 bad\n",
    ),
];

// Sessions, and what is tested before them.
static SESSIONS: [Row; 5] = [
    (
        b"0 BEGIN\n9 BEGIN\n257 BEGIN\n",
        b"0 refused 15 bad session\n9 refused 15 bad session\n257 refused 15 bad session\n",
    ),
    (
        b"18446744073709551615 COMMIT\n",
        b"18446744073709551615 refused 15 bad session\n",
    ),
    (b"18446744073709551616 BEGIN\n", b"line 1 bad\n"),
    (
        b"9 INSERT 7 5 0 4 9\n18446744073709551615 OVERLAP 0 1 0 0\n",
        b"9 refused 6 bad box\n18446744073709551615 refused 6 bad box\n",
    ),
    (
        b"1 OVERLAP 3000000000 0 0 0\n1 WITHIN 1 1 0 -3000000000\n",
        b"line 1 bad\nline 2 bad\n",
    ),
];

// Replies of each kind.
static REPLIES: [Row; 2] = [
    (
        b"8 DELETE 1 0 0 0 0\n8 EQUAL 0 0 0 0\n8 WITHIN -1 -1 1 1\n8 COVERS 0 0 0 0\n",
        b"8 deleted\n8 refused 5 busy 3\n8 found 0\n8 found 0\n",
    ),
    (
        b"1 INSERT 9 1 2 3 4\n2 INSERT 8 -4 -3 -2 -1\n3 OVERLAP 0 0 0 0\n",
        b"1 inserted\n2 inserted\n3 found 2\n3 entry 9 1 2 3 4\n3 entry 8 -4 -3 -2 -1\n",
    ),
];

#[test]
fn scripts_and_their_texts(rt: HostRuntime) {
    each_gives(&rt, &ENDS);
    each_gives(&rt, &WORDS);
    each_gives(&rt, &NUMBERS);
    each_gives(&rt, &SESSIONS);
    each_gives(&rt, &REPLIES);
}

// How a line begins, how long spaces make it, how it ends, and the text that it gives.
static LONG_LINES: [(&[u8], usize, &[u8], &[u8]); 8] = [
    (b"", 1024, b"\n", b""),
    (b"", 1025, b"\n", b"line 1 bad\n"),
    (b"", 1024, b"\r\n", b""),
    (b"", 1024, b"\r\r\n", b"line 1 bad\n"),
    (b"", 1025, b"\r\n", b"line 1 bad\n"),
    (b"1 BEGIN", 1024, b"\r\n1 ABORT\n", b"1 ok\n1 aborted\n"),
    (b"1 BEGIN", 1025, b"", b"line 1 bad\n"),
    (b"1 BEGIN", 3000, b"\n1 ABORT\n", b"line 1 bad\n1 aborted\n"),
];

// A line that begins so, and that spaces make so long, and its end.
fn line(alloc: Global, begin: &[u8], size: usize, end: &[u8]) -> Result<Vec<u8>, AllocError> {
    let mut line = Vec::from_slice(alloc, begin)?;
    line.resize(size, b' ')?;
    line.extend_from_slice(end)?;
    Ok(line)
}

#[test]
fn a_line_has_1024_bytes_at_most(rt: HostRuntime) {
    for (begin, size, end, text) in &LONG_LINES {
        let line = got(&rt, line(rt.alloc(), begin, *size, end));
        gives(&rt, line.as_slice(), text);
    }
}

const INSERT: &[u8] =
    b"1 INSERT 18446744073709551615 -2147483648 -2147483648 2147483647 2147483647\n";

const FOUND: &[u8] =
    b"1 entry 18446744073709551615 -2147483648 -2147483648 2147483647 2147483647\n";

// The bytes 200 times between others.
fn many(alloc: Global, before: &[u8], bytes: &[u8], behind: &[u8]) -> Result<Vec<u8>, AllocError> {
    let all = bytes.repeat(alloc, 200)?;
    [before, all.as_slice(), behind].concat(alloc)
}

// What is written if 200 rows are inserted and found.
fn many_found(alloc: Global) -> Result<Vec<u8>, AllocError> {
    let inserted = many(alloc, b"", b"1 inserted\n", b"1 found 200\n")?;
    many(alloc, inserted.as_slice(), FOUND, b"1 aborted\n")
}

// More text than waits at once.
#[test]
fn a_reply_is_longer_than_what_waits(rt: HostRuntime) {
    let alloc = rt.alloc();
    let script = got(
        &rt,
        many(alloc, b"", INSERT, b"1 OVERLAP 0 0 0 0\n1 ABORT\n"),
    );
    let text = got(&rt, many_found(alloc));
    gives(&rt, script.as_slice(), text.as_slice());
}

#[test]
fn a_reader_that_fails_ends_the_script(rt: HostRuntime) {
    let mut reader = Drip {
        rest: b"1 BEGIN\nx\n1 ABORT\n1 COM",
        size: 5,
        interrupts: false,
        fails: true,
    };
    let mut writer = Vec::new(rt.alloc());
    let mut list = List::new(rt.alloc());
    let result = result_of(&mut list, &mut reader, &mut writer);
    ends(&rt, result, Err(ScriptFault::Read));
    let text = b"1 ok\nline 2 bad\n1 aborted\n".as_slice();
    same(&rt, &(writer.as_slice(), list.calls), &(text, 2));
}

const TEXT: &[u8] = b"1 ok\n1 inserted\n1 found 1\n1 entry 7 0 0 1 1\n1 aborted\n";

// How many calls are asked if the writer takes so much of that text.
fn calls_asked(most: usize) -> u64 {
    match most {
        0..=4 => 1,
        5..=15 => 2,
        16..=43 => 3,
        _ => 4,
    }
}

// However much the writer takes, that is the front of the text, and no call is asked past the first reply that is cut.
fn stops_at<R: Abort + AllocGlobal>(rt: &R, most: usize) {
    let mut reader = b"1 BEGIN\n1 INSERT 7 0 0 1 1\n1 OVERLAP 0 0 1 1\n1 ABORT\n".as_slice();
    let mut writer = Sip {
        taken: Vec::new(rt.alloc()),
        size: 3,
        interrupts: false,
        most,
    };
    let mut list = List::new(rt.alloc());
    let result = result_of(&mut list, &mut reader, &mut writer);
    ends(rt, result, Err(ScriptFault::Write));
    same(rt, &Some(writer.taken.as_slice()), &TEXT.get(..most));
    same(rt, &list.calls, &calls_asked(most));
}

#[test]
fn a_writer_that_fails_ends_the_script(rt: HostRuntime) {
    for most in 0..TEXT.len() {
        stops_at(&rt, most);
    }
}
