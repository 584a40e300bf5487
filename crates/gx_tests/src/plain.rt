//! Scripts on the plain index, its bounds, and refused memory.
use crate::asserts::{got, holds, same};
use gx_geom::{Box2, Refusal};
use gx_plain::{Asked, Call, Entry, Noted, PlainIndex, Query, Reply, run_plain};
use std::io::Read;
use std::process::Abort;
use std::test::Fail;

/// A script and the text that it gives on a fresh index.
type Row = (&'static [u8], &'static [u8]);

static SCRIPTS: [Row; 13] = [
    // a commit is found
    (
        b"1 BEGIN\n1 INSERT 7 0 0 10 10\n1 COMMIT\n1 BEGIN\n1 OVERLAP 10 10 20 20\n",
        b"1 ok\n1 inserted\n1 committed 1\n1 ok\n1 found 1\n1 entry 7 0 0 10 10\n",
    ),
    // nothing is found in an empty index
    (
        b"1 BEGIN\n1 OVERLAP -2147483648 -2147483648 2147483647 2147483647\n",
        b"1 ok\n1 found 0\n",
    ),
    (b"", b""),
    // reversed corners
    (
        b"1 BEGIN\n1 INSERT 7 5 0 4 9\n",
        b"1 ok\n1 refused 6 bad box\n",
    ),
    // a row with two keys is two entries
    (
        b"1 BEGIN\n1 INSERT 7 0 0 1 1\n1 INSERT 7 0 0 1 1\n1 INSERT 7 0 0 1 2\n1 OVERLAP 0 0 9 9\n",
        b"1 ok\n1 inserted\n1 refused 3 present\n1 inserted\n1 found 2\n1 entry 7 0 0 1 1\n1 entry 7 0 0 1 2\n",
    ),
    // a claim bars a search that matches
    (
        b"1 BEGIN\n2 BEGIN\n1 INSERT 7 0 0 1 1\n2 OVERLAP 1 1 5 5\n2 OVERLAP 2 2 5 5\n",
        b"1 ok\n2 ok\n1 inserted\n2 refused 5 busy 1\n2 found 0\n",
    ),
    // a predicate bars a write that matches
    (
        b"1 BEGIN\n2 BEGIN\n2 OVERLAP 0 0 9 9\n1 INSERT 8 9 9 12 12\n",
        b"1 ok\n2 ok\n2 found 0\n1 refused 5 busy 2\n",
    ),
    // an abort undoes a delete
    (
        b"1 BEGIN\n1 INSERT 7 0 0 1 1\n1 COMMIT\n1 BEGIN\n1 DELETE 7 0 0 1 1\n1 INSERT 7 0 0 1 1\n1 ABORT\n1 BEGIN\n1 DELETE 7 0 0 1 1\n1 ABORT\n1 BEGIN\n1 EQUAL 0 0 1 1\n",
        b"1 ok\n1 inserted\n1 committed 1\n1 ok\n1 deleted\n1 inserted\n1 aborted\n1 ok\n1 deleted\n1 aborted\n1 ok\n1 found 1\n1 entry 7 0 0 1 1\n",
    ),
    // an abort undoes an insert
    (
        b"1 BEGIN\n1 INSERT 7 0 0 1 1\n1 COMMIT\n1 BEGIN\n1 DELETE 7 0 0 1 1\n1 COMMIT\n1 BEGIN\n1 INSERT 7 0 0 1 1\n1 ABORT\n1 BEGIN\n1 DELETE 7 0 0 1 1\n",
        b"1 ok\n1 inserted\n1 committed 1\n1 ok\n1 deleted\n1 committed 2\n1 ok\n1 inserted\n1 aborted\n1 ok\n1 refused 4 absent\n",
    ),
    // calls out of order
    (
        b"1 COMMIT\n9 BEGIN\n1 HELLO\n1 BEGIN\n1 BEGIN\n",
        b"1 refused 1 no transaction\n9 refused 15 bad session\nline 3 bad\n1 ok\n1 refused 2 in transaction\n",
    ),
    // a session has sixteen predicates at most; one that it holds takes no second place
    (
        b"1 BEGIN\n1 INSERT 1 0 0 2 2\n1 INSERT 2 1 1 3 3\n1 COMMIT\n1 BEGIN\n1 WITHIN 0 0 2 2\n1 EQUAL 1 1 3 3\n1 OVERLAP 2 2 2 2\n\
        1 EQUAL 10 0 10 0\n1 EQUAL 11 0 11 0\n1 EQUAL 12 0 12 0\n1 EQUAL 13 0 13 0\n1 EQUAL 14 0 14 0\n1 EQUAL 15 0 15 0\n1 EQUAL 16 0 16 0\n\
        1 EQUAL 17 0 17 0\n1 EQUAL 18 0 18 0\n1 EQUAL 19 0 19 0\n1 EQUAL 20 0 20 0\n1 EQUAL 21 0 21 0\n1 EQUAL 22 0 22 0\n\
        1 EQUAL 23 0 23 0\n1 WITHIN 0 0 2 2\n",
        b"1 ok\n1 inserted\n1 inserted\n1 committed 1\n1 ok\n1 found 1\n1 entry 1 0 0 2 2\n1 found 1\n1 entry 2 1 1 3 3\n1 found 2\n1 entry 1 0 0 2 2\n1 entry 2 1 1 3 3\n\
        1 found 0\n1 found 0\n1 found 0\n1 found 0\n1 found 0\n1 found 0\n1 found 0\n\
        1 found 0\n1 found 0\n1 found 0\n1 found 0\n1 found 0\n1 found 0\n\
        1 refused 9 predicates full\n1 found 1\n1 entry 1 0 0 2 2\n",
    ),
    // what covers a box
    (
        b"1 BEGIN\n1 INSERT 1 0 0 2 2\n1 INSERT 2 1 1 3 3\n1 COMMIT\n1 BEGIN\n1 COVERS 0 0 1 1\n",
        b"1 ok\n1 inserted\n1 inserted\n1 committed 1\n1 ok\n1 found 1\n1 entry 1 0 0 2 2\n",
    ),
    // its predicate bars a write that covers the box
    (
        b"1 BEGIN\n1 COVERS 5 5 6 6\n2 BEGIN\n2 INSERT 3 0 0 9 9\n",
        b"1 ok\n1 found 0\n2 ok\n2 refused 5 busy 1\n",
    ),
];

/// An index with nothing committed.
pub(crate) fn fresh<R: Abort + AllocGlobal>(rt: &R) -> PlainIndex<Box2> {
    got(rt, PlainIndex::new(rt.alloc()))
}

/// Fails unless what is read is a script that is run to its end on a fresh index. Writes its text.
pub(crate) fn runs<R: Abort + AllocGlobal, T: Read>(rt: &R, reader: &mut T, text: &mut Vec<u8>) {
    let mut index = fresh(rt);
    let result = run_plain(&mut Noted::new(reader), &mut Noted::new(text), &mut index);
    holds(rt, result == Ok(()));
}

/// Fails unless the script gives this text on a fresh index.
pub(crate) fn gives_text<R: Abort + AllocGlobal>(rt: &R, script: &[u8], text: &[u8]) {
    let mut reader = script;
    let mut writer = Vec::new(rt.alloc());
    runs(rt, &mut reader, &mut writer);
    same(rt, &writer.as_slice(), &text);
}

#[test]
fn scripts_and_their_texts(rt: HostRuntime) {
    for (script, text) in &SCRIPTS {
        gives_text(&rt, script, text);
    }
}

/// A call; an entry has this row, and the key of all of them.
#[derive(Clone, Copy)]
enum Word {
    Begin,
    Insert(u64),
    Delete(u64),
    Search,
    Commit,
    Abort,
}

impl Word {
    fn call(self) -> Call<Box2> {
        let key = Box2::point(3, 3);
        match self {
            Word::Begin => Call::Begin,
            Word::Insert(row) => Call::Insert(Entry { row, key }),
            Word::Delete(row) => Call::Delete(Entry { row, key }),
            Word::Search => Call::Search(Query::Equal(key)),
            Word::Commit => Call::Commit,
            Word::Abort => Call::Abort,
        }
    }
}

// What asking or answering gives: a word, and how many were found, a commit's number, whose conflict it is, or a
// refusal's number.
type Told = (&'static str, u64);

const OPEN: Told = ("open", 0);

const INSERTED: Told = ("inserted", 0);

const DELETED: Told = ("deleted", 0);

const ABORTED: Told = ("aborted", 0);

const BAD_SESSION: Told = ("refused", 15);

const CALL_OPEN: Told = ("refused", 16);

const NO_CALL: Told = ("refused", 19);

const CLAIMS_FULL: Told = ("refused", 8);

const MEMORY: Told = ("refused", 10);

fn reply_told(reply: Reply<Box2>) -> Told {
    match reply {
        Reply::Ok => ("ok", 0),
        Reply::Inserted => INSERTED,
        Reply::Deleted => DELETED,
        Reply::Found(entries) => ("found", entries.as_slice().len() as u64),
        Reply::Committed(number) => ("committed", number),
        Reply::Aborted => ABORTED,
        Reply::Refused(Refusal::Busy(session)) => ("busy", u64::from(session)),
        Reply::Refused(why) => ("refused", u64::from(why.number())),
    }
}

fn ask_told(asked: Asked<Box2>) -> Told {
    match asked {
        Asked::Now(reply) => reply_told(reply),
        Asked::Open => OPEN,
    }
}

// A session asks this, or gets its reply; and the outcome.
type Step = (u8, Option<Word>, Told);

static STEPS: [Step; 16] = [
    (0, Some(Word::Begin), BAD_SESSION),
    (0, None, BAD_SESSION),
    (9, Some(Word::Begin), BAD_SESSION),
    (9, None, BAD_SESSION),
    (255, Some(Word::Begin), BAD_SESSION),
    (255, None, BAD_SESSION),
    (8, None, NO_CALL),
    (8, Some(Word::Begin), ("ok", 0)),
    (8, None, NO_CALL),
    (8, Some(Word::Insert(1)), OPEN),
    (8, Some(Word::Commit), CALL_OPEN),
    (8, None, INSERTED),
    (8, Some(Word::Abort), OPEN),
    (8, Some(Word::Begin), CALL_OPEN),
    (8, None, ABORTED),
    (8, None, NO_CALL),
];

fn step_told(index: &mut PlainIndex<Box2>, session: u8, asks: Option<Word>) -> Told {
    match asks {
        Some(word) => ask_told(index.ask(session, word.call())),
        None => reply_told(index.answer(session)),
    }
}

#[test]
fn each_step_of_a_session_is_told(rt: HostRuntime) {
    let mut index = fresh(&rt);
    for (session, asks, told) in &STEPS {
        same(&rt, &step_told(&mut index, *session, *asks), told);
    }
}

// What a call, asked and answered, gives.
fn called(index: &mut PlainIndex<Box2>, session: u8, word: Word) -> Told {
    reply_told(index.call(session, word.call()))
}

// Fails unless the call is answered so.
fn gives(rt: &impl Abort, index: &mut PlainIndex<Box2>, session: u8, word: Word, told: Told) {
    same(rt, &called(index, session, word), &told);
}

// Fails unless a session inserts these rows.
fn inserts(rt: &impl Abort, index: &mut PlainIndex<Box2>, session: u8, first: u64, end: u64) {
    for row in first..end {
        gives(rt, index, session, Word::Insert(row), INSERTED);
    }
}

// Calls of two sessions that have all claims, 300 of them session 1's.
static FULL: [(u8, Word, Told); 6] = [
    (1, Word::Insert(512), CLAIMS_FULL),
    (2, Word::Delete(512), CLAIMS_FULL),
    (2, Word::Delete(511), DELETED),
    (1, Word::Insert(511), ("busy", 2)),
    (2, Word::Commit, ("committed", 1)),
    (1, Word::Insert(511), INSERTED),
];

// 512 claims are all sessions' most; an entry that is claimed takes no second place.
#[test]
fn two_sessions_take_all_claims(rt: HostRuntime) {
    let mut index = fresh(&rt);
    gives(&rt, &mut index, 1, Word::Begin, ("ok", 0));
    gives(&rt, &mut index, 2, Word::Begin, ("ok", 0));
    inserts(&rt, &mut index, 1, 0, 300);
    inserts(&rt, &mut index, 2, 300, 512);
    for (session, word, told) in &FULL {
        gives(&rt, &mut index, *session, *word, *told);
    }
}

// Fails unless session 1's call is answered so, at once or if it is asked again since memory was refused.
fn gives_again(rt: &impl Abort, index: &mut PlainIndex<Box2>, word: Word, told: Told) {
    let first = called(index, 1, word);
    if first == MEMORY {
        gives(rt, index, 1, word, told);
    } else {
        same(rt, &first, &told);
    }
}

// Calls in which memory may be refused once.
fn calls_again(rt: &impl Abort, index: &mut PlainIndex<Box2>) {
    gives(rt, index, 1, Word::Begin, ("ok", 0));
    for row in 0..40 {
        gives_again(rt, index, Word::Insert(row), INSERTED);
    }
    gives(rt, index, 1, Word::Commit, ("committed", 1));
    gives(rt, index, 1, Word::Begin, ("ok", 0));
    for row in 0..20 {
        gives(rt, index, 1, Word::Delete(row), DELETED);
    }
    gives_again(rt, index, Word::Search, ("found", 20));
    gives(rt, index, 1, Word::Abort, ABORTED);
}

// Each call that takes memory answers as ever, at once or if it is asked again; a delete takes none. (With one
// allocation refused, this is run for each in turn.)
#[test]
fn refused_memory_changes_nothing(rt: HostRuntime) -> Result<(), Fail> {
    let mut index = match PlainIndex::new(rt.alloc()) {
        Ok(index) => index,
        Err(_) => PlainIndex::new(rt.alloc())?,
    };
    calls_again(&rt, &mut index);
    Ok(())
}
