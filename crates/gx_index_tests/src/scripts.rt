//! Scripts over a device in memory: the same replies as the plain index.
use crate::asserts::holds;
use crate::devices::fresh;
use gx_events::Outcome;
use gx_geom::Box2;
use gx_plain::{PlainIndex, run_plain};
use gx_restart::{Noted, run_script};
use std::alloc::Global;
use std::process::Abort;

// Whether a script over a new device ends well; writes the replies.
fn answers(alloc: Global, script: &[u8], mut replies: &mut [u8]) -> Option<bool> {
    let mut index = fresh(alloc)?;
    Some(
        run_script(
            &mut Noted::new(script),
            &mut Noted::new(&mut replies),
            &mut index,
        ) == Ok(()),
    )
}

// Whether a script on a plain index ends well; writes the replies.
fn answers_plainly(alloc: Global, script: &[u8], mut replies: &mut [u8]) -> Option<bool> {
    let mut plain: PlainIndex<Box2> = PlainIndex::new(alloc).ok()?;
    Some(
        run_plain(
            &mut Noted::new(script),
            &mut Noted::new(&mut replies),
            &mut plain,
        ) == Ok(()),
    )
}

// A script, and its replies.
type Case = (&'static [u8], &'static [u8]);

// A script is answered so, by an index over a device as by the plain one.
fn gives<T: Abort + AllocGlobal>(rt: &T, script: &[u8], replies: &[u8]) {
    let mut here = [0u8; 1024];
    let mut there = [0u8; 1024];
    holds(
        rt,
        answers(rt.alloc(), script, here.as_mut_slice()) == Some(true),
    );
    holds(
        rt,
        answers_plainly(rt.alloc(), script, there.as_mut_slice()) == Some(true),
    );
    holds(
        rt,
        here == there && here.starts_with(replies) && here.get(replies.len()) == Some(&0),
    );
}

fn all_give<T: Abort + AllocGlobal>(rt: &T, cases: &[Case]) {
    for (script, replies) in cases {
        gives(rt, script, replies);
    }
}

static TRANSACTIONS: [Case; 5] = [
    (
        b"1 BEGIN\n1 INSERT 7 0 0 10 10\n1 COMMIT\n1 BEGIN\n1 OVERLAP 10 10 20 20\n",
        b"1 ok\n1 inserted\n1 committed 1\n1 ok\n1 found 1\n1 entry 7 0 0 10 10\n",
    ),
    (
        b"1 BEGIN\n1 OVERLAP -2147483648 -2147483648 2147483647 2147483647\n",
        b"1 ok\n1 found 0\n",
    ),
    (b"", b""),
    (
        b"1 BEGIN\n1 INSERT 7 5 0 4 9\n",
        b"1 ok\n1 refused 6 bad box\n",
    ),
    (
        b"1 BEGIN\n1 INSERT 7 0 0 1 1\n1 INSERT 7 0 0 1 1\n1 INSERT 7 0 0 1 2\n1 OVERLAP 0 0 9 9\n",
        b"1 ok\n1 inserted\n1 refused 3 present\n1 inserted\n1 found 2\n1 entry 7 0 0 1 1\n1 entry 7 0 0 1 2\n",
    ),
];

#[test]
fn transactions(rt: HostRuntime) {
    all_give(&rt, &TRANSACTIONS);
}

static CONFLICTS: [Case; 3] = [
    (
        b"1 BEGIN\n2 BEGIN\n1 INSERT 7 0 0 1 1\n2 OVERLAP 1 1 5 5\n2 OVERLAP 2 2 5 5\n",
        b"1 ok\n2 ok\n1 inserted\n2 refused 5 busy 1\n2 found 0\n",
    ),
    (
        b"1 BEGIN\n2 BEGIN\n2 OVERLAP 0 0 9 9\n1 INSERT 8 9 9 12 12\n",
        b"1 ok\n2 ok\n2 found 0\n1 refused 5 busy 2\n",
    ),
    (
        b"1 COMMIT\n9 BEGIN\n1 HELLO\n1 BEGIN\n1 BEGIN\n",
        b"1 refused 1 no transaction\n9 refused 15 bad session\nline 3 bad\n1 ok\n1 refused 2 in transaction\n",
    ),
];

#[test]
fn conflicts(rt: HostRuntime) {
    all_give(&rt, &CONFLICTS);
}

static UNDONE: [Case; 2] = [
    (
        b"1 BEGIN\n1 INSERT 7 0 0 1 1\n1 COMMIT\n1 BEGIN\n1 DELETE 7 0 0 1 1\n1 INSERT 7 0 0 1 1\n1 ABORT\n1 BEGIN\n1 DELETE 7 0 0 1 1\n1 ABORT\n1 BEGIN\n1 EQUAL 0 0 1 1\n",
        b"1 ok\n1 inserted\n1 committed 1\n1 ok\n1 deleted\n1 inserted\n1 aborted\n1 ok\n1 deleted\n1 aborted\n1 ok\n1 found 1\n1 entry 7 0 0 1 1\n",
    ),
    (
        b"1 BEGIN\n1 INSERT 7 0 0 1 1\n1 COMMIT\n1 BEGIN\n1 DELETE 7 0 0 1 1\n1 COMMIT\n1 BEGIN\n1 INSERT 7 0 0 1 1\n1 ABORT\n1 BEGIN\n1 DELETE 7 0 0 1 1\n",
        b"1 ok\n1 inserted\n1 committed 1\n1 ok\n1 deleted\n1 committed 2\n1 ok\n1 inserted\n1 aborted\n1 ok\n1 refused 4 absent\n",
    ),
];

#[test]
fn undone(rt: HostRuntime) {
    all_give(&rt, &UNDONE);
}

static SEARCHES: [Case; 3] = [
    (
        b"1 BEGIN\n1 INSERT 1 0 0 2 2\n1 INSERT 2 1 1 3 3\n1 COMMIT\n1 BEGIN\n1 WITHIN 0 0 2 2\n1 EQUAL 1 1 3 3\n1 OVERLAP 2 2 2 2\n",
        b"1 ok\n1 inserted\n1 inserted\n1 committed 1\n1 ok\n1 found 1\n1 entry 1 0 0 2 2\n1 found 1\n1 entry 2 1 1 3 3\n1 found 2\n1 entry 1 0 0 2 2\n1 entry 2 1 1 3 3\n",
    ),
    (
        b"1 BEGIN\n1 EQUAL 0 0 0 0\n1 EQUAL 1 1 1 1\n1 EQUAL 2 2 2 2\n1 EQUAL 3 3 3 3\n1 EQUAL 4 4 4 4\n1 EQUAL 5 5 5 5\n1 EQUAL 6 6 6 6\n1 EQUAL 7 7 7 7\n1 EQUAL 8 8 8 8\n1 EQUAL 9 9 9 9\n1 EQUAL 10 10 10 10\n1 EQUAL 11 11 11 11\n1 EQUAL 12 12 12 12\n1 EQUAL 13 13 13 13\n1 EQUAL 14 14 14 14\n1 EQUAL 15 15 15 15\n1 EQUAL 16 16 16 16\n1 EQUAL 0 0 0 0\n",
        b"1 ok\n1 found 0\n1 found 0\n1 found 0\n1 found 0\n1 found 0\n1 found 0\n1 found 0\n1 found 0\n1 found 0\n1 found 0\n1 found 0\n1 found 0\n1 found 0\n1 found 0\n1 found 0\n1 found 0\n1 refused 9 predicates full\n1 found 0\n",
    ),
    (
        b"1 BEGIN\n1 INSERT 1 0 0 2 2\n1 INSERT 2 1 1 3 3\n1 COMMIT\n1 BEGIN\n1 COVERS 0 0 1 1\n2 BEGIN\n2 INSERT 3 0 0 9 9\n2 INSERT 3 1 0 9 9\n",
        b"1 ok\n1 inserted\n1 inserted\n1 committed 1\n1 ok\n1 found 1\n1 entry 1 0 0 2 2\n2 ok\n2 refused 5 busy 1\n2 inserted\n",
    ),
];

#[test]
fn searches(rt: HostRuntime) {
    all_give(&rt, &SEARCHES);
}

// Whether after a commit and an insert a settling ends well, and leaves nothing to settle.
fn is_settled(alloc: Global) -> Option<bool> {
    let mut index = fresh(alloc)?;
    let script = b"1 BEGIN\n1 INSERT 7 0 0 1 1\n1 COMMIT\n1 BEGIN\n1 INSERT 8 0 0 1 1\n".as_slice();
    let mut replies = [0u8; 64];
    let ran = run_script(
        &mut Noted::new(script),
        &mut Noted::new(replies.as_mut_slice()),
        &mut index,
    ) == Ok(());
    let settled = index.settle() == Ok(()) && index.settle() == Ok(());
    let mut engine = index.into_engine();
    let nothing = matches!(engine.log_step(), Outcome::Nothing);
    Some(ran && settled && nothing && engine.commits() == 1)
}

#[test]
fn settles(rt: HostRuntime) {
    holds(&rt, is_settled(rt.alloc()) == Some(true));
}
