//! Dumps of trees on devices in memory, which are opened again before.
use crate::asserts::holds;
use crate::devices::{fresh, index_over};
use gx_class::Box2Class;
use gx_disk::MemDisk;
use gx_restart::{DumpFault, Index, Noted, run_script};
use std::alloc::Global;
use std::process::Abort;

/// Whether a script ran to its end over an index, and all was gated.
pub(crate) fn writes(index: &mut Index<MemDisk, Box2Class>, script: &[u8]) -> bool {
    let mut replies = [0u8; 1024];
    let ran = run_script(
        &mut Noted::new(script),
        &mut Noted::new(replies.as_mut_slice()),
        index,
    );
    ran.is_ok() && index.settle().is_ok()
}

/// A device on which a script ran to its end over a new index, and all was gated.
pub(crate) fn written(alloc: Global, script: &[u8]) -> Option<MemDisk> {
    let mut index = fresh(alloc)?;
    let is_written = writes(&mut index, script);
    let disk = index.into_engine().into_disk();
    if is_written { Some(disk) } else { None }
}

// Writes its dump once it is opened again over these bytes: with what end.
fn dump_opened(alloc: Global, script: &[u8], text: &mut [u8]) -> Option<Result<(), DumpFault>> {
    let mut index = index_over(alloc, written(alloc, script)?)?;
    let mut writer = text;
    Some(index.dump(&mut Noted::new(&mut writer)))
}

// Fails unless a script leaves the tree with this text.
fn leaves<T: Abort + AllocGlobal>(rt: &T, script: &[u8], expected: &[u8]) {
    let mut text = [0u8; 1024];
    let end = dump_opened(rt.alloc(), script, text.as_mut_slice());
    holds(rt, end == Some(Ok(())));
    holds(
        rt,
        text.starts_with(expected) && text.get(expected.len()) == Some(&0),
    );
}

/// A transaction that splits a leaf, and is aborted.
pub(crate) const ABORTED: &[u8] =
    b"1 BEGIN\n1 INSERT 1 0 0 1 1\n1 INSERT 2 0 2 1 3\n1 INSERT 3 10 0 11 1\n1 INSERT 4 10 2 11 3\n1 INSERT 5 0 4 1 5\n1 ABORT\n";

/// A full leaf of pairs that no session claims is swept for one more.
pub(crate) const SWEPT: &[u8] =
    b"1 BEGIN\n1 INSERT 1 0 0 1 1\n1 INSERT 2 0 2 1 3\n1 INSERT 3 10 0 11 1\n1 INSERT 4 10 2 11 3\n1 COMMIT\n1 BEGIN\n1 DELETE 1 0 0 1 1\n1 DELETE 2 0 2 1 3\n1 DELETE 3 10 0 11 1\n1 DELETE 4 10 2 11 3\n1 COMMIT\n1 BEGIN\n1 INSERT 5 0 4 1 5\n1 COMMIT\n";

// A script, and the dump of the tree that it leaves.
type Case = (&'static [u8], &'static [u8]);

static DUMPS: [Case; 3] = [
    // a split outlives its transaction, and what that inserted is marked
    (
        ABORTED,
        b"commits 0 used 3 counter 1\npage 1 level 1 nsn 0 right 0 count 2\nchild 2 0 0 1 5\nchild 3 10 0 11 3\npage 2 level 0 nsn 1 right 3 count 3\nentry 1 0 0 1 1 marked\nentry 2 0 2 1 3 marked\nentry 5 0 4 1 5 marked\npage 3 level 0 nsn 0 right 0 count 2\nentry 3 10 0 11 1 marked\nentry 4 10 2 11 3 marked\n",
    ),
    // after a sweep there is the one pair
    (
        SWEPT,
        b"commits 3 used 2 counter 0\npage 1 level 1 nsn 0 right 0 count 1\nchild 2 0 0 11 5\npage 2 level 0 nsn 0 right 0 count 1\nentry 5 0 4 1 5 live\n",
    ),
    // nine inserts split leaves and the root
    (
        b"1 BEGIN\n1 INSERT 1 10 0 11 1\n1 INSERT 2 20 0 21 1\n1 INSERT 3 30 0 31 1\n1 INSERT 4 40 0 41 1\n1 INSERT 5 50 0 51 1\n1 INSERT 6 60 0 61 1\n1 INSERT 7 70 0 71 1\n1 INSERT 8 80 0 81 1\n1 INSERT 9 90 0 91 1\n1 COMMIT\n",
        b"commits 1 used 7 counter 3\npage 1 level 2 nsn 0 right 0 count 2\nchild 6 10 0 41 1\nchild 7 50 0 91 1\npage 2 level 0 nsn 1 right 3 count 2\nentry 1 10 0 11 1 live\nentry 2 20 0 21 1 live\npage 3 level 0 nsn 2 right 4 count 2\nentry 3 30 0 31 1 live\nentry 4 40 0 41 1 live\npage 4 level 0 nsn 3 right 5 count 2\nentry 5 50 0 51 1 live\nentry 6 60 0 61 1 live\npage 5 level 0 nsn 0 right 0 count 3\nentry 7 70 0 71 1 live\nentry 8 80 0 81 1 live\nentry 9 90 0 91 1 live\npage 6 level 1 nsn 0 right 7 count 2\nchild 2 10 0 21 1\nchild 3 30 0 41 1\npage 7 level 1 nsn 0 right 0 count 2\nchild 4 50 0 61 1\nchild 5 70 0 91 1\n",
    ),
];

#[test]
fn dumps(rt: HostRuntime) {
    for (script, dump) in &DUMPS {
        leaves(&rt, script, dump);
    }
}

// A writer that has no more room ends the dump, and has a beginning of it.
#[test]
fn cut(rt: HostRuntime) {
    let mut text = [0u8; 20];
    let end = dump_opened(rt.alloc(), ABORTED, text.as_mut_slice());
    holds(&rt, end == Some(Err(DumpFault::Write)));
    holds(&rt, &text == b"commits 0 used 3 cou");
}
