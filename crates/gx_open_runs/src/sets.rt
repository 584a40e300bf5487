//! What a script is expected to do: the sets that it commits and its replies, by the plain index.
use crate::fault::RunFault;
use crate::replies::replies_of;
use gx_geom::Box2;
use gx_plain::PlainIndex;
use gx_script::{Answers, Noted, run};
use std::alloc::Global;

/// What is expected of a script.
#[derive(Drop)]
pub(crate) struct Expected {
    /// The sets by the number of commits: of nothing, and after each commit.
    pub(crate) sets: Vec<Vec<u8>>,
    /// The replies of each line.
    pub(crate) replies: Vec<Vec<u8>>,
}

const ABORTS: &[u8] = b"1 ABORT\n2 ABORT\n3 ABORT\n4 ABORT\n5 ABORT\n6 ABORT\n7 ABORT\n8 ABORT\n";

const SEARCH: &[u8] = b"1 BEGIN\n1 OVERLAP -2147483648 -2147483648 2147483647 2147483647\n";

/// The set of an index without a transaction, as a search for everything is answered.
pub(crate) fn set_of<I: Answers<Box2>>(alloc: Global, index: &mut I) -> Result<Vec<u8>, RunFault> {
    let mut text = Vec::new(alloc);
    run(&mut Noted::new(SEARCH), &mut Noted::new(&mut text), index)?;
    Ok(text)
}

// The set that the front of a script commits.
fn set_after(alloc: Global, front: &[u8]) -> Result<Vec<u8>, RunFault> {
    let mut plain = PlainIndex::<Box2>::new(alloc)?;
    let mut replies = Vec::new(alloc);
    run(
        &mut Noted::new(front),
        &mut Noted::new(&mut replies),
        &mut plain,
    )?;
    run(
        &mut Noted::new(ABORTS),
        &mut Noted::new(&mut replies),
        &mut plain,
    )?;
    set_of(alloc, &mut plain)
}

// The sets by the number of commits: of nothing, and after each commit of the script.
fn sets_of(alloc: Global, script: &[u8]) -> Result<Vec<Vec<u8>>, RunFault> {
    let mut sets = Vec::new(alloc);
    sets.push(set_after(alloc, &[])?)?;
    let mut end: usize = 0;
    for line in script.split_inclusive(|byte| *byte == b'\n') {
        end = end.saturating_add(line.len());
        if line.ends_with(b"COMMIT\n") {
            let front = script.get(..end).unwrap_or(script);
            sets.push(set_after(alloc, front)?)?;
        }
    }
    Ok(sets)
}

/// What is expected of a script.
pub(crate) fn expected_of(alloc: Global, script: &[u8]) -> Result<Expected, RunFault> {
    Ok(Expected {
        sets: sets_of(alloc, script)?,
        replies: replies_of(alloc, script)?,
    })
}
