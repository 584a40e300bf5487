//! Short logs taken record by record: where the first refusal comes, and what is kept.
use crate::asserts::{got, same};
use Step::{Commit, Counters, End, Note, Pages, Write};
use gx_geom::Box2;
use gx_machine::Entry;
use gx_recovery::{Analysis, LogRule, Touch};
use std::process::Abort;

/// A record, with what the rows vary of it.
#[derive(Clone, Copy)]
enum Step {
    /// The pages in use.
    Counters(u32),
    /// Transaction, row and leaf.
    Note(u64, u64, u32),
    /// Transaction, row and leaf.
    Write(u64, u64, u32),
    /// The counter, the pages in use, and a page's number.
    Pages(u64, u32, u32),
    /// Transaction and number.
    Commit(u64, u64),
    /// Transaction.
    End(u64),
}

/// How many pages the device of the rows has.
const PAGES: u32 = 9;

fn entry(row: u64) -> Entry<Box2> {
    Entry {
        row,
        key: Box2::point(1, 2),
    }
}

/// Passes one record, of fewer than a thousand, to the analysis.
fn tell_step(
    rt: &impl Abort,
    analysis: &mut Analysis<Entry<Box2>>,
    step: Step,
) -> Result<(), LogRule> {
    assert!(rt; analysis.closings() < 1000);
    match step {
        Step::Counters(used) => analysis.on_counters(7, 3, used, 5),
        Step::Note(t, row, leaf) => analysis.on_note(Touch::new(t, entry(row), false, leaf)),
        Step::Write(t, row, leaf) => analysis.on_write(Touch::new(t, entry(row), true, leaf)),
        Step::Pages(counter, used, page) => analysis.on_pages(counter, used, &[page]),
        Step::Commit(t, number) => analysis.on_commit(t, number),
        Step::End(t) => analysis.on_end(t),
    }
}

/// Passes one record to the analysis, which then returns this.
fn tells(
    rt: &impl Abort,
    analysis: &mut Analysis<Entry<Box2>>,
    step: Step,
    wanted: Result<(), LogRule>,
) {
    same(rt, &tell_step(rt, analysis, step), &wanted);
}

/// An analysis that has taken nothing.
fn untold<R: Abort + AllocGlobal>(rt: &R) -> Analysis<Entry<Box2>> {
    got(rt, Analysis::new(rt.alloc(), PAGES))
}

/// How many records pass before the first that is damage, and the rule that this one breaks.
fn passed(
    rt: &impl Abort,
    analysis: &mut Analysis<Entry<Box2>>,
    steps: &[Step],
) -> (usize, Option<LogRule>) {
    let mut count = 0_usize;
    for step in steps {
        if let Err(rule) = tell_step(rt, analysis, *step) {
            return (count, Some(rule));
        }
        count = count.wrapping_add(1);
    }
    (count, None)
}

/// Records, how many of them pass, and the rule that the next one breaks.
type Log = (&'static [Step], usize, Option<LogRule>);

static LOGS: [Log; 17] = [
    (
        &[
            Counters(4),
            Note(1, 1, 2),
            Write(1, 1, 3),
            Commit(1, 8),
            End(2),
        ],
        5,
        None,
    ),
    (&[Counters(10)], 0, Some(LogRule::PagesOfDevice)),
    (&[Counters(4), Note(1, 1, 5)], 1, Some(LogRule::LeafInUse)),
    (
        &[Counters(4), Note(u64::MAX, 1, 2)],
        1,
        Some(LogRule::TransactionNumber),
    ),
    (
        &[Counters(4), Note(1, 1, 2), Note(2, 1, 2)],
        2,
        Some(LogRule::SharedEntry),
    ),
    (&[Counters(4), Write(1, 1, 0)], 1, Some(LogRule::LeafInUse)),
    (
        &[Counters(4), Write(1, 1, 2), Write(2, 1, 2)],
        2,
        Some(LogRule::SharedEntry),
    ),
    (
        &[
            Counters(4),
            Write(1, 1, 2),
            End(1),
            Write(2, 1, 2),
            Write(1, 2, 2),
        ],
        4,
        Some(LogRule::Ended),
    ),
    (
        &[Counters(4), Commit(1, 8), Commit(1, 9)],
        2,
        Some(LogRule::Ended),
    ),
    (&[Counters(4), End(1), End(1)], 2, Some(LogRule::Ended)),
    (&[Counters(4), Commit(1, 9)], 1, Some(LogRule::CommitNumber)),
    (
        &[Counters(4), Commit(1, 8), Commit(2, 8)],
        2,
        Some(LogRule::CommitNumber),
    ),
    (
        &[Counters(4), Pages(2, 4, 1)],
        1,
        Some(LogRule::CounterFalls),
    ),
    (&[Counters(4), Pages(4, 3, 1)], 1, Some(LogRule::UsedFalls)),
    (
        &[Counters(4), Pages(4, 6, 6), Pages(4, 6, 7)],
        2,
        Some(LogRule::PageInUse),
    ),
    (
        &[Counters(4), Pages(4, 9, 9), Pages(4, 10, 9)],
        2,
        Some(LogRule::PagesOfDevice),
    ),
    (
        &[Counters(4), Write(1, 1, 5), Pages(4, 6, 6), Write(1, 1, 5)],
        1,
        Some(LogRule::LeafInUse),
    ),
];

#[test]
fn each_rule_refuses_its_record(rt: HostRuntime) {
    for (steps, count, rule) in &LOGS {
        let found = passed(&rt, &mut untold(&rt), steps);
        same(&rt, &found, &(*count, *rule));
    }
}

static KEPT: [Step; 8] = [
    Counters(4),
    Note(6, 2, 2),
    Write(6, 2, 3),
    Write(8, 3, 4),
    Write(6, 1, 2),
    Commit(8, 8),
    Pages(4, 5, 5),
    Write(6, 1, 5),
];

/// The last commit's number, the counter, the pages in use, and the next transaction's number.
fn numbers(analysis: &Analysis<Entry<Box2>>) -> (u64, u64, u32, u64) {
    (
        analysis.number(),
        analysis.counter(),
        analysis.used(),
        analysis.next(),
    )
}

/// The first three touches: transaction, row, mark and leaf; zeros if there are fewer.
fn touches(analysis: &Analysis<Entry<Box2>>) -> [(u64, u64, bool, u32); 3] {
    let mut kept = [(0, 0, false, 0); 3];
    for (place, t) in kept.iter_mut().zip(analysis.touched()) {
        *place = (t.transaction(), t.entry().row, t.before(), t.leaf());
    }
    kept
}

#[test]
fn the_first_mark_and_the_last_leaf_are_kept(rt: HostRuntime) {
    let mut analysis = untold(&rt);
    same(&rt, &passed(&rt, &mut analysis, &KEPT), &(8, None));
    same(&rt, &numbers(&analysis), &(8, 4, 5, 9));
    let wanted = [(6, 1, true, 5), (6, 2, false, 3), (0, 0, false, 0)];
    same(&rt, &touches(&analysis), &wanted);
}

/// Eight transactions are open, and no ninth one can be until one of them has ended.
static NINE: [(Step, Result<(), LogRule>); 14] = [
    (Counters(4), Ok(())),
    (Write(1, 1, 2), Ok(())),
    (Write(2, 2, 2), Ok(())),
    (Write(3, 3, 2), Ok(())),
    (Write(4, 4, 2), Ok(())),
    (Write(5, 5, 2), Ok(())),
    (Write(6, 6, 2), Ok(())),
    (Write(7, 7, 2), Ok(())),
    (Write(8, 8, 2), Ok(())),
    (Write(9, 9, 2), Err(LogRule::TooManyTransactions)),
    (Write(8, 9, 2), Ok(())),
    (End(3), Ok(())),
    (Write(9, 9, 2), Err(LogRule::SharedEntry)),
    (Write(9, 10, 2), Ok(())),
];

#[test]
fn eight_transactions_and_not_nine(rt: HostRuntime) {
    let mut analysis = untold(&rt);
    for (step, wanted) in &NINE {
        tells(&rt, &mut analysis, *step, *wanted);
    }
}

/// Passes records with as many touches as there are places.
fn touch_all(rt: &impl Abort, analysis: &mut Analysis<Entry<Box2>>) {
    tells(rt, analysis, Counters(4), Ok(()));
    for row in 0..512 {
        tells(rt, analysis, Note(1, row, 2), Ok(()));
    }
}

#[test]
fn as_many_touches_as_places_and_not_one_more(rt: HostRuntime) {
    let mut most = untold(&rt);
    touch_all(&rt, &mut most);
    let too_many = Err(LogRule::TooManyTouches);
    tells(&rt, &mut most, Note(1, 512, 2), too_many);
    tells(&rt, &mut most, Write(1, 511, 2), Ok(()));
}
