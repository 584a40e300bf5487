//! Touches in a row, by transaction and then by entry.
ghost use Rattle.std.specs.Prelude.{insert, ◌≡◌, ◌+◌, ◌<◌, ◌≤◌, ◌==◌, ◌&&◌, ◌||◌, not, length, MatchResult};
ghost use Rattle.std.specs.Prelude.{slice_index_or, slice_set, if◌then◌else◌, vec_len, vec_capacity};
ghost use Rattle.gx_recovery.specs.Known.{same};
ghost use Rattle.gx_recovery.specs.Records as records;
ghost use Rattle.gx_recovery.specs.Analysis.{touch_cmp, touching, without};
ghost use Rattle.gx_recovery.specs.Damage.{transactions};
ghost use Rattle.gx_recovery.specs.Kept.{by_order, has_touched, lies_apart, has_place};

use crate::{TOUCHED, Touch};
use std::cmp::Ordering;

/// How two touches are ordered: by transaction, and then by entry.
fn compare<E: Copy + Ord>(a: &Touch<E>, b: &Touch<E>) -> Ordering
    ensures { result ≡ touch_cmp (by_order E.Ord.cmp) a.now b.now }
{
    match a.transaction().cmp(&b.transaction()) {
        Ordering::Equal => a.entry().cmp(&b.entry()),
        ordering => ordering,
    }
}

/// Whether two touches are of the same entry.
fn is_same_entry<E: Copy + Ord>(a: &Touch<E>, b: &Touch<E>) -> bool
    ensures { result ≡ same (by_order E.Ord.cmp) a.now.entry b.now.entry }
{
    a.entry().cmp(&b.entry()) == Ordering::Equal
}

/// Whether two touches may be of transactions that are open at once.
fn is_apart<E: Copy + Ord>(a: &Touch<E>, b: &Touch<E>) -> bool
    ensures { result ≡ (a.now.transaction == b.now.transaction
        || not (same (by_order E.Ord.cmp) a.now.entry b.now.entry)) }
{
    a.transaction() == b.transaction() || !is_same_entry(a, b)
}

/// Whether the touch is of this transaction.
fn is_of<E: Copy>(t: &Touch<E>, transaction: u64) -> bool
    ensures { result ≡ (t.now.transaction == transaction) }
{
    t.transaction() == transaction
}

/// Whether the transaction has touched anything.
pub(crate) fn has_touched<E: Copy>(transaction: u64, touched: &[Touch<E>]) -> bool
    ensures { result ≡ has_touched transaction touched.now }
{
    touched.iter().any(|x| is_of(x, transaction))
}

/// Whether no other transaction has touched the entry.
pub(crate) fn lies_apart<E: Copy + Ord>(t: &Touch<E>, touched: &[Touch<E>]) -> bool
    ensures { result ≡ lies_apart E.Ord.cmp t.now touched.now }
{
    touched.iter().all(|x| is_apart(t, x))
}

/// One where none of these touches is of the first one's transaction, else none.
fn is_last<E: Copy>(first: &Touch<E>, rest: &[Touch<E>]) -> usize
    ensures value { result ≡ (if has_touched first.now.transaction rest.now then 0 else 1) }
    ensures few { result ≤ 1 }
{
    if has_touched(first.transaction(), rest) {
        0
    } else {
        1
    }
}

/// How many transactions have touched something. Where the touches of one transaction are side by side, few are
/// compared.
pub(crate) fn transactions<E: Copy>(touched: &[Touch<E>]) -> usize
    ensures { result ≡ transactions touched.now }
{
    let mut count: usize = 0;
    for (i, x) in touched.iter().enumerate() {
        count += is_last(x, &touched[i + 1..]);
    }
    count
}

/// The place of the transaction's touch of the entry, or else the place where it would go.
fn place<E: Copy + Ord>(t: &Touch<E>, touched: &[Touch<E>]) -> Result<usize, usize>
    ensures { MatchResult result
        (λ i. (i < length touched.now) × ((d : records.Touch E) → touching (by_order E.Ord.cmp) t.now touched.now
        ≡ slice_set touched.now i (record (slice_index_or touched.now i d) { leaf = t.now.leaf })))
        (λ i. (i ≤ length touched.now) × (touching (by_order E.Ord.cmp) t.now touched.now
        ≡ insert touched.now i t.now)) }
{
    for (i, x) in touched.iter().enumerate() {
        match compare(t, x) {
            Ordering::Less => return Err(i),
            Ordering::Equal => return Ok(i),
            Ordering::Greater => {}
        }
    }
    Err(touched.len())
}

/// Whether the touches are few enough with this one.
pub(crate) fn has_place<E: Copy + Ord>(t: &Touch<E>, touched: &[Touch<E>]) -> bool
    ensures { result ≡ has_place E.Ord.cmp t.now touched.now }
{
    match place(t, touched) {
        Ok(_) => touched.len() <= TOUCHED,
        Err(_) => touched.len() < TOUCHED,
    }
}

/// Puts a touch in its place, for which there is room: of one that is kept already, only the leaf changes.
pub(crate) fn keep_touch<E: Copy + Ord>(t: Touch<E>, touched: &mut Vec<Touch<E>>)
    requires { length (touching (by_order E.Ord.cmp) t touched.old.items) ≤ vec_capacity touched.old }
    ensures items { touched.new.items ≡ touching (by_order E.Ord.cmp) t touched.old.items }
    ensures capacity { vec_capacity touched.old ≤ vec_capacity touched.new }
{
    match place(&t, touched) {
        Ok(i) => {
            let first = touched[i];
            touched[i] = first.on_leaf(t.leaf());
        }
        Err(i) => {
            let _ = touched.insert(i, t);
        }
    }
}

/// Removes a transaction's touches.
pub(crate) fn remove<E: Copy>(transaction: u64, touched: &mut Vec<Touch<E>>)
    ensures items { touched.new.items ≡ without transaction touched.old.items }
    ensures capacity { vec_capacity touched.old ≤ vec_capacity touched.new }
{
    touched.retain(|x| !is_of(x, transaction));
}
