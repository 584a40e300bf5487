//! Gathers the least items, in passes of rising bounds.
ghost use Rattle.std.specs.Prelude.{◌≡◌, ◌≢◌, ℕ, suc, ◌^◌, ◌++◌, ◌<◌, ◌≤◌, List, [], ◌∷◌, length};
ghost use Rattle.std.specs.Prelude.{slice_index_or, vec_len, vec_capacity, None, IfOk, MatchBool, MatchOption};
ghost use Rattle.std.specs.declared.cmp.Ordering.TheVariants.{Less};
ghost use Rattle.gx_legality.specs.Gathered.{count, IsAfter, IsUpTo, Ascends, StandsTwice};
ghost use Rattle.gx_legality.specs.Gathered.{Gathers, Halves, Finishes, gathered_above};

use std::alloc::{AllocError, Global};
use std::cmp::Ordering;
use std::marker::Model;

/// The least items after a bound, in a buffer of bounded size.
#[derive(Drop)]
pub(crate) struct Gather<E: Ord + Copy> {
    kept: Vec<E>,
    above: Option<E>,
    top: Option<E>,
    half: usize,
}

impl<E: Ord + Copy> Model for Gather<E> {
    ghost use Rattle.std.specs.Prelude.{◌+◌, ◌<◌, ◌≤◌, length, vec_capacity};
    ghost use Rattle.gx_legality.specs.Gathered.{Gathered};

    ghost Value = { Gathered E };

    ghost view = { λ g. record { kept = g.kept.items; above = g.above; top = g.top; half = g.half } };

    ghost invariant = { λ g. (0 < g.half) × (length g.kept.items < g.half + g.half)
        × (g.half + g.half ≤ vec_capacity g.kept) };
}

/// The result of a pass.
pub(crate) enum Pass {
    /// Some pair is in two places.
    Twice,
    /// No pair up to a new bound is in two places.
    Again,
    /// No pair is in two places.
    Done,
}

/// Whether each item comes after the one before.
fn ascends<E: Ord + Copy>(items: &[E]) -> bool
    ensures { MatchBool result
        ((j k : ℕ) (d : E) → suc j ≡ k → k < length items.now
        → E.cmp (slice_index_or items.now j d) (slice_index_or items.now k d) ≡ Less)
        ((j : ℕ) × (suc j < length items.now) × ((d : E)
        → E.cmp (slice_index_or items.now j d) (slice_index_or items.now (suc j) d) ≢ Less)) }
{
    for at in 1..items.len() {
        if items[at - 1].cmp(&items[at]) != Ordering::Less {
            return false;
        }
    }
    true
}

/// Sorts the items, and returns whether each comes after the one before.
fn put_in_order<E: Ord + Copy>(items: &mut Vec<E>) -> bool
    ensures len { vec_len items.new ≡ vec_len items.old }
    ensures capacity { vec_capacity items.new ≡ vec_capacity items.old }
    ensures counts { (e : E) → count E.cmp e items.new.items ≡ count E.cmp e items.old.items }
    ensures ascends { MatchBool result (Ascends E.cmp items.new.items) (StandsTwice E.cmp items.new.items) }
{
    items.sort_unstable();
    ascends(items.as_slice())
}

/// Keeps so many of the least, and returns the greatest of them. `None` if some pair is in two places.
fn halve<E: Ord + Copy>(items: &mut Vec<E>, half: usize) -> Option<E>
    requires some { 0 < half }
    requires enough { half ≤ length items.old.items }
    ensures len { length items.new.items ≡ half }
    ensures capacity { vec_capacity items.new ≡ vec_capacity items.old }
    ensures halves { MatchOption result (StandsTwice E.cmp items.old.items)
        (Halves E.cmp items.old.items items.new.items) }
{
    let rises = put_in_order(items);
    items.truncate(half);
    if rises { Some(items[half - 1]) } else { None }
}

/// Appends an item, for which there is room.
fn append<E: Copy>(items: &mut Vec<E>, item: E)
    requires { vec_len items.old < vec_capacity items.old }
    ensures items { items.new.items ≡ items.old.items ++ item ∷ [] }
    ensures capacity { vec_capacity items.old ≤ vec_capacity items.new }
{
    let _ = items.push(item);
}

/// Whether it comes after the bound.
fn is_after<E: Ord + Copy>(above: Option<E>, item: &E) -> bool
    ensures { MatchBool result (IsAfter E.cmp above item.now) (IsAfter E.cmp above item.now → ⊥) }
{
    match above {
        Some(above) => above.cmp(item) == Ordering::Less,
        None => true,
    }
}

/// Whether it comes no later than the bound.
fn is_up_to<E: Ord + Copy>(top: Option<E>, item: &E) -> bool
    ensures { MatchBool result (IsUpTo E.cmp top item.now) (IsUpTo E.cmp top item.now → ⊥) }
{
    match top {
        Some(top) => item.cmp(&top) != Ordering::Greater,
        None => true,
    }
}

impl<E: Ord + Copy> Gather<E> {
    /// Starts with nothing gathered, in a buffer of twice so many items.
    pub(crate) fn new(alloc: Global, half: usize) -> Result<Self, AllocError>
        requires some { 0 < half }
        requires few { half < 2 ^ 40 }
        ensures { IfOk result (λ g. g ≡ gathered_above half None) }
    {
        Ok(Gather {
            kept: Vec::with_capacity(alloc, half + half)?,
            above: None,
            top: None,
            half,
        })
    }

    /// Takes one more item, if it is among the least. Returns `false` if an item came twice.
    pub(crate) fn offer(&mut self, item: E) -> bool
        ensures above { self.new.above ≡ self.old.above }
        ensures half { self.new.half ≡ self.old.half }
        ensures gathers { (all rest : List E) → Gathers E.cmp self.old all (item ∷ rest)
            → MatchBool result (Gathers E.cmp self.new all rest) (StandsTwice E.cmp all) }
    {
        if !is_after(self.above, &item) || !is_up_to(self.top, &item) {
            return true;
        }
        append(&mut self.kept, item);
        if self.kept.len() < self.half + self.half {
            return true;
        }
        match halve(&mut self.kept, self.half) {
            Some(top) => {
                self.top = Some(top);
                true
            }
            None => false,
        }
    }

    /// Ends a pass, once all items have come, and begins the next one above those that were kept.
    pub(crate) fn finish(&mut self) -> Pass
        ensures { (all : List E) → Gathers E.cmp self.old all [] → Finishes E.cmp self.old self.new all result }
    {
        if !put_in_order(&mut self.kept) {
            return Pass::Twice;
        }
        let Some(top) = self.top else {
            return Pass::Done;
        };
        self.kept.clear();
        self.above = Some(top);
        self.top = None;
        Pass::Again
    }
}
