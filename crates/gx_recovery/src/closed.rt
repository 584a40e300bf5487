//! The transactions that a log closes.
ghost use Rattle.std.specs.Prelude.{insert, ◌≡◌, ◌+◌, ◌<◌, ◌≤◌, ◌++◌, true, false, MatchResult};
ghost use Rattle.std.specs.Prelude.{IfOk, [], length, vec_len, vec_capacity, IsPermutation};
ghost use Rattle.std.specs.List.Sorted.{IsNonDecreasing};
ghost use Rattle.gx_recovery.specs.Kept.{is_closed, ClosesOne};
ghost use Rattle.gx_recovery.specs.declared.closed.TheConstants.{CLOSINGS};

use std::alloc::{AllocError, Global};
use std::marker::Model;

/// How many commits and ends an extent may hold:
/// each is 9 bytes at least, of 128 bodies with 32,764 bytes of records each.
pub const CLOSINGS: usize = 465_976;

/// How many numbers came last, at most, before they are sorted among the later ones: a number that comes in front of
/// all others moves only so many.
pub const RECENT: usize = 1_024;

/// How many later numbers there are, at most, before they are sorted among the others.
pub const LATER: usize = 32_768;

/// The numbers of closed transactions, with room for all that an extent may close. Each of the three vectors rises. So
/// in whatever order numbers come, few are moved for each.
#[derive(Drop)]
pub struct Closed {
    others: Vec<u64>,
    later: Vec<u64>,
    recent: Vec<u64>,
}

impl Model for Closed {
    ghost use Rattle.std.specs.Prelude.{ℕ, List, ◌+◌, ◌≤◌, ◌<◌, ◌++◌, length, vec_capacity};
    ghost use Rattle.std.specs.List.Sorted.{IsNonDecreasing};
    ghost use Rattle.gx_recovery.specs.declared.closed.TheConstants.{CLOSINGS, LATER, RECENT};

    ghost Value = { List ℕ };

    ghost view = { λ c. c.others.items ++ (c.later.items ++ c.recent.items) };

    ghost invariant = { λ c. (CLOSINGS ≤ vec_capacity c.others) × (LATER ≤ vec_capacity c.later)
        × (RECENT ≤ vec_capacity c.recent) × (length c.later.items + RECENT ≤ LATER) × (length c.recent.items < RECENT)
        × IsNonDecreasing c.others.items × IsNonDecreasing c.later.items × IsNonDecreasing c.recent.items };
}

/// The place of a number among numbers that rise, or else the place where it would go, searched by halves.
fn find(t: u64, numbers: &[u64]) -> Result<usize, usize>
    requires { IsNonDecreasing numbers.now }
    ensures { MatchResult result
        (λ i. is_closed t numbers.now ≡ true)
        (λ i. (i ≤ length numbers.now) × (is_closed t numbers.now ≡ false) × IsNonDecreasing (insert numbers.now i t)) }
{
    numbers.binary_search(&t)
}

/// Whether a number is among numbers that rise.
fn is_among(t: u64, numbers: &[u64]) -> bool
    requires { IsNonDecreasing numbers.now }
    ensures { result ≡ is_closed t numbers.now }
{
    match find(t, numbers) {
        Ok(_) => true,
        Err(_) => false,
    }
}

/// Puts a number at its place in a vector that has room for it.
fn insert_at(numbers: &mut Vec<u64>, place: usize, t: u64)
    requires within { place ≤ vec_len numbers.old }
    requires room { vec_len numbers.old < vec_capacity numbers.old }
    ensures items { numbers.new.items ≡ insert numbers.old.items place t }
    ensures capacity { vec_capacity numbers.old ≤ vec_capacity numbers.new }
{
    let _ = numbers.insert(place, t);
}

/// Puts a number that isn't there among numbers that rise, in a vector that has room for it.
fn put(numbers: &mut Vec<u64>, t: u64)
    requires rise { IsNonDecreasing numbers.old.items }
    requires open_yet { is_closed t numbers.old.items ≡ false }
    requires room { vec_len numbers.old < vec_capacity numbers.old }
    ensures one { ClosesOne t numbers.old.items numbers.new.items }
    ensures rise { IsNonDecreasing numbers.new.items }
    ensures capacity { vec_capacity numbers.old ≤ vec_capacity numbers.new }
{
    if let Err(i) = find(t, numbers) {
        insert_at(numbers, i, t);
    }
}

/// Sorts numbers among others, whose vector has room for them. None of them is left.
fn sort_among(others: &mut Vec<u64>, recent: &mut Vec<u64>)
    requires { vec_len others.old + vec_len recent.old ≤ vec_capacity others.old }
    ensures all { IsPermutation (others.old.items ++ recent.old.items) others.new.items }
    ensures rise { IsNonDecreasing others.new.items }
    ensures none { recent.new.items ≡ [] }
    ensures capacity { (vec_capacity others.old ≤ vec_capacity others.new)
        × (vec_capacity recent.old ≤ vec_capacity recent.new) }
{
    let _ = others.extend_from_slice(recent);
    others.sort_unstable();
    recent.clear();
}

impl Closed {
    /// None, with room for as many as there may be.
    pub(crate) fn new(alloc: Global) -> Result<Self, AllocError>
        ensures { IfOk result (λ c. c ≡ []) }
    {
        Ok(Closed {
            others: Vec::with_capacity(alloc, CLOSINGS)?,
            later: Vec::with_capacity(alloc, LATER)?,
            recent: Vec::with_capacity(alloc, RECENT)?,
        })
    }

    /// How many there are.
    pub(crate) fn count(&self) -> usize
        ensures { result ≡ length self.now }
    {
        self.others.len() + (self.later.len() + self.recent.len())
    }

    /// Whether the transaction is closed.
    pub(crate) fn has(&self, t: u64) -> bool
        ensures { result ≡ is_closed t self.now }
    {
        is_among(t, &self.others) || is_among(t, &self.later) || is_among(t, &self.recent)
    }

    /// Closes a transaction that isn't closed.
    pub(crate) fn add(&mut self, t: u64)
        requires open_yet { is_closed t self.old ≡ false }
        requires room { length self.old < CLOSINGS }
        ensures { ClosesOne t self.old self.new }
    {
        put(&mut self.recent, t);
        if self.recent.len() == RECENT {
            sort_among(&mut self.later, &mut self.recent);
            if self.later.len() > LATER - RECENT {
                sort_among(&mut self.others, &mut self.later);
            }
        }
    }
}
