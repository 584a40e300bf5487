//! What is kept of a log while its records are read.
ghost use Rattle.std.specs.Prelude.{◌≡◌, ◌+◌, ◌<◌, ◌≤◌, ◌==◌, ◌&&◌, ◌||◌, not, true, false};
ghost use Rattle.std.specs.Prelude.{nat_lt, nat_le, max, [], length, IfOk, IfErr, OnErr};
ghost use Rattle.std.specs.List.{list_all};
ghost use Rattle.gx_recovery.specs.Analysis.{unread};
ghost use Rattle.gx_recovery.specs.Damage.{is_transaction, is_page};
ghost use Rattle.gx_recovery.specs.Broken.{refused, breaks_counters, breaks_touch, breaks_write};
ghost use Rattle.gx_recovery.specs.Broken.{breaks_pages, breaks_end, breaks_commit, Tested};
ghost use Rattle.gx_recovery.specs.Kept.{may_touch, may_write, may_give, may_end, may_commit};
ghost use Rattle.gx_recovery.specs.Kept.{may_be_open, has_place, with_counters, with_touch};
ghost use Rattle.gx_recovery.specs.Kept.{with_pages, with_end, with_commit, Takes, ClosedBy, Closes};
ghost use Rattle.gx_recovery.specs.declared.closed.TheConstants.{CLOSINGS};

use crate::closed::Closed;
use crate::rule::LogRule;
use crate::touch::Touch;
use crate::{LAST_TRANSACTION, TOUCHED, TRANSACTIONS, touched};
use gx_geom::Refusal;
use std::alloc::{AllocError, Global};
use std::marker::Model;

/// What the records of a log say so far: its numbers, the touches of its open transactions (by transaction, then by
/// entry, each once, with the first mark before and the last leaf), and the transactions that it closes.
///
/// It takes each record of the log in turn, and refuses it exactly if it may not come next, by a rule that it breaks.
/// All memory is taken at the start.
#[derive(Drop)]
pub struct Analysis<E> {
    number: u64,
    counter: u64,
    used: u32,
    next: u64,
    pages: u32,
    touched: Vec<Touch<E>>,
    closed: Closed,
}

impl<E> Model for Analysis<E> {
    ghost use Rattle.std.specs.Prelude.{◌≤◌, vec_capacity};
    ghost use Rattle.gx_recovery.specs.declared.TheConstants.{TOUCHED};
    ghost use Rattle.gx_recovery.specs.Kept.{Kept};

    ghost Value = { Kept E };

    ghost view = { λ a. record {
      told = record { number = a.number; counter = a.counter; used = a.used; next = a.next; touched = a.touched.items };
      closed = a.closed;
      pages = a.pages;
    } };

    ghost invariant = { λ a. TOUCHED ≤ vec_capacity a.touched };
}

/// Whether a transaction's number is one that another can follow.
fn is_transaction(t: u64) -> bool
    ensures { result ≡ is_transaction t }
{
    t < LAST_TRANSACTION
}

/// Whether a page of this number is in use.
fn is_page(used: u32, page: u32) -> bool
    ensures { result ≡ is_page used page }
{
    0 < page && page <= used
}

/// Whether all of these pages are in use.
fn are_pages(used: u32, pages: &[u32]) -> bool
    ensures { result ≡ list_all (is_page used) pages.now }
{
    pages.iter().all(|page| is_page(used, *page))
}

/// Whether the transaction may be open beside those that are.
fn may_be_open<E: Copy>(t: u64, touches: &[Touch<E>]) -> bool
    ensures { result ≡ may_be_open t touches.now }
{
    touched::has_touched(t, touches) || touched::transactions(touches) < TRANSACTIONS
}

impl<E: Copy + Ord> Analysis<E> {
    /// Nothing read yet, for a device of so many pages. Refused if memory is (`Memory`).
    pub fn new(alloc: Global, pages: u32) -> Result<Self, Refusal>
        ensures ok { IfOk result (λ a. a ≡ record { told = unread; closed = []; pages = pages }) }
        ensures refused { IfErr result (λ refusal. refusal ≡ Refusal.Memory) }
    {
        match Self::reserved(alloc, pages) {
            Ok(analysis) => Ok(analysis),
            Err(_) => Err(Refusal::Memory),
        }
    }

    fn reserved(alloc: Global, pages: u32) -> Result<Self, AllocError>
        ensures { IfOk result (λ a. a ≡ record { told = unread; closed = []; pages = pages }) }
    {
        Ok(Analysis {
            number: 0,
            counter: 0,
            used: 0,
            next: 0,
            pages,
            touched: Vec::with_capacity(alloc, TOUCHED)?,
            closed: Closed::new(alloc)?,
        })
    }

    /// For a device of so many pages, whatever it was for.
    pub fn set_pages(&mut self, pages: u32)
        ensures { self.new ≡ record self.old { pages = pages } }
    {
        self.pages = pages;
    }

    /// The number of the log's last commit.
    pub fn number(&self) -> u64
        ensures { result ≡ self.now.told.number }
    {
        self.number
    }

    /// The counter of splits.
    pub fn counter(&self) -> u64
        ensures { result ≡ self.now.told.counter }
    {
        self.counter
    }

    /// The greatest page number in use.
    pub fn used(&self) -> u32
        ensures { result ≡ self.now.told.used }
    {
        self.used
    }

    /// The next transaction's number.
    pub fn next(&self) -> u64
        ensures { result ≡ self.now.told.next }
    {
        self.next
    }

    /// What open transactions have touched, by transaction and then by entry, each once.
    pub fn touched(&self) -> &[Touch<E>]
        ensures { result.now ≡ self.now.told.touched }
    {
        self.touched.as_slice()
    }

    /// How many transactions are closed. There is room for `CLOSINGS`.
    pub fn closings(&self) -> usize
        ensures { result ≡ length self.now.closed }
    {
        self.closed.count()
    }

    /// Tests that there is room for the touch beside those that are.
    fn test_room(&self, t: &Touch<E>) -> Result<(), LogRule>
        ensures { Tested (may_be_open t.now.transaction self.now.told.touched
            && has_place E.Ord.cmp t.now self.now.told.touched)
            (breaks_touch E.Ord.cmp t.now self.now) result }
    {
        if !may_be_open(t.transaction(), &self.touched) {
            return Err(LogRule::TooManyTransactions);
        }
        if !touched::has_place(t, &self.touched) {
            return Err(LogRule::TooManyTouches);
        }
        Ok(())
    }

    /// Tests that the touch may be added.
    fn test_touch(&self, t: &Touch<E>) -> Result<(), LogRule>
        ensures { Tested (may_touch E.Ord.cmp t.now self.now) (breaks_touch E.Ord.cmp t.now self.now) result }
    {
        if !is_transaction(t.transaction()) {
            return Err(LogRule::TransactionNumber);
        }
        if !is_page(self.used, t.leaf()) {
            return Err(LogRule::LeafInUse);
        }
        if !touched::lies_apart(t, &self.touched) {
            return Err(LogRule::SharedEntry);
        }
        self.test_room(t)
    }

    /// Adds a touch that may be added.
    fn take_touch(&mut self, t: Touch<E>)
        requires { may_touch E.Ord.cmp t self.old ≡ true }
        ensures { self.new ≡ with_touch E.Ord.cmp t self.old }
    {
        self.next = self.next.max(t.transaction() + 1);
        touched::keep_touch(t, &mut self.touched);
    }

    /// The numbers that a log begins with. Refused if it uses more pages than the device has (`PagesOfDevice`).
    pub fn on_counters(
        &mut self,
        number: u64,
        counter: u64,
        used: u32,
        next: u64,
    ) -> Result<(), LogRule>
        ensures takes { Takes (nat_le used self.old.pages) (with_counters number counter used next self.old)
            self.old (refused result) self.new }
        ensures rule { IfErr result (λ rule. breaks_counters used self.old rule ≡ true) }
    {
        if used > self.pages {
            return Err(LogRule::PagesOfDevice);
        }
        self.number = number;
        self.counter = counter;
        self.used = used;
        self.next = next;
        Ok(())
    }

    /// A note of a log's head. Refused if its transaction has the last number (`TransactionNumber`) or its leaf isn't
    /// in use (`LeafInUse`), if another transaction has touched the entry (`SharedEntry`), and if it would be one
    /// transaction or one touch too many (`TooManyTransactions`, `TooManyTouches`): by the first of these that holds.
    pub fn on_note(&mut self, t: Touch<E>) -> Result<(), LogRule>
        ensures takes { Takes (may_touch E.Ord.cmp t self.old) (with_touch E.Ord.cmp t self.old)
            self.old (refused result) self.new }
        ensures rule { IfErr result (λ rule. breaks_touch E.Ord.cmp t self.old rule ≡ true) }
    {
        match self.test_touch(&t) {
            Ok(()) => {
                self.take_touch(t);
                Ok(())
            }
            Err(rule) => Err(rule),
        }
    }

    /// A write, whatever it says of its leaf: what is kept here doesn't decide whether that fits. Refused if its
    /// transaction is closed (`Ended`), and as a note is.
    pub fn on_write(&mut self, t: Touch<E>) -> Result<(), LogRule>
        ensures takes { Takes (may_write E.Ord.cmp t self.old) (with_touch E.Ord.cmp t self.old)
            self.old (refused result) self.new }
        ensures rule { IfErr result (λ rule. breaks_write E.Ord.cmp t self.old rule ≡ true) }
    {
        if self.closed.has(t.transaction()) {
            return Err(LogRule::Ended);
        }
        self.on_note(t)
    }

    /// Tests that pages of these numbers may be given, with the counter and the pages in use after them.
    fn test_pages(&self, counter: u64, used: u32, pages: &[u32]) -> Result<(), LogRule>
        ensures { Tested (may_give counter used pages.now self.now)
            (breaks_pages counter used pages.now self.now) result }
    {
        if counter < self.counter {
            return Err(LogRule::CounterFalls);
        }
        if used < self.used {
            return Err(LogRule::UsedFalls);
        }
        if !are_pages(used, pages) {
            return Err(LogRule::PageInUse);
        }
        if self.pages < used {
            return Err(LogRule::PagesOfDevice);
        }
        Ok(())
    }

    /// Images of the pages of these numbers, each with its own, and the counter and the pages in use after them.
    /// Refused if one of these two falls (`CounterFalls`, `UsedFalls`), if a page isn't in use then (`PageInUse`), and
    /// if more are in use than the device has (`PagesOfDevice`): by the first of these that holds.
    pub fn on_pages(&mut self, counter: u64, used: u32, pages: &[u32]) -> Result<(), LogRule>
        ensures takes { Takes (may_give counter used pages.now self.old) (with_pages counter used self.old)
            self.old (refused result) self.new }
        ensures rule { IfErr result (λ rule. breaks_pages counter used pages.now self.old rule ≡ true) }
    {
        match self.test_pages(counter, used, pages) {
            Ok(()) => {
                self.counter = counter;
                self.used = used;
                Ok(())
            }
            Err(rule) => Err(rule),
        }
    }

    /// Tests that the transaction may end.
    fn test_end(&self, t: u64) -> Result<(), LogRule>
        ensures { Tested (may_end t self.now) (breaks_end t self.now) result }
    {
        if !is_transaction(t) {
            return Err(LogRule::TransactionNumber);
        }
        if self.closed.has(t) {
            return Err(LogRule::Ended);
        }
        Ok(())
    }

    /// Tests that the transaction may end by a commit of this number.
    fn test_commit(&self, t: u64, number: u64) -> Result<(), LogRule>
        ensures { Tested (may_commit t number self.now) (breaks_commit t number self.now) result }
    {
        match self.test_end(t) {
            Ok(()) => {}
            Err(rule) => return Err(rule),
        }
        if self.number.checked_add(1) != Some(number) {
            return Err(LogRule::CommitNumber);
        }
        Ok(())
    }

    /// Closes a transaction that may end.
    fn close(&mut self, t: u64)
        requires may { may_end t self.old ≡ true }
        requires room { length self.old.closed < CLOSINGS }
        ensures { ClosedBy t (with_end t self.old.told) self.old self.new }
    {
        self.next = self.next.max(t + 1);
        touched::remove(t, &mut self.touched);
        self.closed.add(t);
    }

    /// A commit. Refused if its transaction has the last number (`TransactionNumber`) or is closed (`Ended`), and if
    /// its number isn't the last one plus one (`CommitNumber`): by the first of these that holds.
    pub fn on_commit(&mut self, t: u64, number: u64) -> Result<(), LogRule>
        requires { length self.old.closed < CLOSINGS }
        ensures closes { Closes (may_commit t number self.old) t (with_commit t number self.old.told)
            self.old (refused result) self.new }
        ensures rule { IfErr result (λ rule. breaks_commit t number self.old rule ≡ true) }
    {
        match self.test_commit(t, number) {
            Ok(()) => {
                self.close(t);
                self.number = number;
                Ok(())
            }
            Err(rule) => Err(rule),
        }
    }

    /// An end. Refused if its transaction has the last number (`TransactionNumber`), and if that is closed (`Ended`).
    pub fn on_end(&mut self, t: u64) -> Result<(), LogRule>
        requires { length self.old.closed < CLOSINGS }
        ensures closes { Closes (may_end t self.old) t (with_end t self.old.told) self.old (refused result) self.new }
        ensures rule { IfErr result (λ rule. breaks_end t self.old rule ≡ true) }
    {
        match self.test_end(t) {
            Ok(()) => {
                self.close(t);
                Ok(())
            }
            Err(rule) => Err(rule),
        }
    }
}
