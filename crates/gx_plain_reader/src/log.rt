//! What a log says, as its records are read one by one.
use crate::finding::{Findings, Place};
use crate::page::{Node, node_of, page_at};
use crate::records::{Logged, Touching};
use crate::rules::{self, Rule};
use crate::small::{Small, change};
use crate::{Damage, Entry, Parameters};
use std::alloc::Global;

/// How many transactions may be open at once.
const TRANSACTIONS: usize = 8;

/// How many entries open transactions may have touched in all.
const TOUCHED: usize = 512;

/// An entry that a transaction wrote, or is noted to have written.
#[derive(Clone, Copy)]
pub(crate) struct Touch {
    pub(crate) transaction: u64,
    pub(crate) entry: Entry,
    /// Whether it was marked, or absent, before.
    pub(crate) before: bool,
    pub(crate) leaf: u32,
}

/// A page's bytes in the log.
#[derive(Clone, Copy)]
pub(crate) struct Image {
    pub(crate) page: u32,
    /// Where the bytes begin on the device.
    pub(crate) at: usize,
}

/// What a record says of a page.
#[derive(Clone, Copy)]
pub(crate) enum Said {
    /// Its bytes.
    Whole(Image),
    /// A small change of this page.
    Changed(u32, Small),
}

/// The records so far.
#[derive(Drop)]
pub(crate) struct Log {
    pub(crate) parameters: Parameters,
    /// The number of the last commit.
    pub(crate) number: u64,
    pub(crate) counter: u64,
    pub(crate) used: u32,
    /// The next transaction's number.
    pub(crate) next: u64,
    /// Every touch, in order.
    pub(crate) touches: Vec<Touch>,
    /// The transactions that committed or ended.
    pub(crate) closed: Vec<u64>,
    /// What is said of pages, in order.
    said: Vec<Said>,
    /// What is wrong with the record that is read.
    pub(crate) found: Findings,
    /// Where that is: the extent, the body, and how many bytes of records are ahead of it there.
    pub(crate) extent: &'static str,
    pub(crate) body: usize,
    pub(crate) at: usize,
}

/// Whether one of the first so many touches is by this transaction.
fn has_touched(touches: &[Touch], first: usize, transaction: u64) -> bool {
    for touch in touches.iter().take(first) {
        if touch.transaction == transaction {
            return true;
        }
    }
    false
}

/// Whether one of the first so many touches is by the same transaction, of the same entry.
fn has_same(touches: &[Touch], first: usize, same: &Touch) -> bool {
    for touch in touches.iter().take(first) {
        if touch.transaction == same.transaction && touch.entry == same.entry {
            return true;
        }
    }
    false
}

impl Log {
    /// Nothing is read of this extent.
    pub(crate) fn new(alloc: Global, parameters: Parameters, extent: &'static str) -> Log {
        Log {
            parameters,
            number: 0,
            counter: 0,
            used: 0,
            next: 0,
            touches: Vec::new(alloc),
            closed: Vec::new(alloc),
            said: Vec::new(alloc),
            found: Findings::new(alloc),
            extent,
            body: 0,
            at: 0,
        }
    }

    /// The record that is read breaks this rule, if it does.
    pub(crate) fn test(&mut self, holds: bool, rule: Rule) -> Result<(), Damage> {
        if holds {
            return Ok(());
        }
        let place = Place::Log(self.extent, self.body, self.at);
        self.found.add_finding(place, rule)
    }

    /// Whether a touch is by a transaction that neither committed nor ended.
    pub(crate) fn is_open(&self, touch: &Touch) -> bool {
        !self.closed.contains(&touch.transaction)
    }

    /// The first mark before, of an entry's touches by open transactions.
    pub(crate) fn first_before(&self, entry: &Entry) -> Option<bool> {
        for touch in self.touches.iter() {
            if touch.entry == *entry && self.is_open(touch) {
                return Some(touch.before);
            }
        }
        None
    }

    /// The leaf of the last touch of an entry by an open transaction.
    pub(crate) fn last_leaf(&self, entry: &Entry) -> Option<u32> {
        let mut leaf = None;
        for touch in self.touches.iter() {
            if touch.entry == *entry && self.is_open(touch) {
                leaf = Some(touch.leaf);
            }
        }
        leaf
    }

    /// How many transactions are open that have touched something.
    fn open_transactions(&self) -> usize {
        let mut count = 0_usize;
        for (i, touch) in self.touches.iter().enumerate() {
            if self.is_open(touch) && !has_touched(&self.touches, i, touch.transaction) {
                count = count.saturating_add(1);
            }
        }
        count
    }

    /// How many entries open transactions have touched.
    fn open_entries(&self) -> usize {
        let mut count = 0_usize;
        for (i, touch) in self.touches.iter().enumerate() {
            if self.is_open(touch) && !has_same(&self.touches, i, touch) {
                count = count.saturating_add(1);
            }
        }
        count
    }

    /// Whether another open transaction has touched the same entry.
    fn is_shared(&self, touch: &Touch) -> bool {
        for other in self.touches.iter() {
            let same = other.entry == touch.entry && other.transaction != touch.transaction;
            if same && self.is_open(other) {
                return true;
            }
        }
        false
    }

    /// Whether a page is in use.
    fn is_used(&self, page: u32) -> bool {
        page > 0 && page <= self.used
    }

    /// The number of a transaction that is at work.
    fn test_transaction(&mut self, transaction: u64) -> Result<(), Damage> {
        self.test(transaction < u64::MAX, rules::TRANSACTION)?;
        let ended = self.closed.contains(&transaction);
        self.test(!ended, rules::ENDED)?;
        self.next = self.next.max(transaction.saturating_add(1));
        Ok(())
    }

    /// Splits so far and pages in use, as a record leaves them.
    fn test_counters(&mut self, counter: u64, used: u32) -> Result<(), Damage> {
        self.test(counter >= self.counter, rules::COUNTER_FALLS)?;
        self.test(used >= self.used, rules::USED_FALLS)?;
        self.test(used <= self.parameters.pages, rules::PAGES_OF_DEVICE)?;
        self.counter = counter;
        self.used = used;
        Ok(())
    }

    /// A write, or a note.
    fn test_touch(&mut self, told: &Touching) -> Result<(), Damage> {
        self.test_transaction(told.transaction)?;
        let is_used = self.is_used(told.leaf);
        self.test(is_used, rules::LEAF_IN_USE)?;
        let Some(entry) = told.entry else {
            return self.test(false, rules::KEY);
        };
        let touch = Touch {
            transaction: told.transaction,
            entry,
            before: told.before,
            leaf: told.leaf,
        };
        let is_shared = self.is_shared(&touch);
        self.test(!is_shared, rules::SHARED)?;
        self.touches.push(touch)?;
        let transactions = self.open_transactions();
        self.test(transactions <= TRANSACTIONS, rules::TRANSACTIONS)?;
        let entries = self.open_entries();
        self.test(entries <= TOUCHED, rules::TOUCHES)
    }

    /// A page's image.
    fn test_image(&mut self, image: Image) -> Result<(), Damage> {
        let is_used = self.is_used(image.page);
        self.test(is_used, rules::PAGE_IN_USE)?;
        self.said.push(Said::Whole(image))?;
        Ok(())
    }

    /// A small change of a page; none if its key is none of the class, which fits no page.
    fn test_change(
        &mut self,
        alloc: Global,
        image: &[u8],
        page: u32,
        small: Option<Small>,
    ) -> Result<(), Damage> {
        let Some(at) = self.place(page) else {
            return self.test(false, rules::NO_IMAGE);
        };
        let Some(small) = small else {
            return self.test(false, rules::UNFIT);
        };
        let fits = self.fits(alloc, page, page_at(image, at)?, &small)?;
        self.test(fits, rules::UNFIT)?;
        self.said.push(Said::Changed(page, small))?;
        Ok(())
    }

    /// A write that has a small change of its leaf: the mark that the pair gets, or the pair that comes.
    fn test_small(
        &mut self,
        alloc: Global,
        image: &[u8],
        told: &Touching,
        marked: Option<bool>,
    ) -> Result<(), Damage> {
        self.test_touch(told)?;
        let Some(entry) = told.entry else {
            return Ok(());
        };
        let small = match marked {
            Some(marked) => Small::Mark(entry, marked),
            None => Small::Add(entry),
        };
        self.test_change(alloc, image, told.leaf, Some(small))
    }

    /// A commit's or an end's transaction.
    fn close(&mut self, transaction: u64) -> Result<(), Damage> {
        self.test_transaction(transaction)?;
        self.closed.push(transaction)?;
        Ok(())
    }

    /// A commit.
    fn commit(&mut self, transaction: u64, number: u64) -> Result<(), Damage> {
        self.close(transaction)?;
        let is_next = self.number.checked_add(1) == Some(number);
        self.test(is_next, rules::COMMIT_NUMBER)?;
        self.number = number;
        Ok(())
    }

    /// What the record here says.
    pub(crate) fn take(
        &mut self,
        alloc: Global,
        image: &[u8],
        logged: &Logged,
    ) -> Result<(), Damage> {
        match logged {
            Logged::Pages {
                counter,
                used,
                images,
            } => {
                self.test_counters(*counter, *used)?;
                for place in images {
                    if let Some(image) = place {
                        self.test_image(*image)?;
                    }
                }
                Ok(())
            }
            Logged::Write(touching, image) => {
                self.test_touch(touching)?;
                self.said.push(Said::Whole(*image))?;
                Ok(())
            }
            Logged::Commit(transaction, number) => self.commit(*transaction, *number),
            Logged::End(transaction) => self.close(*transaction),
            Logged::Counters {
                number,
                counter,
                used,
                next,
            } => {
                self.number = *number;
                self.next = *next;
                self.test_counters(*counter, *used)
            }
            Logged::Note(touching) => self.test_touch(touching),
            Logged::Bit(touching, marked) => {
                self.test_small(alloc, image, touching, Some(*marked))
            }
            Logged::Add(touching) => self.test_small(alloc, image, touching, None),
            Logged::Adjust(page, small) => self.test_change(alloc, image, *page, *small),
        }
    }

    /// Where the bytes of a page's last image begin, if the log has one.
    pub(crate) fn place(&self, page: u32) -> Option<usize> {
        let mut at = None;
        for said in self.said.iter() {
            match said {
                Said::Whole(image) if image.page == page => at = Some(image.at),
                _ => {}
            }
        }
        at
    }

    /// The small changes of a page since its last image.
    fn changes_of(&self, alloc: Global, page: u32) -> Result<Vec<Small>, Damage> {
        let mut changes = Vec::new(alloc);
        for said in self.said.iter() {
            match said {
                Said::Whole(image) if image.page == page => changes.clear(),
                Said::Changed(changed, small) if *changed == page => changes.push(*small)?,
                _ => {}
            }
        }
        Ok(changes)
    }

    /// The node of a page whose bytes were these before its small changes.
    pub(crate) fn node_after(
        &self,
        alloc: Global,
        pages: Option<u32>,
        page: u32,
        bytes: &[u8],
    ) -> Result<Node, Damage> {
        let mut node = node_of(alloc, self.parameters.class, pages, bytes)?;
        for small in self.changes_of(alloc, page)?.iter() {
            change(&mut node, self.most(), small)?;
        }
        Ok(node)
    }

    /// How many entries a node may have.
    fn most(&self) -> usize {
        usize::from(self.parameters.most)
    }

    /// Whether a small change fits its page. None fits a page that is no node.
    fn fits(&self, alloc: Global, page: u32, bytes: &[u8], small: &Small) -> Result<bool, Damage> {
        match self.node_after(alloc, None, page, bytes) {
            Ok(mut node) => change(&mut node, self.most(), small),
            Err(Damage::Memory) => Err(Damage::Memory),
            Err(_) => Ok(false),
        }
    }
}
