//! Steps of the storage, each made on the tree in memory too and compared, with the help that a refused one waits for.
use crate::storage::book::is_claimed;
use crate::storage::counts::Done;
use crate::storage::fault::{StorageFault, What};
use crate::storage::flush::TRIES;
use crate::storage::run::Run;
use gx_class::Box2Class;
use gx_geom::Box2;
use gx_machine::Entry;
use gx_tree::{Descended, RootSplit, Sought, Split, TraversalItem, Wanted};

/// Whether both descents did the same.
fn did_the_same(one: &Descended<Box2>, other: &Descended<Box2>) -> bool {
    match (one, other) {
        (Descended::Again, Descended::Again)
        | (Descended::Leaf, Descended::Leaf)
        | (Descended::FullLeaf, Descended::FullLeaf)
        | (Descended::FullInner, Descended::FullInner) => true,
        (Descended::Down(here), Descended::Down(there)) => *here == *there,
        (Descended::Widened(here, slot, bound), Descended::Widened(there, place, key)) => {
            *here == *there && *slot == *place && *bound == *key
        }
        _ => false,
    }
}

/// Whether both splits did the same.
fn did_split_the_same(one: &Option<Split<Box2>>, other: &Option<Split<Box2>>) -> bool {
    match (one, other) {
        (None, None) => true,
        (Some(one), Some(other)) => {
            one.sibling == other.sibling
                && one.slot == other.slot
                && one.left == other.left
                && one.right == other.right
        }
        _ => false,
    }
}

/// Whether both splits of the root did the same.
fn did_raise_the_same(one: &RootSplit<Box2>, other: &RootSplit<Box2>) -> bool {
    one.first == other.first
        && one.second == other.second
        && one.left == other.left
        && one.right == other.right
}

/// Whether two answers are the same; else which step differs.
fn agree(are_same: bool, what: What, page: u32) -> Result<(), StorageFault> {
    if are_same {
        Ok(())
    } else {
        Err(StorageFault::Differs(what, u64::from(page)))
    }
}

impl Run {
    /// A record was appended.
    fn has_record(&mut self) {
        self.counts.count(Done::Records);
        self.expected.fills = true;
    }

    /// A step of a descent.
    pub(crate) fn descend(
        &mut self,
        item: &TraversalItem,
        coming: &Box2,
    ) -> Result<Descended<Box2>, StorageFault> {
        for _try in 0..TRIES {
            match self.volume.descend(item, coming) {
                Ok(did) => {
                    let other = self.tree.descend(item, coming)?;
                    agree(did_the_same(&did, &other), What::Descent, item.page())?;
                    self.descended(&did);
                    return Ok(did);
                }
                Err(fault) => self.help(fault)?,
            }
        }
        Err(StorageFault::Unexpected(What::Descent))
    }

    fn descended(&mut self, did: &Descended<Box2>) {
        self.counts.count(Done::Descents);
        match did {
            Descended::Widened(..) => {
                self.counts.count(Done::Widened);
                self.has_record();
            }
            Descended::Again => self.counts.count(Done::Again),
            _ => {}
        }
    }

    /// Adds a row's pair to a leaf.
    pub(crate) fn add(
        &mut self,
        transaction: u64,
        page: u32,
        entry: &Entry<Box2>,
    ) -> Result<(), StorageFault> {
        for _try in 0..TRIES {
            match self.volume.add(transaction, page, entry) {
                Ok(()) => {
                    self.counts.count(Done::Added);
                    self.has_record();
                    return self.tree.add(page, entry);
                }
                Err(fault) => self.help(fault)?,
            }
        }
        Err(StorageFault::Unexpected(What::Addition))
    }

    /// Sets or clears a pair's mark in a leaf, if the leaf has it.
    fn set_mark(
        &mut self,
        transaction: u64,
        page: u32,
        entry: &Entry<Box2>,
        marked: bool,
    ) -> Result<Sought, StorageFault> {
        let wanted = Wanted::<Box2Class>::entry(entry);
        for _try in 0..TRIES {
            match self.volume.set_mark(transaction, page, entry, marked) {
                Ok(sought) => {
                    let other = self.tree.set_mark(&wanted, page, marked)?;
                    agree(sought == other, What::Mark, page)?;
                    return Ok(sought);
                }
                Err(fault) => self.help(fault)?,
            }
        }
        Err(StorageFault::Unexpected(What::Mark))
    }

    /// Sets or clears the mark of a row's pair, from the leaf on which it was last written to the right. Returns
    /// whether it was found.
    pub(crate) fn mark(
        &mut self,
        transaction: u64,
        row: usize,
        marked: bool,
    ) -> Result<bool, StorageFault> {
        let entry = self.book.entry(row)?;
        let mut page = self.book.row(row)?.leaf;
        for _leaf in 0..TRIES {
            if page == 0 {
                return Ok(false);
            }
            match self.set_mark(transaction, page, &entry, marked)? {
                Sought::Here(..) => {
                    self.marked(marked);
                    self.book.wrote(transaction, row, page, !marked);
                    return Ok(true);
                }
                Sought::Right(next) => {
                    self.counts.count(Done::Right);
                    page = next;
                }
            }
        }
        Err(StorageFault::Unexpected(What::Right))
    }

    /// Splits a full node below its parent, if that has a place for it.
    pub(crate) fn split(&mut self, page: u32, parent: u32) -> Result<(), StorageFault> {
        for _try in 0..TRIES {
            match self.volume.split(page, parent, &mut self.keys) {
                Ok(did) => {
                    let other = self.tree.split(page, parent)?;
                    agree(did_split_the_same(&did, &other), What::Split, page)?;
                    if did.is_some() {
                        self.counts.count(Done::Split);
                        self.has_record();
                    }
                    return Ok(());
                }
                Err(fault) => self.help_split(fault)?,
            }
        }
        Err(StorageFault::Unexpected(What::Split))
    }

    /// Splits the root.
    pub(crate) fn split_root(&mut self) -> Result<(), StorageFault> {
        for _try in 0..TRIES {
            match self.volume.split_root(&mut self.keys) {
                Ok(did) => {
                    let other = self.tree.split_root()?;
                    agree(did_raise_the_same(&did, &other), What::Split, 1)?;
                    self.counts.count(Done::RootSplit);
                    self.has_record();
                    return Ok(());
                }
                Err(fault) => self.help_split(fault)?,
            }
        }
        Err(StorageFault::Unexpected(What::Split))
    }

    /// Removes the marked pairs that no session claims from a leaf. Returns whether there were any.
    pub(crate) fn sweep(&mut self, page: u32) -> Result<bool, StorageFault> {
        for _try in 0..TRIES {
            let rows = &self.book.rows;
            match self
                .volume
                .sweep(page, |entry: Entry<Box2>| is_claimed(rows, &entry))
            {
                Ok(any) => {
                    let other = self.tree.sweep(page, &self.book.rows)?;
                    agree(any == other, What::Sweep, page)?;
                    if any {
                        self.counts.count(Done::Swept);
                        self.has_record();
                    }
                    return Ok(any);
                }
                Err(fault) => self.help(fault)?,
            }
        }
        Err(StorageFault::Unexpected(What::Sweep))
    }

    fn marked(&mut self, marked: bool) {
        self.has_record();
        if marked {
            self.counts.count(Done::Marked);
        } else {
            self.counts.count(Done::Cleared);
        }
    }

    /// Appends that a session's transaction commits.
    pub(crate) fn commit(&mut self, session: usize, transaction: u64) -> Result<(), StorageFault> {
        let number = self.book.number.saturating_add(1);
        for _try in 0..TRIES {
            match self.volume.append_commit(transaction, number) {
                Ok(()) => {
                    self.counts.count(Done::Commits);
                    self.has_record();
                    self.book.number = number;
                    self.book.close(session, transaction);
                    return Ok(());
                }
                Err(fault) => self.help(fault)?,
            }
        }
        Err(StorageFault::Unexpected(What::Ending))
    }

    /// Appends that a session's transaction has ended.
    pub(crate) fn end_transaction(
        &mut self,
        session: usize,
        transaction: u64,
    ) -> Result<(), StorageFault> {
        for _try in 0..TRIES {
            match self.volume.append_end(transaction) {
                Ok(()) => {
                    self.counts.count(Done::Ends);
                    self.has_record();
                    self.book.close(session, transaction);
                    return Ok(());
                }
                Err(fault) => self.help(fault)?,
            }
        }
        Err(StorageFault::Unexpected(What::Ending))
    }
}
