//! Random steps: a session's next one, or one of the flusher.
use crate::storage::book::{Coming, SESSIONS};
use crate::storage::draw::below;
use crate::storage::fault::{StorageFault, What};
use crate::storage::mirror::PAGES;
use crate::storage::run::Run;
use gx_memory_tree::DescentPlace;
use gx_tree::{Descended, TraversalItem};

/// How many places of the log are taken when a checkpoint is due.
const DUE: u8 = 96;

impl Run {
    /// Goes on at an item below a page.
    fn go_to(&mut self, number: usize, coming: &Coming, item: TraversalItem) {
        let parent = coming.place.item.page();
        let place = DescentPlace { item, parent };
        let row = coming.row;
        self.book.set_coming(number, Some(Coming { row, place }));
    }

    /// Goes on at the root.
    fn go_to_top(&mut self, number: usize, row: usize) {
        let place = self.tree.top();
        self.book.set_coming(number, Some(Coming { row, place }));
    }

    /// Splits the node that is in the way. If no page is left the insert is given up.
    fn make_room(&mut self, number: usize, coming: &Coming) -> Result<(), StorageFault> {
        let page = coming.place.item.page();
        let made = if page == 1 {
            self.split_root()
        } else {
            self.split(page, coming.place.parent)
        };
        match made {
            Ok(()) => self.go_to_top(number, coming.row),
            Err(StorageFault::PagesFull) if self.tree.used().saturating_add(2) > PAGES => {
                self.book.set_coming(number, None);
            }
            Err(fault) => return Err(fault),
        }
        Ok(())
    }

    /// Sweeps a random page, if it is a leaf.
    fn sweep_one(&mut self) -> Result<(), StorageFault> {
        let before = below(&mut self.draw, self.tree.used() as usize);
        let page = u32::try_from(before).unwrap_or(0).saturating_add(1);
        let is_leaf = match self.tree.page(page) {
            Some(page) => page.level() == 0,
            None => false,
        };
        if is_leaf {
            self.sweep(page)?;
        }
        Ok(())
    }

    /// Makes the next step of an insert.
    fn go_on(&mut self, number: usize, coming: &Coming) -> Result<(), StorageFault> {
        let entry = self.book.entry(coming.row)?;
        let item = coming.place.item;
        match self.descend(&item, &entry.key)? {
            Descended::Again => self.go_to_top(number, coming.row),
            Descended::Down(next) | Descended::Widened(next, _, _) => {
                self.go_to(number, coming, next);
            }
            Descended::Leaf => {
                let transaction = self.book.transaction(number)?;
                self.add(transaction, item.page(), &entry)?;
                self.book.wrote(transaction, coming.row, item.page(), true);
                self.book.set_coming(number, None);
            }
            Descended::FullLeaf => {
                if !self.sweep(item.page())? {
                    self.make_room(number, coming)?;
                }
            }
            Descended::FullInner => self.make_room(number, coming)?,
        }
        Ok(())
    }

    /// Deletes a row that is live, or inserts one that isn't: if the tree has its pair, the mark is set or cleared.
    fn write(&mut self, number: usize) -> Result<(), StorageFault> {
        let row = below(&mut self.draw, self.book.rows.len());
        let found = self.book.row(row)?;
        if found.owner.is_some() && found.owner != Some(number) {
            return Ok(());
        }
        self.book.claim(number, row);
        let transaction = self.book.transaction(number)?;
        if !self.mark(transaction, row, found.live)? {
            if found.live {
                return Err(StorageFault::Differs(What::Row, row as u64));
            }
            self.go_to_top(number, row);
        }
        Ok(())
    }

    /// Undoes one of a session's writes, or ends its transaction.
    fn undo(&mut self, number: usize) -> Result<(), StorageFault> {
        let transaction = self.book.transaction(number)?;
        let Some(row) = self.book.to_undo(number) else {
            return self.end_transaction(number, transaction);
        };
        let live = self.book.row(row)?.live;
        if self.mark(transaction, row, live)? {
            Ok(())
        } else {
            Err(StorageFault::Differs(What::Row, row as u64))
        }
    }

    /// Commits, begins to undo, or writes.
    fn call(&mut self, number: usize, transaction: Option<u64>) -> Result<(), StorageFault> {
        match (below(&mut self.draw, 12), transaction) {
            (0, Some(transaction)) => self.commit(number, transaction),
            (1, Some(_)) => {
                self.book.abort(number);
                Ok(())
            }
            _ => self.write(number),
        }
    }

    /// Makes a session's next step.
    fn take_session(&mut self) -> Result<(), StorageFault> {
        let number = below(&mut self.draw, SESSIONS);
        let session = self.book.session(number)?;
        if let Some(coming) = session.coming {
            self.go_on(number, &coming)
        } else if session.is_aborting {
            self.undo(number)
        } else {
            self.call(number, session.transaction)
        }
    }

    /// Makes a random step.
    pub(crate) fn take_step(&mut self) -> Result<(), StorageFault> {
        if self.volume.places() >= DUE {
            return self.checkpoint();
        }
        match below(&mut self.draw, 80) {
            0 => self.checkpoint(),
            1 => self.sync(),
            2..=9 => self.log_step(),
            10..=15 => {
                self.write_least()?;
                Ok(())
            }
            16..=18 => self.sweep_one(),
            _ => self.take_session(),
        }
    }
}
