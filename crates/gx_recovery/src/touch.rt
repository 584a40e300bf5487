//! Entries that transactions have touched.
ghost use Rattle.std.specs.Prelude.{◌≡◌};

use std::marker::Model;

/// An entry that a transaction wrote.
#[derive(Clone, Copy)]
pub struct Touch<E> {
    transaction: u64,
    entry: E,
    before: bool,
    leaf: u32,
}

impl<E> Model for Touch<E> {
    ghost use Rattle.gx_recovery.specs.Records as records;

    ghost Value = { records.Touch E };

    ghost view = { λ t. record { transaction = t.transaction; entry = t.entry; before = t.before; leaf = t.leaf } };

    ghost inverse = { λ t. record { transaction = t.transaction; entry = t.entry; before = t.before; leaf = t.leaf } };
}

impl<E: Copy> Touch<E> {
    /// A transaction's write of an entry that had this mark (set if it was marked or absent), on this leaf.
    pub fn new(transaction: u64, entry: E, before: bool, leaf: u32) -> Touch<E>
        ensures { result ≡ record { transaction = transaction; entry = entry; before = before; leaf = leaf } }
    {
        Touch {
            transaction,
            entry,
            before,
            leaf,
        }
    }

    /// The transaction's number.
    pub fn transaction(&self) -> u64
        ensures { result ≡ self.now.transaction }
    {
        self.transaction
    }

    /// The entry.
    pub fn entry(&self) -> E
        ensures { result ≡ self.now.entry }
    {
        self.entry
    }

    /// Its mark from before the transaction first wrote it.
    pub fn before(&self) -> bool
        ensures { result ≡ self.now.before }
    {
        self.before
    }

    /// The number of the leaf that the transaction last wrote it on.
    pub fn leaf(&self) -> u32
        ensures { result ≡ self.now.leaf }
    {
        self.leaf
    }

    /// The same touch, on another leaf.
    pub(crate) fn on_leaf(self, leaf: u32) -> Touch<E>
        ensures { result ≡ record self { leaf = leaf } }
    {
        Touch {
            transaction: self.transaction,
            entry: self.entry,
            before: self.before,
            leaf,
        }
    }
}
