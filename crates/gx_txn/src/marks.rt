//! Marks by row, so that one test finds most rows that aren't claimed.
ghost use Rattle.std.specs.Prelude.{◌≡◌, ℕ, ◌%◌, IfOk, length, slice_set, true, false};
ghost use Rattle.gx_txn.specs.Claimed.{is_marked};

use std::alloc::{AllocError, Global};
use std::marker::Model;

/// How many marks there are. Rows share them: a prime, so that rows in even steps don't share one.
pub const ROW_MARKS: usize = 2039;

/// Marks of rows. A row without its mark was not marked since the last clearing.
#[derive(Drop)]
pub struct RowMarks {
    marks: Vec<bool>,
}

impl Model for RowMarks {
    ghost use Rattle.std.specs.Prelude.{◌≡◌, Bool, List, length};
    ghost use Rattle.gx_txn.specs.declared.marks.TheConstants.{ROW_MARKS};

    ghost Value = { List Bool };

    ghost view = { λ r. r.marks.items };

    ghost invariant = { λ r. length r.marks.items ≡ ROW_MARKS };
}

/// The place of a row's mark.
fn place(row: u64) -> usize
    ensures { result ≡ row % ROW_MARKS }
{
    (row % ROW_MARKS as u64) as usize
}

impl RowMarks {
    /// No row is marked.
    pub fn new(alloc: Global) -> Result<Self, AllocError>
        ensures { IfOk result (λ r. (row : ℕ) → is_marked row r ≡ false) }
    {
        let marks = vec![in alloc; false; ROW_MARKS]?;
        Ok(RowMarks { marks })
    }

    /// Whether the row's mark is set.
    pub fn has(&self, row: u64) -> bool
        ensures { result ≡ is_marked row self.now }
    {
        self.marks[place(row)]
    }

    /// Sets the row's mark.
    pub fn set(&mut self, row: u64)
        ensures only { self.new ≡ slice_set self.old (row % ROW_MARKS) true }
        ensures marked { is_marked row self.new ≡ true }
    {
        self.marks[place(row)] = true;
    }

    /// Clears all marks.
    pub fn clear(&mut self)
        ensures { (row : ℕ) → is_marked row self.new ≡ false }
    {
        self.marks.fill(false);
    }
}
