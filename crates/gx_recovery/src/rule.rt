//! The rules of a log.
ghost use Rattle.std.specs.Prelude.{◌≡◌, ◌≤◌, length};
ghost use Rattle.gx_recovery.specs.Texts.{text_of};

use std::fmt;

/// A rule of a log: of its gates and bodies, of the records that their bytes are, and of which record may come next.
#[derive(Clone, Copy, Debug, PartialEq, Eq)]
pub enum LogRule {
    /// The first gate of a log is open.
    FirstGate,
    /// A body has 1 to 32,764 bytes of records.
    BodySize,
    /// They are whole records.
    Spelling,
    /// The first body has counters.
    NoCounters,
    /// The first body has the counters, then notes alone, and a later body neither.
    Misplaced,
    /// A key's bytes are a key of the class.
    NoKey,
    /// No more pages are in use than the device has.
    PagesOfDevice,
    /// The counter of splits doesn't fall.
    CounterFalls,
    /// The number of pages in use doesn't fall.
    UsedFalls,
    /// A page that is given is in use.
    PageInUse,
    /// A transaction's number is one that another can follow.
    TransactionNumber,
    /// The leaf that a transaction wrote on is in use.
    LeafInUse,
    /// No two transactions that are open have touched one entry.
    SharedEntry,
    /// Eight transactions that have touched something are open at most.
    TooManyTransactions,
    /// They have touched 512 entries at most.
    TooManyTouches,
    /// A transaction doesn't go on after its end.
    Ended,
    /// Commits are numbered one after another.
    CommitNumber,
    /// An image of a page comes before its small changes.
    NoImage,
    /// A small change fits its page.
    Unfit,
}

impl LogRule {
    /// The text that says how it is broken.
    pub fn text(self) -> &'static str
        ensures words { result.now ≡ text_of self }
        ensures short { length result.now ≤ 64 }
    {
        match self {
            LogRule::FirstGate => "the first gate of the log is closed",
            LogRule::BodySize => "a body of this size is none",
            LogRule::Spelling => "these bytes are no whole record",
            LogRule::NoCounters => "the log ends before its counters",
            LogRule::Misplaced => "a record of this kind may not stand here",
            LogRule::NoKey => "the bytes of a key are none of the class",
            LogRule::PagesOfDevice => "more pages are in use than the device has",
            LogRule::CounterFalls => "the counter of splits falls",
            LogRule::UsedFalls => "the number of pages in use falls",
            LogRule::PageInUse => "a page is given that is not in use",
            LogRule::TransactionNumber => "no transaction may follow one of this number",
            LogRule::LeafInUse => "a leaf is not in use",
            LogRule::SharedEntry => "two open transactions touch one entry",
            LogRule::TooManyTransactions => "more than 8 transactions are open",
            LogRule::TooManyTouches => "more than 512 entries are touched",
            LogRule::Ended => "a transaction goes on after its end",
            LogRule::CommitNumber => "a commit has not the next number",
            LogRule::NoImage => "a page is changed of which the log has no image",
            LogRule::Unfit => "a change does not fit its page",
        }
    }
}

impl fmt::Display for LogRule {
    ghost use Rattle.std.specs.Prelude.{Some};

    ghost output = { λ rule. Some (text_of rule) };

    /// The text that says how it is broken.
    fn fmt<W: fmt::Write>(&self, f: &mut fmt::Formatter<W>) -> fmt::Result {
        f.write_str(self.text())
    }
}
