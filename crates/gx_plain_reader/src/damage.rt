//! What is wrong with an image.
use std::alloc::{AllocError, AllocFailed};

/// What is wrong with an image: the first that is met.
#[derive(Clone, Copy, PartialEq, Eq)]
pub enum Damage {
    /// Memory was refused, and nothing is known of the image.
    Memory,
    /// The device has too few sectors, for any index or for its pages.
    Short,
    /// The first sector doesn't begin with the magic.
    Magic,
    /// It begins with the magic of version 1.
    OldMagic,
    /// Pages, entries in a node or the class are out of range, or the class isn't the one asked for.
    Parameters,
    /// The first gate of the selected extent is closed.
    Selector,
    /// A body doesn't say how many bytes of records it has.
    Body,
    /// A record isn't whole, or no record begins so.
    Record,
    /// The first body isn't counters and then notes, or another one has these.
    Head,
    /// A key that isn't one of the class.
    Key,
    /// A page's number in a record is 0 or above those in use, or more are in use than the device has.
    PageNumber,
    /// An image's own number isn't its page's.
    OwnNumber,
    /// A transaction has the number that none can follow.
    Transaction,
    /// A transaction writes, commits or ends after it has committed or ended.
    Closed,
    /// A commit's number isn't the last one plus one.
    CommitNumber,
    /// The counter or the pages in use fall.
    Falls,
    /// A page is changed of which the log has no image, or the change doesn't fit the page.
    Change,
    /// Two open transactions have touched one entry.
    Shared,
    /// More transactions are open, or have touched more entries, than may be.
    TooMany,
    /// A page has more than one spelling's bytes: reserved or free ones that aren't zero, or places that don't fit.
    Page,
    /// An entry of a page has another length, another mark, or a child that isn't in use.
    Entry,
    /// A node has too many entries, none if it needs one, or a sequence number above the counter.
    Node,
    /// The counter doesn't fit the pages in use.
    Counter,
    /// The root is a leaf, or an entry names a page that isn't one level below.
    Level,
    /// An entry's key doesn't cover those of its page.
    Cover,
    /// A page is the child of no entry, or of two.
    Parent,
    /// The leaves' chain doesn't have each leaf once, or has something else.
    Chain,
    /// An entry is in two places.
    Twice,
    /// What an open transaction touched isn't on its leaf or to the right of it.
    Place,
}

impl From<AllocError> for Damage {
    fn from(_fault: AllocError) -> Damage {
        Damage::Memory
    }
}

impl<T: Drop> From<AllocFailed<T>> for Damage {
    fn from(_fault: AllocFailed<T>) -> Damage {
        Damage::Memory
    }
}
