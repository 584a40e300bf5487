//! The rules that an image keeps: what is wrong if one is broken, and what the user reads then.
use crate::Damage;

/// What is wrong if a rule is broken, and how a sentence about it ends.
#[derive(Clone, Copy)]
pub(crate) struct Rule(pub(crate) Damage, pub(crate) &'static str);

// Of the sectors ahead of the log, of which no sentence is printed.
pub(crate) const MAGIC: Rule = Rule(Damage::Magic, "");

pub(crate) const OLD_MAGIC: Rule = Rule(Damage::OldMagic, "");

pub(crate) const PARAMETERS: Rule = Rule(Damage::Parameters, "");

pub(crate) const SHORT: Rule = Rule(Damage::Short, "");

// Of a log.
pub(crate) const FIRST_GATE: Rule = Rule(Damage::Selector, "the first gate of the log is closed");

pub(crate) const BODY_SIZE: Rule = Rule(Damage::Body, "a body of this size is none");

pub(crate) const SPELLING: Rule = Rule(Damage::Record, "these bytes are no whole record");

pub(crate) const MISPLACED: Rule = Rule(Damage::Head, "a record of this kind may not stand here");

pub(crate) const KEY: Rule = Rule(Damage::Key, "the bytes of a key are none of the class");

pub(crate) const PAGES_OF_DEVICE: Rule = Rule(
    Damage::PageNumber,
    "more pages are in use than the device has",
);

pub(crate) const COUNTER_FALLS: Rule = Rule(Damage::Falls, "the counter of splits falls");

pub(crate) const USED_FALLS: Rule = Rule(Damage::Falls, "the number of pages in use falls");

pub(crate) const PAGE_IN_USE: Rule = Rule(Damage::PageNumber, "a page is given that is not in use");

pub(crate) const TRANSACTION: Rule = Rule(
    Damage::Transaction,
    "no transaction may follow one of this number",
);

pub(crate) const LEAF_IN_USE: Rule = Rule(Damage::PageNumber, "a leaf is not in use");

pub(crate) const SHARED: Rule = Rule(Damage::Shared, "two open transactions touch one entry");

pub(crate) const TRANSACTIONS: Rule = Rule(Damage::TooMany, "more than 8 transactions are open");

pub(crate) const TOUCHES: Rule = Rule(Damage::TooMany, "more than 512 entries are touched");

pub(crate) const ENDED: Rule = Rule(Damage::Closed, "a transaction goes on after its end");

pub(crate) const COMMIT_NUMBER: Rule = Rule(
    Damage::CommitNumber,
    "a commit has not the next number",
);

pub(crate) const NO_IMAGE: Rule = Rule(
    Damage::Change,
    "a page is changed of which the log has no image",
);

pub(crate) const UNFIT: Rule = Rule(Damage::Change, "a change does not fit its page");

// Of a page by itself: one that isn't spelled, has another number, or isn't a node of the class. All have the same
// sentence.
pub(crate) const PAGE: Rule = Rule(Damage::Page, "");

pub(crate) const OWN_NUMBER: Rule = Rule(Damage::OwnNumber, "");

pub(crate) const ENTRY: Rule = Rule(Damage::Entry, "");

// Of a tree.
pub(crate) const SPLITS: Rule = Rule(Damage::Counter, "more splits are counted than pages");

pub(crate) const ROOT_IS_LEAF: Rule = Rule(Damage::Level, "the root is a leaf");

pub(crate) const TOO_MANY: Rule = Rule(
    Damage::Node,
    "the node has more entries than it has room for",
);

pub(crate) const NO_CHILD: Rule = Rule(Damage::Node, "a node above the leaves has no child");

pub(crate) const SEQUENCE: Rule = Rule(
    Damage::Node,
    "the sequence number is above the counter of splits",
);

pub(crate) const CHILD_PAGE: Rule = Rule(Damage::Entry, "is the root, or not in use");

pub(crate) const CHILD_LEVEL: Rule = Rule(Damage::Level, "is not one level lower");

pub(crate) const BOUND: Rule = Rule(Damage::Cover, "does not cover a key of its child");

pub(crate) const NAMED_TWICE: Rule = Rule(Damage::Parent, "two entries name the page");

pub(crate) const NOT_NAMED: Rule = Rule(Damage::Parent, "no entry names the page");

pub(crate) const CHAIN: Rule = Rule(
    Damage::Chain,
    "rightlinks lead to a page that is no leaf in use, or was passed",
);

pub(crate) const OFF_CHAIN: Rule = Rule(Damage::Chain, "the leaf is not on the chain of leaves");

pub(crate) const TWICE: Rule = Rule(Damage::Twice, "a pair stands twice");

pub(crate) const OUT_OF_PLACE: Rule = Rule(
    Damage::Place,
    "a pair of an open transaction is not in its leaf, nor to the right",
);
