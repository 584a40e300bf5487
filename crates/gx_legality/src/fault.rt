//! Why a tree didn't pass.
ghost use Rattle.std.specs.Prelude.{◌≡◌, ◌≤◌, ◌++◌, decimal, length, IfSome, MatchOption};
ghost use Rattle.gx_legality.specs.Texts.{text_of};

use std::fmt;

/// A rule of a legal tree.
#[derive(Clone, Copy, Debug, PartialEq, Eq)]
pub enum Rule {
    /// Each split but a root's took a page: two pages were there before.
    SplitsOutnumberPages,
    /// The root is never a leaf.
    RootIsLeaf,
    /// A node has no more entries than there is room for.
    TooManyEntries,
    /// A node above the leaves has a child.
    NoChild,
    /// A node's sequence number is at most the counter of splits.
    SequenceNumber,
    /// The child in this slot is a page in use, and not the root.
    ChildPage(usize),
    /// The child in this slot is one level lower.
    ChildLevel(usize),
    /// The bound in this slot covers each key of its child.
    Bound(usize),
    /// No two entries name one page.
    NamedTwice,
    /// An entry names each page but the root.
    NotNamed,
    /// Rightlinks lead from page 2 over leaves alone, over none twice, and end.
    Chain,
    /// Each leaf is on this chain.
    OffTheChain,
    /// No pair is in two places.
    PairTwice,
    /// A pair that an open transaction touched is in its leaf, or to the right of it.
    PairOutOfPlace,
}

impl Rule {
    /// The text that says how it is broken; if a slot is named, in three parts: before the slot's number, the number,
    /// and after it.
    pub fn words(self) -> (&'static str, Option<(usize, &'static str)>)
        ensures words { MatchOption result.1 (text_of self ≡ result.0.now)
            (λ rest. text_of self ≡ result.0.now ++ (decimal rest.0 ++ rest.1.now)) }
        ensures front { length result.0.now ≤ 80 }
        ensures back { IfSome result.1 (λ rest. length rest.1.now ≤ 80) }
    {
        match self {
            Rule::SplitsOutnumberPages => ("more splits are counted than pages", None),
            Rule::RootIsLeaf => ("the root is a leaf", None),
            Rule::TooManyEntries => ("the node has more entries than it has room for", None),
            Rule::NoChild => ("a node above the leaves has no child", None),
            Rule::SequenceNumber => ("the sequence number is above the counter of splits", None),
            Rule::ChildPage(slot) => (
                "the child in slot ",
                Some((slot, " is the root, or not in use")),
            ),
            Rule::ChildLevel(slot) => (
                "the child in slot ",
                Some((slot, " is not one level lower")),
            ),
            Rule::Bound(slot) => (
                "the bound in slot ",
                Some((slot, " does not cover a key of its child")),
            ),
            Rule::NamedTwice => ("two entries name the page", None),
            Rule::NotNamed => ("no entry names the page", None),
            Rule::Chain => (
                "rightlinks lead to a page that is no leaf in use, or was passed",
                None,
            ),
            Rule::OffTheChain => ("the leaf is not on the chain of leaves", None),
            Rule::PairTwice => ("a pair stands twice", None),
            Rule::PairOutOfPlace => (
                "a pair of an open transaction is not in its leaf, nor to the right",
                None,
            ),
        }
    }
}

impl fmt::Display for Rule {
    ghost use Rattle.std.specs.Prelude.{Some};

    ghost output = { λ rule. Some (text_of rule) };

    /// The text that says how it is broken.
    fn fmt<W: fmt::Write>(&self, f: &mut fmt::Formatter<W>) -> fmt::Result {
        match self.words() {
            (text, None) => f.write_str(text),
            (front, Some((slot, back))) => write!(f, "{front}{slot}{back}"),
        }
    }
}

/// Why a test of legality wasn't passed.
#[derive(Clone, Copy, Debug, PartialEq, Eq)]
pub enum LegalityFault<F> {
    /// Memory was refused.
    Memory,
    /// A page could not be brought.
    Pages(F),
    /// This page doesn't keep this rule.
    Broken(u32, Rule),
    /// What a page shows was another thing before. Only a device that isn't honest does so.
    Unsteady,
}
