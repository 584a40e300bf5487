//! Items of a traversal.
ghost use Rattle.std.specs.Prelude.{◌≡◌, nat_lt};

use gx_page::Page;
use std::marker::Model;

/// A page that is to be read, and the counter of splits at the time when the page's number was read (Kornacker, Mohan,
/// Hellerstein 1997). A page whose sequence number is greater was split since.
#[derive(Clone, Copy, Debug, Default, PartialEq, Eq)]
pub struct TraversalItem {
    page: u32,
    seen: u64,
}

impl Model for TraversalItem {
    ghost use Rattle.gx_node.specs.Reach as reach;

    ghost Value = { reach.TraversalItem };

    ghost view = { λ i. record { page = i.page; seen = i.seen } };

    ghost inverse = { λ i. record { page = i.page; seen = i.seen } };
}

impl TraversalItem {
    /// A page and the counter of now.
    pub fn new(page: u32, seen: u64) -> TraversalItem
        ensures { result ≡ record { page = page; seen = seen } }
    {
        TraversalItem { page, seen }
    }

    /// The page.
    pub fn page(&self) -> u32
        ensures { result ≡ self.now.page }
    {
        self.page
    }

    /// The remembered counter.
    pub fn seen(&self) -> u64
        ensures { result ≡ self.now.seen }
    {
        self.seen
    }

    /// Whether its page was split since its number was read: the page has a greater one than the counter was.
    pub(crate) fn was_split(&self, page: &Page) -> bool
        ensures { result ≡ nat_lt self.now.seen page.now.nsn }
    {
        page.nsn() > self.seen
    }
}
