//! The store's calls for the steps that write.
ghost use Rattle.std.specs.Prelude.{◌≡◌, ◌≤◌, ◌<◌, ◌+◌, ◌-◌, ◌^◌, suc, ℕ, true, [], ◌∷◌, length, IfErr, OnOk};
ghost use Rattle.gx_node.specs.Reading.{format_of, is_node};
ghost use Rattle.gx_node.specs.Lists.{Each};
ghost use Rattle.gx_node.specs.Trees.{Node};
ghost use Rattle.gx_node.specs.Owner.{Prepares, KeepsSince, KeepsSinceBut, IsWhyLater, Asks, CountsFaults};
ghost use Rattle.gx_node.specs.Store.{node_of, node_at, with_node, with_page, with_split};

use crate::pages::Pages;
use gx_class::KeyClass;
use gx_page::Page;

/// A change of a node, made in place on its page.
pub trait Edit<K: KeyClass> {
    /// The nodes on which it can be made, if there are so many pages.
    ghost fits: { Self → ℕ → Node K.Key → Type 0 };

    /// The nodes that the change may lead to.
    ghost edits: { Self → Node K.Key → Node K.Key → Type 0 };

    /// Makes the change on a page that is a node; `_room` is how many pages there are.
    fn apply(self, page: &mut Page, _room: u32)
        requires passes { is_node (format_of K.KeyClass) _room page.old ≡ true }
        requires fits { fits self _room (node_of (format_of K.KeyClass) page.old) }
        ensures node { is_node (format_of K.KeyClass) _room page.new ≡ true }
        ensures number { page.new.number ≡ page.old.number }
        ensures edits { edits self (node_of (format_of K.KeyClass) page.old)
            (node_of (format_of K.KeyClass) page.new) };
}

/// Pages that can be changed. A step first prepares all its changes, which may fail; from then on none fails.
pub trait PagesMut<K: KeyClass>: Pages<K> {
    /// How many pages can be taken.
    ghost ready: { Self → ℕ };

    /// Whether a page may be changed: a step has prepared it.
    ghost changing: { Self → ℕ → Type 0 };

    /// Prepares to change these pages, which are held, and to take so many new ones. After `Ok` none of these changes
    /// can fail; a step that is refused here has changed nothing. A step takes two pages at most. Even on a device that
    /// isn't honest no node is shown otherwise: a page that is evicted for this has the node that was last shown of it.
    fn prepare(&mut self, changes: &[u32], taken: u32) -> Result<(), Self::Fault>
        requires held { Each (Self.held self.old) changes.now }
        requires few { taken ≤ 2 }
        requires room { 0 < taken → length (Self.store self.old).nodes + taken ≤ (Self.store self.old).room }
        ensures ready { OnOk result (taken ≤ ready self.new) }
        ensures changing { OnOk result (Each (changing self.new) changes.now) }
        ensures same { Self.store self.new ≡ Self.store self.old }
        ensures held { (q : ℕ) → Self.held self.old q → Self.held self.new q }
        ensures steady { Self.steady self.old → Self.steady self.new }
        ensures since { KeepsSince Self.since self.old self.new }
        ensures asked { Asks Self.asked (Prepares changes.now taken ∷ []) self.old self.new }
        ensures why { IfErr result (Self.why self.old self.new) }
        ensures later { OnOk result (IsWhyLater Self.why self.old self.new) }
        ensures told { CountsFaults Self.fails (Self.faults self.old) (Self.faults self.new) result };

    /// Changes a held and prepared page, and no other, even on a device that isn't honest.
    fn change<E: Edit<K>>(&mut self, page: u32, edit: E)
        requires held { Self.held self.old page }
        requires changing { changing self.old page }
        requires fits { E.fits edit (Self.store self.old).room (node_at (Self.store self.old).nodes page) }
        ensures edited { E.edits edit (node_at (Self.store self.old).nodes page)
            (node_at (Self.store self.new).nodes page) }
        ensures others { Self.store self.new ≡ with_node (Self.store self.old) page
            (node_at (Self.store self.new).nodes page) }
        ensures held { (q : ℕ) → Self.held self.old q → Self.held self.new q }
        ensures changing { (q : ℕ) → changing self.old q → changing self.new q }
        ensures ready { ready self.new ≡ ready self.old }
        ensures steady { Self.steady self.old → Self.steady self.new }
        ensures since { KeepsSinceBut Self.since page self.old self.new }
        ensures asked { Asks Self.asked [] self.old self.new }
        ensures told { Self.faults self.new ≡ Self.faults self.old };

    /// Takes the next page: a copy of one that is held, except for the page's own number. It is held and may be
    /// changed. No other page changes, even on a device that isn't honest.
    fn take(&mut self, from: u32)
        requires held { Self.held self.old from }
        requires ready { 0 < ready self.old }
        ensures taken { Self.store self.new ≡ with_page (Self.store self.old)
            (node_at (Self.store self.old).nodes from) }
        ensures next { Self.held self.new (suc (length (Self.store self.old).nodes))
            × changing self.new (suc (length (Self.store self.old).nodes)) }
        ensures held { (q : ℕ) → Self.held self.old q → Self.held self.new q }
        ensures changing { (q : ℕ) → changing self.old q → changing self.new q }
        ensures ready { ready self.old ≡ suc (ready self.new) }
        ensures steady { Self.steady self.old → Self.steady self.new }
        ensures since { KeepsSinceBut Self.since (suc (length (Self.store self.old).nodes)) self.old self.new }
        ensures asked { Asks Self.asked [] self.old self.new }
        ensures told { Self.faults self.new ≡ Self.faults self.old };

    /// Counts a split of a node other than the root.
    fn count_split(&mut self)
        requires { (Self.store self.old).counter + 1 < 2 ^ 64 }
        ensures counted { Self.store self.new ≡ with_split (Self.store self.old) }
        ensures held { (q : ℕ) → Self.held self.old q → Self.held self.new q }
        ensures changing { (q : ℕ) → changing self.old q → changing self.new q }
        ensures ready { ready self.new ≡ ready self.old }
        ensures steady { Self.steady self.old → Self.steady self.new }
        ensures since { KeepsSince Self.since self.old self.new }
        ensures asked { Asks Self.asked [] self.old self.new }
        ensures told { Self.faults self.new ≡ Self.faults self.old };
}
