//! The store's calls for the steps that read.
ghost use Rattle.std.specs.Prelude.{◌≡◌, ◌≤◌, ℕ, true, List, [], ◌∷◌, length, IfErr, OnOk};
ghost use Rattle.gx_node.specs.Reading.{format_of, is_node};
ghost use Rattle.gx_node.specs.Lists.{Each};
ghost use Rattle.gx_node.specs.Trees.{Used};
ghost use Rattle.gx_node.specs.Owner.{Asking, Brings, KeepsSince, IsWhyLater, Asks, CountsFaults};
ghost use Rattle.gx_node.specs.Store.{Store, Stays, node_of, node_at, tree_of};

use gx_class::KeyClass;
use gx_page::Page;

/// The pages of a tree. A step first brings the pages that it uses, which may fail; from then on they are held, and
/// reading them doesn't fail. Each page that is lent is a node of the class and has its own number.
pub trait Pages<K: KeyClass> {
    /// Why the store refused pages.
    type Fault;

    /// The nodes of all pages in use, as each was last shown, the counter of splits, and how many pages there are.
    ghost store: { Self → Store K.Key };

    /// Whether a page is held.
    ghost held: { Self → ℕ → Type 0 };

    /// Reading a page gives what the store shows of it, so that bringing it changes nothing.
    ghost steady: { Self → Type 0 };

    /// What happened to a page, and to everything that isn't a page, since a moment. A step keeps it for each page that
    /// it doesn't change, so the layer above knows what a step didn't change.
    ghost since: { Self → Self → ℕ → Type 0 };

    /// The calls since a moment, the last first.
    ghost asked: { Self → Self → List Asking → Type 0 };

    /// Why pages were refused between two moments.
    ghost why: { Self → Self → Self.Fault → Type 0 };

    /// How many calls have failed that read or write pages.
    ghost faults: { Self → ℕ };

    /// How many calls have failed if pages are refused so.
    ghost fails: { Self.Fault → ℕ };

    /// The greatest page in use.
    fn used(&self) -> u32
        ensures { result ≡ length (store self.now).nodes };

    /// How many pages there are, in use or not.
    fn room(&self) -> u32
        ensures { result ≡ (store self.now).room };

    /// How many splits of nodes other than the root there were.
    fn counter(&self) -> u64
        ensures { result ≡ (store self.now).counter };

    /// Holds these pages, four at most, and releases those that were held. On a device that isn't honest this call, and
    /// no other, may show other nodes than before, of as many pages.
    fn bring(&mut self, pages: &[u32]) -> Result<(), Self::Fault>
        requires few { length pages.now ≤ 4 }
        requires used { Each (Used (tree_of (store self.old))) pages.now }
        ensures held { OnOk result (Each (held self.new) pages.now) }
        ensures stays { Stays (steady self.old) (store self.old) (store self.new) }
        ensures steady { steady self.old → steady self.new }
        ensures since { KeepsSince since self.old self.new }
        ensures asked { Asks asked (Brings pages.now ∷ []) self.old self.new }
        ensures why { IfErr result (why self.old self.new) }
        ensures later { OnOk result (IsWhyLater why self.old self.new) }
        ensures told { CountsFaults fails (faults self.old) (faults self.new) result };

    /// Lends a held page.
    fn page(&self, page: u32) -> &Page
        requires { held self.now page }
        ensures number { result.now.number ≡ page }
        ensures node { node_of (format_of K.KeyClass) result.now ≡ node_at (store self.now).nodes page }
        ensures passes { is_node (format_of K.KeyClass) (store self.now).room result.now ≡ true };

    /// Between a moment and itself there was no call.
    ghost asked_nothing: { (a : Self) → asked a a [] };
}
