//! Laws of the nodes on pages. Each function is its contract alone.
ghost use Rattle.gx_node.specs.Trees.{Pair, Child};
ghost use Rattle.gx_node.specs.Hits.{BlocksAreAFilter, HitsAreAFilter};
ghost use Rattle.gx_node.specs.Reading.{format_of};
ghost use Rattle.gx_node.specs.Laws.{LeavesHold, HeldPairsAreRead, InnersHold, HeldChildrenAreRead};
ghost use Rattle.gx_node.specs.Keyed.{rules_of};
ghost use Rattle.gx_node.specs.SmallLaws.{ChangesKeepNodes, MarksMean, PairsMean, BoundsMean};
ghost use Rattle.gx_node.specs.SmallLaws.{RemovalsMean, RemovalsAreAFilter};
ghost use Rattle.gx_node.specs.Laws.{BlanksAreNodes, NodesFollowLinks, MoreAreTaken, OneMark, OneBound};

use gx_class::KeyClass;

/// A page is a leaf exactly if it has pairs, which are those that are read, and no others.
pub fn leaves<K: KeyClass>()
    ensures hold { LeavesHold K.is_key K.spelling (format_of K.KeyClass) }
    ensures read { HeldPairsAreRead K.is_key K.spelling (format_of K.KeyClass) }
{}

/// A page is an inner node exactly if it has children, which are those that are read, and no others.
pub fn inners<K: KeyClass>()
    ensures hold { InnersHold K.is_key K.spelling (format_of K.KeyClass) }
    ensures read { HeldChildrenAreRead K.is_key K.spelling (format_of K.KeyClass) }
{}

/// What `Page::fresh` and `Page::reset` leave is a node without entries.
pub fn blanks<K: KeyClass>()
    ensures { BlanksAreNodes (format_of K.KeyClass) }
{}

/// If a page's sequence number, rightlink or own number is set, it is the same node with these.
pub fn links<K: KeyClass>()
    ensures { NodesFollowLinks (format_of K.KeyClass) }
{}

/// An inner node stays one as more pages are taken.
pub fn more_taken<K: KeyClass>()
    ensures { MoreAreTaken (format_of K.KeyClass) }
{}

/// A mark set by slot, or a bound, is the tree's step if the slot's entry is the only one of its kind in the node.
pub fn one_changed<K: KeyClass>()
    ensures mark { OneMark K.Key }
    ensures bound { OneBound K.Key }
{}

/// The pairs or children that `next_hit` and its like find, one call after another, are those of the node that pass, in
/// their order.
pub fn hits<K: KeyClass>()
    ensures pairs { HitsAreAFilter (Pair K.Key) }
    ensures children { HitsAreAFilter (Child K.Key) }
{}

/// The entries at the slots that pass, block by block, are those that pass, in order.
pub fn blocks<K: KeyClass>()
    ensures pairs { BlocksAreAFilter (Pair K.Key) }
    ensures children { BlocksAreAFilter (Child K.Key) }
{}

/// A small change that fits a page leaves one that can be written, and a node if the page was one.
pub fn small_changes<K: KeyClass>()
    ensures { ChangesKeepNodes (format_of K.KeyClass) }
{}

/// A mark by a pair's bytes fits the leaves that have its entry, and is set in the first that is the entry. Nothing
/// else of the leaf changes.
pub fn small_marks<K: KeyClass>(most: usize)
    ensures { MarksMean (format_of K.KeyClass) (rules_of K.Key.Shape most) }
{}

/// A pair by its bytes fits the leaves that have room and don't have its entry, and is then the last pair, live.
/// Nothing else of the leaf changes.
pub fn small_pairs<K: KeyClass>(most: usize)
    ensures { PairsMean (format_of K.KeyClass) (rules_of K.Key.Shape most) }
{}

/// A bound by its key's bytes fits the inner nodes that have the slot, and is then the slot's bound.
/// Nothing else of the node changes.
pub fn small_bounds<K: KeyClass>()
    ensures { BoundsMean (format_of K.KeyClass) }
{}

/// Slots fit the leaves in which each has a marked pair, and these pairs go. Nothing else of the leaf changes. If the
/// slots are those of the pairs that pass a test, the others stay.
pub fn small_removals<K: KeyClass>()
    ensures removed { RemovalsMean (format_of K.KeyClass) }
    ensures filter { RemovalsAreAFilter (Pair K.Key) }
{}
