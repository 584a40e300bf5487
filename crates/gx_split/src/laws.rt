//! Laws: what the definition of the split means.
ghost use Rattle.std.specs.Prelude.{◌≡◌, ◌≤◌, ◌<◌, ◌*◌, ℕ, ℤ, All, List, length};
ghost use Rattle.gx_split.specs.Split.{measure, first_greatest, place_one, worst_pair, seeds, split_sides, Groups};
ghost use Rattle.gx_split.specs.Fair.{IsFairSplit, IsFirstGreatest, IsFirstWorst};
ghost use Rattle.gx_split.specs.Placement.{IsPlacement, IsQuadraticSplit, Placing};

use crate::Measure;

/// The seeds are the first of the pairs that waste most.
pub fn seeds_are_first_worst()
    ensures { (w : ℕ → ℕ → ℤ) (n : ℕ) → 2 ≤ n → IsFirstWorst w n (worst_pair w n) }
{}

/// The next key is the first of those at which the growths are farthest apart.
pub fn next_is_first_greatest()
    ensures { (xs : List ℕ) → 0 < length xs → IsFirstGreatest xs (length xs) (first_greatest xs) }
{}

/// Each key has a side, each side its least number, and the seeds are on different sides.
pub fn split_is_fair<M: Measure>()
    ensures { (keys : List M) (least : ℕ) → 1 ≤ least → 2 * least ≤ length keys
        → IsFairSplit (length keys) least (seeds (measure M.joined M.extent) keys)
        (split_sides (measure M.joined M.extent) keys least) }
{}

/// Each placement: the first of the waiting keys at which the growths are farthest apart goes to the group that needs
/// all that wait, else to the one that grows less, else to the smaller, else to the one of fewer keys, else to the
/// first (Guttman 1984, PickNext).
pub fn each_placement<M: Measure>()
    ensures { (keys : List M) (least : ℕ) (g : Groups M) → 0 < length g.rest → All (λ slot. slot < length keys) g.rest
        → (p : Placing M) × IsPlacement (measure M.joined M.extent) keys least g
        (place_one (measure M.joined M.extent) keys least g) p }
{}

/// The split is the seeds and such placements until no key waits.
pub fn split_is_placements<M: Measure>()
    ensures { (keys : List M) (least : ℕ) → 1 ≤ least → 2 * least ≤ length keys
        → (first : M) × (second : M) × (end : Groups M)
        × IsQuadraticSplit (measure M.joined M.extent) keys least
        (split_sides (measure M.joined M.extent) keys least) first second end }
{}
