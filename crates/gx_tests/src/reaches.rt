//! A small class, for tests: keys that reach from nothing up to a number.
ghost use Rattle.gx_machine.specs.declared.query.Query.TheVariants.{Overlap, Within, Equal, Covers};
ghost use Rattle.std.specs.Prelude.{◌≡◌, ◌<◌, ◌-◌, ◌/◌, ◌∷◌, [], true};
ghost use Rattle.std.specs.Prelude.{false, refl, length, nat_le, max};
ghost use Rattle.std.proofs.Common.{ap, arith};
ghost use Rattle.std.proofs.lemmas.Bool.Decides.{nat_tests};
ghost use Rattle.gx_tests.specs.Halves.{halves, halves_leave_each};
ghost use Rattle.gx_tests.specs.OneByte.{one_byte, one_byte_only};

use gx_class::KeyClass;
use gx_geom::Shape;
use gx_machine::Query;

/// All numbers up to this one.
#[derive(Clone, Copy, Debug, PartialEq, Eq, PartialOrd, Ord)]
pub struct Reach(pub u8);

impl Shape for Reach {
    ghost overlap = { λ a b. true };

    ghost inside = { λ a b. nat_le a.0 b.0 };

    fn overlaps(&self, _other: &Reach) -> bool {
        true
    }

    fn within(&self, other: &Reach) -> bool {
        self.0 <= other.0
    }

    fn covers(&self, other: &Reach) -> bool {
        other.0 <= self.0
    }

    ghost overlap_both_ways = { λ a b. refl };

    ghost inside_itself = { λ a. Prim.grind (arith, nat_tests) };

    ghost inside_through = { λ a b c p q. Prim.grind (arith, nat_tests) };

    ghost same = { λ a b e. let same : a.0 ≡ b.0 = Prim.grind (arith, nat_tests) in ap (λ n. record { 0 = n }) same };
}

/// Reaches as keys, written in one byte and halved by slot.
pub struct ReachClass;

impl KeyClass for ReachClass {
    type Key = Reach;

    ghost CLASS = { 900 };

    const CLASS: u16 = 900;

    ghost KEY = { 1 };

    const KEY: usize = 1;

    ghost is_key = { λ k. k.0 < 256 };

    ghost start_key = { record { 0 = 0 } };

    ghost may_match = { λ q b. elim q [
      | Overlap p ↦ true
      | Within p ↦ true
      | Equal p ↦ nat_le p.0 b.0
      | Covers p ↦ nat_le p.0 b.0
    ] };

    ghost joined = { λ a b. record { 0 = max a.0 b.0 } };

    ghost cost = { λ b k. (max b.0 k.0 - b.0, b.0) };

    ghost sides_of = { λ xs least. halves (length xs) };

    ghost spelling = { λ k. k.0 ∷ [] };

    ghost reading = { one_byte (λ n. record { 0 = n }) };

    fn known(key: &Reach) {
        let _number = key.0;
    }

    fn start() -> Reach {
        Reach(0)
    }

    fn consistent(query: &Query<Reach>, bound: &Reach) -> bool {
        match query {
            Query::Overlap(_) | Query::Within(_) => true,
            Query::Equal(q) | Query::Covers(q) => q.0 <= bound.0,
        }
    }

    fn matches(query: &Query<Reach>, key: &Reach) -> bool {
        match query {
            Query::Overlap(_) => true,
            Query::Within(q) => key.0 <= q.0,
            Query::Equal(q) => key == q,
            Query::Covers(q) => q.0 <= key.0,
        }
    }

    fn union(first: Reach, second: Reach) -> Reach {
        Reach(first.0.max(second.0))
    }

    fn penalty(bound: &Reach, key: &Reach) -> (u128, u128) {
        (
            u128::from(key.0.saturating_sub(bound.0)),
            u128::from(bound.0),
        )
    }

    fn pick_split(keys: &[Reach], _least: usize, sides: &mut [bool]) {
        let first = keys.len() - keys.len() / 2;
        sides[..first].fill(false);
        sides[first..].fill(true);
    }

    fn encode(key: Reach, out: &mut [u8]) {
        out[0] = key.0;
    }

    fn decode(bytes: &[u8]) -> Option<Reach> {
        match bytes {
            [byte] => Some(Reach(*byte)),
            _ => None,
        }
    }

    ghost start_is_key = { Prim.omega arith };

    ghost covers_itself = { λ a _. Prim.grind (arith, nat_tests) };

    ghost covers_through = { λ a b c _ _ _ p q. Prim.grind (arith, nat_tests) };

    ghost match_is_consistent = { elim [
      | Overlap p ↦ λ k b _ _ m c. refl
      | Within p ↦ λ k b _ _ m c. refl
      | Equal p ↦
          λ k b _ _ m c. Prim.grind (arith, nat_tests)
      | Covers p ↦
          λ k b _ _ m c. Prim.grind (arith, nat_tests)
    ] };

    ghost union_is_key = { λ a b p q. Prim.omega arith };

    ghost union_covers_first = { λ a b _ _. Prim.grind (arith, nat_tests) };

    ghost union_covers_second = { λ a b _ _. Prim.grind (arith, nat_tests) };

    ghost union_is_least = { λ a b c _ _ p q. Prim.grind (arith, nat_tests) };

    ghost split_leaves_each = { λ xs least one enough _. halves_leave_each (length xs) least enough };

    ghost key_is_short = { Prim.omega arith };

    ghost spelling_length = { λ k _. refl };

    ghost reading_back = { λ k _. refl };

    ghost reading_only = { one_byte_only (λ n. record { 0 = n }) (λ k. k.0) (λ n. refl) };
}
