//! The class of boxes: an R-tree's keys (Guttman 1984).
ghost use Rattle.std.specs.Prelude.{◌≡◌, ◌≤◌, ◌+◌, ◌++◌, length, take, drop, MatchOption};
ghost use Rattle.gx_geom.specs.Rectangles.{IsBox, rectangle_of, area, union};
ghost use Rattle.gx_class.specs.Boxes.{number_bytes, spelling, reading, may_match, cost};

use crate::{KeyClass, box_penalty};
use gx_geom::{Box2, Shape};
use gx_machine::Query;
use gx_split::Measure;

/// Boxes of the plane as keys: class 1, written in 16 bytes.
#[derive(Clone, Copy, Debug)]
pub struct Box2Class;

/// Writes a number's four bytes over those of `out` from `at` on.
pub(crate) fn write_number(out: &mut [u8], at: usize, number: i32)
    requires { at + 4 ≤ length out.old }
    ensures { out.new ≡ take at out.old ++ (number_bytes number ++ drop (at + 4) out.old) }
{
    out[at..at + 4].copy_from_slice(&number.to_be_bytes());
}

/// The number of which these are the bytes.
pub(crate) fn number(bytes: &[u8]) -> i32
    requires { length bytes.now ≡ 4 }
    ensures { bytes.now ≡ number_bytes result }
{
    u32::from_be_bytes([bytes[0], bytes[1], bytes[2], bytes[3]]).cast_signed()
}

/// The two numbers of which these are the bytes.
pub(crate) fn numbers(bytes: &[u8]) -> (i32, i32)
    requires { length bytes.now ≡ 8 }
    ensures { bytes.now ≡ number_bytes result.0 ++ number_bytes result.1 }
{
    let (first, second) = bytes.split_at(4);
    (number(first), number(second))
}

impl KeyClass for Box2Class {
    ghost use Rattle.std.specs.Prelude.{pos};
    ghost use Rattle.std.proofs.Common.{arith};
    ghost use Rattle.gx_geom.specs.Rectangles.{within};
    ghost use Rattle.gx_split.specs.Split.{measure, split_sides};
    ghost use Rattle.gx_geom.specs.BoxLaws.{within_itself, within_through, union_is_box};
    ghost use Rattle.gx_class.specs.BoxKeyLaws.{start_is_box, match_is_consistent};
    ghost use Rattle.gx_class.specs.BoxKeyLaws.{union_covers_first, union_covers_second};
    ghost use Rattle.gx_class.specs.BoxKeyLaws.{union_is_least, split_leaves_each, length-spelling};
    ghost use Rattle.gx_class.specs.BoxReadings.{reading_back, reading_only};

    type Key = Box2;

    ghost CLASS = { 1 };

    const CLASS: u16 = 1;

    ghost KEY = { 16 };

    const KEY: usize = 16;

    ghost is_key = { IsBox };

    ghost start_key = { rectangle_of (pos 0) (pos 0) (pos 0) (pos 0) };

    ghost may_match = { may_match };

    ghost joined = { union };

    ghost cost = { cost };

    ghost sides_of = { split_sides (measure union area) };

    ghost spelling = { spelling };

    ghost reading = { reading };

    fn known(key: &Box2) {
        let _ = key.x1();
    }

    fn start() -> Box2 {
        Box2::point(0, 0)
    }

    fn consistent(query: &Query<Box2>, bound: &Box2) -> bool {
        match query {
            Query::Overlap(q) | Query::Within(q) => bound.overlaps(q),
            Query::Equal(q) | Query::Covers(q) => bound.covers(q),
        }
    }

    fn matches(query: &Query<Box2>, key: &Box2) -> bool {
        match query {
            Query::Overlap(q) => key.overlaps(q),
            Query::Within(q) => key.within(q),
            Query::Equal(q) => key == q,
            Query::Covers(q) => key.covers(q),
        }
    }

    fn union(first: Box2, second: Box2) -> Box2 {
        first.union(&second)
    }

    fn penalty(bound: &Box2, key: &Box2) -> (u128, u128) {
        let size = bound.size();
        (bound.join(key).size() - size, size)
    }

    fn penalty_in(bytes: &[u8], key: &Box2) -> (u128, u128) {
        box_penalty::penalty(bytes, key)
    }

    fn pick_split(keys: &[Box2], least: usize, sides: &mut [bool]) {
        gx_split::split(keys, least, sides);
    }

    fn encode(key: Box2, out: &mut [u8]) {
        write_number(out, 0, key.x1());
        write_number(out, 4, key.y1());
        write_number(out, 8, key.x2());
        write_number(out, 12, key.y2());
    }

    fn decode(bytes: &[u8]) -> Option<Box2> {
        if bytes.len() != Self::KEY {
            return None;
        }
        let (first, second) = bytes.split_at(8);
        let (x1, y1) = numbers(first);
        let (x2, y2) = numbers(second);
        Box2::new(x1, y1, x2, y2).ok()
    }

    ghost start_is_key = { start_is_box };

    ghost covers_itself = { λ a _. within_itself a };

    ghost covers_through = { λ a b c _ _ _. within_through a b c };

    ghost match_is_consistent = { λ q k b is _. match_is_consistent q k b is };

    ghost union_is_key = { union_is_box };

    ghost union_covers_first = { λ a b _ _. union_covers_first a b };

    ghost union_covers_second = { λ a b _ _. union_covers_second a b };

    ghost union_is_least = { λ a b c _ _. union_is_least a b c };

    ghost split_leaves_each = { λ xs least one enough _. split_leaves_each xs least one enough };

    ghost key_is_short = { Prim.omega arith };

    ghost spelling_length = { λ k _. length-spelling k };

    ghost reading_back = { reading_back };

    ghost reading_only = { reading_only };
}
