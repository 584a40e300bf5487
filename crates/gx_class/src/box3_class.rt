//! The class of boxes of space.
ghost use Rattle.std.specs.Prelude.{◌≡◌, ◌≤◌, length};
ghost use Rattle.gx_geom.specs.Solids.{IsSolid, solid_of, volume, union};
ghost use Rattle.gx_class.specs.SolidKeys.{three_bytes, spelling, reading, may_match, cost};

use crate::KeyClass;
use crate::box2_class::{number, numbers, write_number};
use gx_geom::{Box3, Shape};
use gx_machine::Query;
use gx_split::Measure;

/// Boxes of space as keys: class 3, written in 24 bytes.
#[derive(Clone, Copy, Debug)]
pub struct Box3Class;

/// The three numbers of which these are the bytes.
fn three_numbers(bytes: &[u8]) -> (i32, i32, i32)
    requires { length bytes.now ≡ 12 }
    ensures { bytes.now ≡ three_bytes result.0 result.1 result.2 }
{
    let (first, others) = bytes.split_at(4);
    let (second, third) = numbers(others);
    (number(first), second, third)
}

impl KeyClass for Box3Class {
    ghost use Rattle.std.specs.Prelude.{pos};
    ghost use Rattle.std.proofs.Common.{arith};
    ghost use Rattle.gx_geom.specs.Solids.{within};
    ghost use Rattle.gx_split.specs.Split.{measure, split_sides};
    ghost use Rattle.gx_geom.specs.SolidLaws.{within_itself, within_through, union_is_solid};
    ghost use Rattle.gx_geom.specs.SolidLaws.{union_covers_first, union_covers_second, union_is_least};
    ghost use Rattle.gx_class.specs.SolidKeyLaws.{start_is_solid, match_is_consistent};
    ghost use Rattle.gx_class.specs.SolidKeyLaws.{split_leaves_each, length-spelling};
    ghost use Rattle.gx_class.specs.SolidReadings.{reading_back, reading_only};

    type Key = Box3;

    ghost CLASS = { 3 };

    const CLASS: u16 = 3;

    ghost KEY = { 24 };

    const KEY: usize = 24;

    ghost is_key = { IsSolid };

    ghost start_key = { solid_of (pos 0) (pos 0) (pos 0) (pos 0) (pos 0) (pos 0) };

    ghost may_match = { may_match };

    ghost joined = { union };

    ghost cost = { cost };

    ghost sides_of = { split_sides (measure union volume) };

    ghost spelling = { spelling };

    ghost reading = { reading };

    fn known(key: &Box3) {
        let _ = key.x1();
    }

    fn start() -> Box3 {
        Box3::point(0, 0, 0)
    }

    fn consistent(query: &Query<Box3>, bound: &Box3) -> bool {
        match query {
            Query::Overlap(q) | Query::Within(q) => bound.overlaps(q),
            Query::Equal(q) | Query::Covers(q) => bound.covers(q),
        }
    }

    fn matches(query: &Query<Box3>, key: &Box3) -> bool {
        match query {
            Query::Overlap(q) => key.overlaps(q),
            Query::Within(q) => key.within(q),
            Query::Equal(q) => key == q,
            Query::Covers(q) => key.covers(q),
        }
    }

    fn union(first: Box3, second: Box3) -> Box3 {
        first.union(&second)
    }

    fn penalty(bound: &Box3, key: &Box3) -> (u128, u128) {
        let size = bound.size();
        (bound.join(key).size() - size, size)
    }

    fn pick_split(keys: &[Box3], least: usize, sides: &mut [bool]) {
        gx_split::split(keys, least, sides);
    }

    fn encode(key: Box3, out: &mut [u8]) {
        write_number(out, 0, key.x1());
        write_number(out, 4, key.y1());
        write_number(out, 8, key.z1());
        write_number(out, 12, key.x2());
        write_number(out, 16, key.y2());
        write_number(out, 20, key.z2());
    }

    fn decode(bytes: &[u8]) -> Option<Box3> {
        if bytes.len() != Self::KEY {
            return None;
        }
        let (low, high) = bytes.split_at(12);
        let (x1, y1, z1) = three_numbers(low);
        let (x2, y2, z2) = three_numbers(high);
        Box3::new(x1, y1, z1, x2, y2, z2).ok()
    }

    ghost start_is_key = { start_is_solid };

    ghost covers_itself = { λ a _. within_itself a };

    ghost covers_through = { λ a b c _ _ _. within_through a b c };

    ghost match_is_consistent = { λ q k b is _. match_is_consistent q k b is };

    ghost union_is_key = { union_is_solid };

    ghost union_covers_first = { λ a b _ _. union_covers_first a b };

    ghost union_covers_second = { λ a b _ _. union_covers_second a b };

    ghost union_is_least = { λ a b c _ _. union_is_least a b c };

    ghost split_leaves_each = { λ xs least one enough _. split_leaves_each xs least one enough };

    ghost key_is_short = { Prim.omega arith };

    ghost spelling_length = { λ k _. length-spelling k };

    ghost reading_back = { reading_back };

    ghost reading_only = { reading_only };
}
