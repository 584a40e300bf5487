//! What a box costs a bound, from the bound's bytes: the sides of two boxes are computed at once.
ghost use Rattle.std.specs.Prelude.{◌≡◌, ◌<◌, ◌*◌, ◌^◌, ℕ, [], ◌∷◌, length};
ghost use Rattle.gx_geom.specs.Rectangles.{Rectangle, IsBox, union};
ghost use Rattle.gx_class.specs.Boxes.{corners_of, cost};
ghost use Rattle.gx_class.specs.Raised.{raise, raised, sides_of_two, AreBitsOf};

use crate::box_probe::LEAST_FIRST;
use gx_geom::Box2;
use std::simd::prelude::*;

/// How far corners are raised, so that none is below 0.
const RAISE: u32 = 1 << 31;

/// The corners of which these are the bytes, in two's complement.
fn bits_in(bytes: &[u8]) -> u32x4
    requires { length bytes.now ≡ 16 }
    ensures { AreBitsOf (corners_of bytes.now) result }
{
    u32x4::from_le_bytes(u8x16::from_slice(bytes).swizzle(LEAST_FIRST))
}

/// Corners in two's complement, raised.
fn lifted(bits: u32x4) -> u32x4
    ensures { (b : Rectangle) → AreBitsOf b bits → result ≡ raised b }
{
    bits + u32x4::splat(RAISE)
}

/// A corner, raised.
fn raise(corner: i32) -> u32
    ensures { result ≡ raise corner }
{
    corner.cast_unsigned().wrapping_add(RAISE)
}

/// The corners of a box, raised.
fn raised(key: &Box2) -> u32x4
    ensures lanes { result ≡ raised key.now }
    ensures in_order { IsBox key.now }
{
    u32x4::from_array([
        raise(key.x1()),
        raise(key.y1()),
        raise(key.x2()),
        raise(key.y2()),
    ])
}

/// The width and the height of a bound's union with a key, and of the bound.
fn sides(bound: u32x4, key: u32x4) -> u32x4
    ensures { (b k : Rectangle) → IsBox b → IsBox k → bound ≡ raised b → key ≡ raised k
        → result ≡ sides_of_two (union b k) b }
{
    let lows = bound.simd_min(key).shuffle(bound, [0, 1, 4, 5]);
    let highs = bound.simd_max(key).shuffle(bound, [2, 3, 6, 7]);
    highs - lows
}

/// The areas of two boxes of which these are the sides.
fn areas(sides: u32x4) -> u64x2
    ensures { (w h v g : ℕ) → w < 2 ^ 32 → h < 2 ^ 32 → v < 2 ^ 32 → g < 2 ^ 32 → sides ≡ w ∷ h ∷ v ∷ g ∷ []
        → result ≡ w * h ∷ v * g ∷ [] }
{
    let widths: u64x2 = sides.swizzle([0, 2]).cast();
    let heights: u64x2 = sides.swizzle([1, 3]).cast();
    widths * heights
}

/// What a key costs the bound of which these are the bytes: how much its area grows by the key, and its area.
pub(crate) fn penalty(bytes: &[u8], key: &Box2) -> (u128, u128)
    requires { length bytes.now ≡ 16 }
    ensures { IsBox (corners_of bytes.now) → result ≡ cost (corners_of bytes.now) key.now }
{
    let areas = areas(sides(lifted(bits_in(bytes)), raised(key))).to_array();
    let (union, bound) = (areas[0], areas[1]);
    (u128::from(union.wrapping_sub(bound)), u128::from(bound))
}
