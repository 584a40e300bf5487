//! Boxes tested in their bytes, four corners at once.
ghost use Rattle.std.specs.Prelude.{◌≡◌, ◌≤◌, length};
ghost use Rattle.gx_class.specs.Boxes.{corners_of};
ghost use Rattle.gx_class.specs.Probes.{corners, limits, are_between, FourFit, meeting, lying_in, covering};

use crate::{Box2Class, Probing};
use gx_geom::Box2;
use gx_machine::Query;
use std::simd::prelude::*;

/// A query of boxes as the least and the greatest that each corner may be, in the order `x1 y1 x2 y2`. So one
/// comparison serves every query, of entries' keys and of bounds alike.
#[derive(Clone, Copy, Debug)]
pub struct BoxProbe {
    low: [i32; 4],
    high: [i32; 4],
    ghost low_fits: { FourFit low },
    ghost high_fits: { FourFit high },
}

impl BoxProbe {
    /// Passed by boxes of which each corner lies between its two limits.
    pub(crate) fn between(low: [i32; 4], high: [i32; 4]) -> BoxProbe
        ensures { limits result.low result.high ≡ limits low high }
    {
        BoxProbe { low, high }
    }

    /// Passed by boxes that share a point with this one.
    fn meeting(q: &Box2) -> BoxProbe
        ensures { limits result.low result.high ≡ meeting q.now }
    {
        let low = [i32::MIN, i32::MIN, q.x1(), q.y1()];
        BoxProbe::between(low, [q.x2(), q.y2(), i32::MAX, i32::MAX])
    }

    /// Passed by boxes that lie in this one.
    fn lying_in(q: &Box2) -> BoxProbe
        ensures { limits result.low result.high ≡ lying_in q.now }
    {
        let low = [q.x1(), q.y1(), i32::MIN, i32::MIN];
        BoxProbe::between(low, [i32::MAX, i32::MAX, q.x2(), q.y2()])
    }

    /// Passed by boxes that this one lies in.
    fn covering(q: &Box2) -> BoxProbe
        ensures { limits result.low result.high ≡ covering q.now }
    {
        let low = [i32::MIN, i32::MIN, q.x2(), q.y2()];
        BoxProbe::between(low, [q.x1(), q.y1(), i32::MAX, i32::MAX])
    }

    /// Passed by this box alone.
    fn same(q: &Box2) -> BoxProbe
        ensures { limits result.low result.high ≡ limits (corners q.now) (corners q.now) }
    {
        let corners = [q.x1(), q.y1(), q.x2(), q.y2()];
        BoxProbe::between(corners, corners)
    }

    /// Whether the four numbers in front of these bytes lie between their limits.
    pub(crate) fn passes(&self, bytes: &[u8]) -> bool
        requires { 16 ≤ length bytes.now }
        ensures { result ≡ are_between self.now.low self.now.high (corners (corners_of bytes.now)) }
    {
        are_between(&self.low, &self.high, corners_in(bytes))
    }
}

/// The places of the bytes of each of four numbers, the least byte first.
pub(crate) const LEAST_FIRST: [usize; 16] = [3, 2, 1, 0, 7, 6, 5, 4, 11, 10, 9, 8, 15, 14, 13, 12];

/// The corners in front of these bytes, side by side.
fn corners_in(bytes: &[u8]) -> i32x4
    requires { 16 ≤ length bytes.now }
    ensures { result ≡ corners (corners_of bytes.now) }
{
    i32x4::from_le_bytes(u8x16::from_slice(bytes).swizzle(LEAST_FIRST))
}

/// Whether each of four numbers lies between its two limits.
fn are_between(low: &[i32; 4], high: &[i32; 4], numbers: i32x4) -> bool
    requires four { length numbers ≡ 4 }
    requires numbers { FourFit numbers }
    requires low { FourFit low.now }
    requires high { FourFit high.now }
    ensures { result ≡ are_between low.now high.now numbers }
{
    let below = numbers.simd_lt(i32x4::from_array(*low));
    let above = numbers.simd_gt(i32x4::from_array(*high));
    (below | above).to_bitmask() == 0
}

impl Probing for Box2Class {
    ghost use Rattle.gx_class.specs.Probes.{corners, are_between};

    type Probe = BoxProbe;

    ghost passes = { λ p k. are_between p.low p.high (corners k) };

    fn probe_keys(query: &Query<Box2>) -> BoxProbe {
        match query {
            Query::Overlap(q) => BoxProbe::meeting(q),
            Query::Within(q) => BoxProbe::lying_in(q),
            Query::Equal(q) => BoxProbe::same(q),
            Query::Covers(q) => BoxProbe::covering(q),
        }
    }

    fn probe_bounds(query: &Query<Box2>) -> BoxProbe {
        match query {
            Query::Overlap(q) | Query::Within(q) => BoxProbe::meeting(q),
            Query::Equal(q) | Query::Covers(q) => BoxProbe::covering(q),
        }
    }

    fn test(probe: &BoxProbe, bytes: &[u8]) -> bool {
        probe.passes(bytes)
    }
}
