//! Boxes of space tested in their bytes, four corners at once.
ghost use Rattle.std.specs.Prelude.{◌≡◌};
ghost use Rattle.gx_class.specs.Probes.{limits};
ghost use Rattle.gx_class.specs.SolidProbes.{solid_limits, meeting, lying_in, covering, the_same};

use crate::{Box3Class, BoxProbe, Probing};
use gx_geom::Box3;
use gx_machine::Query;

/// A query of boxes of space as the least and the greatest that each corner may be: of the first four, `x1 y1 z1 x2`,
/// and of the last four, `z1 x2 y2 z2`. So two comparisons serve every query, of entries' keys and of bounds alike.
#[derive(Clone, Copy, Debug)]
pub struct SolidProbe {
    front: BoxProbe,
    back: BoxProbe,
}

/// Any number.
const ANY: (i32, i32) = (i32::MIN, i32::MAX);

impl SolidProbe {
    /// Passed by boxes that share a point with this one.
    fn meeting(q: &Box3) -> SolidProbe
        ensures { solid_limits (limits result.front.low result.front.high) (limits result.back.low result.back.high)
            ≡ meeting q.now }
    {
        let (least, greatest) = ANY;
        SolidProbe {
            front: BoxProbe::between(
                [least, least, least, q.x1()],
                [q.x2(), q.y2(), q.z2(), greatest],
            ),
            back: BoxProbe::between([least, least, q.y1(), q.z1()], [greatest; 4]),
        }
    }

    /// Passed by boxes that lie in this one.
    fn lying_in(q: &Box3) -> SolidProbe
        ensures { solid_limits (limits result.front.low result.front.high) (limits result.back.low result.back.high)
            ≡ lying_in q.now }
    {
        let (least, greatest) = ANY;
        SolidProbe {
            front: BoxProbe::between(
                [q.x1(), q.y1(), q.z1(), least],
                [greatest, greatest, greatest, q.x2()],
            ),
            back: BoxProbe::between([least; 4], [greatest, greatest, q.y2(), q.z2()]),
        }
    }

    /// Passed by boxes that this one lies in.
    fn covering(q: &Box3) -> SolidProbe
        ensures { solid_limits (limits result.front.low result.front.high) (limits result.back.low result.back.high)
            ≡ covering q.now }
    {
        let (least, greatest) = ANY;
        SolidProbe {
            front: BoxProbe::between(
                [least, least, least, q.x2()],
                [q.x1(), q.y1(), q.z1(), greatest],
            ),
            back: BoxProbe::between([least, least, q.y2(), q.z2()], [greatest; 4]),
        }
    }

    /// Passed by this box alone.
    fn same(q: &Box3) -> SolidProbe
        ensures { solid_limits (limits result.front.low result.front.high) (limits result.back.low result.back.high)
            ≡ the_same q.now }
    {
        let front = [q.x1(), q.y1(), q.z1(), q.x2()];
        let back = [q.z1(), q.x2(), q.y2(), q.z2()];
        SolidProbe {
            front: BoxProbe::between(front, front),
            back: BoxProbe::between(back, back),
        }
    }
}

impl Probing for Box3Class {
    ghost use Rattle.gx_class.specs.Probes.{limits};
    ghost use Rattle.gx_class.specs.SolidProbes.{solid_limits, lie_between};

    type Probe = SolidProbe;

    ghost passes = { λ p k.
        lie_between (solid_limits (limits p.front.low p.front.high) (limits p.back.low p.back.high)) k };

    fn probe_keys(query: &Query<Box3>) -> SolidProbe {
        match query {
            Query::Overlap(q) => SolidProbe::meeting(q),
            Query::Within(q) => SolidProbe::lying_in(q),
            Query::Equal(q) => SolidProbe::same(q),
            Query::Covers(q) => SolidProbe::covering(q),
        }
    }

    fn probe_bounds(query: &Query<Box3>) -> SolidProbe {
        match query {
            Query::Overlap(q) | Query::Within(q) => SolidProbe::meeting(q),
            Query::Equal(q) | Query::Covers(q) => SolidProbe::covering(q),
        }
    }

    fn test(probe: &SolidProbe, bytes: &[u8]) -> bool {
        probe.front.passes(bytes) && probe.back.passes(&bytes[8..])
    }
}
