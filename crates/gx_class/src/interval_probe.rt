//! Intervals tested in their bytes.

use crate::{IntervalClass, KeyClass, Probing};
use gx_geom::Interval;
use gx_machine::Query;

/// A query of intervals, tested on entries' keys or on bounds. Each is read in place: its two ends are two numbers.
#[derive(Clone, Copy, Debug)]
pub struct IntervalProbe {
    query: Query<Interval>,
    of_bounds: bool,
}

impl Probing for IntervalClass {
    ghost use Rattle.gx_class.specs.Intervals.{interval_passes};

    type Probe = IntervalProbe;

    ghost passes = { λ p k. interval_passes p.of_bounds p.query k };

    fn probe_keys(query: &Query<Interval>) -> IntervalProbe {
        IntervalProbe {
            query: *query,
            of_bounds: false,
        }
    }

    fn probe_bounds(query: &Query<Interval>) -> IntervalProbe {
        IntervalProbe {
            query: *query,
            of_bounds: true,
        }
    }

    fn test(probe: &IntervalProbe, bytes: &[u8]) -> bool {
        let Some(key) = Self::decode(bytes) else {
            return false;
        };
        if probe.of_bounds {
            Self::consistent(&probe.query, &key)
        } else {
            Self::matches(&probe.query, &key)
        }
    }
}
