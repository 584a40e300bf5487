//! Closed intervals of whole numbers.
ghost use Rattle.std.specs.Prelude.{◌≡◌, ◌↔◌, ◌≤ℤ◌, ◌-ℤ◌, unsigned_abs, IsTrue, IsOk, IfOk, OnErr, Some};

use crate::{Refusal, Shape};
use std::fmt;
use std::marker::Model;

/// A closed interval of whole numbers, from `lo` to `hi`. Intervals are ordered by `lo`, then `hi`.
#[derive(Clone, Copy, Debug, PartialEq, Eq, PartialOrd, Ord)]
pub struct Interval {
    lo: i64,
    hi: i64,
}

impl Model for Interval {
    ghost use Rattle.std.specs.Prelude.{ℤ, refl};
    ghost use Rattle.gx_geom.specs.Spans.{Span, IsInterval};

    ghost Value = { Span };

    ghost view = { λ a. record { lo = a.lo; hi = a.hi } };

    ghost invariant = { λ a. IsInterval (record { lo = a.lo; hi = a.hi }) };

    ghost inverse = { λ a. record { lo = a.lo; hi = a.hi } };
}

/// How far a number is above another. The difference may not fit in an `i64`, but its bits are the distance.
fn distance(low: i64, high: i64) -> u64
    requires { low ≤ℤ high }
    ensures { result ≡ unsigned_abs (high -ℤ low) }
{
    high.wrapping_sub(low).cast_unsigned()
}

impl Interval {
    ghost use Rattle.std.specs.Int.{int_min, int_max};
    ghost use Rattle.gx_geom.specs.Spans.{IsInterval, Meet, LieIn, meets, lies_in, size, hull, span_of};

    /// The interval with these ends. `BadBox` exactly if `hi < lo`.
    pub fn new(lo: i64, hi: i64) -> Result<Interval, Refusal>
        ensures ok { IsOk result ↔ (lo ≤ℤ hi) }
        ensures ends { IfOk result (λ a. a ≡ span_of lo hi) }
        ensures refused { OnErr result (result ≡ Err Refusal.BadBox) }
    {
        if lo <= hi {
            Ok(Interval { lo, hi })
        } else {
            Err(Refusal::BadBox)
        }
    }

    /// The interval that is the one number.
    pub fn point(number: i64) -> Interval
        ensures { result ≡ span_of number number }
    {
        Interval {
            lo: number,
            hi: number,
        }
    }

    /// The least number.
    pub fn lo(&self) -> i64
        ensures value { result ≡ self.now.lo }
        ensures in_order { IsInterval self.now }
    {
        self.lo // least
    }

    /// The greatest number.
    pub fn hi(&self) -> i64
        ensures value { result ≡ self.now.hi }
        ensures in_order { IsInterval self.now }
    {
        self.hi // greatest
    }

    /// How far the ends are apart, exact up to 2^64 - 1.
    pub fn size(&self) -> u64
        ensures value { result ≡ size self.now }
        ensures in_order { IsInterval self.now }
    {
        distance(self.lo, self.hi)
    }

    /// The least interval that covers both.
    pub fn union(&self, other: &Interval) -> Interval
        ensures { result ≡ hull self.now other.now }
    {
        Interval {
            lo: self.lesser_lo(other),
            hi: self.greater_hi(other),
        }
    }

    /// Whether the two share a number; intervals that touch do.
    pub fn overlaps(&self, other: &Interval) -> bool
        ensures test { result ≡ meets self.now other.now }
        ensures ends { IsTrue result ↔ Meet self.now other.now }
    {
        self.lo <= other.hi && other.lo <= self.hi
    }

    /// Whether this interval lies in the other.
    pub fn within(&self, other: &Interval) -> bool
        ensures test { result ≡ lies_in self.now other.now }
        ensures ends { IsTrue result ↔ LieIn self.now other.now }
    {
        other.lo <= self.lo && self.hi <= other.hi
    }

    /// Whether the other lies in this interval.
    pub fn covers(&self, other: &Interval) -> bool
        ensures test { result ≡ lies_in other.now self.now }
        ensures ends { IsTrue result ↔ LieIn other.now self.now }
    {
        other.within(self)
    }

    fn lesser_lo(&self, other: &Interval) -> i64
        ensures lesser { result ≡ int_min self.now.lo other.now.lo }
        ensures intervals { IsInterval self.now × IsInterval other.now }
    {
        self.lo.min(other.lo)
    }

    fn greater_hi(&self, other: &Interval) -> i64
        ensures { result ≡ int_max self.now.hi other.now.hi }
    {
        self.hi.max(other.hi)
    }
}

impl Shape for Interval {
    ghost use Rattle.gx_geom.specs.Spans.{meets, lies_in};
    ghost use Rattle.gx_geom.specs.SpanLaws.{meets_both_ways, lies_in_itself, lies_in_through, same_ends};

    ghost overlap = { meets };

    ghost inside = { lies_in };

    fn overlaps(&self, other: &Interval) -> bool {
        self.overlaps(other)
    }

    fn within(&self, other: &Interval) -> bool {
        self.within(other)
    }

    fn covers(&self, other: &Interval) -> bool {
        self.covers(other)
    }

    ghost overlap_both_ways = { meets_both_ways };

    ghost inside_itself = { lies_in_itself };

    ghost inside_through = { lies_in_through };

    ghost same = { same_ends };
}

impl fmt::Display for Interval {
    ghost use Rattle.gx_geom.specs.Spans.{ends_text};

    ghost output = { λ a. Some (ends_text a) };

    fn fmt<W: fmt::Write>(&self, f: &mut fmt::Formatter<W>) -> fmt::Result {
        let (lo, hi) = (self.lo, self.hi);
        write!(f, "{lo} {hi}")
    }
}
