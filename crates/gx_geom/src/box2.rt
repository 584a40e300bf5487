//! Closed boxes of the plane.
ghost use Rattle.std.specs.Prelude.{◌≡◌, ◌&&◌, ◌↔◌, ◌≤ℤ◌};
ghost use Rattle.std.specs.Prelude.{int_le, IsTrue, IsOk, IfOk, OnErr, Some};

use crate::axis::{at_most, both, distance};
use crate::{Refusal, Shape};
use std::fmt;
use std::marker::Model;

/// A closed box of the plane, from the corner `(x1, y1)` to the corner `(x2, y2)`.
/// Boxes are ordered by `x1`, then `y1`, `x2` and `y2`.
#[derive(Clone, Copy, Debug, PartialEq, Eq, PartialOrd, Ord)]
pub struct Box2 {
    x1: i32,
    y1: i32,
    x2: i32,
    y2: i32,
}

impl Model for Box2 {
    ghost use Rattle.std.specs.Prelude.{ℤ, refl};
    ghost use Rattle.gx_geom.specs.Rectangles.{Rectangle, IsBox};

    ghost Value = { Rectangle };

    ghost view = { λ b. record { x1 = b.x1; y1 = b.y1; x2 = b.x2; y2 = b.y2 } };

    ghost invariant = { λ b. IsBox (record { x1 = b.x1; y1 = b.y1; x2 = b.x2; y2 = b.y2 }) };

    ghost inverse = { λ b. record { x1 = b.x1; y1 = b.y1; x2 = b.x2; y2 = b.y2 } };
}

impl Box2 {
    ghost use Rattle.std.specs.Int.{int_min, int_max};
    ghost use Rattle.gx_geom.specs.Rectangles.{IsBox, Overlap, Within, overlaps, within, area, union, rectangle_of};

    /// The box with these corners. `BadBox` exactly if `x2 < x1` or `y2 < y1`.
    pub fn new(x1: i32, y1: i32, x2: i32, y2: i32) -> Result<Box2, Refusal>
        ensures ok { IsOk result ↔ ((x1 ≤ℤ x2) × (y1 ≤ℤ y2)) }
        ensures corners { IfOk result (λ b. b ≡ rectangle_of x1 y1 x2 y2) }
        ensures refused { OnErr result (result ≡ Err Refusal.BadBox) }
    {
        if x1 <= x2 && y1 <= y2 {
            Ok(Box2 { x1, y1, x2, y2 })
        } else {
            Err(Refusal::BadBox)
        }
    }

    /// The box that is the one point `(x, y)`.
    pub fn point(x: i32, y: i32) -> Box2
        ensures { result ≡ rectangle_of x y x y }
    {
        Box2 {
            x1: x,
            y1: y,
            x2: x,
            y2: y,
        }
    }

    /// The least x.
    pub fn x1(&self) -> i32
        ensures value { result ≡ self.now.x1 }
        ensures in_order { IsBox self.now }
    {
        self.x1 // left
    }

    /// The least y.
    pub fn y1(&self) -> i32
        ensures value { result ≡ self.now.y1 }
        ensures in_order { IsBox self.now }
    {
        self.y1 // bottom
    }

    /// The greatest x.
    pub fn x2(&self) -> i32
        ensures value { result ≡ self.now.x2 }
        ensures in_order { IsBox self.now }
    {
        self.x2 // right
    }

    /// The greatest y.
    pub fn y2(&self) -> i32
        ensures value { result ≡ self.now.y2 }
        ensures in_order { IsBox self.now }
    {
        self.y2 // top
    }

    /// Width by height, exact up to the greatest box, 18446744065119617025.
    pub fn area(&self) -> u64
        ensures { result ≡ area self.now }
    {
        u64::from(distance(self.x1, self.x2)) * u64::from(distance(self.y1, self.y2))
    }

    /// The least box that covers both.
    pub fn union(&self, other: &Box2) -> Box2
        ensures { result ≡ union self.now other.now }
    {
        Box2 {
            x1: self.lesser_x1(other),
            y1: self.lesser_y1(other),
            x2: self.greater_x2(other),
            y2: self.greater_y2(other),
        }
    }

    /// Whether the two share a point; boxes that touch do.
    pub fn overlaps(&self, other: &Box2) -> bool
        ensures test { result ≡ overlaps self.now other.now }
        ensures corners { IsTrue result ↔ Overlap self.now other.now }
    {
        both(self.overlaps_in_x(other), self.overlaps_in_y(other))
    }

    /// Whether this box lies in the other.
    pub fn within(&self, other: &Box2) -> bool
        ensures test { result ≡ within self.now other.now }
        ensures corners { IsTrue result ↔ Within self.now other.now }
    {
        both(self.within_in_x(other), self.within_in_y(other))
    }

    /// Whether the other lies in this box.
    pub fn covers(&self, other: &Box2) -> bool
        ensures test { result ≡ within other.now self.now }
        ensures corners { IsTrue result ↔ Within other.now self.now }
    {
        other.within(self)
    }

    fn lesser_x1(&self, other: &Box2) -> i32
        ensures lesser { result ≡ int_min self.now.x1 other.now.x1 }
        ensures boxes { IsBox self.now × IsBox other.now }
    {
        self.x1.min(other.x1)
    }

    fn lesser_y1(&self, other: &Box2) -> i32
        ensures { result ≡ int_min self.now.y1 other.now.y1 }
    {
        self.y1.min(other.y1)
    }

    fn greater_x2(&self, other: &Box2) -> i32
        ensures { result ≡ int_max self.now.x2 other.now.x2 }
    {
        self.x2.max(other.x2)
    }

    fn greater_y2(&self, other: &Box2) -> i32
        ensures { result ≡ int_max self.now.y2 other.now.y2 }
    {
        self.y2.max(other.y2)
    }

    fn overlaps_in_x(&self, other: &Box2) -> bool
        ensures { result ≡ (int_le self.now.x1 other.now.x2 && int_le other.now.x1 self.now.x2) }
    {
        both(at_most(self.x1, other.x2), at_most(other.x1, self.x2))
    }

    fn overlaps_in_y(&self, other: &Box2) -> bool
        ensures { result ≡ (int_le self.now.y1 other.now.y2 && int_le other.now.y1 self.now.y2) }
    {
        both(at_most(self.y1, other.y2), at_most(other.y1, self.y2))
    }

    fn within_in_x(&self, other: &Box2) -> bool
        ensures { result ≡ (int_le other.now.x1 self.now.x1 && int_le self.now.x2 other.now.x2) }
    {
        both(at_most(other.x1, self.x1), at_most(self.x2, other.x2))
    }

    fn within_in_y(&self, other: &Box2) -> bool
        ensures { result ≡ (int_le other.now.y1 self.now.y1 && int_le self.now.y2 other.now.y2) }
    {
        both(at_most(other.y1, self.y1), at_most(self.y2, other.y2))
    }
}

impl Shape for Box2 {
    ghost use Rattle.gx_geom.specs.Rectangles.{overlaps, within};
    ghost use Rattle.gx_geom.specs.BoxLaws.{overlaps_both_ways, within_itself, within_through, same_corners};

    ghost overlap = { overlaps };

    ghost inside = { within };

    fn overlaps(&self, other: &Box2) -> bool {
        self.overlaps(other)
    }

    fn within(&self, other: &Box2) -> bool {
        self.within(other)
    }

    fn covers(&self, other: &Box2) -> bool {
        self.covers(other)
    }

    ghost overlap_both_ways = { overlaps_both_ways };

    ghost inside_itself = { within_itself };

    ghost inside_through = { within_through };

    ghost same = { same_corners };
}

impl fmt::Display for Box2 {
    ghost use Rattle.gx_geom.specs.Rectangles.{corners_text};

    ghost output = { λ b. Some (corners_text b) };

    fn fmt<W: fmt::Write>(&self, f: &mut fmt::Formatter<W>) -> fmt::Result {
        let (x1, y1, x2, y2) = (self.x1, self.y1, self.x2, self.y2);
        write!(f, "{x1} {y1} {x2} {y2}")
    }
}
