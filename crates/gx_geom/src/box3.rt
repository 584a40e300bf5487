//! Closed boxes of space.
ghost use Rattle.std.specs.Prelude.{◌≡◌, ◌↔◌, ◌≤ℤ◌};
ghost use Rattle.std.specs.Prelude.{IsTrue, IsOk, IfOk, OnErr, Some};

use crate::axis::{at_most, both, distance};
use crate::{Refusal, Shape};
use std::fmt;
use std::marker::Model;

/// A closed box of space, from the corner `(x1, y1, z1)` to the corner `(x2, y2, z2)`.
/// Boxes are ordered by `x1`, then `y1`, `z1`, `x2`, `y2` and `z2`.
#[derive(Clone, Copy, Debug, PartialEq, Eq, PartialOrd, Ord)]
pub struct Box3 {
    x1: i32,
    y1: i32,
    z1: i32,
    x2: i32,
    y2: i32,
    z2: i32,
}

impl Model for Box3 {
    ghost use Rattle.gx_geom.specs.Solids.{Solid, IsSolid, solid_of};

    ghost Value = { Solid };

    ghost view = { λ b. solid_of b.x1 b.y1 b.z1 b.x2 b.y2 b.z2 };

    ghost invariant = { λ b. IsSolid (solid_of b.x1 b.y1 b.z1 b.x2 b.y2 b.z2) };

    ghost inverse = { λ b. record { x1 = b.x1; y1 = b.y1; z1 = b.z1; x2 = b.x2; y2 = b.y2; z2 = b.z2 } };
}

impl Box3 {
    ghost use Rattle.std.specs.Int.{int_min, int_max};
    ghost use Rattle.gx_geom.specs.Spans.{meets, lies_in};
    ghost use Rattle.gx_geom.specs.Solids.{IsSolid, Overlap, Within, overlaps, within, volume, union, solid_of};
    ghost use Rattle.gx_geom.specs.Solids.{along_x, along_y, along_z};

    /// The box with these corners. `BadBox` exactly if `x2 < x1`, `y2 < y1` or `z2 < z1`.
    pub fn new(x1: i32, y1: i32, z1: i32, x2: i32, y2: i32, z2: i32) -> Result<Box3, Refusal>
        ensures ok { IsOk result ↔ ((x1 ≤ℤ x2) × (y1 ≤ℤ y2) × (z1 ≤ℤ z2)) }
        ensures corners { IfOk result (λ b. b ≡ solid_of x1 y1 z1 x2 y2 z2) }
        ensures refused { OnErr result (result ≡ Err Refusal.BadBox) }
    {
        if x1 <= x2 && y1 <= y2 && z1 <= z2 {
            Ok(Box3 {
                x1,
                y1,
                z1,
                x2,
                y2,
                z2,
            })
        } else {
            Err(Refusal::BadBox)
        }
    }

    /// The box that is the one point `(x, y, z)`.
    pub fn point(x: i32, y: i32, z: i32) -> Box3
        ensures { result ≡ solid_of x y z x y z }
    {
        Box3 {
            x1: x,
            y1: y,
            z1: z,
            x2: x,
            y2: y,
            z2: z,
        }
    }

    /// The least x.
    pub fn x1(&self) -> i32
        ensures value { result ≡ self.now.x1 }
        ensures in_order { IsSolid self.now }
    {
        self.x1 // west
    }

    /// The least y.
    pub fn y1(&self) -> i32
        ensures value { result ≡ self.now.y1 }
        ensures in_order { IsSolid self.now }
    {
        self.y1 // south
    }

    /// The least z.
    pub fn z1(&self) -> i32
        ensures value { result ≡ self.now.z1 }
        ensures in_order { IsSolid self.now }
    {
        self.z1 // bottom
    }

    /// The greatest x.
    pub fn x2(&self) -> i32
        ensures value { result ≡ self.now.x2 }
        ensures in_order { IsSolid self.now }
    {
        self.x2 // east
    }

    /// The greatest y.
    pub fn y2(&self) -> i32
        ensures value { result ≡ self.now.y2 }
        ensures in_order { IsSolid self.now }
    {
        self.y2 // north
    }

    /// The greatest z.
    pub fn z2(&self) -> i32
        ensures value { result ≡ self.now.z2 }
        ensures in_order { IsSolid self.now }
    {
        self.z2 // top
    }

    /// Width by height by depth, exact up to the greatest box, 79228162458924105385300197375.
    pub fn volume(&self) -> u128
        ensures { result ≡ volume self.now }
    {
        let width = u64::from(distance(self.x1, self.x2));
        let height = u64::from(distance(self.y1, self.y2));
        u128::from(width * height) * u128::from(distance(self.z1, self.z2))
    }

    /// The least box that covers both.
    pub fn union(&self, other: &Box3) -> Box3
        ensures { result ≡ union self.now other.now }
    {
        Box3 {
            x1: self.lesser_x1(other),
            y1: self.lesser_y1(other),
            z1: self.lesser_z1(other),
            x2: self.greater_x2(other),
            y2: self.greater_y2(other),
            z2: self.greater_z2(other),
        }
    }

    /// Whether the two share a point; boxes that touch do.
    pub fn overlaps(&self, other: &Box3) -> bool
        ensures test { result ≡ overlaps self.now other.now }
        ensures corners { IsTrue result ↔ Overlap self.now other.now }
    {
        let in_yz = both(self.overlaps_in_y(other), self.overlaps_in_z(other));
        both(self.overlaps_in_x(other), in_yz)
    }

    /// Whether this box lies in the other.
    pub fn within(&self, other: &Box3) -> bool
        ensures test { result ≡ within self.now other.now }
        ensures corners { IsTrue result ↔ Within self.now other.now }
    {
        let in_yz = both(self.within_in_y(other), self.within_in_z(other));
        both(self.within_in_x(other), in_yz)
    }

    /// Whether the other lies in this box.
    pub fn covers(&self, other: &Box3) -> bool
        ensures test { result ≡ within other.now self.now }
        ensures corners { IsTrue result ↔ Within other.now self.now }
    {
        other.within(self)
    }

    fn lesser_x1(&self, other: &Box3) -> i32
        ensures lesser { result ≡ int_min self.now.x1 other.now.x1 }
        ensures boxes { IsSolid self.now × IsSolid other.now }
    {
        self.x1.min(other.x1)
    }

    fn lesser_y1(&self, other: &Box3) -> i32
        ensures { result ≡ int_min self.now.y1 other.now.y1 }
    {
        self.y1.min(other.y1)
    }

    fn lesser_z1(&self, other: &Box3) -> i32
        ensures { result ≡ int_min self.now.z1 other.now.z1 }
    {
        self.z1.min(other.z1)
    }

    fn greater_x2(&self, other: &Box3) -> i32
        ensures { result ≡ int_max self.now.x2 other.now.x2 }
    {
        self.x2.max(other.x2)
    }

    fn greater_y2(&self, other: &Box3) -> i32
        ensures { result ≡ int_max self.now.y2 other.now.y2 }
    {
        self.y2.max(other.y2)
    }

    fn greater_z2(&self, other: &Box3) -> i32
        ensures { result ≡ int_max self.now.z2 other.now.z2 }
    {
        self.z2.max(other.z2)
    }

    fn overlaps_in_x(&self, other: &Box3) -> bool
        ensures { result ≡ meets (along_x self.now) (along_x other.now) }
    {
        both(at_most(self.x1, other.x2), at_most(other.x1, self.x2))
    }

    fn overlaps_in_y(&self, other: &Box3) -> bool
        ensures { result ≡ meets (along_y self.now) (along_y other.now) }
    {
        both(at_most(self.y1, other.y2), at_most(other.y1, self.y2))
    }

    fn overlaps_in_z(&self, other: &Box3) -> bool
        ensures { result ≡ meets (along_z self.now) (along_z other.now) }
    {
        both(at_most(self.z1, other.z2), at_most(other.z1, self.z2))
    }

    fn within_in_x(&self, other: &Box3) -> bool
        ensures { result ≡ lies_in (along_x self.now) (along_x other.now) }
    {
        both(at_most(other.x1, self.x1), at_most(self.x2, other.x2))
    }

    fn within_in_y(&self, other: &Box3) -> bool
        ensures { result ≡ lies_in (along_y self.now) (along_y other.now) }
    {
        both(at_most(other.y1, self.y1), at_most(self.y2, other.y2))
    }

    fn within_in_z(&self, other: &Box3) -> bool
        ensures { result ≡ lies_in (along_z self.now) (along_z other.now) }
    {
        both(at_most(other.z1, self.z1), at_most(self.z2, other.z2))
    }
}

impl Shape for Box3 {
    ghost use Rattle.gx_geom.specs.Solids.{overlaps, within};
    ghost use Rattle.gx_geom.specs.SolidLaws.{overlaps_both_ways, within_itself, within_through, same_corners};

    ghost overlap = { overlaps };

    ghost inside = { within };

    fn overlaps(&self, other: &Box3) -> bool {
        self.overlaps(other)
    }

    fn within(&self, other: &Box3) -> bool {
        self.within(other)
    }

    fn covers(&self, other: &Box3) -> bool {
        self.covers(other)
    }

    ghost overlap_both_ways = { overlaps_both_ways };

    ghost inside_itself = { within_itself };

    ghost inside_through = { within_through };

    ghost same = { same_corners };
}

impl fmt::Display for Box3 {
    ghost use Rattle.gx_geom.specs.Solids.{corners_text};

    ghost output = { λ b. Some (corners_text b) };

    fn fmt<W: fmt::Write>(&self, f: &mut fmt::Formatter<W>) -> fmt::Result {
        let (x1, y1, z1) = (self.x1, self.y1, self.z1);
        let (x2, y2, z2) = (self.x2, self.y2, self.z2);
        write!(f, "{x1} {y1} {z1} {x2} {y2} {z2}")
    }
}
