//! What the relations on boxes and on intervals mean for the points in them.
ghost use Rattle.std.specs.Prelude.{◌≡◌, ◌↔◌, ◌≤◌, ℕ, ℤ, pos, negsuc, true};
ghost use Rattle.gx_geom.specs.Rectangles.{Rectangle, IsBox, Overlap, Within, area, union, rectangle_of};
ghost use Rattle.gx_geom.specs.Points.{SharePoint, IsSubset};
ghost use Rattle.gx_geom.specs.Solids as solids;
ghost use Rattle.gx_geom.specs.Solids.{Solid, IsSolid, volume, solid_of};
ghost use Rattle.gx_geom.specs.SolidPoints as space;
ghost use Rattle.gx_geom.specs.Spans.{Span, IsInterval, Meet, LieIn, ShareNumber, HasEachOf};

/// Two boxes overlap exactly if some point lies in both.
pub fn overlap_is_a_shared_point()
    ensures { (a b : Rectangle) → IsBox a → IsBox b → (Overlap a b ↔ SharePoint a b) }
{}

/// A box lies within another exactly if each of its points lies in the other.
pub fn within_is_each_point()
    ensures { (a b : Rectangle) → IsBox a → (Within a b ↔ IsSubset a b) }
{}

/// A union covers both boxes, and whatever covers both covers it.
pub fn union_is_least()
    ensures covers_first { (a b : Rectangle) → Within a (union a b) }
    ensures covers_second { (a b : Rectangle) → Within b (union a b) }
    ensures least { (a b c : Rectangle) → Within a c → Within b c → Within (union a b) c }
    ensures is_box { (a b : Rectangle) → IsBox a → IsBox b → IsBox (union a b) }
{}

/// No box has a greater area than the greatest box, whose area fits in 64 bits.
pub fn area_is_bounded()
    ensures bound { (a : Rectangle) → IsBox a → area a ≤ 18446744065119617025 }
    ensures reached { area (rectangle_of (negsuc 2147483647) (negsuc 2147483647) (pos 2147483647) (pos 2147483647))
        ≡ 18446744065119617025 }
{}

/// Two intervals overlap exactly if some number lies in both, and one lies within another exactly if each of its
/// numbers does.
pub fn intervals_as_numbers()
    ensures overlap { (a b : Span) → IsInterval a → IsInterval b → (Meet a b ↔ ShareNumber a b) }
    ensures within { (a b : Span) → IsInterval a → (LieIn a b ↔ HasEachOf b a) }
{}

/// Two boxes of space overlap exactly if some point lies in both, and one lies within another exactly if each of its
/// points lies in the other.
pub fn solids_as_points()
    ensures overlap { (a b : Solid) → IsSolid a → IsSolid b → (solids.Overlap a b ↔ space.SharePoint a b) }
    ensures within { (a b : Solid) → IsSolid a → (solids.Within a b ↔ space.IsSubset a b) }
{}

/// A union of boxes of space covers both, and whatever covers both covers it.
pub fn solid_union_is_least()
    ensures covers_first { (a b : Solid) → solids.within a (solids.union a b) ≡ true }
    ensures covers_second { (a b : Solid) → solids.within b (solids.union a b) ≡ true }
    ensures least { (a b c : Solid) → solids.within a c ≡ true → solids.within b c ≡ true
        → solids.within (solids.union a b) c ≡ true }
    ensures is_box { (a b : Solid) → IsSolid a → IsSolid b → IsSolid (solids.union a b) }
{}

/// No box of space has a greater volume than the greatest box.
pub fn volume_is_bounded()
    ensures bound { (a : Solid) → IsSolid a → volume a ≤ 79228162458924105385300197375 }
    ensures reached { volume (solid_of (negsuc 2147483647) (negsuc 2147483647) (negsuc 2147483647)
        (pos 2147483647) (pos 2147483647) (pos 2147483647)) ≡ 79228162458924105385300197375 }
{}
