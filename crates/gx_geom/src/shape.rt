//! What a key of the index can do.
ghost use Rattle.std.specs.Prelude.{◌≡◌, Bool, true};
ghost use Rattle.std.specs.declared.cmp.Ordering.TheVariants.{Equal};

/// A key: a thing with an order and three relations.
pub trait Shape: Copy + Ord {
    /// Whether two share a point.
    ghost overlap: { Self → Self → Bool };

    /// Whether the first lies in the second.
    ghost inside: { Self → Self → Bool };

    /// Whether the two share a point.
    fn overlaps(&self, other: &Self) -> bool
        ensures { result ≡ overlap self.now other.now };

    /// Whether this lies in the other.
    fn within(&self, other: &Self) -> bool
        ensures { result ≡ inside self.now other.now };

    /// Whether the other lies in this.
    fn covers(&self, other: &Self) -> bool
        ensures { result ≡ inside other.now self.now };

    /// To overlap goes both ways.
    ghost overlap_both_ways: { (a b : Self) → overlap a b ≡ overlap b a };

    /// Each lies in itself.
    ghost inside_itself: { (a : Self) → inside a a ≡ true };

    /// What lies in a thing lies in whatever that thing lies in.
    ghost inside_through: { (a b c : Self) → inside a b ≡ true → inside b c ≡ true → inside a c ≡ true };

    /// Only what is the same compares as equal.
    ghost same: { (a b : Self) → Self.Ord.cmp a b ≡ Equal → a ≡ b };
}
