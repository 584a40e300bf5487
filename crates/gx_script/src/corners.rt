//! Keys by the numbers that they are written in.
ghost use Rattle.std.specs.Prelude.{◌≡◌, ◌≤◌, ◌<◌, ℕ, ℤ, true, Bool, List, length, Option, Some, None, MatchResult};
ghost use Rattle.std.specs.List.{list_all};
ghost use Rattle.gx_script.specs.Corners.{is_short, number_at};

use gx_geom::{Box2, Box3, Refusal, Shape};

/// A key that is written in numbers: its corners.
pub trait Corners: Shape {
    /// In how many numbers a key is written.
    ghost COUNT: { ℕ };

    const COUNT: usize;

    /// The corners of a key, in the order in which they are written.
    ghost corners: { Self → List ℤ };

    /// Whether each of these numbers may be a corner.
    ghost fit: { List ℤ → Bool };

    /// The key with these corners. None if they are reversed.
    ghost made: { List ℤ → Option Self };

    /// Whether each of these numbers may be a corner.
    fn fits(numbers: &[i64]) -> bool
        ensures { result ≡ fit numbers.now };

    /// The key with these corners. `BadBox` if they are reversed.
    fn make(numbers: &[i64]) -> Result<Self, Refusal>
        requires as_many { length numbers.now ≡ COUNT }
        requires fits { fit numbers.now ≡ true }
        ensures { MatchResult result (λ key. made numbers.now ≡ Some key)
            (λ why. (why ≡ Refusal.BadBox) × (made numbers.now ≡ None)) };

    /// The i-th corner in that order, from 0.
    fn corner(&self, i: usize) -> i64
        requires { i < COUNT }
        ensures { result ≡ number_at i (corners self.now) };

    /// A key has six corners at most.
    ghost few: { COUNT ≤ 6 };

    /// A key has as many corners as it is written in.
    ghost as_many: { (key : Self) → length (corners key) ≡ COUNT };

    /// A key that is made of corners is written in these.
    ghost as_made: { (zs : List ℤ) (key : Self) → length zs ≡ COUNT → made zs ≡ Some key → corners key ≡ zs };
}

// whether each of the numbers is in the range of an i32
fn all_short(numbers: &[i64]) -> bool
    ensures { result ≡ list_all is_short numbers.now }
{
    numbers.iter().all(|z| is_short(*z))
}

fn is_short(number: i64) -> bool
    ensures { result ≡ is_short number }
{
    -2147483648 <= number && number <= 2147483647
}

// the number at this place, if each is in that range
fn short_at(numbers: &[i64], i: usize) -> i32
    requires there { i < length numbers.now }
    requires short { list_all is_short numbers.now ≡ true }
    ensures { result ≡ number_at i numbers.now }
{
    numbers[i] as i32
}

impl Corners for Box2 {
    ghost use Rattle.std.proofs.Common.{arith, refl};
    ghost use Rattle.gx_script.specs.Corners.{rectangle_corners, rectangle_made};
    ghost use Rattle.gx_script.specs.CornerLaws.{rectangle_as_made};

    ghost COUNT = { 4 };

    const COUNT: usize = 4;

    ghost corners = { rectangle_corners };

    ghost fit = { λ zs. list_all is_short zs };

    ghost made = { rectangle_made };

    fn fits(numbers: &[i64]) -> bool {
        all_short(numbers)
    }

    fn make(numbers: &[i64]) -> Result<Box2, Refusal> {
        let (x1, y1) = (short_at(numbers, 0), short_at(numbers, 1));
        let (x2, y2) = (short_at(numbers, 2), short_at(numbers, 3));
        Box2::new(x1, y1, x2, y2)
    }

    fn corner(&self, i: usize) -> i64 {
        let corner = match i {
            0 => self.x1(),
            1 => self.y1(),
            2 => self.x2(),
            _ => self.y2(),
        };
        i64::from(corner)
    }

    ghost few = { Prim.omega arith };

    ghost as_many = { λ key. refl };

    ghost as_made = { rectangle_as_made };
}

impl Corners for Box3 {
    ghost use Rattle.std.proofs.Common.{arith, refl};
    ghost use Rattle.gx_script.specs.Corners.{solid_corners, solid_made};
    ghost use Rattle.gx_script.specs.CornerLaws.{solid_as_made};

    ghost COUNT = { 6 };

    const COUNT: usize = 6;

    ghost corners = { solid_corners };

    ghost fit = { λ zs. list_all is_short zs };

    ghost made = { solid_made };

    fn fits(numbers: &[i64]) -> bool {
        all_short(numbers)
    }

    fn make(numbers: &[i64]) -> Result<Box3, Refusal> {
        let (x1, y1, z1) = (
            short_at(numbers, 0),
            short_at(numbers, 1),
            short_at(numbers, 2),
        );
        let (x2, y2, z2) = (
            short_at(numbers, 3),
            short_at(numbers, 4),
            short_at(numbers, 5),
        );
        Box3::new(x1, y1, z1, x2, y2, z2)
    }

    fn corner(&self, i: usize) -> i64 {
        let corner = match i {
            0 => self.x1(),
            1 => self.y1(),
            2 => self.z1(),
            3 => self.x2(),
            4 => self.y2(),
            _ => self.z2(),
        };
        i64::from(corner)
    }

    ghost few = { Prim.omega arith };

    ghost as_many = { λ key. refl };

    ghost as_made = { solid_as_made };
}
