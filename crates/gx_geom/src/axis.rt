//! Numbers of one axis of a box.
ghost use Rattle.std.specs.Prelude.{◌≡◌, ◌&&◌, ◌≤ℤ◌, ◌-ℤ◌, unsigned_abs, int_le};

/// How far a number is above another. The difference may not fit in an `i32`, but its bits are the distance.
pub(crate) fn distance(low: i32, high: i32) -> u32
    requires { low ≤ℤ high }
    ensures { result ≡ unsigned_abs (high -ℤ low) }
{
    high.wrapping_sub(low).cast_unsigned()
}

/// Whether the second number is at least the first.
pub(crate) fn at_most(low: i32, high: i32) -> bool
    ensures { result ≡ int_le low high }
{
    low <= high
}

/// Whether both hold, with no branch between them: over many boxes a branch on the first test is predicted in half of
/// them at best.
pub(crate) fn both(first: bool, second: bool) -> bool
    ensures { result ≡ (first && second) }
{
    first & second
}
