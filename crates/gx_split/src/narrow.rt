//! Sizes and their differences in 64 bits, if the measure's sizes are short.
ghost use Rattle.std.specs.Prelude.{◌≡◌, ◌≤◌, ◌<◌, ◌-◌, ◌^◌, true, nat_lt};
ghost use Rattle.std.specs.Int.{abs_diff};

use crate::Measure;

/// How far a number is above one that is no greater.
pub fn difference<M: Measure>(greater: u128, lesser: u128) -> u128
    requires order { lesser ≤ greater }
    requires short { M.SHORT ≡ true → greater < 2 ^ 64 }
    ensures { result ≡ greater - lesser }
{
    if M::SHORT {
        u128::from(greater as u64 - lesser as u64)
    } else {
        greater - lesser
    }
}

/// How far apart two numbers are.
pub fn distance<M: Measure>(first: u128, second: u128) -> u128
    requires first { M.SHORT ≡ true → first < 2 ^ 64 }
    requires second { M.SHORT ≡ true → second < 2 ^ 64 }
    ensures { result ≡ abs_diff first second }
{
    if M::SHORT {
        u128::from((first as u64).abs_diff(second as u64))
    } else {
        first.abs_diff(second)
    }
}

/// Whether a number is less than another.
pub fn is_less<M: Measure>(first: u128, second: u128) -> bool
    requires first { M.SHORT ≡ true → first < 2 ^ 64 }
    requires second { M.SHORT ≡ true → second < 2 ^ 64 }
    ensures { result ≡ nat_lt first second }
{
    if M::SHORT {
        (first as u64) < (second as u64)
    } else {
        first < second
    }
}
