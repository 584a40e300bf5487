//! Random numbers.
ghost use Rattle.std.specs.Prelude.{◌<◌};

use rand_core::utils::NextWord;
use rand_pcg::Pcg32;

/// A number below this one; 0 if there is none.
pub(crate) fn below(draw: &mut Pcg32, bound: usize) -> usize
    ensures { 0 < bound → result < bound }
{
    let word = draw.next_word() as usize;
    if bound == 0 { 0 } else { word % bound }
}

/// Whether one of so many throws is made.
pub(crate) fn one_in(draw: &mut Pcg32, bound: usize) -> bool {
    below(draw, bound) == 0
}

/// A byte.
pub(crate) fn byte_of(draw: &mut Pcg32) -> u8 {
    u8::try_from(below(draw, 256)).unwrap_or(0)
}
