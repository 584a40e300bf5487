//! Random numbers.
ghost use Rattle.std.specs.Prelude.{◌<◌};

use rand_core::utils::NextWord;
use rand_pcg::Pcg32;

/// A number below this one; 0 if there is none.
pub(crate) fn below(draw: &mut Pcg32, bound: usize) -> usize
    ensures { 0 < bound → result < bound }
{
    let word = draw.next_word() as usize;
    if bound == 0 { 0 } else { word % bound }
}
