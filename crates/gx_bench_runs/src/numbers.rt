//! Random numbers.

/// The next of a sequence of numbers below 2^24.
pub(crate) fn draw(state: &mut u32) -> u32 {
    *state = state.wrapping_mul(1_664_525).wrapping_add(1_013_904_223);
    *state >> 8
}
