//! The slots of a block that pass.
ghost use Rattle.std.specs.Prelude.{◌≡◌, ◌<◌, ◌≤◌, ◌+◌, [], ◌∷◌, ◌++◌, take, if◌then◌else◌};

use std::marker::Model;

/// How many slots are scanned before their hits are looked at.
pub const BLOCK: usize = 64;

/// Slots of a block, in order. They are gathered without a branch on what passes: if many pass, no branch is predicted
/// well.
#[derive(Drop)]
pub struct Passing {
    slots: [u16; BLOCK],
    count: usize,
}

impl Model for Passing {
    ghost use Rattle.std.specs.Prelude.{List, ℕ, take, ◌≤◌};
    ghost use Rattle.gx_node.specs.declared.passing.TheConstants.{BLOCK};

    ghost Value = { List ℕ };

    ghost view = { λ p. take p.count p.slots };

    ghost invariant = { λ p. p.count ≤ BLOCK };
}

/// Writes a slot at a place, and returns the next place if it passes, or else this one again. The place is a value of
/// the caller's, so that it stays in a register.
pub(crate) fn offer(slots: &mut [u16; BLOCK], place: usize, slot: u16, passes: bool) -> usize
    requires { place < BLOCK }
    ensures kept { take result slots.new ≡ if passes then take place slots.old ++ slot ∷ [] else take place slots.old }
    ensures next { result ≤ place + 1 }
{
    slots[place] = slot;
    place + usize::from(passes)
}

impl Passing {
    /// The first so many of some slots.
    pub(crate) fn of(slots: [u16; BLOCK], count: usize) -> Self
        requires { count ≤ BLOCK }
        ensures { result ≡ take count slots }
    {
        Passing { slots, count }
    }

    /// The slots.
    pub fn as_slice(&self) -> &[u16]
        ensures { result.now ≡ self.now }
    {
        &self.slots[..self.count]
    }
}
