//! The least session that conflicts.
ghost use Rattle.std.specs.Prelude.{◌≡◌, ◌≤◌, ◌&&◌, ◌==◌, not, length};
ghost use Rattle.gx_machine.specs.declared.limits.TheConstants.{SESSIONS};
ghost use Rattle.gx_machine.specs.Least.{least_barring};

use crate::Call;
use gx_geom::Shape;

/// A session, by what it keeps others off.
pub trait Conflicts<B: Shape> {
    ghost use Rattle.std.specs.Prelude.{Bool};
    ghost use Rattle.gx_machine.specs.declared.call.Call.{Call};

    /// Whether another session's call conflicts with it.
    ghost bars: { Self → Call B → Bool };

    /// Whether another session's call conflicts with it.
    fn conflicts(&self, call: &Call<B>) -> bool
        ensures { result ≡ bars self.now call.now };
}

/// Whether the session of this number is another one than `session` and conflicts with its call.
fn other_conflicts<B: Shape, S: Conflicts<B>>(
    slot: &S,
    number: u8,
    call: &Call<B>,
    session: u8,
) -> bool
    ensures { result ≡ (not (number == session) && S.bars slot.now call.now) }
{
    number != session && slot.conflicts(call)
}

/// The least other session that conflicts with a call of `session`, where sessions are numbered from 1.
pub fn least_conflicting<B: Shape, S: Conflicts<B>>(
    slots: &[S],
    call: &Call<B>,
    session: u8,
) -> Option<u8>
    requires { length slots.now ≤ SESSIONS }
    ensures { result ≡ least_barring (λ x. S.bars x call.now) session 1 slots.now }
{
    let mut number = 1;
    for slot in slots {
        if other_conflicts(slot, number, call, session) {
            return Some(number);
        }
        number += 1;
    }
    None
}
