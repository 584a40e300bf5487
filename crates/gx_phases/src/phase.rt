//! The phases of a session.
use gx_geom::Shape;
use gx_machine::Call;

/// The phase of a session. `W` is the state that the engine keeps of the call's work over its tree.
#[derive(Drop)]
pub enum Phase<B: Shape, W> {
    /// It has no transaction.
    Free,
    /// It has a transaction and no open call.
    Working,
    /// It has a transaction and this open call, with this state of its work.
    Open(Call<B>, W),
    /// It undoes what its transaction wrote: so many of its notes are restored, and this is the state of the work on
    /// the next.
    Undoing(usize, W),
    /// Its commit is sealed under this number, and not yet acknowledged.
    Waiting(u64),
}

impl<B: Shape, W> Phase<B, W> {
    ghost use Rattle.std.specs.Prelude.{◌≡◌, true};
    ghost use Rattle.std.specs.Borrow.{sem};
    ghost use Rattle.gx_phases.specs.Lending.{lends_work};
    ghost use Rattle.gx_phases.specs.Moves.{has_work, with_work};

    /// Lends the work of an open call or of an undo.
    pub(crate) fn work_mut(&mut self) -> &mut W
        requires { has_work self.old ≡ true }
        ensures* writes_back { sem 𝓛 (lends_work B.row W.row self.entry result) }
        ensures work { result.now ≡ (with_work result.now self.old).0 }
    {
        match self {
            Phase::Open(_, work) => work,
            Phase::Undoing(_, work) => work,
            Phase::Free | Phase::Working | Phase::Waiting(_) => unreachable!(),
        }
    }
}
