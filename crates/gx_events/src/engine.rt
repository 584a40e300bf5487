//! What an engine promises to the caller that runs its events.
ghost use Rattle.std.specs.Prelude.{◌≡◌, ◌<◌, ℕ, Option, true};
ghost use Rattle.gx_machine.specs.Keys.{keys_of};
ghost use Rattle.gx_machine.specs.Machine.{Machine, newest};
ghost use Rattle.gx_events.specs.declared.event.Event as event;
ghost use Rattle.gx_events.specs.declared.outcome.Outcome as outcome;
ghost use Rattle.gx_events.specs.Happens.{Happens};
ghost use Rattle.gx_events.specs.Work.{is_work, replied};

use crate::{Event, Outcome};
use gx_geom::Shape;

/// An engine that works in events.
///
/// Contracts see it as set machines: whatever machine it is seen as before an event, it is seen afterwards as the
/// machine that the event and its outcome lead to. That machine says what was committed, under which numbers, up to
/// which number commits are durable, what each session has open, and whether a fault has ended the engine.
pub trait Events<B: Shape> {
    /// The engine's assumptions: what follows from the machine that an engine is seen as holds only under these. No
    /// program can test them: for example that the devices of an engine over pages keep what they acknowledge. An
    /// engine in memory assumes nothing.
    ghost granted: { Type 0 };

    /// The machine that the engine is seen as.
    ghost sees: { Self → Machine B → Type 0 };

    /// The engine that an event with its outcome leads to, also from one that is seen as no machine.
    ghost makes: { Self → event.Event B → outcome.Outcome B → Self → Type 0 };

    /// How many pages are in use.
    ghost uses: { Self → ℕ };

    /// Which page may be written now, if there is one.
    ghost dirties: { Self → Option ℕ → Type 0 };

    /// Makes one event. `Happens` says which outcomes it may have, and what each leaves. An ask gets the machine's
    /// reply at once, or stays open; or it is refused with `Failed` by an engine that a fault has ended, or a Begin
    /// with `HistoryFull`. A move is refused with `BadSession` if there is no such session, and then with `NoCall` if
    /// that has no open call; else it replies as the machine does, closes the call with `PagesFull` or `Memory`, is
    /// refused for a fault, seals the session's commit, or changes nothing that the machine shows. The other events
    /// change nothing that it shows, but a step of the log or of a checkpoint may make commits durable, and a fault may
    /// end the engine; they never reply.
    fn step(&mut self, event: Event<B>) -> Outcome<B>
        ensures happens { (m : Machine B) → sees self.old m → (n : Machine B)
            × Happens (keys_of B.Shape) m event result n × sees self.new n }
        ensures made { makes self.old event result self.new }
        ensures quiet { is_work event ≡ true → replied result ≡ 0 };

    /// The number of the last commit that was sealed. If it rises in a move, that move has sealed the session's commit.
    fn commits(&self) -> u64
        ensures { (m : Machine B) → sees self.now m → result ≡ newest m };

    /// The greatest page in use, at least 1.
    fn used(&self) -> u32
        ensures some { 0 < result }
        ensures uses { result ≡ uses self.now };

    /// A page that may be written now, if there is one.
    fn dirty(&self) -> Option<u32>
        ensures { dirties self.now result };

    /// An engine is seen as only one machine.
    ghost one: { (e : Self) (m n : Machine B) → sees e m → sees e n → m ≡ n };
}
