//! One event of any kind.
ghost use Rattle.std.specs.Prelude.{◌≡◌, ◌-◌, true, false};
ghost use Rattle.gx_machine.specs.Machine.{is_session};
ghost use Rattle.gx_phases.specs.declared.phase.Phase.TheVariants as phase;
ghost use Rattle.gx_engine.specs.declared.work.Work as work;
ghost use Rattle.gx_engine.specs.Calls.{IsRead, MakesCalls, TellsAs};
ghost use Rattle.gx_engine.specs.Lacking.{LacksOnlyThere};
ghost use Rattle.gx_engine.specs.States.{IsOrderly};
ghost use Rattle.gx_engine.specs.Stepping.{has_call};
ghost use Rattle.gx_engine.specs.Setting.{CallMovesAs, MoveComesAs, StepComesAs, StepsAs, phase_in};

use crate::Engine;
use crate::laws::a_class_is_lawful;
use crate::work::Work;
use gx_class::{Probing, ReadKeys};
use gx_disk::SectorDisk;
use gx_events::{Event, Outcome};
use gx_geom::{Refusal, Shape};
use gx_machine::{Call, Reply};
use gx_phases::{Phase, is_session};

/// Whether a session has a call that isn't answered.
fn has_call<B: Shape>(phase: &Phase<B, Work<B>>) -> bool
    ensures { result ≡ has_call phase.now }
{
    match phase {
        Phase::Free | Phase::Working => false,
        Phase::Open(..) | Phase::Undoing(..) | Phase::Waiting(_) => true,
    }
}

impl<D: SectorDisk, K: ReadKeys + Probing> Engine<D, K> {
    // A move of a call that is open.
    fn move_call(&mut self, session: u8, call: Call<K::Key>) -> Outcome<K::Key>
        requires session { is_session session ≡ true }
        requires open { (work : work.Work K.Key) × (phase_in session self.old ≡ phase.Open call work) }
        requires works { self.old.sessions.failed ≡ false }
        ensures comes { CallMovesAs K.Key.Shape K.ReadKeys D.state session self.old self.new call result }
        ensures steps { StepsAs K.Key.Shape K.ReadKeys D.state (Event.Move session) self.old self.new result }
        ensures device { IsRead D.state self.old self.new }
        ensures told { TellsAs D.state self.old self.new result }
    {
        a_class_is_lawful::<K>();
        self.sessions.stands();
        self.storage.in_order();
        self.storage.most();
        match call {
            Call::Insert(entry) => self.insert(session, entry),
            Call::Delete(entry) => self.delete(session, entry),
            Call::Search(query) => self.search(session, query),
            Call::Commit => self.seal(session),
            // Begin is replied to by its ask, and Abort undoes from its ask on
            Call::Begin | Call::Abort => Outcome::Refused(Refusal::NoCall),
        }
    }

    // A session's move.
    fn move_on(&mut self, session: u8) -> Outcome<K::Key>
        ensures comes { MoveComesAs K.Key.Shape K.ReadKeys D.state session self.old self.new result }
        ensures steps { StepsAs K.Key.Shape K.ReadKeys D.state (Event.Move session) self.old self.new result }
        ensures device { IsRead D.state self.old self.new }
        ensures told { TellsAs D.state self.old self.new result }
    {
        a_class_is_lawful::<K>();
        let failed = self.sessions.has_failed();
        if !is_session(session) {
            return Outcome::Refused(Refusal::BadSession);
        }
        let now = self.sessions.phase(session);
        if !has_call(now) {
            return Outcome::Refused(Refusal::NoCall);
        }
        if failed {
            return Outcome::Replied(Reply::Refused(Refusal::Failed));
        }
        match now {
            Phase::Open(call, _) => {
                let call = *call;
                self.move_call(session, call)
            }
            Phase::Undoing(..) => self.undo(session),
            Phase::Waiting(_) => self.acknowledge(session),
            Phase::Free | Phase::Working => Outcome::Refused(Refusal::NoCall),
        }
    }

    // An event of a session, of the flusher, or a sweep.
    fn make(&mut self, event: Event<K::Key>) -> Outcome<K::Key>
        ensures comes { StepComesAs K.Key.Shape K.ReadKeys D.state event self.old self.new result }
        ensures steps { StepsAs K.Key.Shape K.ReadKeys D.state event self.old self.new result }
        ensures calls { MakesCalls D.state event self.old self.new }
        ensures told { TellsAs D.state self.old self.new result }
    {
        self.sessions.stands();
        match event {
            Event::Ask(session, call) => self.ask(session, call),
            Event::Move(session) => self.move_on(session),
            Event::LogStep => self.log_step(),
            Event::WritePage(page) => self.write_page(page),
            Event::CheckpointStep => self.checkpoint_step(),
            Event::Sweep(page) => self.sweep(page),
        }
    }

    /// Makes one event, and returns its outcome. An ask, a move and a sweep make no write and no sync of the device,
    /// and the others one at most. Only moves of a search, and of a write that looks for its pair, take memory.
    ///
    /// `Ask` opens a session's call, or replies to it at once. `Move` takes an open call further by a page or a record,
    /// or replies to it; it is refused with `BadSession` if there is no such session, and with `NoCall` if that has no
    /// open call. `LogStep` makes the log's next call, `WritePage` writes a page whose changes are gated,
    /// `CheckpointStep` begins a checkpoint or makes its next call, and `Sweep` removes from a leaf the marked pairs
    /// that no session claims. After a fault the reply to every ask and move is `Failed`, and every other event is
    /// refused with `Failed`.
    ///
    /// It returns `Device` exactly if a call of the device failed in it.
    ///
    /// `More`: it did its work. `Help`: it changed nothing that a caller sees, and names the event to make first.
    /// `Nothing`: it had nothing to do.
    #[tactic(auto, using(crate::proofs::Lacking::step_lacks))]
    pub fn step(&mut self, event: Event<K::Key>) -> Outcome<K::Key>
        ensures comes { StepComesAs K.Key.Shape K.ReadKeys D.state event self.old self.new result }
        ensures steps { StepsAs K.Key.Shape K.ReadKeys D.state event self.old self.new result }
        ensures calls { MakesCalls D.state event self.old self.new }
        ensures told { TellsAs D.state self.old self.new result }
        ensures memory { LacksOnlyThere event self.old result }
        ensures order { IsOrderly self.old × IsOrderly self.new }
    {
        self.in_order();
        let outcome = self.make(event);
        self.in_order();
        outcome
    }
}
