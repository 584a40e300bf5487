//! An abort's moves.
ghost use Rattle.std.specs.Prelude.{◌≡◌, ◌-◌, ℕ, true, false, None, Some};
ghost use Rattle.gx_machine.specs.Machine.{is_session};
ghost use Rattle.gx_txn.specs.declared.note.Note as declared;
ghost use Rattle.gx_node.specs.Owner.{step_fails};
ghost use Rattle.gx_phases.specs.Moves.{is_undoing, next_of, transaction_of};
ghost use Rattle.gx_store.specs.Faults.{store_fails};
ghost use Rattle.gx_storage.specs.Setting.{ToldAs};
ghost use Rattle.gx_engine.specs.Calls.{TellsAs};
ghost use Rattle.gx_engine.specs.States.{is_due};
ghost use Rattle.gx_engine.specs.Undoing.{AreUndoing, EndComes, IsNext, leaf_of, next_leaf, sought_state, undo_work};
ghost use Rattle.gx_engine.specs.Setting.{MovesSoAs, RestoreComesAs, SeekingAs, UndoComesAs, phase_in};

use crate::Engine;
use crate::laws::a_class_is_lawful;
use crate::work::Work;
use gx_class::{Probing, ReadKeys};
use gx_disk::SectorDisk;
use gx_events::{Need, Outcome};
use gx_geom::{Refusal, Shape};
use gx_machine::Reply;
use gx_node::laws::{leaves, small_marks};
use gx_phases::Phase;
use gx_storage::laws::{a_volume_shows_keys, a_volume_shows_the_logs_tree};
use gx_store::StoreFault;
use gx_tree::{Sought, StepFault};
use gx_txn::Note;

/// The leaf in which an undo seeks its next note's pair: if the seek hasn't begun, the one where the transaction last
/// wrote it.
fn leaf_of<B: Shape>(note: &Note<B>, phase: &Phase<B, Work<B>>) -> u32
    ensures { result ≡ leaf_of note.now (undo_work phase.now) }
{
    match phase {
        Phase::Undoing(_, Work::Seeks(leaf)) => *leaf,
        _ => note.leaf,
    }
}

impl<D: SectorDisk, K: ReadKeys> Engine<D, K> {
    // Ends an undo with no note left: logs the end of the transaction, and frees the session.
    fn end_undo(&mut self, session: u8) -> Outcome<K::Key>
        requires session { is_session session ≡ true }
        requires undoes { is_undoing (phase_in session self.old) ≡ true }
        requires works { self.old.sessions.failed ≡ false }
        requires early { is_due self.old ≡ false }
        requires none { next_of session self.old.sessions ≡ None }
        ensures comes { EndComes session self.old self.new result }
        ensures moves { MovesSoAs K.Key.Shape K.ReadKeys D.state session self.old self.new result
            (AreUndoing session self.old.sessions result) }
    {
        a_class_is_lawful::<K>();
        self.sessions.stands();
        let transaction = self.sessions.transaction(session);
        match self.storage.append_end(transaction) {
            Ok(()) => {
                self.sessions.end_undo(session);
                Outcome::Replied(Reply::Aborted)
            }
            Err(_) => Outcome::Help(Need::Log),
        }
    }
}

impl<D: SectorDisk, K: ReadKeys + Probing> Engine<D, K> {
    // If a note's pair is in this leaf, gives it back the mark that it had before the session's transaction first wrote
    // it.
    fn set_noted(
        &mut self,
        session: u8,
        note: &Note<K::Key>,
        leaf: u32,
    ) -> Result<Sought, StepFault<StoreFault>>
        requires session { is_session session ≡ true }
        requires early { is_due self.old ≡ false }
        ensures sought { SeekingAs K.Key.Shape K.ReadKeys D.state self.old.volume self.new.volume
            (transaction_of session self.old.sessions) note.now leaf result }
        ensures only { self.new ≡ record self.old { volume = self.new.volume } }
        ensures told { ToldAs D.state (step_fails store_fails) self.old.volume.shelf self.new.volume.shelf result }
    {
        let transaction = self.sessions.transaction(session);
        self.storage
            .set_mark(transaction, leaf, &note.entry, note.before)
    }

    // Notes the result of a seek of the next note's pair: it was in this leaf, and the note is restored; or it is
    // sought further to the right.
    fn note_sought(&mut self, session: u8, leaf: u32, sought: Sought) -> Outcome<K::Key>
        requires session { is_session session ≡ true }
        ensures outcome { result ≡ Outcome.More }
        ensures noted { (n : declared.Note K.Key) (next : IsNext session self.old.sessions n)
            → self.new ≡ record self.old {
              sessions = sought_state session next.restored n leaf sought
                  self.old.sessions;
            } }
        ensures told { TellsAs D.state self.old self.new result }
    {
        match sought {
            Sought::Here(_, _) => self.sessions.restored(session, leaf, Work::Rests),
            Sought::Right(next) => {
                self.sessions.replace_work(session, Work::Seeks(next));
            }
        }
        Outcome::More
    }

    // The next note is restored, or its pair is sought further to the right.
    fn restore(&mut self, session: u8, note: Note<K::Key>, leaf: u32) -> Outcome<K::Key>
        requires session { is_session session ≡ true }
        requires works { self.old.sessions.failed ≡ false }
        requires early { is_due self.old ≡ false }
        requires next { IsNext session self.old.sessions note }
        requires leaf { leaf ≡ next_leaf session self.old.sessions note }
        ensures comes { (restored : ℕ) → next_of session self.old.sessions ≡ Some restored
            → RestoreComesAs K.Key.Shape K.ReadKeys D.state session restored note leaf self.old self.new result }
        ensures moves { MovesSoAs K.Key.Shape K.ReadKeys D.state session self.old self.new result
            (AreUndoing session self.old.sessions result) }
        ensures told { TellsAs D.state self.old self.new result }
    {
        a_class_is_lawful::<K>();
        a_volume_shows_the_logs_tree::<D, K>();
        a_volume_shows_keys::<D, K>();
        leaves::<K>();
        small_marks::<K>(self.storage.most());
        K::known(&note.entry.key);
        self.sessions.stands();
        self.storage.in_order();
        match self.set_noted(session, &note, leaf) {
            Ok(sought) => self.note_sought(session, leaf, sought),
            Err(StepFault::Pages(fault)) => self.refuse(fault),
            Err(StepFault::Damaged) => self.break_off(Refusal::Damaged),
        }
    }

    /// Makes a move of a session's undo: gives the next note's pair the mark that it had before the transaction first
    /// wrote it, and logs that; or, if the pair is not in its leaf, seeks it further to the right. Returns `More`. If
    /// no note is left, it logs the end of the transaction, frees the session, and returns `Replied(Aborted)`. It makes
    /// no write and no sync of the device and takes no memory.
    ///
    /// Returns `Help(Checkpoint)` exactly if a checkpoint runs or `CHECKPOINT_AT` places of the extent are taken, and
    /// nothing has changed. Returns `Help` with the event that has to come first, if the record doesn't fit the batch
    /// that fills or a page couldn't be brought; the undo's state is unchanged then. If the device failed, or a page
    /// can't be read, the engine has failed, and the reply is `Device` or `Damaged`.
    pub(crate) fn undo(&mut self, session: u8) -> Outcome<K::Key>
        requires session { is_session session ≡ true }
        requires undoes { is_undoing (phase_in session self.old) ≡ true }
        requires works { self.old.sessions.failed ≡ false }
        ensures comes { UndoComesAs K.Key.Shape K.ReadKeys D.state session self.old self.new result }
        ensures moves { MovesSoAs K.Key.Shape K.ReadKeys D.state session self.old self.new result
            (AreUndoing session self.old.sessions result) }
        ensures told { TellsAs D.state self.old self.new result }
    {
        if self.is_due() {
            return Outcome::Help(Need::Checkpoint);
        }
        match self.sessions.next_restored(session) {
            None => self.end_undo(session),
            Some(restored) => {
                let note = self.sessions.notes(session)[restored];
                let leaf = leaf_of(&note, self.sessions.phase(session));
                self.restore(session, note, leaf)
            }
        }
    }
}
