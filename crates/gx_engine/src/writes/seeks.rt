//! An insert or a delete whose pair is in a leaf seeks it, and clears or sets its mark.
ghost use Rattle.std.specs.Prelude.{◌≡◌, ◌-◌, ℕ, not, true, false, IfOk, IfErr};
ghost use Rattle.gx_machine.specs.declared.call.Call.TheVariants.{Delete, Insert};
ghost use Rattle.gx_machine.specs.Keys.{keys_of};
ghost use Rattle.gx_machine.specs.Machine.{is_session};
ghost use Rattle.gx_tree.specs.declared.seek.Sought.TheVariants.{Here};
ghost use Rattle.gx_phases.specs.declared.phase.Phase.TheVariants.{Open};
ghost use Rattle.gx_phases.specs.Moves.{transaction_of};
ghost use Rattle.gx_storage.specs.Bringing.{bringing};
ghost use Rattle.gx_node.specs.Owner.{step_fails};
ghost use Rattle.gx_store.specs.Faults.{store_fails};
ghost use Rattle.gx_engine.specs.Calls.{IsRead, TellsAs};
ghost use Rattle.gx_engine.specs.declared.work.Work.TheVariants.{Seeks};
ghost use Rattle.gx_engine.specs.Seeks.{SeeksAs, set_outcome, set_state, standing_refusal, write_call, written_reply};
ghost use Rattle.gx_engine.specs.States.{is_due};
ghost use Rattle.gx_engine.specs.Writes.{WritesAs, write_events};
ghost use Rattle.gx_storage.specs.Setting.{StaysAs, ToldAs, Unlogged};
ghost use Rattle.gx_engine.specs.Setting.{IsSoughtAs, IsUnsoughtAs, MovesAs, SeekingAs, phase_in};

use crate::Engine;
use crate::laws::a_class_is_lawful;
use crate::work::Work;
use gx_class::{Probing, ReadKeys};
use gx_disk::SectorDisk;
use gx_events::{Need, Outcome};
use gx_geom::Refusal;
use gx_machine::{Entry, Reply};
use gx_node::laws::{leaves, small_marks};
use gx_storage::laws::{a_volume_shows_keys, a_volume_shows_the_logs_tree};
use gx_store::StoreFault;
use gx_tree::{Sought, StepFault, Wanted};

/// The reply of a write that has given its pair this mark: a delete sets it, and an insert clears it.
fn written<B>(marked: bool) -> Reply<B>
    ensures { result ≡ written_reply marked }
{
    if marked {
        Reply::Deleted
    } else {
        Reply::Inserted
    }
}

/// The refusal of a write whose pair has this mark already.
fn standing(marked: bool) -> Refusal
    ensures { result ≡ standing_refusal marked }
{
    if marked {
        Refusal::Absent
    } else {
        Refusal::Present
    }
}

impl<D: SectorDisk, K: ReadKeys> Engine<D, K> {
    // Notes a write: it was made in this leaf, with the mark that was found, and gets its reply; or its pair is sought
    // further to the right.
    fn note_set(
        &mut self,
        session: u8,
        entry: Entry<K::Key>,
        leaf: u32,
        marked: bool,
        sought: Sought,
    ) -> Outcome<K::Key>
        requires session { is_session session ≡ true }
        requires seeks { phase_in session self.old ≡ Open (write_call marked entry) (Seeks leaf) }
        ensures outcome { result ≡ set_outcome marked sought }
        ensures noted { self.new ≡ record self.old
            { sessions = set_state (keys_of K.Key.Shape) session entry leaf marked sought self.old.sessions } }
        ensures device { IsRead D.state self.old self.new }
        ensures told { TellsAs D.state self.old self.new result }
    {
        match sought {
            Sought::Here(_, before) => {
                self.sessions.note(session, entry, before, leaf);
                Outcome::Replied(written(marked))
            }
            Sought::Right(next) => {
                self.sessions.replace_work(session, Work::Seeks(next));
                Outcome::More
            }
        }
    }
}

impl<D: SectorDisk, K: ReadKeys + Probing> Engine<D, K> {
    // Gives an entry's pair a mark, if it is in this leaf.
    fn give_mark(
        &mut self,
        session: u8,
        entry: &Entry<K::Key>,
        leaf: u32,
        marked: bool,
    ) -> Result<Sought, StepFault<StoreFault>>
        requires session { is_session session ≡ true }
        requires early { is_due self.old ≡ false }
        ensures sought { SeekingAs K.Key.Shape K.ReadKeys D.state self.old.volume self.new.volume
            (transaction_of session self.old.sessions) (record { entry = entry.now; before = marked; leaf = leaf }) leaf
            result }
        ensures only { self.new ≡ record self.old { volume = self.new.volume } }
        ensures device { IsRead D.state self.old self.new }
        ensures told { ToldAs D.state (step_fails store_fails) self.old.volume.shelf self.new.volume.shelf result }
    {
        let transaction = self.sessions.transaction(session);
        self.storage.set_mark(transaction, leaf, entry, marked)
    }

    // Seeks an entry's pair in this leaf. Nothing is logged.
    fn seek_pair(
        &mut self,
        entry: &Entry<K::Key>,
        leaf: u32,
    ) -> Result<Sought, StepFault<StoreFault>>
        ensures unlogged { Unlogged K.Key.Shape K.ReadKeys D.state (bringing self.old.volume)
            self.old.volume self.new.volume }
        ensures stays { StaysAs K.KeyClass D.state self.old.volume.shelf self.new.volume.shelf }
        ensures sought { IfOk result (IsSoughtAs K.Key.Shape K.KeyClass D.state self.new.volume entry.now leaf) }
        ensures refused { IfErr result (IsUnsoughtAs K.Key.Shape K.KeyClass D.state self.old.volume self.new.volume
            leaf) }
        ensures only { self.new ≡ record self.old { volume = self.new.volume } }
        ensures device { IsRead D.state self.old self.new }
        ensures told { ToldAs D.state (step_fails store_fails) self.old.volume.shelf self.new.volume.shelf result }
    {
        let wanted = Wanted::<K>::entry(entry);
        self.storage.seek_step(&wanted, leaf)
    }

    // Sets the mark of a write's pair, which is in this leaf with the other mark, while no checkpoint is due. Logs and
    // notes that, and replies.
    fn set_found(
        &mut self,
        session: u8,
        entry: Entry<K::Key>,
        leaf: u32,
        marked: bool,
    ) -> Outcome<K::Key>
        requires session { is_session session ≡ true }
        requires seeks { phase_in session self.old ≡ Open (write_call marked entry) (Seeks leaf) }
        requires works { self.old.sessions.failed ≡ false }
        requires early { is_due self.old ≡ false }
        requires found { (slot : ℕ) × IsSoughtAs K.Key.Shape K.KeyClass D.state self.old.volume entry leaf
            (Here slot (not marked)) }
        ensures comes { SeeksAs K.Key.Shape K.KeyClass D.state session entry leaf marked self.old self.new result }
        ensures moves { MovesAs K.Key.Shape K.ReadKeys D.state session self.old self.new result
            (write_events session (write_call marked entry) result) }
        ensures device { IsRead D.state self.old self.new }
        ensures told { TellsAs D.state self.old self.new result }
    {
        a_class_is_lawful::<K>();
        a_volume_shows_the_logs_tree::<D, K>();
        a_volume_shows_keys::<D, K>();
        leaves::<K>();
        small_marks::<K>(self.storage.most());
        K::known(&entry.key);
        self.sessions.stands();
        self.storage.in_order();
        match self.give_mark(session, &entry, leaf, marked) {
            Ok(sought) => self.note_set(session, entry, leaf, marked, sought),
            Err(StepFault::Pages(fault)) => self.refuse(fault),
            Err(StepFault::Damaged) => self.break_off(Refusal::Damaged),
        }
    }

    // What follows the seek of a write's pair: it is sought further to the right; or it has the write's mark already,
    // and the call is closed; or its mark is set, once no checkpoint is due.
    fn write_sought(
        &mut self,
        session: u8,
        entry: Entry<K::Key>,
        leaf: u32,
        marked: bool,
        sought: Sought,
    ) -> Outcome<K::Key>
        requires session { is_session session ≡ true }
        requires seeks { phase_in session self.old ≡ Open (write_call marked entry) (Seeks leaf) }
        requires works { self.old.sessions.failed ≡ false }
        requires found { IsSoughtAs K.Key.Shape K.KeyClass D.state self.old.volume entry leaf sought }
        ensures comes { SeeksAs K.Key.Shape K.KeyClass D.state session entry leaf marked self.old self.new result }
        ensures moves { MovesAs K.Key.Shape K.ReadKeys D.state session self.old self.new result
            (write_events session (write_call marked entry) result) }
        ensures device { IsRead D.state self.old self.new }
        ensures told { TellsAs D.state self.old self.new result }
    {
        a_class_is_lawful::<K>();
        a_volume_shows_the_logs_tree::<D, K>();
        a_volume_shows_keys::<D, K>();
        self.sessions.stands();
        self.storage.in_order();
        match sought {
            Sought::Right(next) => {
                self.sessions.replace_work(session, Work::Seeks(next));
                Outcome::More
            }
            Sought::Here(_, before) => if before == marked {
                self.close(session, standing(marked))
            } else if self.is_due() {
                Outcome::Help(Need::Checkpoint)
            } else {
                self.set_found(session, entry, leaf, marked)
            },
        }
    }

    // Makes a move of a write whose pair is in this leaf or to the right of it.
    fn write_at(
        &mut self,
        session: u8,
        entry: Entry<K::Key>,
        leaf: u32,
        marked: bool,
    ) -> Outcome<K::Key>
        requires session { is_session session ≡ true }
        requires seeks { phase_in session self.old ≡ Open (write_call marked entry) (Seeks leaf) }
        requires works { self.old.sessions.failed ≡ false }
        ensures comes { SeeksAs K.Key.Shape K.KeyClass D.state session entry leaf marked self.old self.new result }
        ensures moves { MovesAs K.Key.Shape K.ReadKeys D.state session self.old self.new result
            (write_events session (write_call marked entry) result) }
        ensures device { IsRead D.state self.old self.new }
        ensures told { TellsAs D.state self.old self.new result }
    {
        a_class_is_lawful::<K>();
        a_volume_shows_the_logs_tree::<D, K>();
        self.sessions.stands();
        match self.seek_pair(&entry, leaf) {
            Ok(sought) => self.write_sought(session, entry, leaf, marked, sought),
            Err(StepFault::Pages(fault)) => self.refuse(fault),
            Err(StepFault::Damaged) => self.break_off(Refusal::Damaged),
        }
    }

    /// Makes a move of a session's open insert while it seeks its pair, which is in this leaf or to the right of it. If
    /// it isn't in this leaf, the insert seeks it in the next one: `More`. If it is live, the call is closed:
    /// `Replied(Refused(Present))`, and nothing is logged. If it is marked, the mark is cleared, which is logged and
    /// noted: `Replied(Inserted)`. It makes no write and no sync of the device, and takes no memory.
    ///
    /// Returns `Help(Checkpoint)` if the mark is to be cleared while a checkpoint runs or `CHECKPOINT_AT` places of the
    /// extent are taken; `Help` with the event that has to come first, if the record doesn't fit the batch that fills
    /// or a page couldn't be brought. The insert's state is unchanged then. If the device failed, or a page can't be
    /// read, the engine has failed, and the reply is `Device` or `Damaged`.
    pub(crate) fn insert_at(
        &mut self,
        session: u8,
        entry: Entry<K::Key>,
        leaf: u32,
    ) -> Outcome<K::Key>
        requires session { is_session session ≡ true }
        requires seeks { phase_in session self.old ≡ Open (Insert entry) (Seeks leaf) }
        requires works { self.old.sessions.failed ≡ false }
        ensures comes { WritesAs K.Key.Shape K.KeyClass D.state session (Insert entry) self.old self.new result }
        ensures moves { MovesAs K.Key.Shape K.ReadKeys D.state session self.old self.new result
            (write_events session (Insert entry) result) }
        ensures device { IsRead D.state self.old self.new }
        ensures told { TellsAs D.state self.old self.new result }
    {
        self.write_at(session, entry, leaf, false)
    }

    /// Makes a move of a session's open delete while it seeks its pair: as an insert's, but if the pair is live its
    /// mark is set, `Replied(Deleted)`, and if it is marked the reply is `Refused(Absent)`.
    pub(crate) fn delete_at(
        &mut self,
        session: u8,
        entry: Entry<K::Key>,
        leaf: u32,
    ) -> Outcome<K::Key>
        requires session { is_session session ≡ true }
        requires seeks { phase_in session self.old ≡ Open (Delete entry) (Seeks leaf) }
        requires works { self.old.sessions.failed ≡ false }
        ensures comes { WritesAs K.Key.Shape K.KeyClass D.state session (Delete entry) self.old self.new result }
        ensures moves { MovesAs K.Key.Shape K.ReadKeys D.state session self.old self.new result
            (write_events session (Delete entry) result) }
        ensures device { IsRead D.state self.old self.new }
        ensures told { TellsAs D.state self.old self.new result }
    {
        self.write_at(session, entry, leaf, true)
    }
}
