//! The head of the renewed log, which a checkpoint puts in memory before the log turns.
ghost use Rattle.std.specs.Prelude.{◌≡◌, ◌≤◌, ◌*◌, nat_le, true, length, map, IfSome, OnOk};
ghost use Rattle.gx_glog.specs.declared.stage.Stage.TheVariants.{Idle};
ghost use Rattle.gx_machine.specs.Machine.{is_session};
ghost use Rattle.gx_machine.specs.declared.limits.TheConstants.{SESSIONS};
ghost use Rattle.gx_node.specs.Reading.{format_of};
ghost use Rattle.gx_durable.specs.Classes.{reading_of};
ghost use Rattle.gx_recovery.specs.Renewal.{notes_of};
ghost use Rattle.gx_engine.specs.Heads.{IsNextOf, OnlyHead, PutsAll, PutsHead, PutsTouches, comes_before, from_of};
ghost use Rattle.gx_engine.specs.Heads.{is_less, note_record};
ghost use Rattle.gx_engine.specs.Noted.{has_transaction, touch_by};

use crate::work::Work;
use gx_class::{KeyClass, ReadKeys};
use gx_disk::SectorDisk;
use gx_geom::Shape;
use gx_phases::{Phase, Sessions};
use gx_record::Record;
use gx_storage::Storage;
use gx_store::StoreFault;
use gx_txn::Note;

/// Appends the notes of a transaction to the records of the head, in their order.
fn put_notes<D: SectorDisk, K: ReadKeys>(
    storage: &mut Storage<D, K>,
    transaction: u64,
    notes: &[Note<K::Key>],
) -> Result<(), StoreFault>
    requires idle { storage.old.log.stage ≡ Idle }
    ensures only { OnlyHead storage.old storage.new }
    ensures puts { PutsAll (reading_of K.said (format_of K.KeyClass)) (notes_of (map (touch_by transaction) notes.now))
        (note_record * length notes.now) storage.old storage.new result }
{
    for note in notes {
        K::known(&note.entry.key);
        storage.put_note(
            transaction,
            note.entry.row,
            note.entry.key,
            note.before,
            note.leaf,
        )?;
    }
    Ok(())
}

/// Whether a session has a transaction that is neither committed nor undone.
fn has_transaction<B: Shape, W>(phase: &Phase<B, W>) -> bool
    ensures { result ≡ has_transaction phase.now }
{
    match phase {
        Phase::Free | Phase::Waiting(_) => false,
        Phase::Working | Phase::Open(_, _) | Phase::Undoing(_, _) => true,
    }
}

/// Whether a transaction comes after this one.
fn is_after(after: Option<u64>, transaction: u64) -> bool
    ensures { result ≡ nat_le (from_of after) transaction }
{
    match after {
        Some(last) => last < transaction,
        None => true,
    }
}

/// Whether a transaction has a lower number than that of another session, if there is one.
fn is_less<B: Shape, W: Drop>(
    sessions: &Sessions<B, W>,
    transaction: u64,
    other: Option<u8>,
) -> bool
    requires other { IfSome other (λ s. is_session s ≡ true) }
    ensures { result ≡ is_less sessions.now transaction other }
{
    match other {
        Some(session) => transaction < sessions.transaction(session),
        None => true,
    }
}

/// Whether a session has a transaction that comes after this one, and before another session's.
fn comes_before<B: Shape, W: Drop>(
    sessions: &Sessions<B, W>,
    session: u8,
    after: Option<u64>,
    other: Option<u8>,
) -> bool
    requires session { is_session session ≡ true }
    requires other { IfSome other (λ s. is_session s ≡ true) }
    ensures { result ≡ comes_before sessions.now (from_of after) session other }
{
    let transaction = sessions.transaction(session);
    has_transaction(sessions.phase(session))
        && is_after(after, transaction)
        && is_less(sessions, transaction, other)
}

/// The session whose transaction is the next one after this one.
fn next_noted<B: Shape, W: Drop>(sessions: &Sessions<B, W>, after: Option<u64>) -> Option<u8>
    ensures { IsNextOf sessions.now (from_of after) SESSIONS result }
{
    let mut next: Option<u8> = None;
    for place in 0..8_u8 {
        if comes_before(sessions, place + 1, after, next) {
            next = Some(place + 1);
        }
    }
    next
}

/// Appends the notes of all sessions to the records of the head, in the order of their transactions.
fn put_touches<D: SectorDisk, K: ReadKeys>(
    storage: &mut Storage<D, K>,
    sessions: &Sessions<K::Key, Work<K::Key>>,
) -> Result<(), StoreFault>
    requires idle { storage.old.log.stage ≡ Idle }
    ensures only { OnlyHead storage.old storage.new }
    ensures longer { OnOk result (length storage.old.log.flight ≤ length storage.new.log.flight) }
    ensures puts { PutsTouches (reading_of K.said (format_of K.KeyClass)) sessions.now storage.old storage.new result }
{
    let mut after: Option<u64> = None;
    while let Some(session) = next_noted(sessions, after) {
        let transaction = sessions.transaction(session);
        put_notes(storage, transaction, sessions.notes(session))?;
        after = Some(transaction);
    }
    Ok(())
}

/// Puts the head of the renewed log in memory: the numbers, and then the notes.
pub(crate) fn put_head<D: SectorDisk, K: ReadKeys>(
    storage: &mut Storage<D, K>,
    sessions: &Sessions<K::Key, Work<K::Key>>,
) -> Result<(), StoreFault>
    requires idle { storage.old.log.stage ≡ Idle }
    ensures only { OnlyHead storage.old storage.new }
    ensures some { OnOk result (1 ≤ length storage.new.log.flight) }
    ensures puts { PutsHead (reading_of K.said (format_of K.KeyClass)) sessions.now storage.old storage.new result }
{
    let counters = Record::Counters {
        n: sessions.latest(),
        counter: storage.counter(),
        used: storage.used(),
        next: sessions.next(),
    };
    storage.put_head(&counters)?;
    put_touches(storage, sessions)
}
