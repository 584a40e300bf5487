//! The log of a migrated index: one batch, with the numbers and with a note for each entry that an open transaction has
//! touched.
ghost use Rattle.std.specs.Prelude.{◌≡◌, ◌⊎◌, ◌*◌, ◌<◌, ◌≤◌, ◌∷◌, [], length, IfErr, IfOk, OnOk};
ghost use Rattle.gx_durable.specs.Classes.{reading_by};
ghost use Rattle.gx_durable.specs.Spelled.{AreRecords};
ghost use Rattle.gx_glog.specs.declared.extent.TheConstants.{BODY_ROOM};
ghost use Rattle.gx_record.specs.Format.{IsInRange};
ghost use Rattle.gx_record.specs.Seen.{is_marked, rec_of};
ghost use Rattle.gx_record.specs.declared.sizes.TheConstants.{COUNTERS_RECORD};
ghost use Rattle.gx_recovery.specs.Records as records;
ghost use Rattle.gx_recovery.specs.Renewal.{head_of, notes_of};
ghost use Rattle.gx_recovery.specs.declared.TheConstants.{TOUCHED};
ghost use Rattle.gx_migrate.specs.Head.{PutsAll, PutsRecord, note_record};

use crate::buffer::Buffer;
use gx_class::ReadKeys;
use gx_geom::Refusal;
use gx_machine::Entry;
use gx_record::{Mark, Record};
use gx_recovery::{Analysis, Touch};
use std::alloc::{AllocError, Global};

// A mark as a record has it.
fn mark_of(marked: bool) -> Mark
    ensures { is_marked result ≡ marked }
{
    if marked { Mark::Marked } else { Mark::Live }
}

// Appends a record. Refused as `Damaged` if there is no room for it: no head of an undamaged log is so long.
fn put_record<K: ReadKeys>(head: &mut Buffer, logged: &Record<'_>) -> Result<(), Refusal>
    requires { IsInRange (rec_of logged.now) }
    ensures { PutsRecord (reading_by K.said K.KeyClass) (rec_of logged.now) head.old head.new result }
{
    if head.push(logged) {
        Ok(())
    } else {
        Err(Refusal::Damaged)
    }
}

// Appends the numbers.
fn put_counters<K: ReadKeys>(
    head: &mut Buffer,
    analysis: &Analysis<Entry<K::Key>>,
) -> Result<(), Refusal>
    ensures puts { PutsAll (reading_by K.said K.KeyClass) (records.Counters analysis.now.told.number
        analysis.now.told.counter analysis.now.told.used analysis.now.told.next ∷ [])
        COUNTERS_RECORD head.old head.new result }
    ensures some { OnOk result (1 ≤ length head.new) }
{
    let counters = Record::Counters {
        n: analysis.number(),
        counter: analysis.counter(),
        used: analysis.used(),
        next: analysis.next(),
    };
    put_record::<K>(head, &counters)
}

// Appends the note of a touch. Its key's bytes are written over `spelled`.
fn put_note<K: ReadKeys>(
    head: &mut Buffer,
    spelled: &mut [u8],
    touch: &Touch<Entry<K::Key>>,
) -> Result<(), Refusal>
    requires key { length spelled.old ≡ K.KEY }
    ensures key { length spelled.new ≡ K.KEY }
    ensures puts { PutsAll (reading_by K.said K.KeyClass) (notes_of (touch.now ∷ [])) note_record
        head.old head.new result }
{
    let entry = touch.entry();
    K::known(&entry.key);
    K::encode(entry.key, spelled);
    let note = Record::Note {
        tx: touch.transaction(),
        row: entry.row,
        key: spelled,
        before: mark_of(touch.before()),
        leaf: touch.leaf(),
    };
    put_record::<K>(head, &note)
}

// Appends the notes of touches, in their order.
fn put_notes<K: ReadKeys>(
    head: &mut Buffer,
    spelled: &mut [u8],
    touched: &[Touch<Entry<K::Key>>],
) -> Result<(), Refusal>
    requires key { length spelled.old ≡ K.KEY }
    ensures puts { PutsAll (reading_by K.said K.KeyClass) (notes_of touched.now) (note_record * length touched.now)
        head.old head.new result }
{
    for touch in touched {
        put_note::<K>(head, spelled, touch)?;
    }
    Ok(())
}

// Allocates a body without records, and room for a key's bytes.
fn room_for<K: ReadKeys>(alloc: Global) -> Result<(Buffer, Vec<u8>), AllocError>
    ensures { IfOk result (λ room. (room.0 ≡ []) × (length room.1.items ≡ K.KEY)) }
{
    let spelled = vec![in alloc; 0; K::KEY]?;
    Ok((Buffer::new(alloc)?, spelled))
}

/// The body of the log's first batch: the log as what was read of it says it.
///
/// Refused if there is no memory (`Memory`), or if so much was touched that there is no room for it (`Damaged`), which
/// no undamaged log says.
pub(crate) fn renewed_head<K: ReadKeys>(
    alloc: Global,
    analysis: &Analysis<Entry<K::Key>>,
) -> Result<Buffer, Refusal>
    ensures records { IfOk result (λ head. AreRecords (reading_by K.said K.KeyClass) head
        (head_of analysis.now.told)) }
    ensures some { IfOk result (λ head. 1 ≤ length head) }
    ensures few { IfOk result (λ head. length head ≤ BODY_ROOM) }
    ensures refusal { IfErr result (λ why. (why ≡ Refusal.Memory)
        ⊎ ((why ≡ Refusal.Damaged) × (TOUCHED < length analysis.now.told.touched))) }
{
    let Ok((mut head, mut spelled)) = room_for::<K>(alloc) else {
        return Err(Refusal::Memory);
    };
    put_counters::<K>(&mut head, analysis)?;
    put_notes::<K>(&mut head, &mut spelled, analysis.touched())?;
    Ok(head)
}
