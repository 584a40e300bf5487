//! What open transactions have touched, in the order of entries.
ghost use Rattle.std.specs.Prelude.{◌≤◌, length, take, drop, IfOk};
ghost use Rattle.gx_opening.specs.Noting.{AreLess, AreNoted, IsNoLess, IsPut};

use gx_legality::NotedPair;
use gx_recovery::Touch;
use std::alloc::{AllocError, Global};
use std::cmp::Ordering;

// How many notes at the front of these are of lesser entries.
fn place_of<E: Copy + Ord>(notes: &[NotedPair<E>], entry: &E) -> usize
    ensures inside { result ≤ length notes.now }
    ensures before { AreLess E.cmp entry.now (take result notes.now) }
    ensures behind { IsNoLess E.cmp entry.now (drop result notes.now) }
{
    for at in 0..notes.len() {
        if notes[at].entry.cmp(entry) != Ordering::Less {
            return at;
        }
    }
    notes.len()
}

// Puts a note after those of lesser entries.
fn insert_note<E: Copy + Ord>(
    notes: &mut Vec<NotedPair<E>>,
    note: NotedPair<E>,
) -> Result<(), AllocError>
    ensures { IfOk result (λ _. IsPut E.cmp note notes.old.items notes.new.items) }
{
    let place = place_of(notes, &note.entry);
    notes.insert(place, note)?;
    Ok(())
}

/// Returns a note of each touch, in the order of entries, if no two are of the same entry.
pub fn notes_of<E: Copy + Ord>(
    alloc: Global,
    touched: &[Touch<E>],
) -> Result<Vec<NotedPair<E>>, AllocError>
    ensures { IfOk result (λ notes. AreNoted E.cmp touched.now (length touched.now) notes.items) }
{
    let mut notes = Vec::new(alloc);
    for at in 0..touched.len() {
        let touch = &touched[at];
        let note = NotedPair {
            entry: touch.entry(),
            leaf: touch.leaf(),
        };
        insert_note(&mut notes, note)?;
    }
    Ok(notes)
}
