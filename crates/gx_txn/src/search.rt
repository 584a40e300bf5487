//! Binary search for a note, and places in vectors that have room.
ghost use Rattle.std.specs.Prelude.{insert, ◌++◌, ◌∷◌, [], vec_len, vec_capacity, ◌≡◌, ◌<◌};
ghost use Rattle.std.specs.Prelude.{◌≤◌, MatchResult, length, slice_index_or, slice_set, false};
ghost use Rattle.gx_machine.specs.Keys.{keys_of};
ghost use Rattle.gx_machine.specs.Sets.{has, InOrder};
ghost use Rattle.gx_txn.specs.declared.note.Note.{Note};
ghost use Rattle.gx_txn.specs.Notes.{entries_of, noting};

use crate::Note;
use gx_geom::Shape;

/// Where the entry's note is in a list in order, or where it goes.
pub fn find_note<B: Shape>(note: &Note<B>, notes: &[Note<B>]) -> Result<usize, usize>
    requires { InOrder (keys_of B.Shape) (entries_of notes.now) }
    ensures { MatchResult result
        (λ i. (i < length notes.now) × ((d : Note B) → noting (keys_of B.Shape) note.now notes.now
        ≡ slice_set notes.now i (record (slice_index_or notes.now i d) { leaf = note.now.leaf })))
        (λ i. (i ≤ length notes.now) × (noting (keys_of B.Shape) note.now notes.now ≡ insert notes.now i note.now)
        × (has (keys_of B.Shape) note.now.entry (entries_of notes.now) ≡ false)) }
{
    notes.binary_search_by_key(&note.entry, |n| n.entry)
}

/// Puts an element at its place in a vector that has room for it.
pub fn insert_at<T: Copy>(list: &mut Vec<T>, place: usize, element: T)
    requires within { place ≤ vec_len list.old }
    requires room { vec_len list.old < vec_capacity list.old }
    ensures items { list.new.items ≡ insert list.old.items place element }
    ensures capacity { vec_capacity list.old ≤ vec_capacity list.new }
{
    let _ = list.insert(place, element);
}

/// Puts an element last in a vector that has room for it.
pub fn put_last<T: Copy>(list: &mut Vec<T>, element: T)
    requires { vec_len list.old < vec_capacity list.old }
    ensures items { list.new.items ≡ list.old.items ++ element ∷ [] }
    ensures capacity { vec_capacity list.old ≤ vec_capacity list.new }
{
    let _ = list.push(element);
}
