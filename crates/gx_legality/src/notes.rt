//! Notes of pairs that are sought, and the stage of a pass for each.
ghost use Rattle.std.specs.Prelude.{◌≡◌, ◌≢◌, ◌↔◌, ◌==◌, ℕ, ◌<◌, true, false, IsTrue, Some};
ghost use Rattle.std.specs.Prelude.{length, slice_get, MatchOption, OnOk, IfOk, IfErr};
ghost use Rattle.gx_legality.specs.Gathered.{Ascends};
ghost use Rattle.gx_legality.specs.Placing.{Moves, come_to, is_noted, meets, noted, stage_at};
ghost use Rattle.gx_legality.specs.declared.notes.NoteStage.TheVariants.{Ahead, Found};

use std::alloc::{AllocError, Global};
use std::cmp::Ordering;

/// A pair that an open transaction touched, by its row and key, and the leaf that is remembered for it.
#[derive(Clone, Copy)]
pub struct NotedPair<E> {
    /// The pair's row and key.
    pub entry: E,
    /// The number of the leaf.
    pub leaf: u32,
}

/// The stage of a pass along the chain for a note.
#[derive(Clone, Copy)]
pub(crate) enum NoteStage {
    /// It hasn't reached the note's leaf.
    Ahead,
    /// It has reached the note's leaf, and not yet its pair.
    Reached,
    /// It has reached the note's pair.
    Found,
}

/// Whether notes are in order by their pairs, and no pair has two.
pub fn are_in_order<E: Ord + Copy>(notes: &[NotedPair<E>]) -> bool
    ensures { IsTrue result ↔ Ascends E.cmp (noted notes.now) }
{
    for at in 1..notes.len() {
        if notes[at - 1].entry.cmp(&notes[at].entry) != Ordering::Less {
            return false;
        }
    }
    true
}

/// The place of a pair's note, by halves. `None` if it has none.
fn find<E: Ord + Copy>(notes: &[NotedPair<E>], entry: &E) -> Option<usize>
    requires { Ascends E.cmp (noted notes.now) }
    ensures { MatchOption result
        ((i : ℕ) (n : NotedPair E) → slice_get notes.now i ≡ Some n → is_noted E.cmp n entry.now ≡ false)
        (λ at. (at < length notes.now) × ((i : ℕ) (n : NotedPair E) → slice_get notes.now i ≡ Some n
        → is_noted E.cmp n entry.now ≡ (i == at))) }
{
    let mut low = 0;
    let mut high = notes.len();
    while low < high {
        let middle = low + (high - low) / 2;
        match notes[middle].entry.cmp(entry) {
            Ordering::Less => low = middle + 1,
            Ordering::Equal => return Some(middle),
            Ordering::Greater => high = middle,
        }
    }
    None
}

/// Stages of so many notes, of which none was reached.
pub(crate) fn blank_stages(alloc: Global, count: usize) -> Result<Vec<NoteStage>, AllocError>
    ensures len { IfOk result (λ stages. length stages.items ≡ count) }
    ensures ahead { IfOk result (λ stages. (i : ℕ) → stage_at stages.items i ≡ Ahead) }
{
    vec![in alloc; NoteStage::Ahead; count]
}

/// A note's stage once the pass reaches its pair.
fn meet(stage: NoteStage) -> NoteStage
    ensures { result ≡ meets true stage }
{
    match stage {
        NoteStage::Ahead => NoteStage::Ahead,
        NoteStage::Reached | NoteStage::Found => NoteStage::Found,
    }
}

/// Notes that the pass has reached a page.
pub(crate) fn come_to_page<E: Copy>(notes: &[NotedPair<E>], stages: &mut [NoteStage], page: u32)
    requires { length stages.old ≡ length notes.now }
    ensures { Moves (λ n s. come_to page n.leaf s) notes.now stages.old stages.new }
{
    for at in 0..notes.len() {
        if notes[at].leaf == page {
            stages[at] = reach(stages[at]);
        }
    }
}

/// A note's stage once the pass reaches its leaf.
fn reach(stage: NoteStage) -> NoteStage
    ensures { (page : ℕ) → result ≡ come_to page page stage }
{
    match stage {
        NoteStage::Ahead | NoteStage::Reached => NoteStage::Reached,
        NoteStage::Found => NoteStage::Found,
    }
}

/// Notes that the pass has reached a pair.
pub(crate) fn meet_entry<E: Ord + Copy>(notes: &[NotedPair<E>], stages: &mut [NoteStage], entry: &E)
    requires as_many { length stages.old ≡ length notes.now }
    requires in_order { Ascends E.cmp (noted notes.now) }
    ensures { Moves (λ n s. meets (is_noted E.cmp n entry.now) s) notes.now stages.old stages.new }
{
    if let Some(at) = find(notes, entry) {
        stages[at] = meet(stages[at]);
    }
}

/// Whether the pass has reached a note's pair.
fn is_found(stage: NoteStage) -> bool
    ensures { IsTrue result ↔ (stage ≡ Found) }
{
    match stage {
        NoteStage::Found => true,
        NoteStage::Ahead | NoteStage::Reached => false,
    }
}

/// Tests that the pass has reached each note's pair. Refused, with the leaf, if it hasn't.
pub(crate) fn test_found<E: Copy>(notes: &[NotedPair<E>], stages: &[NoteStage]) -> Result<(), u32>
    requires { length stages.now ≡ length notes.now }
    ensures found { OnOk result ((i : ℕ) (n : NotedPair E) → slice_get notes.now i ≡ Some n
        → stage_at stages.now i ≡ Found) }
    ensures refused { IfErr result (λ leaf. (i : ℕ) × (n : NotedPair E) × (slice_get notes.now i ≡ Some n)
        × (n.leaf ≡ leaf)
        × (stage_at stages.now i ≢ Found)) }
{
    for at in 0..notes.len() {
        if !is_found(stages[at]) {
            return Err(notes[at].leaf);
        }
    }
    Ok(())
}
