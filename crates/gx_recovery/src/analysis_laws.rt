//! What is kept of a log decides what may follow it. Each function is its contract alone.
ghost use Rattle.gx_recovery.specs.Known.{Limits};
ghost use Rattle.gx_recovery.specs.Telling.{WritesTell, NoEntryIsRefused, ChangesTell, PagesTell, CommitsTell};
ghost use Rattle.gx_recovery.specs.Telling.{EndsTell, CountersTell, NotesTell, NoEntryIsNoNote, HeadsBegin};

use crate::Meaning;

/// A record follows an undamaged log exactly if the test of what is kept of that log passes; and what is kept then is
/// what the longer log says. So the passes and refusals of [`crate::Analysis`] are those of the definition of damaged
/// logs, except for what is said of pages: whether an image is its page's own, and whether a small change fits the page
/// that the log gives, is for the caller that keeps the pages. A small change of no transaction is tested by that
/// alone.
pub fn the_kept_state_tells_what_follows<M: Meaning>()
    ensures write { (d : Limits) → WritesTell (M.known d) }
    ensures no_entry { (d : Limits) → NoEntryIsRefused (M.known d) }
    ensures change { (d : Limits) → ChangesTell (M.known d) }
    ensures pages { (d : Limits) → PagesTell (M.known d) }
    ensures commit { (d : Limits) → CommitsTell (M.known d) }
    ensures end { (d : Limits) → EndsTell (M.known d) }
{}

/// The same of a log's head: its numbers, and then one note more. What begins a head is one, so that a note which
/// doesn't fit spoils the head whatever comes behind it.
pub fn the_kept_state_tells_what_heads_are<M: Meaning>()
    ensures counters { (d : Limits) → CountersTell (M.known d) }
    ensures notes { (d : Limits) → NotesTell (M.known d) }
    ensures no_entry { (d : Limits) → NoEntryIsNoNote (M.known d) }
    ensures begin { (d : Limits) → HeadsBegin (M.known d) }
{}
