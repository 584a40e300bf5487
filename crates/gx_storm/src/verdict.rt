//! The verdict on a storm once it is over.
ghost use Rattle.std.specs.Prelude.{◌+◌, ◌≤◌, length, MatchBool, Some};
ghost use Rattle.gx_machine.specs.Keys.{keys_of};
ghost use Rattle.gx_machine.specs.declared.limits.TheConstants.{SESSIONS};
ghost use Rattle.gx_storm.specs.Verdicts.{Agrees, HasAll, HasReplies, LacksReplies, Says};

use crate::Handed;
use crate::items::{Mismatch, replay};
use crate::refusals::{least_given_up, least_told, lesser};
use gx_events::Events;
use gx_geom::{Refusal, Shape};
use gx_plain::PlainIndex;
use gx_shared::{Book, RECORD, Run};
use std::alloc::Global;

/// The verdict on a storm.
#[derive(Clone, Copy, PartialEq, Eq)]
pub enum Verdict {
    /// The plain index replays the record, which has each reply that the sessions got.
    Sound,
    /// At the item of this place, counted from 0, the record differs from what the plain index replays; or, if the
    /// place is its length, it differs from the replies that a session got.
    Mismatch(u64),
    /// Nothing differs, but a call was refused so: for a fault, or for a full record. Or memory was refused.
    Refused(Refusal),
}

/// Whether the record has the replies of a session.
fn has_replies<B: Shape, E: Events<B>, R: Run<B>>(
    book: &Book<B, E, R>,
    calls: u32,
    session: u8,
    handed: &Handed<B>,
) -> bool
    ensures { MatchBool result (HasReplies calls book.now.1 session handed.now)
        (HasReplies calls book.now.1 session handed.now → ⊥) }
{
    if !book.agrees(session, handed.replies.as_slice()) {
        return false;
    }
    match handed.given_up {
        Some(_) => true,
        None => handed.replies.len() == calls as usize,
    }
}

/// Whether the record has the replies of each session.
fn has_all<B: Shape, E: Events<B>, R: Run<B>>(
    book: &Book<B, E, R>,
    calls: u32,
    all: &[Handed<B>],
) -> bool
    requires { length all.now ≤ SESSIONS }
    ensures { MatchBool result (HasAll calls book.now.1 all.now) (LacksReplies calls book.now.1 all.now) }
{
    for place in 0..all.len() {
        if !has_replies(book, calls, place as u8 + 1, &all[place]) {
            return false;
        }
    }
    true
}

/// The verdict on a storm whose record the plain index replays.
fn agreed<B: Shape, E: Events<B>, R: Run<B>>(
    book: &Book<B, E, R>,
    calls: u32,
    all: &[Handed<B>],
) -> Verdict
    requires { length all.now ≤ SESSIONS }
    ensures { Agrees calls book.now.1 all.now result }
{
    if !has_all(book, calls, all) {
        return Verdict::Mismatch(book.calls().len() as u64);
    }
    match lesser(least_told(book.calls()), least_given_up(all)) {
        Some(why) => Verdict::Refused(why),
        None => Verdict::Sound,
    }
}

/// The verdict on a storm, by the book once it is closed, and by the replies that its sessions, from number 1 on, got
/// to so many calls each.
///
/// The plain index, with nothing committed, replays the record; then the replies that each session got are compared
/// with it; then the least refusal of `Device`, `Failed`, `Damaged` and `HistoryFull` is looked for. The verdict is
/// `Refused(Memory)` if there is no memory for the replay, and `Refused(HistoryFull)` if the record is longer than
/// records may be.
pub fn judge<B: Shape, E: Events<B>, R: Run<B>>(
    alloc: Global,
    book: &Book<B, E, R>,
    calls: u32,
    all: &[Handed<B>],
) -> Verdict
    requires { length all.now ≤ SESSIONS }
    ensures { Says (keys_of B.Shape) calls book.now.1 all.now result }
{
    if book.calls().len() > RECORD {
        return Verdict::Refused(Refusal::HistoryFull);
    }
    let Ok(mut index) = PlainIndex::new(alloc) else {
        return Verdict::Refused(Refusal::Memory);
    };
    match replay(book.calls(), &mut index) {
        Ok(()) => agreed(book, calls, all),
        Err(Mismatch::At(place)) => Verdict::Mismatch(place),
        Err(Mismatch::Memory) => Verdict::Refused(Refusal::Memory),
    }
}
