//! An engine that is shared by sessions.
ghost use Rattle.std.specs.Prelude.{◌≡◌, ◌+◌, [], length, IfOk};
ghost use Rattle.gx_machine.specs.declared.limits.TheConstants.{SESSIONS};
ghost use Rattle.gx_shared.specs.Sharing.{fresh_sessions, shares_of};

use crate::turns::Turns;
use crate::{Book, Run, Session};
use gx_disk::SyncAhead;
use gx_events::Events;
use gx_geom::{Refusal, Shape};
use gx_machine::SESSIONS;
use std::alloc::{AllocError, Global};
use std::sync::Mutex;
use std::sync::ledger::{Blank, Ledger, Share};

/// All sessions, each with one part of the ledger.
fn all_sessions<B, R: Ledger>(
    alloc: Global,
    all: Share<R>,
) -> Result<Vec<Session<B, R>>, AllocError>
    requires parts { all.parts ≡ SESSIONS }
    requires amount { all.amount ≡ 0 }
    ensures { IfOk result (λ sessions. sessions.items ≡ fresh_sessions SESSIONS) }
{
    let mut all = all;
    let mut sessions = Vec::with_capacity(alloc, SESSIONS)?;
    for place in 0..SESSIONS {
        let share = all.split_off(1, 0);
        sessions.push(Session::new(place as u8 + 1, share))?;
    }
    Ok(sessions)
}

/// Adds the parts of these sessions to a share, with their finished calls.
#[tactic(auto, using(crate::proofs::Sharing::taken_first))]
fn gathered<B, R: Ledger>(first: Share<R>, sessions: Vec<Session<B, R>>) -> Share<R>
    ensures parts { result.parts ≡ first.parts + length sessions.items }
    ensures amount { result.amount ≡ first.amount + shares_of sessions.items }
{
    let mut all = first;
    let mut rest = sessions;
    while !rest.is_empty() {
        let session = rest.remove(0);
        all.merge(session.into_share());
    }
    all
}

/// An engine under a lock, with the record of its calls, for sessions in separate threads.
#[derive(Drop)]
pub struct Shared<B: Shape, E: Events<B>, R: Run<B>> {
    pub(crate) book: Mutex<Book<B, E, R>>,
    pub(crate) turns: Turns,
    ahead: Option<SyncAhead>,
}

impl<B: Shape, E: Events<B>, R: Run<B>> Shared<B, E, R> {
    ghost use Rattle.std.specs.Prelude.{◌≤◌, IfErr};
    ghost use Rattle.gx_events.specs.Items.{finished};
    ghost use Rattle.gx_shared.specs.Books.{MayBeShared};

    /// Puts an engine under a lock, with an empty record, and makes its eight sessions, each with no finished call.
    /// `blank` is the empty ledger of the run, in eight parts. If the engine's assumptions hold, it must be seen as the
    /// run's machine, in which no call is open.
    ///
    /// It allocates all that the record will need, 65,536 items. If memory is refused, it returns `Memory` and the
    /// engine; the blank is used up.
    pub fn new(
        alloc: Global,
        blank: Blank,
        engine: E,
    ) -> Result<(Self, Vec<Session<B, R>>), (Refusal, E)>
        requires name { blank.name ≡ R.name }
        requires parts { (blank.parts ≡ R.parts) × (R.parts ≡ SESSIONS) }
        requires starts { E.granted → MayBeShared E.sees R.starts engine }
        ensures sessions { IfOk result (λ made. made.1.items ≡ fresh_sessions SESSIONS) }
        ensures memory { IfErr result (λ refused. (refused.0 ≡ Refusal.Memory) × (refused.1 ≡ engine)) }
    {
        let (tally, all) = blank.open::<R>();
        let Ok(sessions) = all_sessions(alloc, all) else {
            return Err((Refusal::Memory, engine));
        };
        match Book::new(alloc, tally, engine) {
            Ok(book) => Ok((
                Shared {
                    book: Mutex::new(book),
                    turns: Turns::new(),
                    ahead: None,
                },
                sessions,
            )),
            Err(engine) => Err((Refusal::Memory, engine)),
        }
    }

    /// Adds a handle of the file that the engine works on, if there is one. A call or a flusher that wrote to the log
    /// syncs the file by it between two events, while no lock is held.
    pub fn with_sync_ahead(self, ahead: Option<SyncAhead>) -> Self {
        let Shared { book, turns, .. } = self;
        Shared { book, turns, ahead }
    }

    /// Syncs the file by its handle, if a write of the log isn't durable yet.
    pub(crate) fn sync_ahead(&self) {
        if let Some(ahead) = &self.ahead {
            ahead.sync();
        }
    }

    /// Ends the sharing: takes the sessions back, and returns the book. If all eight sessions are given back, the
    /// record has exactly as many finished calls as their shares add up to; if fewer are, at least as many.
    pub fn close(self, sessions: Vec<Session<B, R>>) -> Book<B, E, R>
        requires { R.parts ≡ SESSIONS }
        ensures least { shares_of sessions.items ≤ finished result.1 }
        ensures exact { length sessions.items ≡ SESSIONS → finished result.1 ≡ shares_of sessions.items }
    {
        let mut book = self.book.into_inner();
        let mut rest = sessions;
        if rest.is_empty() {
            return book;
        }
        let first = rest.remove(0);
        let mut all = gathered(first.into_share(), rest);
        book.audit(&mut all);
        book
    }
}
