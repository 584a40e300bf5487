//! The state that the lock guards.
ghost use Rattle.std.specs.Prelude.{◌≡◌, ◌+◌, ◌-◌, ◌*◌, ◌<◌, ◌≤◌, ◌^◌, ◌++◌, ◌∷◌, []};
ghost use Rattle.std.specs.Prelude.{true, MatchBool, MatchResult, vec_len, vec_capacity};
ghost use Rattle.gx_machine.specs.declared.item.Item.TheVariants as item;
ghost use Rattle.gx_events.specs.declared.outcome.Outcome.TheVariants as outcome;
ghost use Rattle.gx_events.specs.Work.{is_work, replied};
ghost use Rattle.gx_shared.specs.Books.{IsHanded, is_fault};
ghost use Rattle.gx_shared.specs.Sharing.{given_up, stops, RefusesToGiveUp};
ghost use Rattle.gx_shared.specs.declared.record.TheConstants.{RECORD};

use crate::agree::agree;
use crate::flush::{Part, flusher_event};
use crate::handed::handed;
use crate::record::{append, append_sealed};
use crate::{RECORD, Run, Session};
use gx_events::{Event, Events, Outcome};
use gx_geom::{Refusal, Shape};
use gx_machine::{Call, Item, Reply};
use std::alloc::{AllocError, Global};
use std::marker::Model;
use std::sync::ledger::{Book as Tally, Ledger, Share};

/// Whether the record has room for three items for a new call and for each open one.
fn has_room(calls: usize, opened: u64) -> bool
    requires { calls ≤ RECORD }
    ensures { MatchBool result (calls + 3 * (opened + 1) ≤ RECORD) (calls + 3 * (opened + 1) ≤ RECORD → ⊥) }
{
    opened < RECORD as u64 && calls as u64 + 3 * (opened + 1) <= RECORD as u64
}

/// An outcome's reply, if it ends a call.
fn ended<B: Shape>(last: Outcome<B>) -> Result<Reply<B>, Outcome<B>>
    ensures { MatchResult result (λ r. last ≡ outcome.Replied r) (λ o. (last ≡ o) × (replied o ≡ 0)) }
{
    match last {
        Outcome::Replied(reply) => Ok(reply),
        other => Err(other),
    }
}

/// Records a session's reply, counts the call as finished, and returns the reply that was recorded.
fn keep_reply<B: Shape, R: Ledger>(
    calls: &mut Vec<Item<B>>,
    tally: &mut Tally<R>,
    session: &mut Session<B, R>,
    reply: Reply<B>,
) -> Reply<B>
    requires room { vec_len calls.old < vec_capacity calls.old }
    requires few { tally.old.total + 1 < 2 ^ 64 }
    ensures handed { IsHanded reply result }
    ensures items { calls.new.items ≡ calls.old.items ++ item.Replied session.old.0.0 result ∷ [] }
    ensures capacity { vec_capacity calls.old ≤ vec_capacity calls.new }
    ensures counted { tally.new.total ≡ tally.old.total + 1 }
    ensures share { session.new ≡ ((session.old.0.0, session.old.0.1 + 1), session.old.1) }
{
    let (reply, copy) = handed(*calls.allocator(), reply);
    session.finish(tally);
    append(calls, Item::Replied(session.number(), copy));
    reply
}

/// Whether a refusal ends a call before it is finished: a fault, or a record that is full.
fn stops(why: Refusal) -> bool
    ensures { result ≡ stops why }
{
    matches!(
        why,
        Refusal::Device | Refusal::Failed | Refusal::Damaged | Refusal::HistoryFull
    )
}

/// Returns an outcome as it ends a call: a refusal for anything but a fault or a full record becomes `Damaged`. Only a
/// move of a call that isn't open is refused so.
fn given_up<B: Shape>(last: Outcome<B>) -> Outcome<B>
    ensures { result ≡ given_up last }
{
    match last {
        Outcome::Refused(why) => {
            if stops(why) {
                Outcome::Refused(why)
            } else {
                Outcome::Refused(Refusal::Damaged)
            }
        }
        other => other,
    }
}

/// Whether an event belongs to no session.
fn is_work<B: Shape>(event: &Event<B>) -> bool
    ensures { result ≡ is_work event.now }
{
    match event {
        Event::Ask(..) | Event::Move(_) => false,
        Event::LogStep | Event::WritePage(_) | Event::CheckpointStep | Event::Sweep(_) => true,
    }
}

/// How many calls are open after this reply: one less, unless it is a fault, which leaves its call open, or no call was
/// open.
fn open_after<B: Shape>(reply: &Reply<B>, opened: u64) -> u64
    ensures { MatchBool (is_fault reply.now) (result ≡ opened) (result ≡ opened - 1) }
{
    match reply {
        Reply::Refused(Refusal::Device) => opened,
        Reply::Refused(Refusal::Failed) => opened,
        _ => opened.saturating_sub(1),
    }
}

/// An engine, and the record of all that its sessions asked and were replied. Contracts see it as both.
///
/// At every moment the ledger's total is the number of replies in the record. If the engine's assumptions hold,
/// replaying the record from the machine that the run names gives the machine that the engine is seen as.
#[derive(Drop)]
pub struct Book<B: Shape, E: Events<B>, R: Run<B>> {
    engine: E,
    calls: Vec<Item<B>>,
    opened: u64,
    tally: Tally<R>,
}

impl<B: Shape, E: Events<B>, R: Run<B>> Model for Book<B, E, R> {
    ghost use Rattle.std.specs.Prelude.{List, vec_capacity};
    ghost use Rattle.gx_machine.specs.declared.item.Item.{Item};
    ghost use Rattle.gx_machine.specs.Keys.{keys};
    ghost use Rattle.gx_shared.specs.Books.{IsKept};

    ghost Value = { E × List (Item B) };

    ghost view = { λ b. (b.engine, b.calls.items) };

    ghost invariant = { λ b. IsKept (keys B.cmp B.overlap B.inside) E.granted E.sees R.starts b.engine b.calls.items
        b.opened (vec_capacity b.calls) b.tally.total };
}

impl<B: Shape, E: Events<B>, R: Run<B>> Book<B, E, R> {
    ghost use Rattle.std.specs.Prelude.{IfOk, IfErr};
    ghost use Rattle.gx_machine.specs.Keys.{keys_of};
    ghost use Rattle.gx_events.specs.Items.{finished};
    ghost use Rattle.gx_shared.specs.Sharing.{InCall, IsFlushed, IsRun, after_hold, after_reply};
    ghost use Rattle.gx_events.specs.declared.event.Event.TheVariants.{Ask, Move};
    ghost use Rattle.gx_shared.specs.Agreed.{replies_of};
    ghost use Rattle.gx_shared.specs.Books.{MayBeShared, Stands, IsOf, IsHold, IsMade, IsWorked};

    /// Makes a book over an engine, with an empty record. It allocates the whole record; if memory is refused, it
    /// returns the engine.
    #[tactic(auto, using(crate::proofs::Sharing::begun))]
    pub(crate) fn new(alloc: Global, tally: Tally<R>, engine: E) -> Result<Self, E>
        requires starts { E.granted → MayBeShared E.sees R.starts engine }
        requires none_finished { tally.total ≡ 0 }
        ensures made { IfOk result (λ book. book ≡ (engine, [])) }
        ensures back { IfErr result (λ back. back ≡ engine) }
    {
        match Vec::with_capacity(alloc, RECORD) {
            Ok(calls) => Ok(Book {
                engine,
                calls,
                opened: 0,
                tally,
            }),
            Err(AllocError) => Err(engine),
        }
    }

    /// The record: what was asked, sealed and replied, in the order in which it happened.
    pub fn calls(&self) -> &[Item<B>]
        ensures { result.now ≡ self.now.1 }
    {
        self.calls.as_slice()
    }

    /// Returns the engine, as the holds left it, and drops the record.
    pub fn into_engine(self) -> E
        ensures { result ≡ self.0 }
    {
        self.engine
    }

    /// The engine.
    pub fn engine(&self) -> &E
        ensures { result.now ≡ self.now.0 }
    {
        &self.engine
    }

    /// Compares a share with the ledger: the record has at least as many finished calls as the share counts, and
    /// exactly as many if the share has all parts.
    pub(crate) fn audit(&mut self, share: &mut Share<R>)
        ensures same { self.new ≡ self.old }
        ensures bound { share.old.amount ≤ finished self.old.1 }
        ensures whole { share.old.parts ≡ R.parts → finished self.old.1 ≡ share.old.amount }
    {
        self.tally.audit(share);
    }

    /// The book's invariant, if the engine's assumptions hold: replaying its record from the machine that the run names
    /// gives the machine that its engine is seen as.
    pub fn stands(&self)
        ensures { E.granted → Stands (keys_of B.Shape) E.sees R.starts self.now.0 self.now.1 }
    {
        let _ = &self.engine;
    }

    /// Applies an event that belongs to no session: of the log, of a page or of a checkpoint. The engine makes it once.
    /// Returns the engine's outcome, which is no reply; nothing is recorded.
    pub fn apply(&mut self, event: Event<B>) -> Outcome<B>
        requires { is_work event ≡ true }
        ensures worked { IsWorked (keys_of B.Shape) E.Events self.old event result self.new }
        ensures quiet { replied result ≡ 0 }
    {
        self.engine.step(event)
    }

    /// Asks a call for the session, if the record has room for it.
    fn ask(&mut self, session: &mut Session<B, R>, call: Call<B>) -> Outcome<B>
        ensures hold { E.granted → IsHold (keys_of B.Shape) E.sees self.old (Ask session.old.0.0 call) result self.new }
        ensures made { IsMade E.makes self.old (Ask session.old.0.0 call) result self.new }
        ensures share { session.new ≡ after_reply session.old result }
    {
        let number = session.number();
        if !has_room(self.calls.len(), self.opened) {
            return Outcome::Refused(Refusal::HistoryFull);
        }
        match ended(self.engine.step(Event::Ask(number, call))) {
            Ok(reply) => {
                append(&mut self.calls, Item::Asked(number, call));
                let reply = keep_reply(&mut self.calls, &mut self.tally, session, reply);
                Outcome::Replied(reply)
            }
            Err(outcome) => {
                append(&mut self.calls, Item::Asked(number, call));
                self.opened += 1;
                outcome
            }
        }
    }

    /// Continues the session's call.
    fn go_on(&mut self, session: &mut Session<B, R>) -> Outcome<B>
        ensures hold { E.granted → IsHold (keys_of B.Shape) E.sees self.old (Move session.old.0.0) result self.new }
        ensures made { IsMade E.makes self.old (Move session.old.0.0) result self.new }
        ensures share { session.new ≡ after_reply session.old result }
    {
        let number = session.number();
        let before = self.engine.commits();
        match ended(self.engine.step(Event::Move(number))) {
            Ok(reply) => {
                if self.calls.len() >= RECORD {
                    return Outcome::Refused(Refusal::Failed);
                }
                let reply = keep_reply(&mut self.calls, &mut self.tally, session, reply);
                self.opened = open_after(&reply, self.opened);
                Outcome::Replied(reply)
            }
            Err(outcome) => {
                let after = self.engine.commits();
                append_sealed(&mut self.calls, number, before, after);
                outcome
            }
        }
    }

    /// Applies an event of the session, an ask or a move, in one hold of the lock: the engine makes it, once. Returns
    /// the engine's outcome, and records what it adds: the call that is asked, the number under which a commit is
    /// sealed, the reply that ends a call. A reply that is returned is the one recorded. The session's share rises by
    /// one exactly when a reply is recorded.
    ///
    /// An ask is refused with `HistoryFull`, and neither applied nor recorded, unless the record has room for three
    /// items for it and for each open call. If the copy of a search's result is refused memory, the reply is `Memory`,
    /// here and in the record. Once the record is full, an engine that a fault has ended replies `Refused(Failed)` to a
    /// call that it has refused before.
    pub fn apply_for(&mut self, session: &mut Session<B, R>, event: Event<B>) -> Outcome<B>
        requires { IsOf session.old.0.0 event }
        ensures hold { E.granted → IsHold (keys_of B.Shape) E.sees self.old event result self.new }
        ensures made { IsMade E.makes self.old event result self.new }
        ensures share { session.new ≡ after_reply session.old result }
    {
        match event {
            Event::Ask(_, call) => self.ask(session, call),
            _ => self.go_on(session),
        }
    }

    /// Applies one event of a session's call, which belongs to the session or to none, in one hold of the lock. The
    /// session's share rises by one if a reply is recorded, and it notes the hold. An outcome that refuses does so for
    /// a fault or for a full record.
    #[tactic(auto, using(crate::proofs::Sharing::run_by_work, crate::proofs::Sharing::run_by_own, crate::proofs::Sharing::share_of_work, crate::proofs::Sharing::share_of_own, crate::proofs::Sharing::given_up_refuses, crate::proofs::Sharing::own_of, crate::proofs::Sharing::work_of))]
    pub(crate) fn run(&mut self, session: &mut Session<B, R>, event: Event<B>) -> Outcome<B>
        requires { InCall session.old.0.0 event }
        ensures made { IsRun (keys_of B.Shape) E.Events self.old event result self.new }
        ensures share { session.new ≡ after_hold session.old event result }
        ensures refuses { RefusesToGiveUp result }
    {
        if is_work(&event) {
            let outcome = given_up(self.apply(event));
            session.note(&self.tally, event, outcome)
        } else {
            let outcome = given_up(self.apply_for(session, event));
            session.note(&self.tally, event, outcome)
        }
    }

    /// Applies the event of a flusher's part in a round, if it has one.
    #[tactic(auto, using(crate::proofs::Sharing::flusher_works, crate::proofs::Sharing::only_pages_lack))]
    pub(crate) fn flush(&mut self, part: Part, round: u64) -> Option<Outcome<B>>
        ensures flushed { IsFlushed (keys_of B.Shape) E.Events part round self.old result self.new }
    {
        match flusher_event(part, round, self.engine.used(), self.engine.dirty()) {
            Some(event) => Some(self.apply(event)),
            None => None,
        }
    }

    /// Whether a session's replies in the record are exactly these, in this order. Takes no memory.
    pub fn agrees(&self, session: u8, replies: &[Reply<B>]) -> bool
        ensures { MatchBool result (replies_of session self.now.1 ≡ replies.now)
            (replies_of session self.now.1 ≡ replies.now → ⊥) }
    {
        agree(self.calls.as_slice(), session, replies)
    }
}
