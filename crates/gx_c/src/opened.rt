//! An index that is open, and what its sessions found.
ghost use Rattle.std.specs.Prelude.{◌≡◌, ◌≢◌, [], false, length, replicate, IfOk};
ghost use Rattle.gx_machine.specs.declared.reply.Reply.TheVariants.{Found};
ghost use Rattle.gx_c.specs.Asking.{AsksOpen, CommitsOpen, KeepsOpen, SettlesOpen, keeps_found};
ghost use Rattle.gx_c.specs.Waiting.{disk_of};

use crate::rest::Rest;
use crate::status::{number_in, replied, resulted};
use gx_class::{Probing, ReadKeys};
use gx_disk::SectorDisk;
use gx_engine::Engine;
use gx_machine::{Call, Entries, Query, Reply};
use gx_phases::is_session;
use gx_queue_disk::QueueDisk;
use gx_restart::Index;
use std::alloc::{AllocError, Global};
use std::marker::Model;

/// An index that is open, and for each session what is left of the entries that its last search found.
#[derive(Drop)]
pub(crate) struct Open<K: ReadKeys> {
    pub(crate) index: Index<QueueDisk, K>,
    pub(crate) found: Vec<Rest<K::Key>>,
}

impl<K: ReadKeys> Model for Open<K> {
    ghost use Rattle.gx_c.specs.States.{Opened};
    ghost use Rattle.std.specs.Prelude.{◌≡◌, length};

    ghost Value = { Opened K.Key };

    ghost view = { λ m. record { index = m.index; found = m.found.items } };

    ghost invariant = { λ m. length m.found.items ≡ 8 };
}

/// Nothing was found by any session. Refused if there is no memory for that.
pub(crate) fn none_found<B: Copy>(alloc: Global) -> Result<Vec<Rest<B>>, AllocError>
    ensures { IfOk result (λ found. found.items ≡ replicate 8 []) }
{
    Ok(Vec::from_array(
        alloc,
        [
            Rest::none(alloc),
            Rest::none(alloc),
            Rest::none(alloc),
            Rest::none(alloc),
            Rest::none(alloc),
            Rest::none(alloc),
            Rest::none(alloc),
            Rest::none(alloc),
        ],
    )?)
}

// Keeps the entries that a session found.
fn keep_entries<B: Copy>(found: &mut Vec<Rest<B>>, session: u8, entries: Entries<B>)
    requires { length found.old.items ≡ 8 }
    ensures found { found.new.items ≡ keeps_found session (Found entries) found.old.items }
    ensures as_many { length found.new.items ≡ 8 }
{
    if !is_session(session) {
        return;
    }
    found[usize::from(session) - 1] = Rest::of(entries);
}

/// Keeps what a session found, if a reply has that.
pub(crate) fn keep<B: Copy>(found: &mut Vec<Rest<B>>, session: u8, reply: Reply<B>)
    requires { length found.old.items ≡ 8 }
    ensures found { found.new.items ≡ keeps_found session reply found.old.items }
    ensures as_many { length found.new.items ≡ 8 }
{
    match reply {
        Reply::Found(entries) => keep_entries(found, session, entries),
        _ => {}
    }
}

impl<K: ReadKeys> Open<K> {
    /// An index over an engine, with what its sessions found.
    pub(crate) fn new(engine: Engine<QueueDisk, K>, found: Vec<Rest<K::Key>>) -> Open<K>
        requires { length found.items ≡ 8 }
        ensures { result ≡ record { index = record { engine = engine; ended = false }; found = found.items } }
    {
        Open {
            index: Index::new(engine),
            found,
        }
    }

    /// Its device, as the calls left it.
    pub(crate) fn into_disk(self) -> QueueDisk
        ensures { result ≡ disk_of self }
    {
        let Open {
            index,
            found: _found,
        } = self;
        index.into_engine().into_disk()
    }
}

impl<K: ReadKeys + Probing> Open<K> {
    /// Asks a call of a session, and runs it to its end. Returns the status of its reply.
    pub(crate) fn ask(&mut self, session: u8, call: Call<K::Key>) -> u16
        ensures { AsksOpen K.Key.Shape K.ReadKeys ⟦<QueueDisk as SectorDisk>⟧.state session call self.old self.new
            result }
    {
        let reply = self.index.call(session, call);
        replied(&reply)
    }

    /// Asks a session's commit, and writes its number.
    pub(crate) fn commit(&mut self, session: u8, number: &mut u64) -> u16
        ensures commits { CommitsOpen K.Key.Shape K.ReadKeys ⟦<QueueDisk as SectorDisk>⟧.state session number.old
            number.new self.old self.new result }
        ensures kept { result ≢ 0 → number.new ≡ number.old }
    {
        let reply = self.index.call(session, Call::Commit);
        *number = number_in(&reply, *number);
        replied(&reply)
    }

    /// Asks a search of a session, and keeps what it found.
    pub(crate) fn search(&mut self, session: u8, query: Query<K::Key>) -> u16
        ensures { KeepsOpen K.Key.Shape K.ReadKeys ⟦<QueueDisk as SectorDisk>⟧.state session query self.old self.new
            result }
    {
        let reply = self.index.call(session, Call::Search(query));
        let status = replied(&reply);
        keep(&mut self.found, session, reply);
        status
    }

    /// Gates all that is logged.
    pub(crate) fn settle(&mut self) -> u16
        ensures { SettlesOpen K.Key.Shape K.ReadKeys ⟦<QueueDisk as SectorDisk>⟧.state self.old self.new result }
    {
        resulted(self.index.settle())
    }
}
