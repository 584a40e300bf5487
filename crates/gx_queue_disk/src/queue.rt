//! Calls of a device with their bytes, in the order in which they were made.
ghost use Rattle.std.specs.Prelude.{◌≡◌, ◌≤◌, ◌++◌, ◌∷◌, [], take, drop, length, OnOk, OnErr};
ghost use Rattle.gx_queue_disk.specs.Calls.{Write, Sync};
ghost use Rattle.gx_queue_disk.specs.Fronts.{IsFront, lent};
ghost use Rattle.gx_queue_disk.specs.Queues.{call_of, size_of};

use std::alloc::{AllocError, Global};
use std::marker::Model;

/// A call of a device, with the bytes that a write wrote.
#[derive(Clone, Copy)]
pub enum DeviceCall<'a> {
    /// A write of whole sectors, from this one on.
    Write { first: u64, bytes: &'a [u8] },
    Sync,
}

/// A call without its bytes.
#[derive(Clone, Copy)]
pub(crate) enum Outline {
    Write { first: u64, size: usize },
    Sync,
}

impl Outline {
    /// How many bytes it has.
    fn size(self) -> usize
        ensures { result ≡ size_of self }
    {
        match self {
            Outline::Write { first: _, size } => size,
            Outline::Sync => 0,
        }
    }

    /// The call with its bytes, which these begin with.
    fn lend(self, bytes: &[u8]) -> DeviceCall<'_>
        requires { size_of self ≤ length bytes.now }
        ensures { lent result ≡ call_of self (take (size_of self) bytes.now) }
    {
        match self {
            Outline::Write { first, size } => DeviceCall::Write {
                first,
                bytes: &bytes[..size],
            },
            Outline::Sync => DeviceCall::Sync,
        }
    }
}

/// Calls of a device with their bytes, the one that was made first in front. Its memory is kept for further calls once
/// all are taken.
#[derive(Drop)]
pub struct CallQueue {
    calls: Vec<Outline>,
    // the bytes of all calls, one after another
    bytes: Vec<u8>,
    // how many calls were taken, and how many bytes they had
    taken: usize,
    at: usize,
}

impl Model for CallQueue {
    ghost use Rattle.std.specs.Prelude.{List, drop};
    ghost use Rattle.gx_queue_disk.specs.Calls.{Call};
    ghost use Rattle.gx_queue_disk.specs.Queues.{calls_of, IsKept};

    ghost Value = { List Call };

    ghost view = { λ m. calls_of (drop m.taken m.calls.items) (drop m.at m.bytes.items) };

    ghost invariant = { λ m. IsKept m.calls.items m.bytes.items m.taken m.at };
}

impl CallQueue {
    /// No call.
    pub fn new(alloc: Global) -> CallQueue
        ensures { result ≡ [] }
    {
        CallQueue {
            calls: Vec::new(alloc),
            bytes: Vec::new(alloc),
            taken: 0,
            at: 0,
        }
    }

    /// The first call, if there is one.
    pub fn front(&self) -> Option<DeviceCall<'_>>
        ensures { IsFront self.now result }
    {
        if self.taken == self.calls.len() {
            return None;
        }
        Some(self.calls[self.taken].lend(&self.bytes[self.at..]))
    }

    /// Takes the first call out, if there is one.
    pub fn pop(&mut self)
        ensures { self.new ≡ drop 1 self.old }
    {
        if self.taken == self.calls.len() {
            return;
        }
        self.at += self.calls[self.taken].size();
        self.taken += 1;
        self.begin_anew();
    }

    /// Makes the memory of calls that were taken free for others, if all were.
    fn begin_anew(&mut self)
        ensures { self.new ≡ self.old }
    {
        if self.taken < self.calls.len() {
            return;
        }
        self.calls.clear();
        self.bytes.clear();
        self.taken = 0;
        self.at = 0;
    }

    /// Puts a call behind the others. Refused if there is no memory for it; the queue doesn't change then.
    fn push(&mut self, call: Outline, bytes: &[u8]) -> Result<(), AllocError>
        requires { size_of call ≡ length bytes.now }
        ensures ok { OnOk result (self.new ≡ self.old ++ call_of call bytes.now ∷ []) }
        ensures err { OnErr result (self.new ≡ self.old) }
    {
        self.calls.reserve(1)?;
        self.bytes.extend_from_slice(bytes)?;
        self.calls.push_reserved(call);
        Ok(())
    }

    /// Puts a write behind the other calls. Refused if there is no memory for it; the queue doesn't change then.
    pub(crate) fn push_write(&mut self, first: u64, bytes: &[u8]) -> Result<(), AllocError>
        ensures ok { OnOk result (self.new ≡ self.old ++ Write first bytes.now ∷ []) }
        ensures err { OnErr result (self.new ≡ self.old) }
    {
        let size = bytes.len();
        self.push(Outline::Write { first, size }, bytes)
    }

    /// Puts a sync behind the other calls. Refused if there is no memory for it; the queue doesn't change then.
    pub(crate) fn push_sync(&mut self) -> Result<(), AllocError>
        ensures ok { OnOk result (self.new ≡ self.old ++ Sync ∷ []) }
        ensures err { OnErr result (self.new ≡ self.old) }
    {
        self.push(Outline::Sync, &[])
    }
}
