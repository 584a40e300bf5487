//! The engine.
ghost use Rattle.std.specs.Prelude.{◌≡◌, ◌≤◌, length};
ghost use Rattle.gx_glog.specs.declared.stage.Turn.TheVariants.{Closed};
ghost use Rattle.gx_node.specs.declared.items.TheConstants.{MAX_ENTRIES};

use crate::checkpoint::Checkpoint;
use crate::work::Work;
use gx_class::ReadKeys;
use gx_disk::SectorDisk;
use gx_events::Outcome;
use gx_geom::Refusal;
use gx_phases::Sessions;
use gx_storage::Storage;
use std::alloc::Global;
use std::marker::Model;

/// An index at work over a device: pages with their log, and up to eight sessions.
///
/// It works in events, each of which makes at most one write or sync of the device. Once a call of the device has
/// failed, or a page didn't read, it has failed: from then on it only refuses.
#[derive(Drop)]
pub struct Engine<D: SectorDisk, K: ReadKeys> {
    pub(crate) storage: Storage<D, K>,
    pub(crate) sessions: Sessions<K::Key, Work<K::Key>>,
    // the number of the last commit in the batch in flight, or in the one that was gated last
    pub(crate) in_flight: u64,
    pub(crate) checkpoint: Checkpoint,
    // a buffer for the keys of a node that is split
    pub(crate) keys: Vec<K::Key>,
    // the allocator for looks and results
    pub(crate) alloc: Global,
}

impl<D: SectorDisk, K: ReadKeys> Model for Engine<D, K> {
    ghost use Rattle.gx_engine.specs.States.{Parts, IsInOrder};

    ghost Value = { Parts K.Key D };

    ghost view = { λ m. record {
      volume = m.storage;
      sessions = m.sessions;
      in_flight = m.in_flight;
      checkpoint = m.checkpoint;
    } };

    ghost invariant = { λ m. IsInOrder
        (record { volume = m.storage; sessions = m.sessions; in_flight = m.in_flight; checkpoint = m.checkpoint })
        m.keys.items };
}

impl<D: SectorDisk, K: ReadKeys> Engine<D, K> {
    ghost use Rattle.gx_phases.specs.Moves.{failed_state};
    ghost use Rattle.gx_storage.specs.Flushing.{IsLeastWritable};
    ghost use Rattle.gx_engine.specs.States.{IsOrderly};

    /// Makes an engine over pages in 16 frames or more with their log, which has no batch in flight and no turn under
    /// way, and over sessions. No checkpoint runs. A split overwrites `keys` with its node's keys; looks and results
    /// are allocated in `alloc`.
    pub fn new(
        storage: Storage<D, K>,
        sessions: Sessions<K::Key, Work<K::Key>>,
        keys: Vec<K::Key>,
        alloc: Global,
    ) -> Self
        requires still { storage.log.turn ≡ Closed }
        requires most { 4 ≤ storage.most }
        requires frames { 16 ≤ length storage.shelf.frames.marks }
        requires space { MAX_ENTRIES ≤ length keys.items }
        ensures { result ≡ record {
          volume = storage;
          sessions = sessions;
          in_flight = sessions.durable;
          checkpoint = Checkpoint.Off;
        } }
    {
        sessions.stands();
        let in_flight = sessions.durable();
        Engine {
            storage,
            sessions,
            in_flight,
            checkpoint: Checkpoint::Off,
            keys,
            alloc,
        }
    }

    /// The engine's invariant on any device: its log turns only while its checkpoint does; it has 16 frames or more, of
    /// which an event holds four at most; it has 65,536 pages at most, and a node 100 entries at most; a session that
    /// waits for its commit waits for a sealed one.
    pub(crate) fn in_order(&self)
        ensures { IsOrderly self.now }
    {
        self.storage.in_order();
        self.storage.most();
        self.storage.dirty_frames();
        self.sessions.stands();
    }

    /// The number of the last commit that is sealed.
    pub fn commits(&self) -> u64
        ensures { result ≡ self.now.sessions.latest }
    {
        self.sessions.latest()
    }

    /// The greatest page in use.
    pub fn used(&self) -> u32
        ensures { result ≡ self.now.volume.shelf.used }
    {
        self.storage.used()
    }

    /// How many splits were made, but for the root's: the greatest node sequence number.
    pub fn counter(&self) -> u64
        ensures { result ≡ self.now.volume.shelf.counter }
    {
        self.storage.counter()
    }

    /// The least page that has changes, all of them in gated batches: `write_page` writes it.
    pub fn dirty(&self) -> Option<u32>
        ensures { IsLeastWritable self.now.volume.shelf.frames result }
    {
        self.storage.dirty()
    }

    /// Returns the engine's device, as the calls left it. What isn't written is lost.
    pub fn into_disk(self) -> D
        ensures { result ≡ self.volume.shelf.disk }
    {
        let Engine {
            storage,
            sessions: _,
            in_flight: _,
            checkpoint: _,
            keys: _,
            alloc: _,
        } = self;
        storage.into_disk()
    }

    // A call of the device failed: from now on the engine only refuses.
    pub(crate) fn fail(&mut self) -> Outcome<K::Key>
        ensures outcome { result ≡ Outcome.Refused Refusal.Device }
        ensures failed { self.new ≡ record self.old { sessions = failed_state self.old.sessions } }
    {
        self.sessions.fail();
        Outcome::Refused(Refusal::Device)
    }
}
