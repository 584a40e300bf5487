//! Starts an engine over a device, from what was found there.
ghost use Rattle.std.specs.Prelude.{◌≡◌, ◌≤◌, ◌<◌, ◌+◌, ◌*◌, ◌-◌, length, replicate, false, IfOk, IfErr};
ghost use Rattle.gx_node.specs.declared.items.TheConstants.{MAX_ENTRIES};
ghost use Rattle.gx_pool.specs.declared.frames.TheConstants.{FRAMES};
ghost use Rattle.gx_machine.specs.Keys.{keys_of};
ghost use Rattle.gx_recovery.specs.Known.{Limits};
ghost use Rattle.gx_disk.specs.declared.layout.TheConstants.{MAX_PAGES, PAGES_AT, PAGE_SECTORS};
ghost use Rattle.gx_glog.specs.declared.extent.TheConstants.{PLACES};
ghost use Rattle.gx_engine.specs.Starting.{AreFresh, Started, TakenUp, WhyNot, rested};
ghost use Rattle.gx_engine.specs.Setting.{HoldsFromAs};

use crate::Engine;
use crate::checkpoint::Checkpoint;
use crate::laws::a_class_is_lawful;
use crate::losers::hold_losers;
use crate::work::Work;
use gx_class::{KeyClass, ReadKeys};
use gx_disk::SectorDisk;
use gx_geom::{Refusal, Shape};
use gx_glog::{Extent, Glog};
use gx_machine::Entry;
use gx_node::MAX_ENTRIES;
use gx_phases::Sessions;
use gx_pool::Pool;
use gx_recovery::Touch;
use gx_storage::Storage;
use gx_store::{NodeTest, PageStore};
use std::alloc::{AllocError, Global};

/// What an engine starts from: what was found on its device.
#[derive(Drop)]
pub struct Start<B> {
    /// The extent that is selected.
    pub extent: Extent,
    /// How many of its gates are open in a row from the first on, 1 to 128. All later gates are closed.
    pub bodies: u8,
    /// How many pages the device has, up to 65,536.
    pub pages: u32,
    /// How many entries a node has at most, 4 to 100.
    pub fanout: u16,
    /// How many frames pages are kept in, 16 to 4,096.
    pub frames: usize,
    /// The number of the last commit.
    pub commits: u64,
    /// The greatest node sequence number.
    pub counter: u64,
    /// The greatest page in use.
    pub used: u32,
    /// The next transaction's number.
    pub next: u64,
    /// What transactions without a commit or an end wrote, by transaction, then by entry.
    pub losers: Vec<Touch<Entry<B>>>,
}

/// Why a device wasn't opened, and the device.
#[derive(Debug, Drop)]
pub struct NotOpened<D> {
    /// The refusal.
    pub why: Refusal,
    /// The device, as the calls left it.
    pub disk: D,
}

// The memory of an engine, but for its log and its sessions.
#[derive(Drop)]
struct Room<K: KeyClass> {
    pool: Pool<NodeTest<K>>,
    key: Vec<u8>,
    imaged: Vec<bool>,
    keys: Vec<K::Key>,
}

/// Allocates so many bytes for a key.
fn key_room(alloc: Global, size: usize) -> Result<Vec<u8>, AllocError>
    ensures { IfOk result (λ bytes. length bytes.items ≡ size) }
{
    vec![in alloc; 0; size]
}

/// Allocates a bit for each of so many pages, none of them set.
fn imaged_room(alloc: Global, pages: u32) -> Result<Vec<bool>, AllocError>
    ensures { IfOk result (λ imaged. imaged.items ≡ replicate pages false) }
{
    vec![in alloc; false; pages as usize]
}

/// Allocates memory for the keys of a node that is split.
fn keys_room<K: KeyClass>(alloc: Global) -> Result<Vec<K::Key>, AllocError>
    ensures { IfOk result (λ keys. MAX_ENTRIES ≤ length keys.items) }
{
    vec![in alloc; K::start(); MAX_ENTRIES]
}

/// Allocates frames for pages, all empty, for which batches up to this one are gated.
fn frames<K: KeyClass>(
    alloc: Global,
    count: usize,
    pages: u32,
    batch: u64,
) -> Result<Pool<NodeTest<K>>, AllocError>
    requires few { count ≤ FRAMES }
    ensures { IfOk result (λ pool. AreFresh count batch pool.frames × (pool.test.pages ≡ pages)) }
{
    let mut pool = Pool::with_capacity(alloc, count, NodeTest::new(pages))?;
    pool.gated(batch);
    Ok(pool)
}

/// Allocates the memory for pages, their bits, and keys.
fn take_room<K: KeyClass>(
    alloc: Global,
    count: usize,
    pages: u32,
    batch: u64,
) -> Result<Room<K>, AllocError>
    requires few { count ≤ FRAMES }
    ensures pool { IfOk result (λ room. AreFresh count batch room.pool.frames × (room.pool.test.pages ≡ pages)) }
    ensures key { IfOk result (λ room. length room.key.items ≡ K.KEY) }
    ensures imaged { IfOk result (λ room. room.imaged.items ≡ replicate pages false) }
    ensures keys { IfOk result (λ room. MAX_ENTRIES ≤ length room.keys.items) }
{
    Ok(Room {
        pool: frames(alloc, count, pages, batch)?,
        key: key_room(alloc, K::KEY)?,
        imaged: imaged_room(alloc, pages)?,
        keys: keys_room::<K>(alloc)?,
    })
}

/// Makes sessions that undo the transactions that were cut off, and have no others.
fn sessions<B: Shape>(alloc: Global, start: &Start<B>) -> Result<Sessions<B, Work<B>>, Refusal>
    ensures taken { IfOk result (λ sessions. TakenUp (keys_of B.Shape) start.now sessions) }
    ensures why { IfErr result (WhyNot (keys_of B.Shape) start.now) }
{
    match Sessions::new(alloc, start.commits, start.commits, start.next) {
        Ok(mut sessions) => {
            hold_losers(&mut sessions, &start.losers)?;
            Ok(sessions)
        }
        Err(_) => Err(Refusal::Memory),
    }
}

impl<D: SectorDisk, K: ReadKeys> Engine<D, K> {
    // Makes the engine over its device, from memory that was allocated before.
    fn over(
        disk: D,
        start: &Start<K::Key>,
        log: Glog,
        room: Room<K>,
        sessions: Sessions<K::Key, Work<K::Key>>,
        alloc: Global,
    ) -> Self
        requires inside { (start.now.pages ≤ MAX_PAGES) × (PAGES_AT + PAGE_SECTORS * start.now.pages
            ≤ (D.state disk).sectors) × (start.now.used ≤ start.now.pages) }
        requires fanout { (4 ≤ start.now.fanout) × (start.now.fanout ≤ MAX_ENTRIES) }
        requires frames { 16 ≤ start.now.frames }
        requires log { log ≡ rested start.now }
        requires pool { AreFresh start.now.frames (start.now.bodies - 1) room.pool.frames
            × (room.pool.test.pages ≡ start.now.pages) }
        requires key { length room.key.items ≡ K.KEY }
        requires imaged { room.imaged.items ≡ replicate start.now.pages false }
        requires keys { MAX_ENTRIES ≤ length room.keys.items }
        requires sessions { TakenUp (keys_of K.Key.Shape) start.now sessions }
        ensures { Started (keys_of K.Key.Shape) start.now disk result }
    {
        let Room {
            pool,
            key,
            imaged,
            keys,
        } = room;
        let store = PageStore::new(disk, pool, start.used, start.counter, start.pages);
        let mut engine = Engine::new(
            Storage::new(log, store, usize::from(start.fanout), key, imaged),
            sessions,
            keys,
            alloc,
        );
        engine.checkpoint = Checkpoint::Running;
        engine
    }

    /// Starts an engine over a device on which this was found, with a checkpoint running. Each transaction without a
    /// commit or an end gets a session, from 1 on, which undoes it; all other sessions are free. It makes no call of
    /// the device, and allocates all the memory that the engine ever takes, but for the stacks and results of searches.
    ///
    /// Refused with `Memory`, and with `Damaged` if no log has such touches: of more than eight transactions, of more
    /// than 512 entries, or of an entry twice. A refusal returns the device.
    ///
    /// If an honest device without unsynced writes has an undamaged log, with its pages laid and good for it, the
    /// engine holds the index that is opened over them.
    pub fn start(alloc: Global, disk: D, start: Start<K::Key>) -> Result<Self, NotOpened<D>>
        requires bodies { (1 ≤ start.bodies) × (start.bodies ≤ PLACES) }
        requires inside { (start.pages ≤ MAX_PAGES) × (PAGES_AT + PAGE_SECTORS * start.pages ≤ (D.state disk).sectors)
            × (start.used ≤ start.pages) }
        requires fanout { (4 ≤ start.fanout) × (start.fanout ≤ MAX_ENTRIES) }
        requires frames { (16 ≤ start.frames) × (start.frames ≤ FRAMES) }
        ensures started { IfOk result (Started (keys_of K.Key.Shape) start disk) }
        ensures refused { IfErr result (λ n. (n.disk ≡ disk) × WhyNot (keys_of K.Key.Shape) start n.why) }
        ensures holds { (l : Limits) → IfOk result (HoldsFromAs K.Key.Shape K.ReadKeys D.state l disk start) }
    {
        a_class_is_lawful::<K>();
        let log = match Glog::start(alloc, start.extent, start.bodies) {
            Ok(log) => log,
            Err(why) => return Err(NotOpened { why, disk }),
        };
        let batch = u64::from(start.bodies - 1);
        let Ok(room) = take_room(alloc, start.frames, start.pages, batch) else {
            return Err(NotOpened {
                why: Refusal::Memory,
                disk,
            });
        };
        match sessions(alloc, &start) {
            Ok(sessions) => Ok(Self::over(disk, &start, log, room, sessions, alloc)),
            Err(why) => Err(NotOpened { why, disk }),
        }
    }
}
