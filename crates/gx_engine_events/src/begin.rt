//! Formats a device, and starts an engine on it.
ghost use Rattle.std.specs.Prelude.{◌≡◌, ◌≤◌, ◌↔◌, length, replicate, true, false, IfOk, IfErr, IsTrue};
ghost use Rattle.gx_machine.specs.Machine.{fresh_machine};
ghost use Rattle.gx_node.specs.declared.items.TheConstants.{MAX_ENTRIES};
ghost use Rattle.gx_pool.specs.State.{IsEmpty};
ghost use Rattle.gx_format.specs.Formatting.{AreInRange, sectors_of};
ghost use Rattle.gx_format.specs.Fresh.{fresh_root};
ghost use Rattle.gx_durable.specs.Beginning.{first_glog};
ghost use Rattle.gx_phases.specs.States.{fresh_state};
ghost use Rattle.gx_engine.specs.declared.work.Work as work;
ghost use Rattle.gx_engine_events.specs.Setting.{SeesAs};
ghost use Rattle.gx_engine_events.specs.New.{IsFrames, IsNew, WhyNone, new_parts};

use crate::engine::EngineEvents;
use gx_class::{KeyClass, ReadKeys};
use gx_disk::SectorDisk;
use gx_engine::laws::a_class_is_lawful;
use gx_engine::{Engine, NotOpened, Work};
use gx_format::format;
use gx_geom::Refusal;
use gx_glog::{Extent, Glog};
use gx_node::MAX_ENTRIES;
use gx_node::laws::{inners, leaves};
use gx_phases::Sessions;
use gx_pool::{FRAMES, Pool};
use gx_storage::Storage;
use gx_store::laws::a_store_starts;
use gx_store::{NodeTest, PageStore};
use std::alloc::{AllocError, Global};

// Whether an engine may have so many frames.
fn is_frames(frames: usize) -> bool
    ensures { IsTrue result ↔ IsFrames frames }
{
    (16..=FRAMES).contains(&frames)
}

// Allocates so many bytes for a key.
fn key_room(alloc: Global, size: usize) -> Result<Vec<u8>, AllocError>
    ensures { IfOk result (λ bytes. length bytes.items ≡ size) }
{
    vec![in alloc; 0; size]
}

// Allocates a bit for each of so many pages, none of them set.
fn imaged_room(alloc: Global, pages: u32) -> Result<Vec<bool>, AllocError>
    ensures { IfOk result (λ imaged. imaged.items ≡ replicate pages false) }
{
    vec![in alloc; false; pages as usize]
}

// Allocates memory for the keys of a node that is split.
fn keys_room<K: KeyClass>(alloc: Global) -> Result<Vec<K::Key>, AllocError>
    ensures { IfOk result (λ keys. MAX_ENTRIES ≤ length keys.items) }
{
    vec![in alloc; K::start(); MAX_ENTRIES]
}

// The memory of an engine, but for its log and its sessions.
#[derive(Drop)]
struct Room<K: KeyClass> {
    pool: Pool<NodeTest<K>>,
    key: Vec<u8>,
    imaged: Vec<bool>,
    keys: Vec<K::Key>,
}

// Allocates the memory for pages, their bits, and keys.
fn take_room<K: KeyClass>(alloc: Global, frames: usize, pages: u32) -> Result<Room<K>, AllocError>
    requires { IsFrames frames }
    ensures pool { IfOk result (λ room. IsEmpty frames room.pool.frames × (room.pool.test.pages ≡ pages)) }
    ensures key { IfOk result (λ room. length room.key.items ≡ K.KEY) }
    ensures imaged { IfOk result (λ room. room.imaged.items ≡ replicate pages false) }
    ensures keys { IfOk result (λ room. MAX_ENTRIES ≤ length room.keys.items) }
{
    Ok(Room {
        pool: Pool::with_capacity(alloc, frames, NodeTest::new(pages))?,
        key: key_room(alloc, K::KEY)?,
        imaged: imaged_room(alloc, pages)?,
        keys: keys_room::<K>(alloc)?,
    })
}

// Makes the engine over its device, from memory that was allocated before.
fn over<D: SectorDisk, K: ReadKeys>(
    disk: D,
    log: Glog,
    room: Room<K>,
    sessions: Sessions<K::Key, Work<K::Key>>,
    size: (u32, u16, usize),
    alloc: Global,
) -> Engine<D, K>
    requires range { AreInRange size.0 size.1 }
    requires frames { IsFrames size.2 }
    requires inside { sectors_of size.0 ≤ (D.state disk).sectors }
    requires log { log ≡ first_glog }
    requires pool { IsEmpty size.2 room.pool.frames × (room.pool.test.pages ≡ size.0) }
    requires key { length room.key.items ≡ K.KEY }
    requires imaged { room.imaged.items ≡ replicate size.0 false }
    requires keys { MAX_ENTRIES ≤ length room.keys.items }
    requires sessions { sessions ≡ fresh_state (work.Work K.Key) 0 0 1 }
    ensures { (result ≡ new_parts size.0 size.1 room.pool.frames disk) × IsNew size.0 size.1 size.2 result }
{
    a_store_starts::<D, K>();
    let Room {
        pool,
        key,
        imaged,
        keys,
    } = room;
    let store = PageStore::new(disk, pool, 2, 0, size.0);
    let storage = Storage::new(log, store, usize::from(size.1), key, imaged);
    Engine::new(storage, sessions, keys, alloc)
}

// Starts an engine over a device of this size. If memory is refused, it returns the device.
fn begin_engine<D: SectorDisk, K: ReadKeys>(
    alloc: Global,
    disk: D,
    size: (u32, u16, usize),
) -> Result<EngineEvents<D, K>, NotOpened<D>>
    requires range { AreInRange size.0 size.1 }
    requires frames { IsFrames size.2 }
    requires inside { sectors_of size.0 ≤ (D.state disk).sectors }
    ensures new { IfOk result (λ e. (e.volume.shelf.disk ≡ disk) × IsNew size.0 size.1 size.2 e) }
    ensures memory { IfErr result (λ n. (n.why ≡ Refusal.Memory) × (n.disk ≡ disk)) }
{
    let why = Refusal::Memory;
    let Ok(log) = Glog::start(alloc, Extent::A, 1) else {
        return Err(NotOpened { why, disk });
    };
    let Ok(room) = take_room::<K>(alloc, size.2, size.0) else {
        return Err(NotOpened { why, disk });
    };
    match Sessions::new(alloc, 0, 0, 1) {
        Ok(sessions) => Ok(EngineEvents::new(over(disk, log, room, sessions, size, alloc))),
        Err(_) => Err(NotOpened { why, disk }),
    }
}

/// Formats a device for so many pages, with so many entries in a node at most, and starts an engine on it with so many
/// frames: nothing is committed, no session has a transaction, and no checkpoint runs. What the device held before is
/// lost. On an honest device the engine is seen as the machine with nothing committed.
///
/// Refused with `BadParameter` if the frames aren't 16 to 4,096, and then no call of the device is made; as
/// `gx_format::format` is refused; and with `Memory`. A refusal returns the device.
pub fn new_index<D: SectorDisk, K: ReadKeys>(
    alloc: Global,
    disk: D,
    pages: u32,
    most: u16,
    frames: usize,
) -> Result<EngineEvents<D, K>, NotOpened<D>>
    ensures new { IfOk result (λ e. IsFrames frames × AreInRange pages most × IsNew pages most frames e) }
    ensures seen { (D.state disk).honest ≡ true
        → IfOk result (λ e. SeesAs K.Key.Shape K.ReadKeys D.state e fresh_machine) }
    ensures refused { IfErr result (λ n. WhyNone D.state (record { pages = pages; most = most; class = K.CLASS })
        (fresh_root K.spelling K.start_key) frames disk n.disk n.why) }
{
    a_class_is_lawful::<K>();
    leaves::<K>();
    inners::<K>();
    if !is_frames(frames) {
        return Err(NotOpened {
            why: Refusal::BadParameter,
            disk,
        });
    }
    let mut disk = disk;
    match format::<D, K>(alloc, &mut disk, pages, most) {
        Ok(()) => begin_engine(alloc, disk, (pages, most, frames)),
        Err(why) => Err(NotOpened { why, disk }),
    }
}
