//! A run: the storage, and beside it the tree in memory and what is expected on the device.
use crate::storage::base::{Device, make_device, open};
use crate::storage::book::Book;
use crate::storage::counts::Counts;
use crate::storage::fault::StorageFault;
use crate::storage::mirror::{Mirror, room_for_keys};
use crate::storage::snapshot::Snapshot;
use crate::storage::volume::Volume;
use gx_class::Box2Class;
use gx_disk::{Fuse, FuseDisk, MemDisk};
use gx_geom::Box2;
use gx_glog::Stage;
use rand_pcg::Pcg32;
use std::alloc::Global;

/// How a run is made.
#[derive(Clone, Copy)]
pub(crate) struct Setting {
    pub(crate) most: usize,
    pub(crate) frames: usize,
    pub(crate) seed: u64,
    pub(crate) steps: u64,
}

/// The call of the device that fails, and how.
#[derive(Clone, Copy)]
pub(crate) struct Failing {
    pub(crate) call: u64,
    pub(crate) stops: bool,
    /// Whether a write that fails is made all the same.
    pub(crate) done: bool,
}

/// What is expected on the device.
#[derive(Drop)]
pub(crate) struct Expected {
    /// After the records that are gated.
    pub(crate) gated: Snapshot,
    /// After those in flight too.
    pub(crate) flight: Option<Snapshot>,
    /// Whether records fill that aren't in flight.
    pub(crate) fills: bool,
    /// The last of the log's calls; `GateSync` too if another sync has settled the gate in flight.
    pub(crate) last: Stage,
    /// Whether the gate of the batch in flight was written.
    pub(crate) gate_written: bool,
}

/// A run.
#[derive(Drop)]
pub(crate) struct Run {
    pub(crate) alloc: Global,
    pub(crate) volume: Volume<Device, Box2Class>,
    pub(crate) tree: Mirror,
    pub(crate) book: Book,
    pub(crate) expected: Expected,
    pub(crate) counts: Counts,
    pub(crate) draw: Pcg32,
    pub(crate) failing: Failing,
    /// Room for the keys of a node that is split.
    pub(crate) keys: Vec<Box2>,
}

/// The present pages, set and numbers.
pub(crate) fn snapshot(
    alloc: Global,
    tree: &Mirror,
    book: &Book,
) -> Result<Snapshot, StorageFault> {
    Ok(Snapshot {
        nodes: tree.nodes(alloc)?,
        set: book.set(alloc)?,
        number: book.number,
        counter: tree.counter(),
        next: book.next,
    })
}

/// How many rows a run has, for so many entries a node.
fn rows_for(most: usize) -> usize {
    most.saturating_mul(24).saturating_add(64)
}

/// The tree and its rows before a run, none of them in the tree.
fn plant(
    alloc: Global,
    setting: Setting,
    draw: &mut Pcg32,
) -> Result<(Mirror, Book), StorageFault> {
    let book = Book::new(alloc, rows_for(setting.most), draw)?;
    let tree = Mirror::new(alloc, setting.most)?;
    Ok((tree, book))
}

/// The fuse by which a device fails.
fn fused(disk: MemDisk, failing: Failing) -> Device {
    let fuse = if failing.stops {
        Fuse::ForEver
    } else {
        Fuse::Once
    };
    FuseDisk::new(disk, failing.call, fuse, failing.done)
}

/// The storage over a device with a quarter of the rows, and what the device has.
fn begin_storage(
    alloc: Global,
    setting: Setting,
    failing: Failing,
    tree: &mut Mirror,
    book: &mut Book,
) -> Result<(Volume<Device, Box2Class>, Expected), StorageFault> {
    let disk = make_device(alloc, tree, book, rows_for(setting.most) / 4)?;
    let volume = open(alloc, fused(disk, failing), tree, setting.frames)?;
    let gated = snapshot(alloc, tree, book)?;
    let expected = Expected {
        gated,
        flight: None,
        fills: false,
        last: Stage::Idle,
        gate_written: false,
    };
    Ok((volume, expected))
}

/// A run before its first step: a quarter of the rows is in the tree.
pub(crate) fn start(
    alloc: Global,
    setting: Setting,
    failing: Failing,
) -> Result<Run, StorageFault> {
    let mut draw = Pcg32::new(setting.seed, 11);
    let keys = room_for_keys(alloc)?;
    let (mut tree, mut book) = plant(alloc, setting, &mut draw)?;
    let (volume, expected) = begin_storage(alloc, setting, failing, &mut tree, &mut book)?;
    Ok(Run {
        alloc,
        volume,
        tree,
        book,
        expected,
        counts: Counts::new(),
        draw,
        failing,
        keys,
    })
}

impl Run {
    /// What is left once a run has ended: the device, what is expected on it, and the random numbers.
    pub(crate) fn into_parts(self) -> (MemDisk, Expected, Pcg32) {
        let Run {
            alloc: _,
            volume,
            tree: _,
            book: _,
            expected,
            counts: _,
            draw,
            failing: _,
            keys: _,
        } = self;
        (volume.into_disk().into_inner(), expected, draw)
    }
}
