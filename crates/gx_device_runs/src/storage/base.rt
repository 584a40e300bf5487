//! What a run begins with: a device with a tree of some rows, and the storage over it.
ghost use Rattle.std.specs.Prelude.{◌≡◌, length, replicate, false, IfOk};

use crate::storage::book::Book;
use crate::storage::fault::{StorageFault, What};
use crate::storage::mirror::{Mirror, PAGES};
use crate::storage::volume::Volume;
use gx_class::{Box2Class, ReadKeys};
use gx_disk::{FuseDisk, MemDisk, PAGES_AT, SectorDisk};
use gx_format::{format, sectors_for};
use gx_glog::{BODIES_A, Extent, Glog, first_body};
use gx_pool::Pool;
use gx_storage::Storage;
use gx_store::laws::a_store_starts;
use gx_store::{NodeTest, PageStore};
use std::alloc::{AllocError, Global};

/// A device that fails at a call.
pub(crate) type Device = FuseDisk<MemDisk>;

/// Writes sectors from one on.
fn write(disk: &mut MemDisk, first: u64, bytes: &[u8]) -> Result<(), StorageFault> {
    let sectors = (bytes.len() / 512) as u64;
    let room = disk.sectors();
    if bytes.is_empty() || bytes.len() % 512 != 0 || first > room || sectors > room - first {
        return Err(StorageFault::Unexpected(What::Base));
    }
    match disk.write(first, bytes) {
        Ok(()) => Ok(()),
        Err(_) => Err(StorageFault::Memory),
    }
}

/// Writes the pages of a tree, and its counters as the log's head.
fn lay(disk: &mut MemDisk, tree: &Mirror) -> Result<(), StorageFault> {
    for before in 0..PAGES {
        if let Some(page) = tree.page(before.saturating_add(1)) {
            let before = u64::from(before);
            write(
                disk,
                before.saturating_mul(8).saturating_add(PAGES_AT),
                page.image(),
            )?;
        }
    }
    let mut body = first_body();
    let counter = tree.counter().to_be_bytes();
    let used = tree.used().to_be_bytes();
    body[13..21].copy_from_slice(&counter);
    body[21..25].copy_from_slice(&used);
    write(disk, BODIES_A, &body)?;
    match disk.sync() {
        Ok(()) => Ok(()),
        Err(_) => Err(StorageFault::Memory),
    }
}

/// Inserts the first so many rows.
fn grow(tree: &mut Mirror, book: &mut Book, count: usize) -> Result<(), StorageFault> {
    for row in 0..count {
        let entry = book.entry(row)?;
        tree.insert(&entry)?;
        if let Some(row) = book.rows.get_mut(row) {
            row.leaf = 2;
            row.live = true;
            row.settled = true;
        }
    }
    Ok(())
}

/// A device with a tree of the first so many rows.
pub(crate) fn make_device(
    alloc: Global,
    tree: &mut Mirror,
    book: &mut Book,
    count: usize,
) -> Result<MemDisk, StorageFault> {
    let most = u16::try_from(tree.most()).unwrap_or(100);
    let sectors = usize::try_from(sectors_for(PAGES)).unwrap_or(0);
    let mut disk = MemDisk::new(alloc, sectors)?;
    format::<MemDisk, Box2Class>(alloc, &mut disk, PAGES, most)?;
    grow(tree, book, count)?;
    lay(&mut disk, tree)?;
    Ok(disk)
}

/// A key's bytes.
fn room_for_key(alloc: Global, size: usize) -> Result<Vec<u8>, AllocError>
    ensures { IfOk result (λ key. length key.items ≡ size) }
{
    vec![in alloc; 0; size]
}

/// A bit for each page, none of them set.
fn room_for_bits(alloc: Global) -> Result<Vec<bool>, AllocError>
    ensures { IfOk result (λ imaged. imaged.items ≡ replicate PAGES false) }
{
    vec![in alloc; false; PAGES as usize]
}

/// A storage over a device whose log has one batch.
pub(crate) fn open<D: SectorDisk + Drop, K: ReadKeys>(
    alloc: Global,
    disk: D,
    tree: &Mirror,
    frames: usize,
) -> Result<Volume<D, K>, StorageFault> {
    a_store_starts::<D, K>();
    let used = tree.used();
    if disk.sectors() < sectors_for(PAGES) || used > PAGES || frames > 64 {
        return Err(StorageFault::Unexpected(What::Base));
    }
    let pool = Pool::with_capacity(alloc, frames, NodeTest::new(PAGES))?;
    let store = PageStore::new(disk, pool, used, tree.counter(), PAGES);
    let log = Glog::start(alloc, Extent::A, 1)?;
    let key = room_for_key(alloc, K::KEY)?;
    let imaged = room_for_bits(alloc)?;
    Ok(Volume::new(Storage::new(log, store, tree.most(), key, imaged)))
}
