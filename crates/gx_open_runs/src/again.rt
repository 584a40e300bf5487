//! Opens a device again after a crash, and compares what it has.
use crate::fault::RunFault;
use crate::sets::set_of;
use gx_class::Box2Class;
use gx_disk::MemDisk;
use gx_restart::{Index, open};
use std::alloc::Global;

/// A device with the bytes of another, of which nothing is pending.
pub(crate) fn copy_of(alloc: Global, disk: &MemDisk) -> Result<MemDisk, RunFault> {
    let mut bytes = Vec::new(alloc);
    bytes.extend_from_slice(disk.bytes())?;
    if bytes.len() % 512 != 0 {
        return Err(RunFault::Memory);
    }
    Ok(MemDisk::from_bytes(alloc, bytes))
}

/// Opens a device, which must have the set of its number, and the number must be from the first to the last. Returns
/// the number.
pub(crate) fn stands(
    alloc: Global,
    disk: MemDisk,
    frames: usize,
    sets: &[Vec<u8>],
    first: u64,
    last: u64,
) -> Result<u64, RunFault> {
    let engine = match open::<MemDisk, Box2Class>(alloc, disk, frames) {
        Ok(engine) => engine,
        Err(refused) => return Err(RunFault::NotOpened(refused.why)),
    };
    let number = engine.commits();
    if number < first || last < number {
        return Err(RunFault::Number(number));
    }
    let mut index = Index::new(engine);
    let text = set_of(alloc, &mut index)?;
    let place = usize::try_from(number).unwrap_or(usize::MAX);
    match sets.get(place) {
        Some(set) if set.as_slice() == text.as_slice() => Ok(number),
        _ => Err(RunFault::Set(number)),
    }
}
