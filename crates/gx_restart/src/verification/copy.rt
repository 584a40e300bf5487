//! A copy in memory of what an opening may read of a device.
ghost use Rattle.std.specs.Prelude.{◌≡◌, ◌≤◌, ◌*◌, length, true, IfErr, IfOk, OnOk};
ghost use Rattle.gx_disk.specs.Looks.{Looks};
ghost use Rattle.gx_disk.specs.Sectors.{span_of};
ghost use Rattle.gx_opening.specs.Formatted.{Counted};
ghost use Rattle.gx_restart.specs.Beginning.{HasFailed};
ghost use Rattle.gx_restart.specs.Copied.{IsFront, memory_state};
ghost use Rattle.gx_restart.specs.Setting.{IsCopyOfAs, IsUncopiedAs};

use gx_class::ReadKeys;
use gx_disk::{LEAST_SECTORS, MAX_SECTORS, MIN_SECTORS, MemDisk, SECTOR_SIZE, SectorDisk};
use gx_format::sectors_for;
use gx_geom::Refusal;
use gx_opening::read_parameters;
use std::alloc::{AllocError, Global};

// Allocates so many sectors.
fn room_for(alloc: Global, sectors: u64) -> Result<Vec<u8>, AllocError>
    requires { sectors ≤ MAX_SECTORS }
    ensures { IfOk result (λ bytes. length bytes.items ≡ 512 * sectors) }
{
    vec![in alloc; 0; SECTOR_SIZE * sectors as usize]
}

// Reads as many bytes from the start of a device.
fn read_first<D: SectorDisk>(disk: &mut D, bytes: &mut [u8], sectors: u64) -> Result<(), Refusal>
    requires least { MIN_SECTORS ≤ sectors }
    requires inside { sectors ≤ (D.state disk.old).sectors }
    requires size { length bytes.old ≡ 512 * sectors }
    ensures size { length bytes.new ≡ length bytes.old }
    ensures counted { Counted 0 (D.state disk.old) (D.state disk.new) result }
    ensures looks { (D.state disk.old).honest ≡ true → Looks (D.state disk.old) (D.state disk.new) }
    ensures bytes { (D.state disk.old).honest ≡ true
        → OnOk result (bytes.new ≡ span_of (D.state disk.old).seen 0 (512 * sectors)) }
    ensures refused { IfErr result (λ why. why ≡ Refusal.Device) }
{
    disk.read(0, bytes)?;
    Ok(())
}

// Copies the first so many sectors of a device.
fn copy_first<D: SectorDisk>(alloc: Global, disk: &mut D, sectors: u64) -> Result<MemDisk, Refusal>
    requires least { MIN_SECTORS ≤ sectors }
    requires inside { sectors ≤ (D.state disk.old).sectors }
    requires few { sectors ≤ MAX_SECTORS }
    ensures counted { Counted 0 (D.state disk.old) (D.state disk.new) result }
    ensures looks { (D.state disk.old).honest ≡ true → Looks (D.state disk.old) (D.state disk.new) }
    ensures size { IfOk result (λ copy. (memory_state copy).sectors ≡ sectors) }
    ensures front { (D.state disk.old).honest ≡ true
        → IfOk result (λ copy. IsFront (D.state disk.old) sectors (memory_state copy)) }
    ensures refused { IfErr result HasFailed }
{
    let Ok(mut bytes) = room_for(alloc, sectors) else {
        return Err(Refusal::Memory);
    };
    read_first(disk, &mut bytes, sectors)?;
    Ok(MemDisk::from_bytes(alloc, bytes))
}

/// Copies what an opening may read of a device, and no more: the sectors of the index that it is formatted for.
///
/// Refused, before memory is taken for the copy, if the device isn't formatted for an index of the class: `OldVersion`,
/// `NotFormatted`, `BadParameter`, `TooSmall`; with `Device` if a read fails, and with `Memory`. It makes no write and
/// no sync.
pub(crate) fn copied<D: SectorDisk, K: ReadKeys>(
    alloc: Global,
    disk: &mut D,
) -> Result<MemDisk, Refusal>
    requires { LEAST_SECTORS ≤ (D.state disk.old).sectors }
    ensures counted { Counted 0 (D.state disk.old) (D.state disk.new) result }
    ensures looks { (D.state disk.old).honest ≡ true → Looks (D.state disk.old) (D.state disk.new) }
    ensures large { IfOk result (λ copy. MIN_SECTORS ≤ (memory_state copy).sectors) }
    ensures copy { (D.state disk.old).honest ≡ true
        → IfOk result (λ copy. IsCopyOfAs K.Key.Shape K.ReadKeys (D.state disk.old) (memory_state copy)) }
    ensures refused { (D.state disk.old).honest ≡ true
        → IfErr result (IsUncopiedAs K.Key.Shape K.ReadKeys (D.state disk.old)) }
{
    let parameters = read_parameters::<D, K>(disk)?;
    copy_first(alloc, disk, sectors_for(parameters.pages))
}
