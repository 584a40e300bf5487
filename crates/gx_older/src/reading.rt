//! Reads a device of the first version into memory, each part to its place in this version.
ghost use Rattle.std.specs.Prelude.{◌≡◌, ◌⊎◌, ◌+◌, ◌*◌, ◌≤◌, length, true, replicate, Err, IfErr, IfOk, OnOk};
ghost use Rattle.gx_disk.specs.declared.layout.TheConstants.{MAX_PAGES};
ghost use Rattle.gx_disk.specs.Looks.{Looks};
ghost use Rattle.gx_disk.specs.Sectors.{IsSpan, put, span_of};
ghost use Rattle.gx_format.specs.Formatting.{sectors_of};
ghost use Rattle.gx_format.specs.Fresh.{magic_bytes};
ghost use Rattle.gx_older.specs.Reads.{OnlyReads};
ghost use Rattle.gx_older.specs.Renumbered.{AllFit, Fits, older_sectors_of, renumbered, with_part, with_parts};

use crate::layout::{Part, parts};
use gx_disk::{SECTOR_SIZE, SectorDisk};
use gx_format::{MAGIC, sectors_for};
use gx_geom::Refusal;
use std::alloc::{AllocError, Global};

// Reads sectors from a first one on.
pub(crate) fn read_sectors<D: SectorDisk>(
    disk: &mut D,
    first: u64,
    bytes: &mut [u8],
) -> Result<(), Refusal>
    requires { IsSpan (D.state disk.old).sectors first (length bytes.old) }
    ensures only { OnlyReads (D.state disk.old) (D.state disk.new) result }
    ensures looks { (D.state disk.old).honest ≡ true → Looks (D.state disk.old) (D.state disk.new) }
    ensures size { length bytes.new ≡ length bytes.old }
    ensures bytes { (D.state disk.old).honest ≡ true
        → OnOk result (bytes.new ≡ span_of (D.state disk.old).seen first (length bytes.old)) }
    ensures refusal { IfErr result (λ why. why ≡ Refusal.Device) }
{
    disk.read(first, bytes)?;
    Ok(())
}

// Reads a part to its place.
#[tactic(auto, unfolding(gx_disk::specs::Sectors::put))]
fn read_part<D: SectorDisk>(disk: &mut D, part: &Part, bytes: &mut [u8]) -> Result<(), Refusal>
    requires { Fits (D.state disk.old).sectors (length bytes.old) part.now }
    ensures only { OnlyReads (D.state disk.old) (D.state disk.new) result }
    ensures looks { (D.state disk.old).honest ≡ true → Looks (D.state disk.old) (D.state disk.new) }
    ensures size { length bytes.new ≡ length bytes.old }
    ensures bytes { (D.state disk.old).honest ≡ true
        → OnOk result (bytes.new ≡ with_part (D.state disk.old).seen part.now bytes.old) }
    ensures refusal { IfErr result (λ why. why ≡ Refusal.Device) }
{
    let at = SECTOR_SIZE * part.to as usize;
    let size = SECTOR_SIZE * part.sectors as usize;
    read_sectors(disk, part.from, &mut bytes[at..at + size])
}

// Reads parts, each to its place.
fn read_parts<D: SectorDisk>(disk: &mut D, parts: &[Part], bytes: &mut [u8]) -> Result<(), Refusal>
    requires { AllFit (D.state disk.old).sectors (length bytes.old) parts.now }
    ensures only { OnlyReads (D.state disk.old) (D.state disk.new) result }
    ensures looks { (D.state disk.old).honest ≡ true → Looks (D.state disk.old) (D.state disk.new) }
    ensures size { length bytes.new ≡ length bytes.old }
    ensures bytes { (D.state disk.old).honest ≡ true
        → OnOk result (bytes.new ≡ with_parts (D.state disk.old).seen parts.now bytes.old) }
    ensures refusal { IfErr result (λ why. why ≡ Refusal.Device) }
{
    for part in parts {
        read_part(disk, part, bytes)?;
    }
    Ok(())
}

// Allocates the bytes of an index of so many pages.
fn room_for(alloc: Global, pages: u32) -> Result<Vec<u8>, AllocError>
    requires { pages ≤ MAX_PAGES }
    ensures { IfOk result (λ bytes. bytes.items ≡ replicate (512 * sectors_of pages) 0) }
{
    let mut bytes = Vec::new(alloc);
    bytes.resize(SECTOR_SIZE * sectors_for(pages) as usize, 0)?;
    Ok(bytes)
}

// Writes the magic of this version.
#[tactic(auto, unfolding(gx_disk::specs::Sectors::put))]
fn name(bytes: &mut [u8])
    requires { 8 ≤ length bytes.old }
    ensures { bytes.new ≡ put 0 magic_bytes bytes.old }
{
    bytes[..8].copy_from_slice(&MAGIC);
}

/// Reads a device of the first version, with an index of so many pages, as the bytes of a device of this version. It
/// makes no write and no sync.
///
/// Refused if there is no memory for them (`Memory`; no call was made then), and if a read fails (`Device`).
pub fn read_older<D: SectorDisk>(
    alloc: Global,
    disk: &mut D,
    pages: u32,
) -> Result<Vec<u8>, Refusal>
    requires some { 1 ≤ pages }
    requires few { pages ≤ MAX_PAGES }
    requires inside { older_sectors_of pages ≤ (D.state disk.old).sectors }
    ensures only { OnlyReads (D.state disk.old) (D.state disk.new) result }
    ensures looks { (D.state disk.old).honest ≡ true → Looks (D.state disk.old) (D.state disk.new) }
    ensures size { IfOk result (λ bytes. length bytes.items ≡ 512 * sectors_of pages) }
    ensures renumbered { (D.state disk.old).honest ≡ true
        → IfOk result (λ bytes. bytes.items ≡ renumbered pages (D.state disk.old).seen) }
    ensures refusal { IfErr result (λ why. (why ≡ Refusal.Device) ⊎ (why ≡ Refusal.Memory)) }
    ensures memory { result ≡ Err Refusal.Memory → disk.new ≡ disk.old }
{
    let Ok(mut bytes) = room_for(alloc, pages) else {
        return Err(Refusal::Memory);
    };
    read_parts(disk, &parts(pages), &mut bytes)?;
    name(&mut bytes);
    Ok(bytes)
}
