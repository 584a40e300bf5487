//! Syncs a device, and reads what it is formatted for.
ghost use Rattle.std.specs.Prelude.{◌≡◌, ◌↔◌, ◌+◌, ◌<◌, ◌≤◌, true, take, IfOk, IfErr, IsTrue, OnOk, Err};
ghost use Rattle.gx_disk.specs.Device.{Counts, Syncs};
ghost use Rattle.gx_disk.specs.Looks.{Looks};
ghost use Rattle.gx_disk.specs.Sectors.{sector_of};
ghost use Rattle.gx_format.specs.Fresh.{magic_bytes, old_magic_bytes};
ghost use Rattle.gx_opening.specs.Formatted.{AreRead, Counted, IsAllowed, IsLarge, IsUntold};
ghost use Rattle.gx_opening.specs.Formatted.{MaySettle, Settles, WhyNotAllowed};

use gx_class::KeyClass;
use gx_disk::{LEAST_SECTORS, SECTOR_SIZE, SectorDisk};
use gx_format::{MAGIC, OLD_MAGIC, is_in_range, sectors_for};
use gx_geom::Refusal;
use gx_glog::{PARAMETERS, Parameters};

// Makes all writes durable.
fn settle<D: SectorDisk>(disk: &mut D) -> Result<(), Refusal>
    ensures counts { Counts 1 (D.state disk.old) (D.state disk.new) result }
    ensures syncs { (D.state disk.old).honest ≡ true → Syncs (D.state disk.old) (D.state disk.new) result }
    ensures refusal { IfErr result (λ refusal. refusal ≡ Refusal.Device) }
{
    disk.sync()?;
    Ok(())
}

// Reads a sector.
fn sector<D: SectorDisk>(disk: &mut D, number: u64) -> Result<[u8; SECTOR_SIZE], Refusal>
    requires { number < (D.state disk.old).sectors }
    ensures counts { Counts 0 (D.state disk.old) (D.state disk.new) result }
    ensures bytes { (D.state disk.old).honest ≡ true
        → IfOk result (λ bytes. bytes ≡ sector_of (D.state disk.old).seen number) }
    ensures looks { (D.state disk.old).honest ≡ true → Looks (D.state disk.old) (D.state disk.new) }
    ensures refusal { IfErr result (λ refusal. refusal ≡ Refusal.Device) }
{
    let mut bytes = [0; SECTOR_SIZE];
    disk.read(number, &mut bytes)?;
    Ok(bytes)
}

// Whether a sector begins with the magic.
fn has_magic(sector: &[u8; SECTOR_SIZE]) -> bool
    ensures { IsTrue result ↔ (take 8 sector.now ≡ magic_bytes) }
{
    sector[..8] == MAGIC[..]
}

// Whether a sector begins with the magic of version 1.
fn has_old_magic(sector: &[u8; SECTOR_SIZE]) -> bool
    ensures { IsTrue result ↔ (take 8 sector.now ≡ old_magic_bytes) }
{
    sector[..8] == OLD_MAGIC[..]
}

/// Reads what a device says that it is formatted for, without a test of that. It makes no write and no sync.
///
/// Refused if a read fails (`Device`), if the first eight bytes are the magic of version 1 (`OldVersion`), and if they
/// aren't the magic (`NotFormatted`).
pub fn told_parameters<D: SectorDisk>(disk: &mut D) -> Result<Parameters, Refusal>
    requires { LEAST_SECTORS ≤ (D.state disk.old).sectors }
    ensures counted { Counted 0 (D.state disk.old) (D.state disk.new) result }
    ensures looks { (D.state disk.old).honest ≡ true → Looks (D.state disk.old) (D.state disk.new) }
    ensures told { (D.state disk.old).honest ≡ true → AreRead (D.state disk.old).seen result }
    ensures refusal { IfErr result IsUntold }
{
    let first = sector(disk, 0)?;
    if has_old_magic(&first) {
        return Err(Refusal::OldVersion);
    }
    if !has_magic(&first) {
        return Err(Refusal::NotFormatted);
    }
    let second = sector(disk, PARAMETERS)?;
    Ok(Parameters::decode(&second))
}

// Tests that an index of a class may have these parameters on a device of so many sectors.
fn test_parameters(parameters: &Parameters, class: u16, sectors: u64) -> Result<(), Refusal>
    ensures ok { IfOk result (λ _. IsAllowed class parameters.now × IsLarge sectors parameters.now) }
    ensures err { IfErr result (WhyNotAllowed class sectors parameters.now) }
{
    if !is_in_range(parameters.pages, parameters.most) || parameters.class != class {
        return Err(Refusal::BadParameter);
    }
    if sectors < sectors_for(parameters.pages) {
        return Err(Refusal::TooSmall);
    }
    Ok(())
}

/// Reads what a device with [`LEAST_SECTORS`] sectors is formatted for, as [`formatted_for`] does, but without
/// a sync.
pub fn read_parameters<D: SectorDisk, K: KeyClass>(disk: &mut D) -> Result<Parameters, Refusal>
    requires { LEAST_SECTORS ≤ (D.state disk.old).sectors }
    ensures counted { Counted 0 (D.state disk.old) (D.state disk.new) result }
    ensures looks { (D.state disk.old).honest ≡ true → Looks (D.state disk.old) (D.state disk.new) }
    ensures allowed { IfOk result (λ parameters. IsAllowed K.CLASS parameters
        × IsLarge (D.state disk.old).sectors parameters) }
    ensures told { (D.state disk.old).honest ≡ true
        → MaySettle K.CLASS (D.state disk.old).sectors (D.state disk.old).seen result }
{
    let parameters = told_parameters(disk)?;
    test_parameters(&parameters, K::CLASS, disk.sectors())?;
    Ok(parameters)
}

/// Syncs a device that has [`LEAST_SECTORS`] sectors, and reads what it is formatted for, as [`formatted_for`] does.
pub(crate) fn formatted_behind<D: SectorDisk, K: KeyClass>(
    disk: &mut D,
) -> Result<Parameters, Refusal>
    requires { LEAST_SECTORS ≤ (D.state disk.old).sectors }
    ensures counted { Counted 1 (D.state disk.old) (D.state disk.new) result }
    ensures synced { OnOk result ((D.state disk.new).calls ≡ (D.state disk.old).calls + 1) }
    ensures allowed { IfOk result (λ parameters. IsAllowed K.CLASS parameters
        × IsLarge (D.state disk.old).sectors parameters) }
    ensures settles { (D.state disk.old).honest ≡ true → Settles K.CLASS (D.state disk.old) (D.state disk.new) result }
{
    settle(disk)?;
    read_parameters::<D, K>(disk)
}

/// Syncs a device, and reads what it is formatted for: an index of this class, with numbers in range, for which it has
/// the sectors.
///
/// Refused for the first of these that holds: it has fewer than 4,232 sectors (`TooSmall`), a call fails
/// (`Device`), its first eight bytes are the magic of version 1 (`OldVersion`), or aren't the magic (`NotFormatted`),
/// the numbers are out of range or of another class (`BadParameter`), it has fewer sectors than that index takes
/// (`TooSmall`). At Ok one sync was made, and everything is durable. No sector reads otherwise than before.
pub fn formatted_for<D: SectorDisk, K: KeyClass>(disk: &mut D) -> Result<Parameters, Refusal>
    ensures counted { Counted 1 (D.state disk.old) (D.state disk.new) result }
    ensures synced { OnOk result ((D.state disk.new).calls ≡ (D.state disk.old).calls + 1) }
    ensures allowed { IfOk result (λ parameters. IsAllowed K.CLASS parameters
        × IsLarge (D.state disk.old).sectors parameters) }
    ensures small { (D.state disk.old).sectors < LEAST_SECTORS
        → (result ≡ Err Refusal.TooSmall) × (disk.new ≡ disk.old) }
    ensures settles { (D.state disk.old).honest ≡ true → Settles K.CLASS (D.state disk.old) (D.state disk.new) result }
{
    if disk.sectors() < LEAST_SECTORS {
        return Err(Refusal::TooSmall);
    }
    formatted_behind::<D, K>(disk)
}
