//! Reads what a device of the first version is formatted for.
ghost use Rattle.std.specs.Prelude.{◌≡◌, ◌⊎◌, ◌↔◌, ◌<◌, ◌≤◌, true, take, Err, IfErr, IfOk, IsTrue};
ghost use Rattle.gx_disk.specs.Looks.{Looks};
ghost use Rattle.gx_disk.specs.Sectors.{sector_of};
ghost use Rattle.gx_disk.specs.declared.layout.TheConstants.{LEAST_SECTORS};
ghost use Rattle.gx_format.specs.Fresh.{old_magic_bytes};
ghost use Rattle.gx_older.specs.Reads.{OnlyReads};
ghost use Rattle.gx_older.specs.Renumbered.{older_sectors_of};
ghost use Rattle.gx_older.specs.Told.{AreTold, IsOlder, MayBe, WhyNotOlder};

use crate::layout::older_sectors_for;
use crate::reading::read_sectors;
use gx_class::KeyClass;
use gx_disk::{LEAST_SECTORS, SECTOR_SIZE, SectorDisk};
use gx_format::{OLD_MAGIC, is_in_range};
use gx_geom::Refusal;
use gx_glog::{PARAMETERS, Parameters};

// Reads a sector.
fn sector<D: SectorDisk>(disk: &mut D, number: u64) -> Result<[u8; SECTOR_SIZE], Refusal>
    requires { number < (D.state disk.old).sectors }
    ensures only { OnlyReads (D.state disk.old) (D.state disk.new) result }
    ensures bytes { (D.state disk.old).honest ≡ true
        → IfOk result (λ bytes. bytes ≡ sector_of (D.state disk.old).seen number) }
    ensures looks { (D.state disk.old).honest ≡ true → Looks (D.state disk.old) (D.state disk.new) }
    ensures refusal { IfErr result (λ why. why ≡ Refusal.Device) }
{
    let mut bytes = [0; SECTOR_SIZE];
    read_sectors(disk, number, &mut bytes)?;
    Ok(bytes)
}

// Whether a sector begins with the first version's magic.
fn has_old_magic(sector: &[u8; SECTOR_SIZE]) -> bool
    ensures { IsTrue result ↔ (take 8 sector.now ≡ old_magic_bytes) }
{
    sector[..8] == OLD_MAGIC[..]
}

// Reads what a device says that it is formatted for, without a test of that. Refused if a read fails (`Device`), and if
// the first eight bytes aren't the first version's magic (`NotFormatted`).
pub(crate) fn told_older<D: SectorDisk>(disk: &mut D) -> Result<Parameters, Refusal>
    requires { LEAST_SECTORS ≤ (D.state disk.old).sectors }
    ensures only { OnlyReads (D.state disk.old) (D.state disk.new) result }
    ensures looks { (D.state disk.old).honest ≡ true → Looks (D.state disk.old) (D.state disk.new) }
    ensures told { (D.state disk.old).honest ≡ true → AreTold (D.state disk.old).seen result }
    ensures refusal { IfErr result (λ why. (why ≡ Refusal.Device) ⊎ (why ≡ Refusal.NotFormatted)) }
{
    let first = sector(disk, 0)?;
    if !has_old_magic(&first) {
        return Err(Refusal::NotFormatted);
    }
    let second = sector(disk, PARAMETERS)?;
    Ok(Parameters::decode(&second))
}

// Tests that an index of a class may have these parameters on a device of the first version of so many sectors.
fn test_older(parameters: &Parameters, class: u16, sectors: u64) -> Result<(), Refusal>
    ensures ok { IfOk result (λ _. MayBe class parameters.now × (older_sectors_of parameters.now.pages ≤ sectors)) }
    ensures err { IfErr result (WhyNotOlder class sectors parameters.now) }
{
    if !is_in_range(parameters.pages, parameters.most) || parameters.class != class {
        return Err(Refusal::BadParameter);
    }
    if sectors < older_sectors_for(parameters.pages) {
        return Err(Refusal::TooSmall);
    }
    Ok(())
}

/// Reads what a device of the first version is formatted for: an index of this class, with numbers in range, for which
/// it has the sectors. It makes no write and no sync.
///
/// Refused for the first of these that holds: it has fewer sectors than the smallest index took (`TooSmall`; no call is
/// made before this test), a read fails (`Device`), its first eight bytes aren't the first version's magic, though they
/// may be this version's (`NotFormatted`), the numbers are out of range or of another class (`BadParameter`), it has
/// fewer sectors than that index took (`TooSmall`).
pub fn older_parameters<D: SectorDisk, K: KeyClass>(disk: &mut D) -> Result<Parameters, Refusal>
    ensures small { (D.state disk.old).sectors < LEAST_SECTORS
        → (result ≡ Err Refusal.TooSmall) × (disk.new ≡ disk.old) }
    ensures only { OnlyReads (D.state disk.old) (D.state disk.new) result }
    ensures looks { (D.state disk.old).honest ≡ true → Looks (D.state disk.old) (D.state disk.new) }
    ensures allowed { IfOk result (λ parameters. MayBe K.CLASS parameters
        × (older_sectors_of parameters.pages ≤ (D.state disk.old).sectors)) }
    ensures older { (D.state disk.old).honest ≡ true → LEAST_SECTORS ≤ (D.state disk.old).sectors
        → IsOlder K.CLASS (D.state disk.old).sectors (D.state disk.old).seen result }
{
    if disk.sectors() < LEAST_SECTORS {
        return Err(Refusal::TooSmall);
    }
    let parameters = told_older(disk)?;
    test_older(&parameters, K::CLASS, disk.sectors())?;
    Ok(parameters)
}
