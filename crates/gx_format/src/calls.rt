//! The calls that a format makes of the device, each by name.
ghost use Rattle.std.specs.Prelude.{◌≡◌, ◌∷◌, ◌*◌, ℕ, [], length};
ghost use Rattle.gx_disk.specs.Sectors.{IsSpan};
ghost use Rattle.gx_format.specs.Calls.{Runs, Write, Sync};

use gx_disk::SectorDisk;
use gx_geom::Refusal;

/// Writes whole sectors.
pub fn write<D: SectorDisk>(disk: &mut D, first: u64, bytes: &[u8]) -> Result<(), Refusal>
    requires { IsSpan (D.state disk.old).sectors first (length bytes.now) }
    ensures sectors { (D.state disk.new).sectors ≡ (D.state disk.old).sectors }
    ensures runs { (n : ℕ) → length bytes.now ≡ 512 * n
        → Runs D.state (Write first n bytes.now ∷ []) disk.old disk.new result }
{
    disk.write(first, bytes)?;
    Ok(())
}

/// Makes all writes durable.
pub fn settle<D: SectorDisk>(disk: &mut D) -> Result<(), Refusal>
    ensures sectors { (D.state disk.new).sectors ≡ (D.state disk.old).sectors }
    ensures runs { Runs D.state (Sync ∷ []) disk.old disk.new result }
{
    disk.sync()?;
    Ok(())
}
