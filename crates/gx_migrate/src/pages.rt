//! Writes the pages of a migrated index.
ghost use Rattle.std.specs.Prelude.{◌≡◌, ◌*◌, ◌≤◌, ◌∷◌, [], length};
ghost use Rattle.gx_disk.specs.declared.layout.TheConstants.{PAGE_SECTORS};
ghost use Rattle.gx_format.specs.Calls.{Runs};
ghost use Rattle.gx_format.specs.Formatting.{sectors_of};
ghost use Rattle.gx_migrate.specs.Migrating.{page_write, page_writes};

use gx_disk::{PAGE_SECTORS, PAGES_AT, SECTOR_SIZE, SectorDisk};
use gx_format::write;
use gx_geom::Refusal;
use gx_page::PAGE_SIZE;

// Writes a page from its place among the bytes of a device to its place on another.
fn lay_page<D: SectorDisk>(disk: &mut D, page: u32, bytes: &[u8]) -> Result<(), Refusal>
    requires from { 1 ≤ page }
    requires inside { sectors_of page ≤ (D.state disk.old).sectors }
    requires whole { 512 * sectors_of page ≤ length bytes.now }
    ensures sectors { (D.state disk.new).sectors ≡ (D.state disk.old).sectors }
    ensures runs { Runs D.state (page_write bytes.now page ∷ []) disk.old disk.new result }
{
    let first = PAGES_AT + PAGE_SECTORS * (u64::from(page) - 1);
    let at = SECTOR_SIZE * first as usize;
    write(disk, first, &bytes[at..at + PAGE_SIZE])
}

/// Writes the first so many pages, each from its place among the bytes of a device to its place on another.
pub(crate) fn lay_pages<D: SectorDisk>(
    disk: &mut D,
    pages: u32,
    bytes: &[u8],
) -> Result<(), Refusal>
    requires inside { sectors_of pages ≤ (D.state disk.old).sectors }
    requires whole { 512 * sectors_of pages ≤ length bytes.now }
    ensures sectors { (D.state disk.new).sectors ≡ (D.state disk.old).sectors }
    ensures runs { Runs D.state (page_writes bytes.now pages) disk.old disk.new result }
{
    for before in 0..pages {
        lay_page(disk, before + 1, bytes)?;
    }
    Ok(())
}
