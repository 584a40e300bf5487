//! Pages laid down, made in frames, and looked at.
ghost use Rattle.std.specs.Prelude.{◌≡◌, ◌+◌, ◌*◌, ◌≤◌};
ghost use Rattle.gx_disk.specs.declared.layout.TheConstants.{PAGES_AT, PAGE_SECTORS};
ghost use Rattle.gx_pool.specs.Area.{IsPage};

use crate::leaves::leaf;
use crate::numbers::draw;
use gx_disk::{PAGE_SECTORS, PAGES_AT, SectorDisk};
use gx_page::Page;
use gx_pool::{PageTest, Pool, PoolFault};
use std::alloc::Global;

/// The test that pages are leaves.
#[derive(Drop)]
pub(crate) struct Leaves;

impl PageTest for Leaves {
    ghost use Rattle.std.specs.Prelude.{◌==◌};

    ghost passes = { λ test page. page.level == 0 };

    fn passes(&self, page: &Page) -> bool {
        page.level() == 0
    }
}

/// A page from 1 to a number.
fn draw_page(state: &mut u32, pages: u32) -> u32
    requires { 1 ≤ pages }
    ensures { (1 ≤ result) × (result ≤ pages) }
{
    1 + draw(state) % pages
}

/// Writes a page's sectors.
fn lay<D: SectorDisk>(alloc: Global, disk: &mut D, page: u32) -> Option<()>
    requires { IsPage (D.state disk.old).sectors page }
    ensures { (D.state disk.new).sectors ≡ (D.state disk.old).sectors }
{
    let mut leaf = leaf(alloc, page)?;
    leaf.set_nsn(3 * u64::from(page));
    disk.write(PAGES_AT + PAGE_SECTORS * u64::from(page - 1), leaf.image())
        .ok()
}

/// Writes the sectors of all pages up to a number.
pub(crate) fn lay_all<D: SectorDisk>(alloc: Global, disk: &mut D, pages: u32) -> Option<()>
    requires few { pages ≤ 65535 }
    requires inside { PAGES_AT + PAGE_SECTORS * pages ≤ (D.state disk.old).sectors }
    ensures { (D.state disk.new).sectors ≡ (D.state disk.old).sectors }
{
    for page in 1..pages + 1 {
        lay(alloc, disk, page)?;
    }
    Some(())
}

/// Makes blank leaves in frames, up to a number of pages or as many as there are clean frames.
pub(crate) fn create_all(pool: &mut Pool<Leaves>, pages: u32)
    requires { pages ≤ 65535 }
{
    for page in 1..pages + 1 {
        if !pool.is_kept(page) && pool.clean_frames() > 0 {
            pool.create(page, 0, 1);
        }
    }
}

/// Looks at a page, which is brought first: its number and its sequence number, added up.
fn look_at<D: SectorDisk>(
    pool: &mut Pool<Leaves>,
    disk: &mut D,
    page: u32,
) -> Result<u64, PoolFault>
    requires { IsPage (D.state disk.old).sectors page }
    ensures { (D.state disk.new).sectors ≡ (D.state disk.old).sectors }
{
    pool.bring_one(disk, page)?;
    let brought = pool.page(page);
    Ok(u64::from(brought.number()).wrapping_add(brought.nsn()))
}

/// Looks at random pages so often, and returns the sum.
pub(crate) fn look_at_many<D: SectorDisk>(
    pool: &mut Pool<Leaves>,
    disk: &mut D,
    pages: u32,
    looks: u64,
) -> Result<u64, PoolFault>
    requires some { 1 ≤ pages }
    requires few { pages ≤ 65535 }
    requires inside { PAGES_AT + PAGE_SECTORS * pages ≤ (D.state disk.old).sectors }
{
    let mut state = 7;
    let mut sum: u64 = 0;
    for _look in 0..looks {
        let page = draw_page(&mut state, pages);
        sum = sum.wrapping_add(look_at(pool, disk, page)?);
    }
    Ok(sum)
}
