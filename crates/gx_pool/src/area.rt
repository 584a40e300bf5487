//! Where pages lie on the device.
ghost use Rattle.std.specs.Prelude.{◌≡◌};
ghost use Rattle.gx_pool.specs.Area.{first_of};

use gx_disk::{PAGE_SECTORS, PAGES_AT};

/// The sector at which a page begins.
pub(crate) fn first_sector(page: u32) -> u64
    ensures { result ≡ first_of page }
{
    PAGES_AT + PAGE_SECTORS * u64::from(page.saturating_sub(1))
}
