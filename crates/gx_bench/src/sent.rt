//! What C sends.
ghost use Rattle.std.specs.Prelude.{◌≡◌, ◌≤ℤ◌, map, IfSome};
ghost use Rattle.gx_bench.specs.Sent.{key_of, page_of};

use gx_geom::Box2;
use gx_page::{PAGE_SIZE, Page};
use std::alloc::Global;

/// A box as C sends it, with its corners in order.
#[repr(C)]
#[derive(Clone, Copy)]
pub struct SentBox {
    pub x1: i32,
    pub y1: i32,
    pub x2: i32,
    pub y2: i32,
}

/// A page's image.
#[repr(C)]
pub struct SentPage {
    pub image: [u8; PAGE_SIZE],
}

/// The key that a box means.
pub(crate) fn key_of(sent: &SentBox) -> Box2
    requires x { sent.now.x1 ≤ℤ sent.now.x2 }
    requires y { sent.now.y1 ≤ℤ sent.now.y2 }
    ensures { result ≡ key_of sent.now }
{
    match Box2::new(sent.x1, sent.y1, sent.x2, sent.y2) {
        Ok(key) => key,
        Err(_) => Box2::point(0, 0),
    }
}

/// The pages whose images these are. `None` if one is no image, or memory is refused.
pub(crate) fn pages_of(alloc: Global, sent: &[SentPage]) -> Option<Vec<Page>>
    ensures { IfSome result (λ pages. pages.items ≡ map page_of sent.now) }
{
    let mut pages = Vec::with_capacity(alloc, sent.len()).ok()?;
    for one in sent {
        let page = Page::from_image(alloc, &one.image).ok()?;
        pages.push(page).ok()?;
    }
    Some(pages)
}
