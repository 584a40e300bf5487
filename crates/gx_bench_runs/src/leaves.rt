//! Leaves of a hundred items.

use gx_page::Page;
use std::alloc::Global;

/// How many items a leaf has.
const ITEMS: usize = 100;

/// A leaf of a hundred items, each as long as a pair. `None` if memory is refused.
pub(crate) fn leaf(alloc: Global, number: u32) -> Option<Page> {
    let mut page = Page::fresh(alloc, 0, number).ok()?;
    let item = [7; 25];
    for _ in 0..ITEMS {
        let last = page.count();
        page.insert(last, &item);
    }
    Some(page)
}
