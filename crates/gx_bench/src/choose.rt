//! Choices of the child of least penalty.
ghost use Rattle.std.specs.Prelude.{◌≡◌, ◌≤◌, true, length, All};
ghost use Rattle.std.specs.Bool.{OnTrue};
ghost use Rattle.gx_node.specs.Reading.{inner_of};
ghost use Rattle.gx_bench.specs.Scans.{boxes};
ghost use Rattle.gx_bench.specs.Sent.{key_of, page_of, InOrder};
ghost use Rattle.gx_bench.specs.Choices.{AreChosen};

use crate::sent::{SentBox, SentPage, key_of};
use gx_class::Box2Class;
use gx_node::Inner;
use gx_page::Page;
use std::alloc::Global;

/// Writes for each key the slot of the child to which it goes.
fn choose_all(inner: &Inner<'_, Box2Class>, keys: &[SentBox], slots: &mut [usize])
    requires some { 1 ≤ length inner.now.children }
    requires in_order { All InOrder keys.now }
    requires as_many { length slots.old ≡ length keys.now }
    ensures { AreChosen inner.now.children keys.now slots.new (length keys.now) }
{
    for place in 0..keys.len() {
        slots[place] = inner.least_penalty(&key_of(&keys[place]));
    }
}

/// For each of some boxes, writes into `slots`, which has a place for each, the slot of an inner node's child that
/// needs least enlargement for it, and of those the smallest, the first of several. False, and nothing is written, if
/// the image is no inner node of boxes with a child, where `used` is the greatest page in use, or memory is refused.
#[unsafe(no_mangle)]
pub extern "C" fn gx_bench_choose(
    alloc: Global,
    sent: &SentPage,
    used: u32,
    keys: &[SentBox],
    slots: &mut [usize],
) -> bool
    requires in_order { All InOrder keys.now }
    requires as_many { length slots.old ≡ length keys.now }
    ensures { OnTrue result (AreChosen (inner_of boxes (page_of sent.now)).children
        keys.now slots.new (length keys.now)) }
{
    let Ok(page) = Page::from_image(alloc, &sent.image) else {
        return false;
    };
    let Ok(inner) = Inner::read(&page, used) else {
        return false;
    };
    if inner.len() == 0 {
        return false;
    }
    choose_all(&inner, keys, slots);
    true
}
