//! Laws of the page's format. Each function is its contract alone.
ghost use Rattle.std.specs.Prelude.{◌+◌, ◌*◌, ◌<◌, ◌≤◌, length};
ghost use Rattle.std.specs.List.{insert};
ghost use Rattle.gx_page.specs.Format.{Fits};
ghost use Rattle.gx_page.specs.Sizes.{NoneLonger};
ghost use Rattle.gx_page.specs.Laws.{ImagesTell, FaultlessAreImages, ImagesReadBack, ImagesEndWithTheHeap};
ghost use Rattle.gx_page.specs.Laws.{HeapGoesOn, TotalOfOneLength, PlaceInHeap, PlaceInImage, FewFit};

use crate::Page;

/// Contents have one image and an image has one reading: equal images of well-formed contents are equal contents, and
/// bytes have no fault exactly if they are the image of well-formed contents.
pub fn format()
    ensures images_tell { ImagesTell }
    ensures read_back { ImagesReadBack }
    ensures faultless_are_images { FaultlessAreImages }
{}

/// The items' bytes lie at the image's end, the first item last, so a scan takes them from the end, slot by slot.
pub fn heap()
    ensures images_end_with_it { ImagesEndWithTheHeap }
    ensures goes_on { HeapGoesOn }
{}

/// The place of an item among items of one length, in the heap and in the image, and how many bytes they have in all.
pub fn places()
    ensures total { TotalOfOneLength }
    ensures in_heap { PlaceInHeap }
    ensures in_image { PlaceInImage }
{}

/// A page with fewer than so many items takes one more, if that many of the greatest length fit with their slots. So 99
/// items of up to 36 bytes leave room for one more.
pub fn room()
    ensures { FewFit }
{}

/// The same of one page and one item: that it fits.
#[tactic(auto, using(crate::proofs::Rooms::few_fit))]
pub fn few_fit(page: &Page, slot: usize, item: &[u8], most: usize, size: usize)
    requires slot { slot ≤ length page.now.items }
    requires items { NoneLonger size page.now.items }
    requires item { length item.now ≤ size }
    requires few { length page.now.items < most }
    requires room { most * (4 + size) ≤ 4064 }
    ensures { Fits (insert page.now.items slot item.now) }
{}
