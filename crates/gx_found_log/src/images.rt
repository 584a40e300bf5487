//! The images that a record gives, kept.
ghost use Rattle.std.specs.Prelude.{◌≡◌, ◌+◌, ◌≤◌, length};
ghost use Rattle.std.specs.List.{AllByRecursion};
ghost use Rattle.gx_record.specs.Seen.{images, rec_of};
ghost use Rattle.gx_found_log.specs.declared.given.TheConstants.{MOST_GIVEN};
ghost use Rattle.gx_found_log.specs.Given.{with_all, images_of, HasImage};

use crate::Given;
use gx_record::{PageImages, Record};

/// Keeps the images of pages, in their order.
fn keep_pages(given: &mut Given, pages: &PageImages<'_>)
    requires room { length given.old + length (images pages.now) ≤ MOST_GIVEN }
    requires images { AllByRecursion HasImage (images pages.now) }
    ensures { given.new ≡ with_all (images pages.now) given.old }
{
    match pages {
        PageImages::One(a) => given.keep_image(a.page, a.image),
        PageImages::Two(a, b) => {
            given.keep_image(a.page, a.image);
            given.keep_image(b.page, b.image);
        }
        PageImages::Three(a, b, c) => {
            given.keep_image(a.page, a.image);
            given.keep_image(b.page, b.image);
            given.keep_image(c.page, c.image);
        }
    }
}

/// Keeps the images that a record gives, in their order.
pub(crate) fn keep_images(given: &mut Given, logged: &Record<'_>)
    requires room { length given.old + length (images_of (rec_of logged.now)) ≤ MOST_GIVEN }
    requires images { AllByRecursion HasImage (images_of (rec_of logged.now)) }
    ensures { given.new ≡ with_all (images_of (rec_of logged.now)) given.old }
{
    match logged {
        Record::Pages { pages, .. } => keep_pages(given, pages),
        Record::Write { leaf, image, .. } => given.keep_image(*leaf, image),
        Record::Commit { .. }
        | Record::End { .. }
        | Record::Counters { .. }
        | Record::Note { .. }
        | Record::Bit { .. }
        | Record::Add { .. }
        | Record::Widen { .. }
        | Record::Sweep { .. } => {}
    }
}
