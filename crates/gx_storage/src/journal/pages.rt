//! The record of a page that was changed.
ghost use Rattle.gx_record.specs.declared.sizes.TheConstants.{PAGE_RECORD};
ghost use Rattle.gx_store.specs.State.{IsHeld};
ghost use Rattle.gx_storage.specs.Journal.{MayLog};
ghost use Rattle.gx_storage.specs.Setting.{IsGivenAs, IsLastAs, page_given_at};

use crate::journal::Journal;
use gx_class::ReadKeys;
use gx_disk::SectorDisk;
use gx_durable::OfClass;
use gx_durable::calls::append;
use gx_record::{PageImage, PageImages, Record};
use gx_store::PageStore;
use gx_tree::Pages;

/// Law: the content of a held page has an image, under its own number.
pub(super) fn has_image<D: SectorDisk, K: ReadKeys>(store: &PageStore<D, K>, page: u32)
    requires { IsHeld store.now page }
    ensures { IsGivenAs D.state store.now page }
{
    store.in_order();
    let held = store.held_page(page);
    held.image();
}

impl<K: ReadKeys> Journal<K> {
    /// Appends the record of a page that was changed: the image of the held page, the counter and the number of pages
    /// in use. Sets the page's bit.
    pub(super) fn give_page<D: SectorDisk>(&mut self, store: &PageStore<D, K>, page: u32)
        requires { MayLog self.old.log PAGE_RECORD store.now page }
        ensures last { IsLastAs K.Key.Shape K.ReadKeys (page_given_at D.state page store.now) self.old self.new }
        ensures given { IsGivenAs D.state store.now page }
    {
        let (counter, used) = (store.counter(), store.used());
        store.in_order();
        let held = store.held_page(page);
        append::<OfClass<K>>(
            &mut self.log,
            &Record::Pages {
                counter,
                used,
                pages: PageImages::One(PageImage {
                    page,
                    image: held.image(),
                }),
            },
        );
        self.imaged.note(page);
    }
}
