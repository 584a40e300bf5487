//! The record of a split, of three pages that were changed.
ghost use Rattle.std.specs.Prelude.{◌≡◌, ◌≢◌, ◌<◌, [], ◌∷◌};
ghost use Rattle.gx_record.specs.Format.{IsPage};
ghost use Rattle.gx_record.specs.Seen.{numbered};
ghost use Rattle.gx_record.specs.declared.sizes.TheConstants.{SPLIT_RECORD};
ghost use Rattle.gx_store.specs.State.{IsHeld};
ghost use Rattle.gx_node.specs.Lists.{Each};
ghost use Rattle.gx_storage.specs.Changes.{image_at};
ghost use Rattle.gx_storage.specs.Giving.{rising};
ghost use Rattle.gx_storage.specs.Journal.{CanTake};
ghost use Rattle.gx_storage.specs.Setting.{IsGivenAs, IsLastAs, pages_given_at};

use crate::journal::Journal;
use gx_class::ReadKeys;
use gx_disk::SectorDisk;
use gx_durable::OfClass;
use gx_durable::calls::append;
use gx_record::{PageImage, PageImages, Record};
use gx_store::PageStore;
use gx_tree::Pages;

/// Three pages by rising number.
pub(crate) fn in_rising_order(a: u32, b: u32, c: u32) -> (u32, u32, u32)
    requires apart { (a ≢ b) × (c ≢ a) × (c ≢ b) }
    ensures these { result.0 ∷ result.1 ∷ result.2 ∷ [] ≡ rising a b c }
    ensures rise { (result.0 < result.1) × (result.1 < result.2) }
{
    let (low, high) = (a.min(b), a.max(b));
    if c < low {
        return (c, low, high);
    }
    if c < high {
        return (low, c, high);
    }
    (low, high, c)
}

/// A page that is held, with the image of its content.
fn held_image<D: SectorDisk, K: ReadKeys>(store: &PageStore<D, K>, page: u32) -> PageImage<'_>
    requires { IsHeld store.now page }
    ensures number { result.page ≡ page }
    ensures lent { numbered result ≡ (page, image_at (D.state store.now.disk).seen store.now page) }
    ensures page { IsPage (numbered result) }
    ensures given { IsGivenAs D.state store.now page }
{
    store.in_order();
    let held = store.held_page(page);
    PageImage {
        page,
        image: held.image(),
    }
}

impl<K: ReadKeys> Journal<K> {
    /// Appends the record of three pages that were changed: the images of the held pages, the counter and the number of
    /// pages in use. Sets the pages' bits.
    pub(crate) fn split<D: SectorDisk>(
        &mut self,
        store: &PageStore<D, K>,
        first: u32,
        second: u32,
        third: u32,
    )
        requires takes { CanTake self.old.log SPLIT_RECORD }
        requires held { IsHeld store.now first × IsHeld store.now second × IsHeld store.now third }
        requires rise { (first < second) × (second < third) }
        ensures last { IsLastAs K.Key.Shape K.ReadKeys
            (pages_given_at D.state (first ∷ second ∷ third ∷ []) store.now) self.old self.new }
        ensures given { Each (IsGivenAs D.state store.now) (first ∷ second ∷ third ∷ []) }
    {
        let (counter, used) = (store.counter(), store.used());
        let low = held_image(store, first);
        let middle = held_image(store, second);
        let high = held_image(store, third);
        append::<OfClass<K>>(
            &mut self.log,
            &Record::Pages {
                counter,
                used,
                pages: PageImages::Three(low, middle, high),
            },
        );
        self.imaged.note(first);
        self.imaged.note(second);
        self.imaged.note(third);
    }
}
