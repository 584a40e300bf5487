//! The pages of a record, lent.
ghost use Rattle.std.specs.Prelude.{◌≡◌, ℕ, ◌≤◌, List, length, slice_get};
ghost use Rattle.std.specs.Option.{option_map};
ghost use Rattle.gx_page.specs.Format.{image_of};
ghost use Rattle.gx_record.specs.Format.{IsPage};
ghost use Rattle.gx_record.specs.Seen.{numbered, images};

use gx_page::Page;

/// A page's number, and its image of 4,096 bytes, borrowed.
#[derive(Clone, Copy, PartialEq, Eq)]
pub struct PageImage<'a> {
    pub page: u32,
    pub image: &'a [u8],
}

impl<'a> PageImage<'a> {
    /// A page's own number and its image, in place.
    pub fn of(page: &'a Page) -> PageImage<'a>
        ensures lent { numbered result ≡ (page.now.number, image_of page.now) }
        ensures page { IsPage (numbered result) }
    {
        PageImage {
            page: page.number(),
            image: page.image(),
        }
    }
}

/// One to three pages. In a record in range each has a greater number than the one before.
#[derive(Clone, Copy, PartialEq, Eq)]
pub enum PageImages<'a> {
    One(PageImage<'a>),
    Two(PageImage<'a>, PageImage<'a>),
    Three(PageImage<'a>, PageImage<'a>, PageImage<'a>),
}

impl<'a> PageImages<'a> {
    /// How many pages there are, 1 to 3.
    pub fn count(&self) -> usize
        ensures count { result ≡ length (images self.now) }
        ensures bounds { (1 ≤ result) × (result ≤ 3) }
    {
        match self {
            PageImages::One(..) => 1,
            PageImages::Two(..) => 2,
            PageImages::Three(..) => 3,
        }
    }

    /// The page at a place, counted from 0. None after the last.
    pub fn get(&self, place: usize) -> Option<PageImage<'a>>
        ensures { option_map numbered result ≡ slice_get (images self.now) place }
    {
        match (*self, place) {
            (PageImages::One(first), 0) => Some(first),
            (PageImages::Two(first, _), 0) => Some(first),
            (PageImages::Two(_, second), 1) => Some(second),
            (PageImages::Three(first, _, _), 0) => Some(first),
            (PageImages::Three(_, second, _), 1) => Some(second),
            (PageImages::Three(_, _, third), 2) => Some(third),
            _ => None,
        }
    }
}
