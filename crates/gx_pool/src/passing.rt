//! The test of pages.
ghost use Rattle.std.specs.Prelude.{◌≡◌, Bool};
ghost use Rattle.gx_page.specs.Contents.{Contents};

use gx_page::Page;

/// A test that each page has to pass as it comes into a frame.
pub trait PageTest: Drop {
    /// Which contents pass.
    ghost passes: { Self → Contents → Bool };

    /// Whether the page passes.
    fn passes(&self, page: &Page) -> bool
        ensures { result ≡ passes self.now page.now };
}
