//! A page with an image.
ghost use Rattle.std.specs.Prelude.{◌≡◌, length};

use gx_page::PAGE_SIZE;
use std::marker::Model;

/// A page by its number, and the bytes of an image of it.
#[derive(Clone, Copy)]
pub struct Imaged {
    page: u32,
    image: [u8; PAGE_SIZE],
}

impl Model for Imaged {
    ghost use Rattle.std.specs.Prelude.{ℕ, List};

    ghost Value = { ℕ × List ℕ };

    ghost view = { λ g. (g.page, g.image) };

    ghost inverse = { λ g. record { page = g.0; image = g.1 } };
}

impl Imaged {
    /// A page with this image.
    pub(crate) fn new(page: u32, image: &[u8]) -> Imaged
        requires { length image.now ≡ PAGE_SIZE }
        ensures { result ≡ (page, image.now) }
    {
        let mut bytes = [0; PAGE_SIZE];
        bytes.copy_from_slice(image);
        Imaged { page, image: bytes }
    }

    /// The page's number.
    pub fn page(&self) -> u32
        ensures { result ≡ self.now.0 }
    {
        self.page
    }

    /// The image's bytes.
    pub fn image(&self) -> &[u8]
        ensures bytes { result.now ≡ self.now.1 }
        ensures size { length result.now ≡ PAGE_SIZE }
    {
        &self.image
    }
}
