//! A page on which small changes are made.
ghost use Rattle.std.specs.Prelude.{◌≡◌, ◌≤◌, IfOk, IfErr};
ghost use Rattle.std.specs.Bool.{OnTrue};
ghost use Rattle.gx_node.specs.declared.items.TheConstants.{MAX_ENTRIES};
ghost use Rattle.gx_page.specs.Format.{image_of};
ghost use Rattle.gx_page.specs.Reading.{IsImage};
ghost use Rattle.gx_found_log.specs.Small.{said};

use crate::{Readable, Small};
use gx_geom::Refusal;
use gx_page::Page;
use std::alloc::Global;
use std::marker::Model;

/// How many entries a node may have, and a page in memory into which images are loaded to be changed.
#[derive(Drop)]
pub struct Scratch {
    most: usize,
    page: Page,
}

impl Model for Scratch {
    ghost use Rattle.std.specs.Prelude.{ℕ, ◌≤◌};
    ghost use Rattle.gx_node.specs.declared.items.TheConstants.{MAX_ENTRIES};
    ghost use Rattle.gx_page.specs.Contents.{Contents};

    ghost Value = { ℕ × Contents };

    ghost view = { λ s. (s.most, s.page) };

    ghost invariant = { λ s. s.most ≤ MAX_ENTRIES };
}

impl Scratch {
    /// For nodes that may have so many entries. Refused if memory is (`Memory`).
    pub(crate) fn new(alloc: Global, most: usize) -> Result<Scratch, Refusal>
        requires { most ≤ MAX_ENTRIES }
        ensures most { IfOk result (λ s. s.0 ≡ most) }
        ensures refusal { IfErr result (λ refusal. refusal ≡ Refusal.Memory) }
    {
        match Page::fresh(alloc, 0, 0) {
            Ok(page) => Ok(Scratch { most, page }),
            Err(_) => Err(Refusal::Memory),
        }
    }

    /// For nodes that may have so many entries, whatever it was for.
    pub(crate) fn set_most(&mut self, most: usize)
        requires { most ≤ MAX_ENTRIES }
        ensures { self.new ≡ (most, self.old.1) }
    {
        self.most = most;
    }

    /// Loads an image and makes a change of it, where it fits.
    pub(crate) fn change<M: Readable>(&mut self, image: &[u8], small: &Small<'_>) -> bool
        requires { IsImage image.now }
        ensures most { self.new.0 ≡ self.old.0 }
        ensures fits { result
            ≡ (M.reading.change (said small.now)).fits self.old.0 (M.reading.content image.now) }
        ensures made { OnTrue result (M.reading.content (image_of self.new.1)
            ≡ (M.reading.change (said small.now)).made (M.reading.content image.now)) }
    {
        match self.page.load(image) {
            Ok(()) => M::change(&mut self.page, self.most, small),
            Err(_) => false,
        }
    }

    /// The page's image.
    pub(crate) fn image(&self) -> &[u8]
        ensures image { result.now ≡ image_of self.now.1 }
        ensures is_image { IsImage result.now }
    {
        self.page.image()
    }
}
