//! Images of an index at moments of its life, and such with sectors of other moments.
use crate::bytes::{FIRST_OF_PAGES, exchange, lay, sector, set};
use crate::device::{copied, device, formatted};
use crate::draw::{below, byte_of, one_in};
use crate::fault::RunFault;
use crate::opened::FRAMES;
use gx_class::Box2Class;
use gx_disk::MemDisk;
use gx_restart::{Index, Noted, open, run_script};
use rand_pcg::Pcg32;
use std::alloc::Global;

/// An index's images, in the order of its life.
#[derive(Drop)]
pub(crate) struct Life {
    images: Vec<Vec<u8>>,
    /// The sectors that hold something at one of these moments, of the log or ahead of it, and of pages.
    sectors: Vec<usize>,
    pages: Vec<usize>,
}

/// Whether a sector holds anything but zeros.
fn holds(image: &[u8], number: usize) -> bool {
    let at = sector(number);
    match image.get(at..at.saturating_add(512)) {
        Some(bytes) => bytes.iter().any(|byte| *byte != 0),
        None => false,
    }
}

/// Lays the sector that another image has there.
fn lay_sector(image: &mut [u8], at: usize, other: &[u8]) {
    lay(
        image,
        at,
        other.get(at..at.saturating_add(512)).unwrap_or(&[]),
    );
}

impl Life {
    /// No index was made yet.
    pub(crate) fn new(alloc: Global) -> Life {
        Life {
            images: Vec::new(alloc),
            sectors: Vec::new(alloc),
            pages: Vec::new(alloc),
        }
    }

    /// A new index, of so many pages and entries a node.
    pub(crate) fn begin_life(
        &mut self,
        alloc: Global,
        pages: u32,
        most: u16,
    ) -> Result<(), RunFault> {
        self.images = Vec::new(alloc);
        self.sectors = Vec::new(alloc);
        self.pages = Vec::new(alloc);
        self.keep(formatted(alloc, pages, most)?)
    }

    /// A sector holds something.
    fn note(&mut self, number: usize) -> Result<(), RunFault> {
        let list = if number < FIRST_OF_PAGES {
            &mut self.sectors
        } else {
            &mut self.pages
        };
        if !list.contains(&number) {
            list.push(number)?;
        }
        Ok(())
    }

    /// A moment's image.
    fn keep(&mut self, image: Vec<u8>) -> Result<(), RunFault> {
        for number in 0..image.len() / 512 {
            if holds(&image, number) {
                self.note(number)?;
            }
        }
        self.images.push(image)?;
        Ok(())
    }

    /// Opens the index as the last moment left it, runs a script, and stops: what was written by then is the next
    /// moment.
    pub(crate) fn go_on(&mut self, alloc: Global, script: &[u8]) -> Result<(), RunFault> {
        let last = self.images.last().ok_or(RunFault::BadLine)?;
        let disk = device(alloc, copied(alloc, last)?)?;
        let Ok(engine) = open::<MemDisk, Box2Class>(alloc, disk, FRAMES) else {
            return Err(RunFault::Unexpected);
        };
        let mut index = Index::new(engine);
        let mut replies = Noted::new(Vec::new(alloc));
        let ended = run_script(&mut Noted::new(script), &mut replies, &mut index);
        let disk = index.into_engine().into_disk();
        ended?;
        self.keep(copied(alloc, disk.bytes())?)
    }

    /// Takes a random one of the moments' images.
    fn draw(&self, draw: &mut Pcg32) -> Result<&[u8], RunFault> {
        let place = below(draw, self.images.len());
        Ok(self.images.get(place).ok_or(RunFault::BadLine)?)
    }

    /// Takes a random sector that holds something.
    fn place(&self, draw: &mut Pcg32) -> usize {
        let list = if one_in(draw, 2) {
            &self.sectors
        } else {
            &self.pages
        };
        let place = below(draw, list.len());
        sector(list.get(place).copied().unwrap_or(0))
    }

    /// Changes an image once: a byte, two sectors that are exchanged, or one or two that another moment had.
    fn change(&self, image: &mut [u8], draw: &mut Pcg32) -> Result<(), RunFault> {
        let at = self.place(draw);
        match below(draw, 4) {
            0 => set(image, at.saturating_add(below(draw, 512)), byte_of(draw)),
            1 => set(image, at.saturating_add(below(draw, 32)), byte_of(draw)),
            2 => exchange(image, at, self.place(draw), 512),
            _ => lay_sector(image, at, self.draw(draw)?),
        }
        Ok(())
    }

    /// Takes a random image, and changes it in one to four places.
    pub(crate) fn damaged(&self, alloc: Global, draw: &mut Pcg32) -> Result<Vec<u8>, RunFault> {
        let mut image = copied(alloc, self.draw(draw)?)?;
        for _ in 0..below(draw, 4).saturating_add(1) {
            self.change(&mut image, draw)?;
        }
        Ok(image)
    }
}
