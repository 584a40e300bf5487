//! The bytes of a device in memory.
ghost use Rattle.std.specs.Prelude.{◌≡◌, ◌+◌, ◌≤◌, ◌++◌, [], length, take, drop, IfOk, OnOk, OnErr};
ghost use Rattle.gx_disk.specs.Sectors.{put};

use std::alloc::{AllocError, Global};
use std::marker::Model;

/// The bytes of a device, which come a piece at a time before the device is made.
#[derive(Drop)]
pub struct Image {
    bytes: Vec<u8>,
}

impl Model for Image {
    ghost use Rattle.std.specs.Prelude.{ℕ, List};

    ghost Value = { List ℕ };

    ghost view = { λ m. m.bytes.items };
}

impl Image {
    /// An image of no bytes, which has room for so many. Refused if there is no memory for them.
    pub fn with_capacity(alloc: Global, size: usize) -> Result<Image, AllocError>
        ensures { IfOk result (λ image. image ≡ []) }
    {
        Ok(Image {
            bytes: Vec::with_capacity(alloc, size)?,
        })
    }

    /// Adds bytes at the end. Refused if there is no room and no memory for them; the image doesn't change then.
    pub fn append(&mut self, bytes: &[u8]) -> Result<(), AllocError>
        ensures ok { OnOk result (self.new ≡ self.old ++ bytes.now) }
        ensures err { OnErr result (self.new ≡ self.old) }
    {
        self.bytes.extend_from_slice(bytes)
    }

    /// How many bytes it has.
    pub fn len(&self) -> usize
        ensures { result ≡ length self.now }
    {
        self.bytes.len()
    }

    /// Keeps so many of the first bytes.
    pub(crate) fn cut(&mut self, size: usize)
        ensures { self.new ≡ take size self.old }
    {
        self.bytes.truncate(size);
    }

    /// So many bytes from a place on.
    pub(crate) fn part(&self, at: usize, size: usize) -> &[u8]
        requires { at + size ≤ length self.now }
        ensures { result.now ≡ take size (drop at self.now) }
    {
        &self.bytes[at..at + size]
    }

    /// Puts bytes over those from a place on.
    #[tactic(auto, unfolding(gx_disk::specs::Sectors::put))]
    pub(crate) fn overwrite(&mut self, at: usize, new: &[u8])
        requires { at + length new.now ≤ length self.old }
        ensures { self.new ≡ put at new.now self.old }
    {
        self.bytes[at..at + new.len()].copy_from_slice(new);
    }
}
