//! A device whose written bytes are counted.
ghost use Rattle.std.specs.Prelude.{◌≡◌};

use gx_disk::{DiskFault, SectorDisk};

/// A device, and how many bytes were written to it. Contracts see it as the device.
#[derive(Drop)]
pub(crate) struct Counted<D: SectorDisk> {
    inner: D,
    written: u64,
}

impl<D: SectorDisk> Counted<D> {
    /// A device to which nothing was written.
    pub(crate) fn new(inner: D) -> Self
        ensures { result.inner ≡ inner }
    {
        Counted { inner, written: 0 }
    }

    /// How many bytes were written.
    pub(crate) fn written(&self) -> u64 {
        self.written
    }
}

impl<D: SectorDisk> SectorDisk for Counted<D> {
    ghost state = { λ c. D.state c.inner };

    ghost whole = { λ c. D.whole c.inner };

    ghost counts_now = { λ c. D.counts_now c.inner };

    ghost only_now = { λ c. D.only_now c.inner };

    fn sectors(&self) -> u64 {
        self.inner.sectors()
    }

    fn read(&mut self, first: u64, buffer: &mut [u8]) -> Result<(), DiskFault> {
        self.inner.read(first, buffer)
    }

    fn write(&mut self, first: u64, bytes: &[u8]) -> Result<(), DiskFault> {
        self.written = self.written.wrapping_add(bytes.len() as u64);
        self.inner.write(first, bytes)
    }

    fn sync(&mut self) -> Result<(), DiskFault> {
        self.inner.sync()
    }
}
