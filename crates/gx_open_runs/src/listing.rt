//! A device that lists the calls that are made of it.
use gx_disk::{DiskFault, SectorDisk};
use std::alloc::Global;

/// A call of a device.
#[derive(Clone, Copy)]
pub(crate) enum DeviceCall {
    Read,
    /// A write, from this sector on.
    Write(u64),
    Sync,
}

/// A device, and the calls that were made of it.
#[derive(Drop)]
pub(crate) struct ListingDisk<D> {
    disk: D,
    calls: Vec<DeviceCall>,
}

impl<D: SectorDisk> ListingDisk<D> {
    /// Lists the calls from here on.
    pub(crate) fn new(alloc: Global, disk: D) -> ListingDisk<D> {
        ListingDisk {
            disk,
            calls: Vec::new(alloc),
        }
    }

    /// The device as the calls left it, and the calls. Those for which there was no memory aren't listed.
    pub(crate) fn into_parts(self) -> (D, Vec<DeviceCall>) {
        let ListingDisk { disk, calls } = self;
        (disk, calls)
    }
}

impl<D: SectorDisk> SectorDisk for ListingDisk<D> {
    ghost state = { λ l. D.state l.disk };

    ghost whole = { λ l. D.whole l.disk };

    ghost counts_now = { λ l. D.counts_now l.disk };

    ghost only_now = { λ l. D.only_now l.disk };

    fn sectors(&self) -> u64 {
        self.disk.sectors()
    }

    fn read(&mut self, first: u64, buffer: &mut [u8]) -> Result<(), DiskFault> {
        let _ = self.calls.push(DeviceCall::Read);
        self.disk.read(first, buffer)
    }

    fn write(&mut self, first: u64, bytes: &[u8]) -> Result<(), DiskFault> {
        let _ = self.calls.push(DeviceCall::Write(first));
        self.disk.write(first, bytes)
    }

    fn sync(&mut self) -> Result<(), DiskFault> {
        let _ = self.calls.push(DeviceCall::Sync);
        self.disk.sync()
    }
}
