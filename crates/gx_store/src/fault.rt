//! Why a store refused pages.
ghost use Rattle.std.specs.Prelude.{◌≡◌};
ghost use Rattle.gx_store.specs.Faults.{told_of};

use gx_pool::PoolFault;

/// Why a store refused pages to an event. Nothing of the tree has changed then.
#[derive(Clone, Copy, Debug, PartialEq, Eq)]
pub enum StoreFault {
    /// The log has no room for the event's record.
    NoRoom,
    /// Fewer frames are clean than the event takes, which is this number: a page has to be written first.
    TooFewFrames(u32),
    /// The device failed.
    Device,
    /// The sectors read don't hold a page of that number, or a node of the class.
    Damaged,
}

/// The pool's fault as the store's.
pub(crate) fn store_result(brought: Result<(), PoolFault>) -> Result<(), StoreFault>
    ensures { result ≡ told_of brought }
{
    match brought {
        Ok(()) => Ok(()),
        Err(PoolFault::NoCleanFrame) => Err(StoreFault::TooFewFrames(1)),
        Err(PoolFault::Device) => Err(StoreFault::Device),
        Err(PoolFault::Damaged) => Err(StoreFault::Damaged),
    }
}
