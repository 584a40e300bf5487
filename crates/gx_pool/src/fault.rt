//! Why a page could not be brought.

/// Why a call of the pool failed.
#[derive(Clone, Copy, Debug, PartialEq, Eq)]
pub enum PoolFault {
    /// No frame is empty or holds a clean page that isn't held: something has to be written first.
    NoCleanFrame,
    /// The device failed.
    Device,
    /// The sectors read don't hold a page of that number, or it fails the test of pages.
    Damaged,
}
