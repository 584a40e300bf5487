//! Notes of what a transaction wrote.
use gx_machine::Entry;

/// What undoing a written entry needs, and where a checkpoint finds it.
#[derive(Clone, Copy)]
pub struct Note<B> {
    /// The entry.
    pub entry: Entry<B>,
    /// Its mark from before the transaction first wrote it: set if it was marked or absent, clear if it was live.
    pub before: bool,
    /// The number of the leaf where the transaction last wrote it.
    pub leaf: u32,
}
