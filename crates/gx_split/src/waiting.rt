//! What is kept of the two groups, and of the keys that wait to be placed.
use arrayvec::ArrayVec;
use std::default::MadeWith;

/// A key that waits, its slot, how much the cover of each group grows by it, and how far these growths are apart.
#[derive(Clone, Copy)]
pub struct Waiting<'a, M> {
    pub slot: usize,
    pub key: &'a M,
    pub first: u128,
    pub second: u128,
    pub apart: u128,
}

/// The keys that wait, in slot order.
pub type WaitingList<'a, M> = ArrayVec<Waiting<'a, M>, 101, &'a M>;

/// What an unused place of a `WaitingList` holds.
impl<'a, M> MadeWith<&'a M> for Waiting<'a, M> {
    fn made_with(key: &'a M) -> Self {
        Waiting {
            slot: 0,
            key,
            first: 0,
            second: 0,
            apart: 0,
        }
    }
}

/// What covers each group, and how many keys each has.
#[derive(Drop)]
pub struct Covers<M> {
    pub first: M,
    pub second: M,
    pub in_first: usize,
    pub in_second: usize,
}
