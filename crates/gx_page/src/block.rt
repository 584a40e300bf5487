//! The block of a page: 4,096 bytes of the heap behind one raw pointer.
//!
//! The pointer is followed in `byte`, `set_byte`, `slice`, `bytes`, `bytes_mut`, `write`, `move_down` and `move_up`
//! alone, and changes hands in `of_box` and `into_box`. These ten, and that a block may be lent and sent, are proved by
//! hand; the rest is safe code over them.
ghost use Rattle.std.specs.Prelude.{◌≡◌, ℕ, ◌+◌, ◌-◌, ◌<◌, ◌≤◌, List, length};
ghost use Rattle.std.specs.Prelude.{IfOk, slice_index, slice_range, slice_set};
ghost use Rattle.std.specs.Borrow.{sem};
ghost use Rattle.std.specs.List.{copy_within};
ghost use Rattle.gx_page.specs.Bytes.{zeros, spell_16, spell_32, spell_64, number_16_at};
ghost use Rattle.gx_page.specs.Bytes.{number_32_at, number_64_at, overwrite};
ghost use Rattle.gx_page.specs.Ownership.{block_owns, block_lends};

use std::alloc::{AllocError, Global};
use std::marker::Model;
use std::slice;

/// How many bytes a page has.
pub const PAGE_SIZE: usize = 4096;

/// The owner of a page's bytes.
pub(crate) struct Block {
    at: *mut [u8; PAGE_SIZE],
    alloc: Global,
    pub(crate) ghost bytes: { List ℕ },
}

impl Model for Block {
    ghost also_owns = { λ b. block_owns b.alloc b.at b.bytes };

    ghost also_shares = { λ b _ κ. block_lends b.at b.bytes κ };
}

unsafe impl Send for Block {}

impl Drop for Block {
    fn drop(self) {
        drop(self.into_box());
    }
}

// Zeros, as an array of any length.
#[tactic(auto, unfolding(crate::specs::Bytes::zeros))]
fn zeroed<const N: usize>() -> [u8; N]
    ensures { result ≡ zeros N }
{
    [0; N]
}

impl Block {
    ghost use Rattle.gx_page.specs.Lending.{LendsBytes};

    /// The block of a box.
    fn of_box(bytes: Box<[u8; PAGE_SIZE]>) -> Block
        ensures { result.bytes ≡ bytes.value }
    {
        let (at, alloc) = Box::into_raw_with_allocator(bytes);
        Block { at, alloc }
    }

    /// The box of a block.
    fn into_box(self) -> Box<[u8; PAGE_SIZE]>
        ensures { result.value ≡ self.bytes }
    {
        let Block { at, alloc } = self;
        unsafe { Box::from_raw(alloc, at) }
    }

    /// The bytes, to read in place.
    pub(crate) fn bytes(&self) -> &[u8; PAGE_SIZE]
        ensures { result.now ≡ self.now.bytes }
    {
        unsafe { &*self.at }
    }

    /// The bytes, to change in place.
    fn bytes_mut(&mut self) -> &mut [u8; PAGE_SIZE]
        ensures* writes_back { sem 𝓛 (LendsBytes self.entry result) }
        ensures value { (result.now ≡ self.old.bytes) × (length self.old.bytes ≡ PAGE_SIZE) }
    {
        unsafe { &mut *self.at }
    }

    /// A block of zeros, or `AllocError` if there is no memory for it.
    pub(crate) fn fresh(alloc: Global) -> Result<Block, AllocError>
        ensures { IfOk result (λ b. b.bytes ≡ zeros PAGE_SIZE) }
    {
        Ok(Block::of_box(Box::new(alloc, zeroed::<PAGE_SIZE>())?))
    }

    /// The byte at a place.
    pub(crate) fn byte(&self, at: usize) -> u8
        requires { at < PAGE_SIZE }
        ensures { (result ≡ slice_index self.now.bytes at) × (length self.now.bytes ≡ PAGE_SIZE) }
    {
        unsafe { (*self.at)[at] }
    }

    /// Writes the byte at a place.
    pub(crate) fn set_byte(&mut self, at: usize, byte: u8)
        requires { at < PAGE_SIZE }
        ensures { (self.new.bytes ≡ slice_set self.old.bytes at byte) × (length self.old.bytes ≡ PAGE_SIZE) }
    {
        unsafe { (*self.at)[at] = byte };
    }

    /// The bytes between two places.
    pub(crate) fn slice(&self, from: usize, to: usize) -> &[u8]
        requires { (from ≤ to) × (to ≤ PAGE_SIZE) }
        ensures { (result.now ≡ slice_range self.now.bytes from to) × (length self.now.bytes ≡ PAGE_SIZE) }
    {
        unsafe { slice::from_raw_parts((self.at as *const u8).add(from), to - from) }
    }

    /// The N bytes from a place on.
    fn array<const N: usize>(&self, at: usize) -> [u8; N]
        requires { at + N ≤ PAGE_SIZE }
        ensures { result ≡ slice_range self.now.bytes at (at + N) }
    {
        *self.slice(at, at + N).first_chunk::<N>().unwrap()
    }

    /// The number that two bytes spell, the greater first.
    pub(crate) fn u16_at(&self, at: usize) -> u16
        requires { at + 2 ≤ PAGE_SIZE }
        ensures { result ≡ number_16_at self.now.bytes at }
    {
        u16::from_be_bytes([self.byte(at), self.byte(at + 1)])
    }

    /// The number that four bytes spell.
    pub(crate) fn u32_at(&self, at: usize) -> u32
        requires { at + 4 ≤ PAGE_SIZE }
        ensures { result ≡ number_32_at self.now.bytes at }
    {
        u32::from_be_bytes(self.array(at))
    }

    /// The number that eight bytes spell.
    pub(crate) fn u64_at(&self, at: usize) -> u64
        requires { at + 8 ≤ PAGE_SIZE }
        ensures { result ≡ number_64_at self.now.bytes at }
    {
        u64::from_be_bytes(self.array(at))
    }

    /// Writes bytes over those from a place on.
    pub(crate) fn write(&mut self, at: usize, bytes: &[u8])
        requires { at + length bytes.now ≤ PAGE_SIZE }
        ensures { self.new.bytes ≡ overwrite self.old.bytes at bytes.now }
    {
        let start = self.at as *mut u8;
        let mut index = 0;
        while index < bytes.len() {
            unsafe { *start.add(at + index) = bytes[index] };
            index += 1;
        }
    }

    /// The same for a whole image: by one loan of the block, so that std copies it at once.
    pub(crate) fn write_many(&mut self, at: usize, bytes: &[u8])
        requires { at + length bytes.now ≤ PAGE_SIZE }
        ensures { (self.new.bytes ≡ overwrite self.old.bytes at bytes.now) × (length self.old.bytes ≡ PAGE_SIZE) }
    {
        let end = at + bytes.len();
        self.bytes_mut()[at..end].copy_from_slice(bytes);
    }

    /// Spells a number in two bytes, the greater first.
    pub(crate) fn set_u16(&mut self, at: usize, value: u16)
        requires { at + 2 ≤ PAGE_SIZE }
        ensures { self.new.bytes ≡ overwrite self.old.bytes at (spell_16 value) }
    {
        let bytes = value.to_be_bytes();
        self.set_byte(at, bytes[0]);
        self.set_byte(at + 1, bytes[1]);
    }

    /// Spells a number in four bytes.
    pub(crate) fn set_u32(&mut self, at: usize, value: u32)
        requires { at + 4 ≤ PAGE_SIZE }
        ensures { self.new.bytes ≡ overwrite self.old.bytes at (spell_32 value) }
    {
        self.write(at, &value.to_be_bytes());
    }

    /// Spells a number in eight bytes.
    pub(crate) fn set_u64(&mut self, at: usize, value: u64)
        requires { at + 8 ≤ PAGE_SIZE }
        ensures { self.new.bytes ≡ overwrite self.old.bytes at (spell_64 value) }
    {
        self.write(at, &value.to_be_bytes());
    }

    /// Writes zeros between two places.
    pub(crate) fn clear(&mut self, from: usize, to: usize)
        requires { (from ≤ to) × (to ≤ PAGE_SIZE) }
        ensures { self.new.bytes ≡ overwrite self.old.bytes from (zeros (to - from)) }
    {
        self.bytes_mut()[from..to].fill(0);
    }

    /// Copies so many bytes from a place to one that isn't above it, the first of them first.
    fn move_down(&mut self, from: usize, dest: usize, count: usize)
        requires { (dest ≤ from) × (from + count ≤ PAGE_SIZE) }
        ensures { (self.new.bytes ≡ copy_within self.old.bytes from (from + count) dest)
            × (length self.old.bytes ≡ PAGE_SIZE) }
    {
        let start = self.at as *mut u8;
        let mut index = 0;
        while index < count {
            unsafe { *start.add(dest + index) = *start.add(from + index) };
            index += 1;
        }
    }

    /// Copies so many bytes from a place to one above it, the last of them first.
    fn move_up(&mut self, from: usize, dest: usize, count: usize)
        requires { (from ≤ dest) × (dest + count ≤ PAGE_SIZE) }
        ensures { (self.new.bytes ≡ copy_within self.old.bytes from (from + count) dest)
            × (length self.old.bytes ≡ PAGE_SIZE) }
    {
        let start = self.at as *mut u8;
        let mut left = count;
        while left > 0 {
            left -= 1;
            unsafe { *start.add(dest + left) = *start.add(from + left) };
        }
    }

    /// Copies the bytes between two places to another one; the two parts may overlap.
    pub(crate) fn copy_within(&mut self, from: usize, to: usize, dest: usize)
        requires source { (from ≤ to) × (to ≤ PAGE_SIZE) }
        requires room { dest + (to - from) ≤ PAGE_SIZE }
        ensures { self.new.bytes ≡ copy_within self.old.bytes from to dest }
    {
        if dest <= from {
            self.move_down(from, dest, to - from);
        } else {
            self.move_up(from, dest, to - from);
        }
    }
}
