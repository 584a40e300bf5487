//! The slotted page: its calls, over a block that is always an image.
ghost use Rattle.std.specs.Prelude.{◌≡◌, ◌↔◌, ◌⊎◌, ℕ, ◌+◌, ◌<◌, ◌≤◌, List, [], length, IfOk};
ghost use Rattle.std.specs.Prelude.{IfErr, IsOk, IsTrue, None, Some, slice_index_or, slice_set};
ghost use Rattle.std.specs.Bool.{OnTrue, OnFalse};
ghost use Rattle.std.specs.List.{insert, remove};
ghost use Rattle.gx_page.specs.Contents.{Contents};
ghost use Rattle.gx_page.specs.Edits.{blank, with_items};
ghost use Rattle.gx_page.specs.Faults.{fault_of};
ghost use Rattle.gx_page.specs.Format.{Fits, heap, image_of, IsWellFormed, total};
ghost use Rattle.gx_page.specs.Reading.{IsImage, read_of};

use crate::block::{Block, PAGE_SIZE};
use crate::check::{first_fault, u32_at};
use crate::directory::{count_of, place_of, size_of, start_of};
use crate::edits;
use crate::fault::PageFault;
use crate::layout::{DIRECTORY, NSN, NUMBER, RIGHT, SLOT, START};
use std::alloc::Global;
use std::marker::Model;

/// A header and a list of byte strings in a block of 4,096 bytes.
#[derive(Drop)]
pub struct Page {
    block: Block,
}

impl Model for Page {
    ghost use Rattle.gx_page.specs.Contents.{Contents};
    ghost use Rattle.gx_page.specs.Reading.{IsImage, read_of};

    ghost Value = { Contents };

    ghost view = { λ p. read_of p.block.bytes };

    ghost invariant = { λ p. IsImage p.block.bytes };
}

// This holds only if a page may be sent.
fn sent<T: Send>() {}

/// A page may be sent to another thread: without the promise that its block makes this doesn't compile.
fn may_be_sent() {
    sent::<Page>();
}

impl Page {
    /// A page of a level and a number with no items, with sequence number 0 and no page to the right. Refused with
    /// `Memory` if there is none for the block.
    pub fn fresh(alloc: Global, level: u16, number: u32) -> Result<Page, PageFault>
        ensures page { IfOk result (λ page. page ≡ blank level number) }
        ensures fault { IfErr result (λ fault. fault ≡ PageFault.Memory) }
    {
        let Ok(mut block) = Block::fresh(alloc) else {
            return Err(PageFault::Memory);
        };
        edits::write_blank(&mut block, level, number);
        Ok(Page { block })
    }

    /// Becomes a page of a level and a number with no items, with sequence number 0 and no page to the right, with no
    /// memory taken.
    pub fn reset(&mut self, level: u16, number: u32)
        ensures { self.new ≡ blank level number }
    {
        edits::reset(&mut self.block, level, number);
    }

    /// The page whose image the bytes are. Refused with the first fault of the bytes, and after all tests with `Memory`
    /// if there is none for the block.
    pub fn from_image(alloc: Global, bytes: &[u8]) -> Result<Page, PageFault>
        ensures page { IfOk result (λ page. (fault_of bytes.now ≡ None) × IsImage bytes.now
            × (page ≡ read_of bytes.now)) }
        ensures fault { IfErr result (λ fault. (fault_of bytes.now ≡ Some fault)
            ⊎ ((fault_of bytes.now ≡ None) × (fault ≡ PageFault.Memory))) }
        ensures faultless { (fault_of bytes.now ≡ None) ↔ IsImage bytes.now }
    {
        if let Some(fault) = first_fault(bytes) {
            return Err(fault);
        }
        let Ok(mut block) = Block::fresh(alloc) else {
            return Err(PageFault::Memory);
        };
        block.write_many(0, bytes);
        Ok(Page { block })
    }

    /// Becomes the page whose image the bytes are, with no memory taken. Refused with the first fault of the bytes, and
    /// the page is then unchanged.
    pub fn load(&mut self, bytes: &[u8]) -> Result<(), PageFault>
        ensures loaded { IfOk result (λ _. (fault_of bytes.now ≡ None) × IsImage bytes.now
            × (self.new ≡ read_of bytes.now)) }
        ensures fault { IfErr result (λ fault. (fault_of bytes.now ≡ Some fault) × (self.new ≡ self.old)) }
        ensures faultless { (fault_of bytes.now ≡ None) ↔ IsImage bytes.now }
    {
        edits::load(&mut self.block, bytes)
    }

    /// The own number of the page whose image the bytes are, with no memory taken.
    /// Refused with the first fault of the bytes.
    pub fn check(bytes: &[u8]) -> Result<u32, PageFault>
        ensures page { IfOk result (λ number. (fault_of bytes.now ≡ None) × IsImage bytes.now
            × (number ≡ (read_of bytes.now).number)) }
        ensures fault { IfErr result (λ fault. fault_of bytes.now ≡ Some fault) }
        ensures faultless { (fault_of bytes.now ≡ None) ↔ IsImage bytes.now }
    {
        match first_fault(bytes) {
            Some(fault) => Err(fault),
            None => Ok(u32_at(bytes, NUMBER)),
        }
    }

    /// The page's 4,096 bytes, in place.
    pub fn image(&self) -> &[u8]
        ensures image { result.now ≡ image_of self.now }
        ensures size { length result.now ≡ PAGE_SIZE }
        ensures well_formed { IsWellFormed self.now }
        ensures back { IsImage result.now × (read_of result.now ≡ self.now) }
    {
        self.block.slice(0, PAGE_SIZE)
    }

    /// The items' bytes, in place: the last item's first, and the first one's up to the end.
    pub fn heap(&self) -> &[u8]
        ensures heap { result.now ≡ heap self.now.items }
        ensures size { length result.now ≡ total self.now.items }
    {
        let start = usize::from(start_of(&self.block));
        self.block.slice(start, PAGE_SIZE)
    }

    /// How many items the page has, 812 at most.
    pub fn count(&self) -> usize
        ensures count { result ≡ length self.now.items }
        ensures bound { result ≤ 812 }
        ensures well_formed { IsWellFormed self.now }
    {
        usize::from(count_of(&self.block))
    }

    /// A slot's item, in place.
    pub fn get(&self, slot: usize) -> &[u8]
        requires { slot < length self.now.items }
        ensures item { result.now ≡ slice_index_or self.now.items slot [] }
        ensures some { (1 ≤ length result.now) × (length result.now ≤ 4060) }
    {
        let from = usize::from(place_of(&self.block, slot));
        let size = usize::from(size_of(&self.block, slot));
        self.block.slice(from, from + size)
    }

    /// Puts an item of 1 to 4,060 bytes in front of a slot, or after the last. False if the page has no room for it and
    /// its slot, and the page is then unchanged.
    pub fn insert(&mut self, slot: usize, bytes: &[u8]) -> bool
        requires slot { slot ≤ length self.old.items }
        requires item { (1 ≤ length bytes.now) × (length bytes.now ≤ 4060) }
        ensures fits { IsTrue result ↔ Fits (insert self.old.items slot bytes.now) }
        ensures inserted { OnTrue result (self.new ≡ with_items self.old (insert self.old.items slot bytes.now)) }
        ensures unchanged { OnFalse result (self.new ≡ self.old) }
    {
        let end = DIRECTORY + SLOT * usize::from(count_of(&self.block));
        let start = usize::from(start_of(&self.block));
        if start < end + SLOT + bytes.len() {
            return false;
        }
        edits::insert(&mut self.block, slot, bytes);
        true
    }

    /// Takes a slot's item out.
    pub fn remove(&mut self, slot: usize)
        requires { slot < length self.old.items }
        ensures { self.new ≡ with_items self.old (remove self.old.items slot) }
    {
        edits::remove(&mut self.block, slot);
    }

    /// Writes one byte of a slot's item.
    pub fn set_byte(&mut self, slot: usize, index: usize, byte: u8)
        requires slot { slot < length self.old.items }
        requires index { index < length (slice_index_or self.old.items slot []) }
        ensures { self.new ≡ with_items self.old (slice_set self.old.items slot
            (slice_set (slice_index_or self.old.items slot []) index byte)) }
    {
        edits::set_byte(&mut self.block, slot, index, byte);
    }

    /// Puts bytes in the place of a slot's item, which has as many.
    pub fn replace(&mut self, slot: usize, bytes: &[u8])
        requires slot { slot < length self.old.items }
        requires size { length bytes.now ≡ length (slice_index_or self.old.items slot []) }
        ensures { self.new ≡ with_items self.old (slice_set self.old.items slot bytes.now) }
    {
        edits::replace(&mut self.block, slot, bytes);
    }

    /// The level, 0 for a leaf.
    pub fn level(&self) -> u16
        ensures { result ≡ self.now.level }
    {
        self.block.u16_at(0)
    }

    /// The node sequence number: the counter of splits at the page's last one (Kornacker, Mohan, Hellerstein 1997).
    pub fn nsn(&self) -> u64
        ensures { result ≡ self.now.nsn }
    {
        self.block.u64_at(NSN)
    }

    /// The rightlink: the number of the page to the right, 0 for none (Lehman, Yao 1981).
    pub fn right(&self) -> u32
        ensures { result ≡ self.now.right }
    {
        self.block.u32_at(RIGHT)
    }

    /// The page's own number.
    pub fn number(&self) -> u32
        ensures { result ≡ self.now.number }
    {
        self.block.u32_at(NUMBER)
    }

    /// Sets the level.
    pub fn set_level(&mut self, level: u16)
        ensures { self.new ≡ record self.old { level = level } }
    {
        self.block.set_u16(0, level);
    }

    /// Sets the sequence number.
    pub fn set_nsn(&mut self, nsn: u64)
        ensures { self.new ≡ record self.old { nsn = nsn } }
    {
        self.block.set_u64(NSN, nsn);
    }

    /// Sets the number of the page to the right, 0 for none.
    pub fn set_right(&mut self, right: u32)
        ensures { self.new ≡ record self.old { right = right } }
    {
        self.block.set_u32(RIGHT, right);
    }

    /// Sets the page's own number.
    pub fn set_number(&mut self, number: u32)
        ensures { self.new ≡ record self.old { number = number } }
    {
        self.block.set_u32(NUMBER, number);
    }

    /// Becomes what the other page is, with no memory taken.
    pub fn copy_from(&mut self, other: &Page)
        ensures { self.new ≡ other.now }
    {
        self.block.write_many(0, other.block.bytes());
    }
}
