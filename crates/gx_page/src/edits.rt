//! Edits of a block that is an image. Each leaves the image of the edited contents.
ghost use Rattle.std.specs.Prelude.{◌≡◌, ℕ, ◌+◌, ◌*◌, ◌<◌, ◌≤◌, [], length, IfOk};
ghost use Rattle.std.specs.Prelude.{IfErr, None, Some, slice_index_or, slice_set};
ghost use Rattle.gx_page.specs.Bytes.{zeros};
ghost use Rattle.std.specs.List.{insert, remove};
ghost use Rattle.gx_page.specs.Edits.{blank, with_items};
ghost use Rattle.gx_page.specs.Faults.{fault_of};
ghost use Rattle.gx_page.specs.Format.{total};
ghost use Rattle.gx_page.specs.Reading.{IsImage, read_of};

use crate::block::{Block, PAGE_SIZE};
use crate::check::first_fault;
use crate::directory::{close_slot, count_of, end_of, open_slot, place_of, size_of, start_of};
use crate::fault::PageFault;
use crate::layout::{COUNT, NUMBER, START};

/// Writes a level and a number over zeros, which makes the image of a page with no items.
pub(crate) fn write_blank(block: &mut Block, level: u16, number: u32)
    requires { block.old.bytes ≡ zeros PAGE_SIZE }
    ensures image { IsImage block.new.bytes }
    ensures page { read_of block.new.bytes ≡ blank level number }
{
    block.set_u16(0, level);
    block.set_u16(START, PAGE_SIZE as u16);
    block.set_u32(NUMBER, number);
}

/// Makes the image of a page with no items of an image.
pub(crate) fn reset(block: &mut Block, level: u16, number: u32)
    requires { IsImage block.old.bytes }
    ensures image { IsImage block.new.bytes }
    ensures page { read_of block.new.bytes ≡ blank level number }
{
    block.clear(0, PAGE_SIZE);
    write_blank(block, level, number);
}

/// Becomes the image that bytes are, or refuses them with their first fault and stays unchanged.
pub(crate) fn load(block: &mut Block, bytes: &[u8]) -> Result<(), PageFault>
    ensures loaded { IfOk result (λ _. (fault_of bytes.now ≡ None) × (block.new.bytes ≡ bytes.now)) }
    ensures fault { IfErr result (λ fault. (fault_of bytes.now ≡ Some fault) × (block.new.bytes ≡ block.old.bytes)) }
{
    if let Some(fault) = first_fault(bytes) {
        return Err(fault);
    }
    block.write_many(0, bytes);
    Ok(())
}

/// Puts an item in front of a slot, if it fits. The items from that slot on move down by one copy.
pub(crate) fn insert(block: &mut Block, slot: usize, bytes: &[u8])
    requires image { IsImage block.old.bytes }
    requires slot { slot ≤ length (read_of block.old.bytes).items }
    requires fits { 36 + 4 * length (read_of block.old.bytes).items + total
        (read_of block.old.bytes).items + length bytes.now ≤ PAGE_SIZE }
    requires item { 1 ≤ length bytes.now }
    ensures image { IsImage block.new.bytes }
    ensures items { read_of block.new.bytes ≡ with_items (read_of block.old.bytes)
        (insert (read_of block.old.bytes).items slot bytes.now) }
{
    let count = count_of(block);
    let start = start_of(block);
    let end = end_of(block, slot);
    let size = bytes.len() as u16;
    let (from, to) = (usize::from(start), usize::from(end));
    block.copy_within(from, to, from - bytes.len());
    block.write(to - bytes.len(), bytes);
    open_slot(block, slot, usize::from(count), end, size);
    block.set_u16(COUNT, count + 1);
    block.set_u16(START, start - size);
}

/// Takes a slot's item out. The items after it move up by one copy, and the bytes that it leaves are zero.
pub(crate) fn remove(block: &mut Block, slot: usize)
    requires image { IsImage block.old.bytes }
    requires slot { slot < length (read_of block.old.bytes).items }
    ensures image { IsImage block.new.bytes }
    ensures items { read_of block.new.bytes ≡ with_items (read_of block.old.bytes)
        (remove (read_of block.old.bytes).items slot) }
{
    let count = count_of(block);
    let start = start_of(block);
    let end = end_of(block, slot);
    let size = size_of(block, slot);
    let (from, to, gap) = (usize::from(start), usize::from(end), usize::from(size));
    block.copy_within(from, to - gap, from + gap);
    block.clear(from, from + gap);
    close_slot(block, slot, usize::from(count), end);
    block.set_u16(COUNT, count - 1);
    block.set_u16(START, start + size);
}

/// Writes bytes over a slot's item, which has as many.
pub(crate) fn replace(block: &mut Block, slot: usize, bytes: &[u8])
    requires image { IsImage block.old.bytes }
    requires slot { slot < length (read_of block.old.bytes).items }
    requires size { length bytes.now ≡ length (slice_index_or (read_of block.old.bytes).items slot []) }
    ensures image { IsImage block.new.bytes }
    ensures items { read_of block.new.bytes ≡ with_items (read_of block.old.bytes)
        (slice_set (read_of block.old.bytes).items slot bytes.now) }
{
    let from = usize::from(place_of(block, slot));
    block.write(from, bytes);
}

/// Writes one byte of a slot's item.
pub(crate) fn set_byte(block: &mut Block, slot: usize, index: usize, byte: u8)
    requires image { IsImage block.old.bytes }
    requires slot { slot < length (read_of block.old.bytes).items }
    requires index { index < length (slice_index_or (read_of block.old.bytes).items slot []) }
    ensures image { IsImage block.new.bytes }
    ensures items { read_of block.new.bytes ≡ with_items (read_of block.old.bytes)
        (slice_set (read_of block.old.bytes).items slot
        (slice_set (slice_index_or (read_of block.old.bytes).items slot []) index byte)) }
{
    let from = usize::from(place_of(block, slot));
    block.set_byte(from + index, byte);
}
