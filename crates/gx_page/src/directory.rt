//! The directory of a block: where a slot's bytes end, and slots moved to make room for one or to close its gap.
ghost use Rattle.std.specs.Prelude.{◌≡◌, ℕ, ◌+◌, ◌-◌, ◌*◌, ◌<◌, ◌≤◌, [], length, drop, take, slice_index_or};
ghost use Rattle.gx_page.specs.Bytes.{overwrite};
ghost use Rattle.gx_page.specs.Edits.{opened, closed};
ghost use Rattle.gx_page.specs.Format.{total};
ghost use Rattle.gx_page.specs.Reading.{IsImage, read_of};

use crate::block::{Block, PAGE_SIZE};
use crate::layout::{COUNT, DIRECTORY, LENGTH, SLOT, START};

/// The place of a slot in the directory.
pub(crate) fn slot_at(slot: usize) -> usize
    requires { slot < 1024 }
    ensures { result ≡ 32 + 4 * slot }
{
    DIRECTORY + SLOT * slot
}

/// How many slots an image has.
pub(crate) fn count_of(block: &Block) -> u16
    requires { IsImage block.now.bytes }
    ensures count { result ≡ length (read_of block.now.bytes).items }
    ensures fits { 32 + 4 * length (read_of block.now.bytes).items + total (read_of block.now.bytes).items ≤ PAGE_SIZE }
{
    block.u16_at(COUNT)
}

/// Where the heap of an image starts.
pub(crate) fn start_of(block: &Block) -> u16
    requires { IsImage block.now.bytes }
    ensures { result + total (read_of block.now.bytes).items ≡ PAGE_SIZE }
{
    block.u16_at(START)
}

/// Where the bytes of a slot of an image begin.
pub(crate) fn place_of(block: &Block, slot: usize) -> u16
    requires image { IsImage block.now.bytes }
    requires slot { slot < length (read_of block.now.bytes).items }
    ensures { result + (total (take slot (read_of block.now.bytes).items) + length
        (slice_index_or (read_of block.now.bytes).items slot [])) ≡ PAGE_SIZE }
{
    block.u16_at(slot_at(slot))
}

/// How many bytes a slot of an image has.
pub(crate) fn size_of(block: &Block, slot: usize) -> u16
    requires image { IsImage block.now.bytes }
    requires slot { slot < length (read_of block.now.bytes).items }
    ensures size { result ≡ length (slice_index_or (read_of block.now.bytes).items slot []) }
    ensures within { total (take slot (read_of block.now.bytes).items) + result
        ≤ total (read_of block.now.bytes).items }
{
    block.u16_at(slot_at(slot) + LENGTH)
}

/// Where the bytes of a slot of an image end, or would end if it were there.
pub(crate) fn end_of(block: &Block, slot: usize) -> u16
    requires image { IsImage block.now.bytes }
    requires slot { slot ≤ length (read_of block.now.bytes).items }
    ensures end { result + total (take slot (read_of block.now.bytes).items) ≡ PAGE_SIZE }
    ensures within { total (take slot (read_of block.now.bytes).items) ≤ total (read_of block.now.bytes).items }
{
    if slot == 0 {
        PAGE_SIZE as u16
    } else {
        place_of(block, slot - 1)
    }
}

/// Writes a slot of so many bytes below `end`, and moves the slots from there on after it and down. The lengths add up
/// to no more than `end`, so no difference saturates.
pub(crate) fn open_slot(block: &mut Block, slot: usize, count: usize, end: u16, size: u16)
    requires slots { (slot ≤ count) × (36 + 4 * count ≤ PAGE_SIZE) }
    requires block { length block.old.bytes ≡ PAGE_SIZE }
    ensures { block.new.bytes ≡ overwrite block.old.bytes (32 + 4 * slot)
        (opened (count - slot) end size (drop (32 + 4 * slot) block.old.bytes)) }
{
    let mut above = end;
    let mut pending = size;
    for index in slot..count {
        let at = slot_at(index);
        let next = block.u16_at(at + LENGTH);
        above = above.saturating_sub(pending);
        block.set_u16(at, above);
        block.set_u16(at + LENGTH, pending);
        pending = next;
    }
    let at = slot_at(count);
    block.set_u16(at, above.saturating_sub(pending));
    block.set_u16(at + LENGTH, pending);
}

/// Moves the slots after a slot over it and up below `end`, and writes zeros over the last.
pub(crate) fn close_slot(block: &mut Block, slot: usize, count: usize, end: u16)
    requires slots { (slot < count) × (32 + 4 * count ≤ PAGE_SIZE) }
    requires block { length block.old.bytes ≡ PAGE_SIZE }
    ensures { block.new.bytes ≡ overwrite block.old.bytes (32 + 4 * slot)
        (closed (count - 1 - slot) end (drop (36 + 4 * slot) block.old.bytes)) }
{
    let mut above = end;
    for index in slot..count - 1 {
        let at = slot_at(index);
        let size = block.u16_at(at + SLOT + LENGTH);
        above = above.saturating_sub(size);
        block.set_u16(at, above);
        block.set_u16(at + LENGTH, size);
    }
    let at = slot_at(count - 1);
    block.clear(at, at + SLOT);
}
