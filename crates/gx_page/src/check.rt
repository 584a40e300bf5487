//! The tests of given bytes, in the order of their faults.
ghost use Rattle.std.specs.Prelude.{◌≡◌, ℕ, ◌+◌, ◌*◌, ◌≤◌, length, drop, slice_range};
ghost use Rattle.std.specs.Prelude.{Some, None, IfNone, MatchResult, ⊤, true};
ghost use Rattle.gx_page.specs.Bytes.{all_zero as every_zero, number_16_at, number_32_at};
ghost use Rattle.gx_page.specs.Faults.{fault_of, lowest, is_reserved_zero as reserved_zero};
ghost use Rattle.gx_page.specs.Faults.{is_directory as right_directory, is_free_zero as free_zero};
ghost use Rattle.gx_page.specs.Reading.{IsImage, read_of, entries};

use crate::block::PAGE_SIZE;
use crate::fault::PageFault;
use crate::layout::{COUNT, DIRECTORY, LENGTH, NSN, SLOT, START};

fn u16_at(bytes: &[u8], at: usize) -> u16
    requires { at + 2 ≤ length bytes.now }
    ensures { result ≡ number_16_at bytes.now at }
{
    u16::from_be_bytes([bytes[at], bytes[at + 1]])
}

/// The number that four bytes spell from a place on.
pub(crate) fn u32_at(bytes: &[u8], at: usize) -> u32
    requires { at + 4 ≤ length bytes.now }
    ensures { result ≡ number_32_at bytes.now at }
{
    u32::from_be_bytes(*bytes[at..at + 4].first_chunk::<4>().unwrap())
}

/// Goes over all bytes without a branch, so that many are tested at once.
fn all_zero(bytes: &[u8]) -> bool
    ensures { result ≡ every_zero bytes.now }
{
    let mut bits = 0;
    for byte in bytes {
        bits |= *byte;
    }
    bits == 0
}

fn is_reserved_zero(bytes: &[u8]) -> bool
    requires { length bytes.now ≡ PAGE_SIZE }
    ensures { result ≡ reserved_zero bytes.now }
{
    all_zero(&bytes[6..NSN]) && all_zero(&bytes[24..DIRECTORY])
}

/// Where the last slot's bytes begin, if each slot has a byte and ends where the one before begins.
fn lowest_place(bytes: &[u8], count: usize) -> Option<usize>
    requires { (length bytes.now ≡ PAGE_SIZE) × (32 + 4 * count ≤ PAGE_SIZE) }
    ensures { result ≡ lowest PAGE_SIZE (entries count (drop 32 bytes.now)) }
{
    let mut end = PAGE_SIZE;
    for slot in 0..count {
        let at = DIRECTORY + SLOT * slot;
        let place = usize::from(u16_at(bytes, at));
        let size = usize::from(u16_at(bytes, at + LENGTH));
        if size == 0 || place + size != end {
            return None;
        }
        end = place;
    }
    Some(end)
}

#[tactic(auto, unfolding(crate::specs::Faults::is_directory, crate::specs::Faults::lowest))]
fn is_directory(bytes: &[u8]) -> bool
    requires { length bytes.now ≡ PAGE_SIZE }
    ensures { result ≡ right_directory bytes.now }
{
    let count = usize::from(u16_at(bytes, COUNT));
    let start = usize::from(u16_at(bytes, START));
    let end = DIRECTORY + SLOT * count;
    if end > PAGE_SIZE {
        return false;
    }
    match lowest_place(bytes, count) {
        Some(place) => start == place && end <= start,
        None => false,
    }
}

#[tactic(auto, using(crate::proofs::Faultless::directory_room, crate::proofs::Faultless::directory_within))]
fn is_free_zero(bytes: &[u8]) -> bool
    requires { (length bytes.now ≡ PAGE_SIZE) × (right_directory bytes.now ≡ true) }
    ensures { result ≡ free_zero bytes.now }
{
    let end = DIRECTORY + SLOT * usize::from(u16_at(bytes, COUNT));
    all_zero(&bytes[end..usize::from(u16_at(bytes, START))])
}

/// The first fault after the header: of the directory, or of the free bytes.
fn fault_behind(bytes: &[u8]) -> Option<PageFault>
    requires { length bytes.now ≡ PAGE_SIZE }
    ensures { reserved_zero bytes.now ≡ true → result ≡ fault_of bytes.now }
{
    if !is_directory(bytes) {
        return Some(PageFault::Directory);
    }
    if !is_free_zero(bytes) {
        return Some(PageFault::Free);
    }
    None
}

/// The first fault of the bytes, if they have one.
pub(crate) fn first_fault(bytes: &[u8]) -> Option<PageFault>
    ensures fault { result ≡ fault_of bytes.now }
    ensures size { IfNone result (length bytes.now ≡ PAGE_SIZE) }
{
    if bytes.len() != PAGE_SIZE {
        return Some(PageFault::Size);
    }
    if !is_reserved_zero(bytes) {
        return Some(PageFault::Reserved);
    }
    fault_behind(bytes)
}
