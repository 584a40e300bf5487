//! What a crash does to the bytes of a device in memory.
ghost use Rattle.std.specs.Prelude.{◌≡◌, ◌+◌, ◌*◌, ◌<◌, ◌≤◌, ℕ, List, length, drop, take};
ghost use Rattle.std.specs.Prelude.{true, false, IfSome, MatchOption, if◌then◌else◌};
ghost use Rattle.gx_disk.specs.Sectors.{IsOutside, sector_of, put};
ghost use Rattle.gx_disk.specs.Memory.{pending_next, pending_after, size_kept};
ghost use Rattle.gx_disk.specs.Memory.{total_kept, place_kept, fit_all, bytes_before};
ghost use Rattle.gx_disk.specs.Crash.{choice_of, torn_bytes, pending_below, crashed, IsCrash};

use crate::device::SECTOR_SIZE;
use crate::memory::{PastCall, Torn, overwrite, part};

// Whether a sector is pending after one more call.
#[tactic(auto, unfolding(crate::specs::Memory::pending_next))]
fn is_pending_next(call: &PastCall, was: bool, s: usize) -> bool
    ensures { result ≡ pending_next call.now was s }
{
    match *call {
        PastCall::Sync => false,
        PastCall::Write { first, sectors, .. } => was || (first <= s && s - first < sectors),
    }
}

/// Whether a sector is pending after these calls.
pub(crate) fn is_pending(calls: &[PastCall], s: usize) -> bool
    ensures { result ≡ pending_after calls.now false s }
{
    let mut pending = false;
    for call in calls {
        pending = is_pending_next(call, pending, s);
    }
    pending
}

#[tactic(auto, unfolding(crate::specs::Memory::size_kept, crate::specs::Memory::place_kept))]
// Where the overwritten bytes of one call have a sector, if they do.
fn kept_at(call: &PastCall, kept: &[u8], s: usize) -> Option<usize>
    requires { size_kept call.now ≤ length kept.now }
    ensures { result ≡ place_kept call.now s }
{
    match *call {
        PastCall::Write {
            first,
            kept: sectors,
            ..
        } => {
            if first <= s && s - first < sectors {
                Some(SECTOR_SIZE * (s - first))
            } else {
                None
            }
        }
        PastCall::Sync => None,
    }
}

#[tactic(auto, unfolding(crate::specs::Memory::size_kept))]
// The overwritten bytes after those of one call.
fn after_kept<'a>(call: &PastCall, kept: &'a [u8]) -> &'a [u8]
    requires { size_kept call.now ≤ length kept.now }
    ensures { result.now ≡ drop (size_kept call.now) kept.now }
{
    match *call {
        PastCall::Write { kept: sectors, .. } => &kept[SECTOR_SIZE * sectors..],
        PastCall::Sync => kept,
    }
}

// A sector's first overwritten bytes since these calls began, if any were kept.
fn old_bytes<'a>(calls: &[PastCall], kept: &'a [u8], sectors: usize, s: usize) -> Option<&'a [u8]>
    requires fits { fit_all sectors calls.now ≡ true }
    requires sized { total_kept calls.now ≡ length kept.now }
    ensures size { IfSome result (λ old. length old.now ≡ 512) }
    ensures old { MatchOption result
        ((now : List ℕ) → length now ≡ 512 * sectors
        → sector_of (bytes_before calls.now kept.now now) s ≡ sector_of now s)
        (λ old. (now : List ℕ) → length now ≡ 512 * sectors
        → sector_of (bytes_before calls.now kept.now now) s ≡ old.now) }
{
    let mut rest = kept;
    for call in calls {
        if let Some(at) = kept_at(call, rest, s) {
            return Some(part(rest, at, SECTOR_SIZE));
        }
        rest = after_kept(call, rest);
    }
    None
}

// Overwrites a sector with these bytes.
#[tactic(auto, using(crate::proofs::tear::Tearing::sector_put))]
fn overwrite_sector(bytes: &mut Vec<u8>, s: usize, new: &[u8])
    requires size { length new.now ≡ 512 }
    requires inside { 512 * s + 512 ≤ length bytes.old.items }
    ensures size { length bytes.new.items ≡ length bytes.old.items }
    ensures there { sector_of bytes.new.items s ≡ new.now }
    ensures others { (r : ℕ) → IsOutside s 1 r → sector_of bytes.new.items r ≡ sector_of bytes.old.items r }
{
    overwrite(bytes, SECTOR_SIZE * s, new);
}

// What the i-th unsynced sector takes.
fn choice(torn: &[Torn], i: usize) -> Torn
    ensures { result ≡ choice_of torn.now i }
{
    if torn.is_empty() {
        Torn::Old
    } else {
        torn[i % torn.len()]
    }
}

// Gives a sector its bytes by a choice.
fn tear_sector(
    bytes: &mut Vec<u8>,
    calls: &[PastCall],
    kept: &[u8],
    sectors: usize,
    s: usize,
    torn: Torn,
)
    requires fits { fit_all sectors calls.now ≡ true }
    requires sized { total_kept calls.now ≡ length kept.now }
    requires whole { length bytes.old.items ≡ 512 * sectors }
    requires inside { s < sectors }
    ensures size { length bytes.new.items ≡ length bytes.old.items }
    ensures torn { (now : List ℕ) → length now ≡ 512 * sectors → sector_of now s ≡ sector_of bytes.old.items s
        → sector_of bytes.new.items s ≡ torn_bytes torn
        (sector_of (bytes_before calls.now kept.now now) s) (sector_of now s) }
    ensures others { (r : ℕ) → IsOutside s 1 r → sector_of bytes.new.items r ≡ sector_of bytes.old.items r }
{
    match torn {
        Torn::Old => {
            if let Some(old) = old_bytes(calls, kept, sectors, s) {
                overwrite_sector(bytes, s, old);
            }
        }
        Torn::New => {}
        Torn::Bytes(torn) => overwrite_sector(bytes, s, &torn),
    }
}

// 1 for true, 0 for false.
fn one_if(yes: bool) -> usize
    ensures value { result ≡ (if yes then 1 else 0) }
    ensures bound { result ≤ 1 }
{
    if yes { 1 } else { 0 }
}

// If a sector is pending, gives it its bytes by the i-th choice. Returns the place of the next choice.
#[tactic(auto, unfolding(crate::specs::Crash::crashed))]
fn tear_next(
    bytes: &mut Vec<u8>,
    calls: &[PastCall],
    kept: &[u8],
    sectors: usize,
    s: usize,
    torn: &[Torn],
    i: usize,
) -> usize
    requires fits { fit_all sectors calls.now ≡ true }
    requires sized { total_kept calls.now ≡ length kept.now }
    requires whole { length bytes.old.items ≡ 512 * sectors }
    requires inside { s < sectors }
    requires few { i ≤ s }
    ensures size { length bytes.new.items ≡ length bytes.old.items }
    ensures count { result ≡ i + (if pending_after calls.now false s then 1 else 0) }
    ensures bound { result ≤ i + 1 }
    ensures there { (now : List ℕ) → length now ≡ 512 * sectors → sector_of now s ≡ sector_of bytes.old.items s
        → i ≡ pending_below (pending_after calls.now false) s
        → sector_of bytes.new.items s ≡ crashed (pending_after calls.now false) torn.now
        (bytes_before calls.now kept.now now) now s }
    ensures others { (r : ℕ) → IsOutside s 1 r → sector_of bytes.new.items r ≡ sector_of bytes.old.items r }
{
    let pending = is_pending(calls, s);
    if pending {
        tear_sector(bytes, calls, kept, sectors, s, choice(torn, i));
    }
    i + one_if(pending)
}

/// Gives each pending sector its bytes by the choices in turn.
pub(crate) fn tear(
    bytes: &mut Vec<u8>,
    calls: &[PastCall],
    kept: &[u8],
    sectors: usize,
    torn: &[Torn],
)
    requires fits { fit_all sectors calls.now ≡ true }
    requires sized { total_kept calls.now ≡ length kept.now }
    requires whole { length bytes.old.items ≡ 512 * sectors }
    ensures { IsCrash sectors (pending_after calls.now false) torn.now (bytes_before calls.now kept.now bytes.old.items)
        bytes.old.items bytes.new.items }
{
    let mut i = 0;
    for s in 0..sectors {
        i = tear_next(bytes, calls, kept, sectors, s, torn, i);
    }
}

/// How many sectors these calls leave pending.
pub(crate) fn count_pending(calls: &[PastCall], sectors: usize) -> usize
    ensures { result ≡ pending_below (pending_after calls.now false) sectors }
{
    let mut i = 0;
    for s in 0..sectors {
        i += one_if(is_pending(calls, s));
    }
    i
}
