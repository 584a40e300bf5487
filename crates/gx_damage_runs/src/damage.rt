//! Random damage.
use crate::base::{Base, USED};
use crate::bytes::{FIRST_OF_BODIES, byte, copy, exchange, flip, sector, set};
use crate::draw::{below, one_in};
use rand_pcg::Pcg32;

/// The bytes of a page's head that say something: level, count, heap start, reserved ones, sequence number, rightlink,
/// own number.
const HEAD: [usize; 10] = [1, 3, 5, 7, 15, 18, 19, 23, 25, 31];

/// Where the bytes of a random page are.
fn place(base: &Base, draw: &mut Pcg32) -> usize {
    let page = below(draw, USED);
    base.places.get(page).copied().unwrap_or(0)
}

/// Where a random slot's bytes end, and how many there are.
fn item(base: &Base, draw: &mut Pcg32, at: usize) -> (usize, usize) {
    let level = byte(&base.bytes, at.saturating_add(1));
    let size: usize = if level == 0 { 25 } else { 20 };
    let slot = below(draw, 3);
    let before = slot.saturating_mul(size);
    (at.saturating_add(4096).saturating_sub(before), size)
}

/// A gate is opened, or closed, or the other extent is selected, or a bit of what the device is formatted for is turned
/// over.
fn gate(base: &mut Base, draw: &mut Pcg32) {
    let number = below(draw, 5);
    let at = sector(number.saturating_add(8));
    match below(draw, 8) {
        0 if one_in(draw, 2) => flip_head(base, draw),
        0 => set(&mut base.bytes, 1024, 0x5A),
        1..=3 => set(&mut base.bytes, at, 0xA7),
        _ => set(&mut base.bytes, at, 0),
    }
}

/// A bit of the magic or of the parameters is turned over.
fn flip_head(base: &mut Base, draw: &mut Pcg32) {
    let at = sector(below(draw, 2)).saturating_add(below(draw, 8));
    flip(&mut base.bytes, at, below(draw, 8));
}

/// A body's size or one of its bytes is another.
fn body(base: &mut Base, draw: &mut Pcg32) {
    let number = below(draw, base.bodies);
    let at = sector(number.saturating_mul(64).saturating_add(FIRST_OF_BODIES));
    let span = match below(draw, 3) {
        0 => 4,
        1 => 200,
        _ => 12_500,
    };
    let offset = below(draw, span);
    flip(&mut base.bytes, at.saturating_add(offset), below(draw, 8));
}

/// A note of the log's head names another leaf. The head's counters have 29 bytes, and each note 38, its leaf at the
/// end.
fn note(base: &mut Base, draw: &mut Pcg32) {
    let behind = below(draw, 4).saturating_add(1).saturating_mul(38);
    let at = sector(FIRST_OF_BODIES)
        .saturating_add(32)
        .saturating_add(behind);
    let leaf = u8::try_from(below(draw, 9)).unwrap_or(0);
    set(&mut base.bytes, at, leaf);
}

/// A bit of a page's head is turned over.
fn head(base: &mut Base, draw: &mut Pcg32) {
    let at = place(base, draw);
    let offset = HEAD.get(below(draw, HEAD.len())).copied().unwrap_or(0);
    flip(&mut base.bytes, at.saturating_add(offset), below(draw, 3));
}

/// A number in a page's head, or a child's, is another one of a page.
fn number(base: &mut Base, draw: &mut Pcg32) {
    let at = place(base, draw);
    let value = u8::try_from(below(draw, 9)).unwrap_or(0);
    let (end, size) = item(base, draw, at);
    let here = match below(draw, 3) {
        0 => at.saturating_add(19),
        1 => at.saturating_add(15),
        _ if size == 20 => end.saturating_sub(1),
        _ => at.saturating_add(1),
    };
    set(&mut base.bytes, here, value);
}

/// A bit of a page is turned over: in its directory, in a slot, or anywhere.
fn bit(base: &mut Base, draw: &mut Pcg32) {
    let at = place(base, draw);
    let (end, size) = item(base, draw, at);
    let here = match below(draw, 4) {
        0 => at.saturating_add(32).saturating_add(below(draw, 12)),
        1 => at.saturating_add(below(draw, 4096)),
        _ => end.saturating_sub(size).saturating_add(below(draw, size)),
    };
    flip(&mut base.bytes, here, below(draw, 8));
}

/// Two pages are exchanged, with their own numbers or without.
fn pages(base: &mut Base, draw: &mut Pcg32) {
    let one = place(base, draw);
    let other = place(base, draw);
    exchange(&mut base.bytes, one, other, 4096);
    if !one_in(draw, 4) {
        exchange(
            &mut base.bytes,
            one.saturating_add(20),
            other.saturating_add(20),
            4,
        );
    }
}

/// A slot's bytes are laid over those of another of its kind, or the two are exchanged.
fn items(base: &mut Base, draw: &mut Pcg32) {
    let one = place(base, draw);
    let other = place(base, draw);
    let (from, size) = item(base, draw, one);
    let (to, other_size) = item(base, draw, other);
    let (from, to) = (from.saturating_sub(size), to.saturating_sub(size));
    if size != other_size {
        return;
    }
    if one_in(draw, 2) {
        copy(&mut base.bytes, from, to, size);
    } else {
        exchange(&mut base.bytes, from, to, size);
    }
}

/// Damages an image once.
fn damage_once(base: &mut Base, draw: &mut Pcg32) {
    match below(draw, 11) {
        0 => gate(base, draw),
        1 | 2 => body(base, draw),
        3 => head(base, draw),
        4 | 5 => number(base, draw),
        6 => bit(base, draw),
        7 => pages(base, draw),
        8 => note(base, draw),
        _ => items(base, draw),
    }
}

/// Damages an image in one to four places.
pub(crate) fn damage(base: &mut Base, draw: &mut Pcg32) {
    for _ in 0..below(draw, 4).saturating_add(1) {
        damage_once(base, draw);
    }
}
