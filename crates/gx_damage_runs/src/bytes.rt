//! Bytes of an image, changed in place; what lies outside it isn't there.

/// The sector at which page 1 begins.
pub(crate) const FIRST_OF_PAGES: usize = gx_disk::PAGES_AT as usize;

/// The sector at which the bodies of extent A begin, of 64 each.
pub(crate) const FIRST_OF_BODIES: usize = gx_glog::BODIES_A as usize;

/// The place of a sector's first byte.
pub(crate) fn sector(number: usize) -> usize {
    number.saturating_mul(512)
}

/// Sets a byte.
pub(crate) fn set(bytes: &mut [u8], at: usize, value: u8) {
    if let Some(place) = bytes.get_mut(at) {
        *place = value;
    }
}

/// A byte; 0 if there is none.
pub(crate) fn byte(bytes: &[u8], at: usize) -> u8 {
    bytes.get(at).copied().unwrap_or(0)
}

/// Turns a bit of a byte over.
pub(crate) fn flip(bytes: &mut [u8], at: usize, bit: usize) {
    let mask: u8 = match bit {
        0 => 1,
        1 => 2,
        2 => 4,
        3 => 8,
        4 => 16,
        5 => 32,
        6 => 64,
        _ => 128,
    };
    let old = byte(bytes, at);
    set(bytes, at, old ^ mask);
}

/// Lays bytes over those from a place on.
pub(crate) fn lay(bytes: &mut [u8], at: usize, these: &[u8]) {
    for (k, value) in these.iter().enumerate() {
        set(bytes, at.saturating_add(k), *value);
    }
}

/// Exchanges so many bytes at two places.
pub(crate) fn exchange(bytes: &mut [u8], one: usize, other: usize, size: usize) {
    for k in 0..size {
        let here = one.saturating_add(k);
        let there = other.saturating_add(k);
        let (a, b) = (byte(bytes, here), byte(bytes, there));
        set(bytes, here, b);
        set(bytes, there, a);
    }
}

/// Copies so many bytes from one place to another.
pub(crate) fn copy(bytes: &mut [u8], from: usize, to: usize, size: usize) {
    for k in 0..size {
        let value = byte(bytes, from.saturating_add(k));
        set(bytes, to.saturating_add(k), value);
    }
}
