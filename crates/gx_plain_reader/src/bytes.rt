//! Numbers in bytes, the highest byte first.

/// So many bytes from a place on, if there are so many.
pub(crate) fn span(bytes: &[u8], at: usize, size: usize) -> Option<&[u8]> {
    bytes.get(at..at.checked_add(size)?)
}

fn two(bytes: &[u8], at: usize) -> Option<[u8; 2]> {
    match span(bytes, at, 2)? {
        [a, b] => Some([*a, *b]),
        _ => None,
    }
}

fn four(bytes: &[u8], at: usize) -> Option<[u8; 4]> {
    match span(bytes, at, 4)? {
        [a, b, c, d] => Some([*a, *b, *c, *d]),
        _ => None,
    }
}

fn eight(bytes: &[u8], at: usize) -> Option<[u8; 8]> {
    match span(bytes, at, 8)? {
        [a, b, c, d, e, f, g, h] => Some([*a, *b, *c, *d, *e, *f, *g, *h]),
        _ => None,
    }
}

pub(crate) fn u16_at(bytes: &[u8], at: usize) -> Option<u16> {
    Some(u16::from_be_bytes(two(bytes, at)?))
}

pub(crate) fn u32_at(bytes: &[u8], at: usize) -> Option<u32> {
    Some(u32::from_be_bytes(four(bytes, at)?))
}

pub(crate) fn u64_at(bytes: &[u8], at: usize) -> Option<u64> {
    Some(u64::from_be_bytes(eight(bytes, at)?))
}

pub(crate) fn i32_at(bytes: &[u8], at: usize) -> Option<i64> {
    Some(i64::from(i32::from_be_bytes(four(bytes, at)?)))
}

pub(crate) fn i64_at(bytes: &[u8], at: usize) -> Option<i64> {
    Some(i64::from_be_bytes(eight(bytes, at)?))
}

/// Whether these are bytes, all of them zero.
pub(crate) fn are_zeros(bytes: Option<&[u8]>) -> bool {
    let Some(bytes) = bytes else {
        return false;
    };
    for byte in bytes {
        if *byte != 0 {
            return false;
        }
    }
    true
}

/// The place of a sector's first byte.
pub(crate) fn sector(number: usize) -> usize {
    number.saturating_mul(512)
}
