//! Records that say what changes on a page, byte for byte, and bytes that are no record.
use crate::asserts::{holds, same};
use gx_record::{Record, SLOT_NUMBER, Slots};

/// How many bytes a key has.
const KEY: usize = 16;

/// The key `0 0 10 10` of boxes.
const TEN: [u8; KEY] = [0, 0, 0, 0, 0, 0, 0, 0, 0, 0, 0, 10, 0, 0, 0, 10];

/// Transaction 1 adds 7 `0 0 10 10` to leaf 2.
const ADDED: [u8; 37] = [
    8, 0, 0, 0, 0, 0, 0, 0, 1, 0, 0, 0, 0, 0, 0, 0, 7, 0, 0, 0, 0, 0, 0, 0, 0, 0, 0, 0, 10, 0, 0,
    0, 10, 0, 0, 0, 2,
];

/// Transaction 1 marks it there.
const MARKED: [u8; 39] = [
    7, 0, 0, 0, 0, 0, 0, 0, 1, 0, 0, 0, 0, 0, 0, 0, 7, 0, 0, 0, 0, 0, 0, 0, 0, 0, 0, 0, 10, 0, 0,
    0, 10, 0, 1, 0, 0, 0, 2,
];

/// The key in slot 3 of page 1 becomes `0 0 10 10`.
const WIDENED: [u8; 23] = [
    9, 0, 0, 0, 1, 0, 3, 0, 0, 0, 0, 0, 0, 0, 0, 0, 0, 0, 10, 0, 0, 0, 10,
];

/// Slots 0, 3 and 258 leave page 2.
const SWEPT: [u8; 12] = [10, 0, 0, 0, 2, 3, 0, 0, 0, 3, 1, 2];

/// Whether all of the bytes are one record, whose spelling they are, and no shorter front is one.
fn is_one_record(bytes: &[u8]) -> bool {
    let mut again = [0; 64];
    for end in 0..bytes.len() {
        if Record::decode(&bytes[..end], KEY).is_some() {
            return false;
        }
    }
    match Record::decode(bytes, KEY) {
        Some((record, size)) if size == bytes.len() => {
            record.encode_into(&mut again) == Some(size) && again.get(..size) == Some(bytes)
        }
        _ => false,
    }
}

/// A record's bytes, one of their places, another byte for it, and whether a record is read then.
type Changed = (&'static [u8], usize, u8, bool);

static CHANGED: [Changed; 11] = [
    (&ADDED, 36, 0, false),
    (&MARKED, 33, 2, false),
    (&MARKED, 34, 2, false),
    (&MARKED, 38, 0, false),
    (&WIDENED, 4, 0, false),
    (&WIDENED, 6, 0, true),
    (&SWEPT, 4, 0, false),
    (&SWEPT, 5, 0, false),
    (&SWEPT, 9, 0, false),
    (&SWEPT, 10, 0, false),
    (&SWEPT, 0, 11, false),
];

/// Whether the bytes, of which one is another, begin with a record.
fn is_record_with(bytes: &[u8], at: usize, byte: u8) -> bool {
    let mut changed = [0; 64];
    for (k, (place, old)) in changed.iter_mut().zip(bytes).enumerate() {
        *place = if k == at { byte } else { *old };
    }
    Record::decode(&changed[..bytes.len().min(64)], KEY).is_some()
}

#[test]
fn small_records_by_their_bytes(rt: HostRuntime) {
    holds(&rt, is_one_record(&ADDED));
    holds(&rt, is_one_record(&MARKED));
    holds(&rt, is_one_record(&WIDENED));
    holds(&rt, is_one_record(&SWEPT));
    let added = Record::Add {
        tx: 1,
        row: 7,
        key: &TEN,
        leaf: 2,
    };
    holds(
        &rt,
        Record::decode(&ADDED, KEY) == Some((added, ADDED.len())),
    );
}

#[test]
fn slots_by_their_places(rt: HostRuntime) {
    let slots = Slots { bytes: &SWEPT[6..] };
    let found = [slots.get(0), slots.get(2), slots.get(3)];
    same(&rt, &found, &[Some(0), Some(258), None]);
    same(&rt, &(slots.count(), slots.rise()), &(3, true));
}

#[test]
fn small_records_out_of_range(rt: HostRuntime) {
    for (bytes, at, byte, is_record) in &CHANGED {
        let found = is_record_with(bytes, *at, *byte);
        same(&rt, &(*at, *byte, found), &(*at, *byte, *is_record));
    }
}

/// A sweep of page 2 that counts this many slots, from 0 on, and has 101.
fn long_sweep(count: u8) -> [u8; 208] {
    let mut bytes = [0; 208];
    bytes[..6].copy_from_slice(&[10, 0, 0, 0, 2, count]);
    for slot in 0..101 {
        bytes[7 + SLOT_NUMBER * slot] = slot as u8;
    }
    bytes
}

/// How many bytes the record has that a long sweep begins with.
fn length_of_sweep(count: u8) -> Option<usize> {
    match Record::decode(&long_sweep(count), KEY) {
        Some((_, size)) => Some(size),
        None => None,
    }
}

#[test]
fn a_sweep_has_a_hundred_slots_at_most(rt: HostRuntime) {
    same(&rt, &length_of_sweep(100), &Some(206));
    same(&rt, &length_of_sweep(101), &None);
}
