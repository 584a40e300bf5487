//! Entries that C gets.
ghost use Rattle.std.specs.Prelude.{◌≡◌, ◌≤◌, map, length};
ghost use Rattle.gx_c.specs.Sent.{IsTold, sent_entry, sent_entry3};

use crate::rest::Rest;
use crate::sent::{SentCount, SentEntry, SentEntry3, sent_entry, sent_entry3};
use gx_geom::{Box2, Box3};
use gx_machine::Entry;

// The lesser of two counts.
fn least(one: usize, other: usize) -> usize
    ensures first { result ≤ one }
    ensures second { result ≤ other }
    ensures is { (other ≤ result → ⊥) → result ≡ one }
{
    if one <= other { one } else { other }
}

// Writes entries to as many places.
fn write_boxes(entries: &[Entry<Box2>], out: &mut [SentEntry])
    requires { length out.old ≡ length entries.now }
    ensures { out.new ≡ map sent_entry entries.now }
{
    for place in 0..entries.len() {
        out[place] = sent_entry(&entries[place]);
    }
}

// Writes entries of space to as many places.
fn write_solids(entries: &[Entry<Box3>], out: &mut [SentEntry3])
    requires { length out.old ≡ length entries.now }
    ensures { out.new ≡ map sent_entry3 entries.now }
{
    for place in 0..entries.len() {
        out[place] = sent_entry3(&entries[place]);
    }
}

/// Writes as many of the entries that are left as there are places for, and takes them away.
pub(crate) fn tell_boxes(rest: &mut Rest<Box2>, out: &mut [SentEntry]) -> SentCount
    ensures { IsTold sent_entry rest.old rest.new out.old out.new result }
{
    let left = rest.left();
    let found = left.len();
    let told = least(found, out.len());
    write_boxes(&left[..told], &mut out[..told]);
    rest.skip(told);
    SentCount { found, told }
}

/// The same of entries of space.
pub(crate) fn tell_solids(rest: &mut Rest<Box3>, out: &mut [SentEntry3]) -> SentCount
    ensures { IsTold sent_entry3 rest.old rest.new out.old out.new result }
{
    let left = rest.left();
    let found = left.len();
    let told = least(found, out.len());
    write_solids(&left[..told], &mut out[..told]);
    rest.skip(told);
    SentCount { found, told }
}
