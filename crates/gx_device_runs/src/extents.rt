//! The log read back from a device.
use crate::fault::RunFault;
use crate::logs::extent;
use crate::records::say_record;
use crate::words::{Line, Part, print_parts, say, say_number, say_parts};
use gx_disk::{PAGES_AT, SectorDisk};
use gx_geom::Refusal;
use gx_glog::{BODY_SIZE, Extent, PLACES, read_extent, selected};
use std::alloc::Global;

/// What is read of a log.
#[derive(Clone, Copy)]
pub(crate) struct Seen {
    extent: Extent,
    /// How many batches are gated.
    batches: u8,
    /// How many bytes of records the last one has.
    last: usize,
}

/// An extent's name.
fn name(extent: Extent) -> &'static str {
    match extent {
        Extent::A => "A",
        Extent::B => "B",
    }
}

/// The extent that a device selects.
fn selected_by<D: SectorDisk>(disk: &mut D) -> Result<Extent, Refusal> {
    if disk.sectors() < PAGES_AT {
        return Err(Refusal::TooSmall);
    }
    selected(disk)
}

/// Reads the body of a place, and returns how many bytes of records it has. `None` if its gate is closed.
fn read<D: SectorDisk>(
    disk: &mut D,
    extent: Extent,
    place: u8,
    body: &mut [u8],
) -> Result<Option<usize>, Refusal> {
    if place >= PLACES || disk.sectors() < PAGES_AT || body.len() != BODY_SIZE {
        return Err(Refusal::TooSmall);
    }
    read_extent(disk, extent, place, body)
}

/// The batches up to the first closed gate.
fn gated<D: SectorDisk>(disk: &mut D, extent: Extent, body: &mut [u8]) -> Result<Seen, Refusal> {
    let mut seen = Seen {
        extent,
        batches: 0,
        last: 0,
    };
    for place in 0..PLACES {
        let Some(size) = read(disk, extent, place, body)? else {
            break;
        };
        seen.batches = place.saturating_add(1);
        seen.last = size;
    }
    Ok(seen)
}

/// The log of a device.
pub(crate) fn log_of<D: SectorDisk>(alloc: Global, disk: &mut D) -> Result<Seen, RunFault> {
    let mut body = vec![in alloc; 0; BODY_SIZE]?;
    let extent = selected_by(disk)?;
    Ok(gated(disk, extent, &mut body)?)
}

/// Prints a log.
pub(crate) fn say_seen<R: Print>(rt: &R, seen: Seen) -> Result<(), RunFault> {
    say_parts(
        rt,
        &[
            Part::Text(" extent "),
            Part::Text(name(seen.extent)),
            Part::Text(", batches"),
            Part::Number(u64::from(seen.batches)),
            Part::Text(", last"),
            Part::Number(seen.last as u64),
        ],
    )
}

/// Prints what a place has: nothing, the size of its records, or none that can be read.
fn say_place<R: Print>(rt: &R, found: Result<Option<usize>, Refusal>) -> Result<(), RunFault> {
    match found {
        Ok(Some(size)) => say_number(rt, size as u64),
        Ok(None) => say(rt, "closed"),
        Err(Refusal::Damaged) => say(rt, "damaged"),
        Err(refusal) => Err(RunFault::from(refusal)),
    }
}

/// Prints how many bytes of records a body has, and the first of them.
fn say_body<R: Print>(rt: &R, size: usize, body: &[u8]) -> Result<(), RunFault> {
    print_parts(
        rt,
        &[Part::Number(size as u64), Part::Text(" bytes of records:")],
    )?;
    say_record(rt, body.get(4..).unwrap_or(&[]))
}

/// The place of an extent that a number names, or one after the last.
fn place(number: u64) -> u8 {
    u8::try_from(number).unwrap_or(PLACES)
}

/// A line about the log as a device has it: of the extent that it names if it asks for a place, else of the selected
/// one.
pub(crate) fn call<R: Print, D: SectorDisk>(
    rt: &R,
    alloc: Global,
    disk: &mut D,
    line: &Line<'_>,
) -> Result<(), RunFault> {
    let [_, first, second, ..] = line.numbers;
    let mut body = vec![in alloc; 0; BODY_SIZE]?;
    if line.asked() == "place" {
        let found = read(disk, extent(line.words[1]), place(second), &mut body);
        return say_place(rt, found);
    }
    let selected = selected_by(disk)?;
    match line.asked() {
        "log" => say_seen(rt, gated(disk, selected, &mut body)?),
        "selected" => say(rt, name(selected)),
        _ => match read(disk, selected, place(first), &mut body) {
            Ok(Some(size)) => say_body(rt, size, &body),
            found => say_place(rt, found),
        },
    }
}
