//! Formats a device, and writes a line about it.
ghost use Rattle.std.specs.Prelude.{◌≡◌};
ghost use Rattle.gx_commands.specs.Streams.{outputs_of};
ghost use Rattle.gx_format.specs.Fresh.{fresh_root};
ghost use Rattle.gx_commands.specs.Endings.{FormatsOver, TellsFormatted};
ghost use Rattle.gx_commands.specs.Lines.{formatted_line};

use crate::person::tell_fault;
use crate::refusals::refuse;
use crate::{DONE, REFUSED};
use arrayvec::ArrayString;
use gx_class::KeyClass;
use gx_disk::SectorDisk;
use gx_restart::format;
use gx_script::{Noted, write_whole};
use itoa::Buffer;
use std::alloc::Global;
use std::io::Write;

/// More bytes than the line has.
const LONGEST: usize = 64;

// The line that is printed of a format.
fn line_of(pages: u32, most: u16) -> ArrayString<LONGEST>
    ensures { result.bytes ≡ formatted_line pages most }
{
    let mut digits = Buffer::new();
    let mut line = ArrayString::new();
    line.push_str("formatted pages ");
    line.push_str(digits.format(pages));
    line.push_str(" fanout ");
    line.push_str(digits.format(most));
    line.push_str("\n");
    line
}

// Writes that line, and returns the status.
fn tell_formatted<W: Write, E: Write>(
    pages: u32,
    most: u16,
    writer: &mut Noted<W>,
    faults: &mut Noted<E>,
) -> u8
    ensures { TellsFormatted pages most (outputs_of W.contents E.contents writer.old faults.old)
        (outputs_of W.contents E.contents writer.new faults.new) result }
{
    match write_whole(writer, line_of(pages, most).as_str().as_bytes()) {
        Ok(()) => DONE,
        Err(fault) => {
            tell_fault(faults, fault, writer.kind);
            REFUSED
        }
    }
}

/// Writes a new, empty index of a class of keys to a device, with 8 to 65,536 pages and at most 4 to 100 entries in a
/// node, as `gx_restart::format` does; writes `formatted pages P fanout M`; and returns the status.
///
/// The status is 0 if both were done. It is 1 if the line couldn't be written: the device is formatted then, and the
/// function reports that to the user, unless the reader of the line has closed its end. It is also 1 if the format was
/// refused: then the function writes `refused N text`, and reports to the user what that means: `BadParameter` for
/// numbers out of range, `TooSmall` for too few sectors, `Memory`, and `Device` if a call failed.
pub fn format_over<D: SectorDisk, K: KeyClass, W: Write, E: Write>(
    alloc: Global,
    disk: &mut D,
    pages: u32,
    most: u16,
    writer: &mut Noted<W>,
    faults: &mut Noted<E>,
) -> u8
    ensures { FormatsOver D.state (record { pages = pages; most = most; class = K.CLASS })
        (fresh_root K.spelling K.start_key) disk.old disk.new
        (outputs_of W.contents E.contents writer.old faults.old)
        (outputs_of W.contents E.contents writer.new faults.new) result }
{
    match format::<D, K>(alloc, disk, pages, most) {
        Ok(()) => tell_formatted(pages, most, writer, faults),
        Err(why) => refuse(writer, faults, why),
    }
}
