//! Reads the class of keys that a device is formatted for.
ghost use Rattle.std.specs.Prelude.{◌↔◌, IsTrue};
ghost use Rattle.gx_restart.specs.Class.{IsClass, ReadsClass};

use gx_disk::{LEAST_SECTORS, SectorDisk};
use gx_geom::Refusal;
use gx_opening::told_parameters;

/// How many classes of keys there are, numbered from 1.
const CLASSES: u16 = 3;

// Whether a class of keys has this number.
fn is_class(number: u16) -> bool
    ensures { IsTrue result ↔ IsClass number }
{
    1 <= number && number <= CLASSES
}

/// Reads the class of keys that a device is formatted for: 1, boxes of the plane; 2, intervals; 3, boxes of space. It
/// tests nothing else of the index, and makes no write and no sync.
///
/// Refused for the first of these that holds: the device has fewer than 4,232 sectors (`TooSmall`; no call is made
/// before this test), a read fails (`Device`, and only then), the magic is that of version 1 (`OldVersion`) or missing
/// (`NotFormatted`), the class is none of these (`BadParameter`).
pub fn class_of<D: SectorDisk>(disk: &mut D) -> Result<u16, Refusal>
    ensures { ReadsClass D.state disk.old disk.new result }
{
    if disk.sectors() < LEAST_SECTORS {
        return Err(Refusal::TooSmall);
    }
    let parameters = told_parameters(disk)?;
    if !is_class(parameters.class) {
        return Err(Refusal::BadParameter);
    }
    Ok(parameters.class)
}
