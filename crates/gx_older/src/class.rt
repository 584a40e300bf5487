//! Reads the class of keys and the number of pages that a device of the first version is formatted for.
ghost use Rattle.std.specs.Prelude.{◌↔◌, IsTrue};
ghost use Rattle.gx_older.specs.Class.{HasClass, ReadsClass};

use crate::parameters::told_older;
use gx_disk::{LEAST_SECTORS, MAX_PAGES, MIN_PAGES, SectorDisk};
use gx_geom::Refusal;
use gx_glog::Parameters;

/// How many classes of keys there are, numbered from 1.
const CLASSES: u16 = 3;

// Whether there is a class of this number, and an index may have so many pages.
fn has_class(parameters: &Parameters) -> bool
    ensures { IsTrue result ↔ HasClass parameters.now }
{
    (1..=CLASSES).contains(&parameters.class)
        && (MIN_PAGES..=MAX_PAGES).contains(&(parameters.pages as usize))
}

/// Reads the class of keys that a device of the first version is formatted for, and for how many pages: 1, boxes of the
/// plane; 2, intervals; 3, boxes of space. It tests nothing else of the index, and makes no write and no sync.
///
/// Refused for the first of these that holds: the device has fewer sectors than the smallest index took (`TooSmall`; no
/// call is made before this test), a read fails (`Device`, and only then), its first eight bytes aren't the first
/// version's magic (`NotFormatted`), the class is none of these, or the pages are fewer than 8 or more than 65,536
/// (`BadParameter`).
pub fn class_of_old<D: SectorDisk>(disk: &mut D) -> Result<(u16, u32), Refusal>
    ensures { ReadsClass D.state disk.old disk.new result }
{
    if disk.sectors() < LEAST_SECTORS {
        return Err(Refusal::TooSmall);
    }
    let parameters = told_older(disk)?;
    if !has_class(&parameters) {
        return Err(Refusal::BadParameter);
    }
    Ok((parameters.class, parameters.pages))
}
