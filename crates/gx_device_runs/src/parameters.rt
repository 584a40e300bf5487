//! What a device is formatted for.
use crate::fault::RunFault;
use crate::sectors::{read, word_of, write};
use crate::words::{Line, Part, say, say_parts, to_u32};
use gx_disk::{DiskFault, SectorDisk};
use gx_glog::{PARAMETERS, Parameters};

/// A number of at most 16 bits; the greatest if it is greater.
fn to_u16(number: u64) -> u16 {
    u16::try_from(number).unwrap_or(u16::MAX)
}

/// Writes the sector of parameters: pages, entries and class.
fn write_parameters<D: SectorDisk>(disk: &mut D, line: &Line<'_>) -> Result<(), DiskFault> {
    let [_, pages, most, class, ..] = line.numbers;
    let parameters = Parameters {
        pages: to_u32(pages),
        most: to_u16(most),
        class: to_u16(class),
    };
    write(disk, PARAMETERS, &parameters.encode())
}

/// Prints what the sector of parameters says.
fn look<R: Print, D: SectorDisk>(rt: &R, disk: &mut D) -> Result<(), RunFault> {
    let sector = read(disk, PARAMETERS)?;
    let Parameters { pages, most, class } = Parameters::decode(&sector);
    say_parts(
        rt,
        &[
            Part::Number(u64::from(pages)),
            Part::Text(" pages,"),
            Part::Number(u64::from(most)),
            Part::Text(" entries, class"),
            Part::Number(u64::from(class)),
        ],
    )
}

/// A line about the sector of parameters.
pub(crate) fn call<R: Print, D: SectorDisk>(
    rt: &R,
    disk: &mut D,
    line: &Line<'_>,
) -> Result<(), RunFault> {
    match line.asked() {
        "write" => say(rt, word_of(write_parameters(disk, line))),
        "read" => look(rt, disk),
        _ => Err(RunFault::BadLine),
    }
}
