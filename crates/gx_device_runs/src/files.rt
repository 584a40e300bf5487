//! A device over a real file, which lies where the program runs.
use crate::devices::firsts;
use crate::fault::RunFault;
use crate::sectors::{word_of, write};
use crate::words::{Line, Part, say, say_parts};
use gx_disk::{DiskFault, FileDisk, SectorDisk};

/// The file.
const FILE: &str = "runs.device";

/// Prints how many sectors a device has, and the first bytes of the first four.
fn say_sectors<R: Print, D: SectorDisk>(rt: &R, disk: &mut D) -> Result<(), RunFault> {
    let sectors = disk.sectors();
    let [zero, one, two, three] = firsts(disk);
    say_parts(
        rt,
        &[
            Part::Number(sectors),
            Part::Text(" sectors,"),
            Part::Byte(zero),
            Part::Byte(one),
            Part::Byte(two),
            Part::Byte(three),
        ],
    )
}

/// Prints what a file has, or why it can't be opened.
fn say_file<R: Print>(rt: &R, disk: Result<FileDisk, DiskFault>) -> Result<(), RunFault> {
    match disk {
        Ok(mut disk) => say_sectors(rt, &mut disk),
        Err(fault) => say(rt, word_of(Err(fault))),
    }
}

/// Opens the file besides: in a word.
fn open_besides(rt: &HostRuntime) -> &'static str {
    match FileDisk::open(rt, FILE) {
        Ok(_) => "opened besides",
        Err(fault) => word_of(Err(fault)),
    }
}

/// Writes and syncs sector 2 of a file that is created with four sectors, and opens it besides.
fn write_file(rt: &HostRuntime) -> Result<&'static str, DiskFault> {
    let mut disk = FileDisk::create(rt, FILE, 4)?;
    let written = write(&mut disk, 2, &[0xc3; 512]);
    let synced = disk.sync();
    let besides = open_besides(rt);
    match (written, synced) {
        (Ok(()), Ok(())) => Ok(besides),
        _ => Ok("not written"),
    }
}

/// Three words of a line.
type ThreeWords = (&'static str, &'static str, &'static str);

/// Opens the file twice for reading, and returns what a write, a sync and an opening for writing are then.
fn share_file(rt: &HostRuntime) -> Result<ThreeWords, DiskFault> {
    let mut disk = FileDisk::open_to_read(rt, FILE)?;
    let _other = FileDisk::open_to_read(rt, FILE)?;
    Ok((
        word_of(write(&mut disk, 2, &[0xd4; 512])),
        word_of(disk.sync()),
        open_besides(rt),
    ))
}

/// Prints three words.
fn say_three<R: Print>(rt: &R, words: ThreeWords) -> Result<(), RunFault> {
    let (one, two, three) = words;
    say_parts(
        rt,
        &[
            Part::Text(" "),
            Part::Text(one),
            Part::Text(", "),
            Part::Text(two),
            Part::Text(", "),
            Part::Text(three),
        ],
    )
}

/// A line about the file.
pub(crate) fn call(rt: &HostRuntime, line: &Line<'_>) -> Result<(), RunFault> {
    match line.asked() {
        "write" => say(rt, write_file(rt).unwrap_or("not written")),
        "open" => say_file(rt, FileDisk::open(rt, FILE)),
        "share" => match share_file(rt) {
            Ok(words) => say_three(rt, words),
            Err(fault) => say(rt, word_of(Err(fault))),
        },
        "create" => say_file(rt, FileDisk::create(rt, FILE, line.numbers[1])),
        _ => {
            std::fs::remove_file(rt, FILE)?;
            say(rt, "done")
        }
    }
}
