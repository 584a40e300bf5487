//! What opens the file of a command, and what became of that.
ghost use Rattle.std.specs.Prelude.{◌≡◌, ◌-◌, None, Some, IfOk};
ghost use Rattle.gx_commands.specs.Opener.{HasRoom, Tries, is_writable, opened_with};
ghost use Rattle.gx_disk.specs.Files.{IsOpened};

use gx_disk::{DiskFault, FileDisk, SectorDisk};
use std::fs::{File, Files};

/// How a file is opened.
#[derive(Clone, Copy, Debug, PartialEq, Eq)]
pub enum Access {
    /// To read and write it: it is created if it doesn't exist, and extended if it has fewer sectors.
    Create(u64),
    /// To read and write it.
    Write,
    /// Only to read it.
    Read,
}

/// The outcome of an opening.
#[derive(Clone, Copy)]
pub struct Opening<'w> {
    /// The file's path.
    pub path: &'w str,
    /// How it was to be opened.
    pub access: Access,
    /// How many sectors it has, or why it wasn't opened.
    pub ended: Result<u64, DiskFault>,
}

/// Opens files, one for a command and two for a migration; nothing else opens any. It notes what a command of the
/// program opened, and keeps the device that the command leaves, so that nothing is done to it once the command has
/// ended.
#[derive(Drop)]
pub struct Opener<'w, F> {
    files: F,
    last: Option<Opening<'w>>,
    openings: u64,
    left: Option<FileDisk>,
}

// How many sectors the opened file has, or why it wasn't opened.
fn ended(opened: &Result<FileDisk, DiskFault>) -> Result<u64, DiskFault>
    ensures { result ≡ opened_with opened.now }
{
    match opened {
        Ok(disk) => Ok(disk.sectors()),
        Err(fault) => Err(*fault),
    }
}

impl<'w, F: Files<File = File>> Opener<'w, F> {
    /// Nothing was opened yet.
    pub fn new(files: F) -> Opener<'w, F>
        ensures { result ≡ record { files = files; last = None; openings = 0; left = None } }
    {
        Opener {
            files,
            last: None,
            openings: 0,
            left: None,
        }
    }

    /// Opens a file, and notes the outcome.
    pub(crate) fn open(&mut self, path: &'w str, access: Access) -> Result<FileDisk, DiskFault>
        ensures tries { Tries path.now access (opened_with result) self.old self.new }
        ensures left { self.new.left ≡ self.old.left }
        ensures opened { IfOk result (IsOpened (is_writable access)) }
        ensures room { IfOk result (λ disk. HasRoom access disk.sectors) }
    {
        let opened = match access {
            Access::Create(sectors) => FileDisk::create(&self.files, path, sectors),
            Access::Write => FileDisk::open(&self.files, path),
            Access::Read => FileDisk::open_to_read(&self.files, path),
        };
        self.openings = self.openings.saturating_add(1);
        self.last = Some(Opening {
            path,
            access,
            ended: ended(&opened),
        });
        opened
    }

    /// Keeps the device that a command leaves.
    pub(crate) fn keep(&mut self, disk: FileDisk)
        ensures { self.new ≡ record self.old { left = Some disk } }
    {
        self.left = Some(disk);
    }
}
