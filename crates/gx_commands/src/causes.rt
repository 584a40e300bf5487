//! Texts that say why a call of a file or a stream failed.
ghost use Rattle.std.specs.Prelude.{◌≡◌, ◌≤◌, length};
ghost use Rattle.gx_commands.specs.Lines.{fault_text, kind_text, stream_text};

use gx_disk::DiskFault;
use gx_script::ScriptFault;
use std::io::ErrorKind;

/// The text for a system error of this kind.
pub(crate) fn kind_text(kind: ErrorKind) -> &'static str
    ensures words { result.now ≡ kind_text kind }
    ensures short { length result.now ≤ 64 }
{
    match kind {
        ErrorKind::NotFound => "no such file or directory",
        ErrorKind::PermissionDenied => "permission denied",
        ErrorKind::NotADirectory => "not a directory",
        ErrorKind::IsADirectory => "is a directory",
        ErrorKind::ReadOnlyFilesystem => "read-only file system",
        ErrorKind::FilesystemLoop => "too many symbolic links",
        ErrorKind::InvalidFilename => "the name is too long",
        ErrorKind::InvalidInput => "invalid argument",
        ErrorKind::StorageFull => "no space left on device",
        ErrorKind::QuotaExceeded => "disk quota exceeded",
        ErrorKind::FileTooLarge => "file too large",
        ErrorKind::ResourceBusy => "device or resource busy",
        ErrorKind::ExecutableFileBusy => "the program in it is running",
        ErrorKind::NotSeekable => "it has no places to read at",
        ErrorKind::StaleNetworkFileHandle => "stale file handle",
        ErrorKind::UnexpectedEof => "it is shorter than it was",
        ErrorKind::WouldBlock => "the call would wait",
        ErrorKind::TimedOut => "timed out",
        ErrorKind::ConnectionReset => "connection reset",
        ErrorKind::OutOfMemory => "out of memory",
        ErrorKind::Unsupported => "not supported",
        _ => "another error of the system",
    }
}

/// The text that says why a file couldn't be opened, or a call of it failed.
pub(crate) fn fault_text(fault: DiskFault) -> &'static str
    ensures words { result.now ≡ fault_text fault }
    ensures short { length result.now ≤ 64 }
{
    match fault {
        DiskFault::Memory => "out of memory",
        DiskFault::Fuse => "the call was made to fail",
        DiskFault::File(kind) => kind_text(kind),
        DiskFault::InputOutput => "input or output error",
        DiskFault::InUse => "another process has it in use",
        DiskFault::ReadOnly => "it is open for reading alone",
    }
}

/// The text that says which stream of a script failed.
pub(crate) fn stream_text(fault: ScriptFault) -> &'static str
    ensures words { result.now ≡ stream_text fault }
    ensures short { length result.now ≤ 64 }
{
    match fault {
        ScriptFault::Read => "the script can't be read",
        ScriptFault::Write => "a reply can't be written",
    }
}
