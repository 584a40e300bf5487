//! What the program writes for the user.
ghost use Rattle.std.specs.Prelude.{◌≡◌, ◌≤◌, length};
ghost use Rattle.gx_commands.specs.Lines.{fault_text, named};
ghost use Rattle.gx_commands.specs.Scripts.{TellsFault};
ghost use Rattle.gx_commands.specs.Streams.{Prints, TellsPerson, stream_of};

use crate::causes::{fault_text, kind_text, stream_text};
use arrayvec::ArrayString;
use gx_disk::DiskFault;
use gx_script::{Noted, ScriptFault, write_whole};
use std::io::{ErrorKind, Write};

/// The most bytes of a sentence for the user.
pub const SENTENCE: usize = 1024;

/// The most bytes of the sentence's line, which begins with the program's name.
const LINE: usize = 1040;

/// Writes a text, or only a beginning of it if the writer fails or takes no more.
pub fn print<W: Write>(writer: &mut Noted<W>, text: &[u8])
    ensures { Prints text.now (stream_of W.contents writer.old) (stream_of W.contents writer.new) }
{
    let _ = write_whole(writer, text);
}

/// Writes a sentence of at most 1,024 bytes for the user, on a line that begins with the program's name.
pub fn tell_person<E: Write>(faults: &mut Noted<E>, sentence: &str)
    requires { length sentence.now ≤ SENTENCE }
    ensures { TellsPerson sentence.now (stream_of E.contents faults.old) (stream_of E.contents faults.new) }
{
    let mut line = ArrayString::<LINE>::new();
    line.push_str("gist: ");
    line.push_str(sentence);
    line.push_str("\n");
    print(faults, line.as_str().as_bytes());
}

/// Reports to the user that reading or writing a script failed, and why, as far as that is known. It writes nothing on
/// `BrokenPipe`: the reader of the replies may close its end early.
pub fn tell_fault<E: Write>(faults: &mut Noted<E>, fault: ScriptFault, kind: Option<ErrorKind>)
    ensures { TellsFault fault kind (stream_of E.contents faults.old) (stream_of E.contents faults.new) }
{
    if kind == Some(ErrorKind::BrokenPipe) {
        return;
    }
    let mut sentence = ArrayString::<SENTENCE>::new();
    sentence.push_str(stream_text(fault));
    if let Some(kind) = kind {
        sentence.push_str(": ");
        sentence.push_str(kind_text(kind));
    }
    tell_person(faults, sentence.as_str());
}

// Says that a file can't be opened, or that a call of it failed, after the file's name if there is room for that.
fn named(file: &str, fault: DiskFault) -> ArrayString<SENTENCE>
    ensures { result.bytes ≡ named file.now (fault_text fault) }
{
    let why = fault_text(fault);
    let mut sentence = ArrayString::new();
    if file.len() <= SENTENCE - 2 - why.len() {
        sentence.push_str(file);
        sentence.push_str(": ");
    }
    sentence.push_str(why);
    sentence
}

/// Reports to the user why a file can't be opened, or a call of it failed.
pub(crate) fn tell_file<E: Write>(faults: &mut Noted<E>, file: &str, fault: DiskFault)
    ensures { TellsPerson (named file.now (fault_text fault))
        (stream_of E.contents faults.old) (stream_of E.contents faults.new) }
{
    tell_person(faults, named(file, fault).as_str());
}
