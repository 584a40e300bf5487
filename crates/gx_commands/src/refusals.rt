//! Reports a refusal outside of a script.
ghost use Rattle.std.specs.Prelude.{◌≡◌, ◌≤◌, length};
ghost use Rattle.gx_commands.specs.Streams.{Prints, TellsPerson, outputs_of, stream_of};
ghost use Rattle.gx_geom.specs.Refusals.{refusal_text};
ghost use Rattle.gx_commands.specs.Lines.{refusal_line, sentence_of};
ghost use Rattle.gx_commands.specs.Refusing.{Refuses};

use crate::REFUSED;
use crate::person::{print, tell_person};
use arrayvec::ArrayString;
use gx_geom::Refusal;
use gx_script::Noted;
use itoa::Buffer;
use std::io::Write;

/// More bytes than the line of any refusal has.
const LONGEST: usize = 32;

// The line of a refusal.
fn line_of(why: Refusal) -> ArrayString<LONGEST>
    ensures { result.bytes ≡ refusal_line why }
{
    let text = why.text();
    let mut digits = Buffer::new();
    let mut line = ArrayString::new();
    line.push_str("refused ");
    line.push_str(digits.format(why.number()));
    line.push_str(" ");
    line.push_str(text.as_str());
    line.push_str("\n");
    line
}

// The sentence for the user on the refusal with this text: if it comes only outside of scripts, it says more than the
// text.
fn sentence(why: Refusal, text: &str) -> &str
    requires words { text.now ≡ refusal_text why }
    requires short { length text.now ≤ 16 }
    ensures words { result.now ≡ sentence_of why }
    ensures short { length result.now ≤ 128 }
{
    match why {
        Refusal::Memory => "there isn't enough memory",
        Refusal::Device => "a read, a write or a sync of the device failed",
        Refusal::Failed => "the device had failed before",
        Refusal::Damaged => "what the device holds is damaged",
        Refusal::NotFormatted => "the device holds no index; it has to be formatted first",
        Refusal::OldVersion =>
            "the index is of an older version; gist migrate makes one of this version from it",
        Refusal::TooSmall => "the file is shorter than any index, or was cut",
        Refusal::BadParameter => {
            "a number is out of its range, or the index has another kind of keys"
        }
        _ => text,
    }
}

/// Reports to the user what a refusal outside of a script means.
pub(crate) fn tell_refused<E: Write>(faults: &mut Noted<E>, why: Refusal)
    ensures { TellsPerson (sentence_of why) (stream_of E.contents faults.old) (stream_of E.contents faults.new) }
{
    let text = why.text();
    tell_person(faults, sentence(why, text.as_str()));
}

/// Writes the line of a refusal, `refused N text`.
pub fn print_refusal<W: Write>(writer: &mut Noted<W>, why: Refusal)
    ensures { Prints (refusal_line why) (stream_of W.contents writer.old) (stream_of W.contents writer.new) }
{
    print(writer, line_of(why).as_str().as_bytes());
}

/// Writes the line of a refusal, `refused N text`, reports to the user what it means, and returns the status, 1.
pub fn refuse<W: Write, E: Write>(writer: &mut Noted<W>, faults: &mut Noted<E>, why: Refusal) -> u8
    ensures { Refuses why (outputs_of W.contents E.contents writer.old faults.old)
        (outputs_of W.contents E.contents writer.new faults.new) result }
{
    tell_refused(faults, why);
    print_refusal(writer, why);
    REFUSED
}
