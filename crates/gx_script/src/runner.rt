//! Scripts from a reader to a writer.
ghost use Rattle.std.specs.Prelude.{◌≡◌, ◌≢◌, ◌+◌, ◌^◌, ◌<◌, ◌≤◌, ◌==◌, position, ℕ, List, [], ◌∷◌};
ghost use Rattle.std.specs.Prelude.{◌++◌, length, take, MatchOption, OnOk, IfOk, IfErr, OnErr, Some};
ghost use Rattle.std.specs.List.{position_or_len};
ghost use Rattle.gx_script.specs.Corners.{grammar_of};
ghost use Rattle.gx_script.specs.Requests.{line_of};
ghost use Rattle.gx_script.specs.Scripts.{asked_as, IsDone, IsStopped, IsUnended, IsTold};
ghost use Rattle.gx_script.specs.Noting.{TakesNoMore, IsFaultOf};
ghost use Rattle.gx_script.specs.Steps.{IsToldWhole, IsToldPart, IsFed, IsFedPart, IsEnded, IsEndedPart, Feeds};

use crate::line_buffer::LineBuffer;
use crate::output::Output;
use crate::replies::put_reply;
use crate::{Answers, Corners, Line, Noted, ScriptFault, Transfer, parse};
use gx_geom::Refusal;
use gx_machine::{Call, Reply};
use std::io::{Read, Write};

/// How often a reader is read.
const READS: u64 = 1 << 32;

/// How many bytes a read may give.
const PIECE: usize = 16384;

/// Reads a script to its end, asks the index for the calls of its lines, and writes the replies.
///
/// Each reply is written before the next call is asked. An interrupted read or write is made again. The script ends
/// well when the reader's last call gave nothing; with `Read` if that call failed, or 2^32 calls of the reader were
/// made; and with `Write` if the writer's last call failed or took nothing, or 2^32 calls of the writer were made.
pub fn run<B: Corners, R: Read, W: Write, I: Answers<B>>(
    reader: &mut Noted<R>,
    writer: &mut Noted<W>,
    index: &mut I,
) -> Result<(), ScriptFault>
    ensures done { OnOk result (IsDone (grammar_of B.Corners) I.answered
        (R.remaining reader.old.inner) (R.remaining reader.new.inner)
        (W.contents writer.old.inner) (W.contents writer.new.inner) index.old index.new) }
    ensures stopped { IfErr result (IsStopped (grammar_of B.Corners) I.answered
        (R.remaining reader.old.inner) (R.remaining reader.new.inner)
        (W.contents writer.old.inner) (W.contents writer.new.inner) index.old index.new) }
    ensures ended { OnOk result (reader.new.last ≡ Some Transfer.Nothing) }
    ensures fault { IfErr result (IsFaultOf reader.new writer.new) }
{
    let mut buffer = blank::<PIECE>();
    let mut script = Script::new();
    for _turn in 0..READS {
        match reader.read(&mut buffer) {
            Transfer::Interrupted => {}
            Transfer::Nothing => return script.finish(writer, index),
            Transfer::Moved(count) => script.feed(writer, index, buffer.split_at(count).0)?,
            Transfer::Failed => return Err(ScriptFault::Read),
        }
    }
    Err(ScriptFault::Read)
}

fn blank<const N: usize>() -> [u8; N]
    ensures { length result ≡ N }
{
    [0; N]
}

/// A script as far as it was read.
#[derive(Drop)]
struct Script {
    // the line that was begun
    line: LineBuffer,
    // its number
    number: u64,
    // the text that waits
    output: Output,
}

impl Script {
    fn new() -> Self
        ensures line { result.line ≡ [] }
        ensures number { result.number ≡ 1 }
        ensures output { result.output ≡ [] }
    {
        Script {
            line: LineBuffer::new(),
            number: 1,
            output: Output::new(),
        }
    }

    // Does all lines that end in these bytes, and keeps what follows them. Then nothing waits.
    fn feed<B: Corners, W: Write, I: Answers<B>>(
        &mut self,
        writer: &mut Noted<W>,
        index: &mut I,
        bytes: &[u8],
    ) -> Result<(), ScriptFault>
        requires { self.old.number + length bytes.now < 2 ^ 64 }
        ensures ok { OnOk result (IsUnended self.old.line
            → Feeds (grammar_of B.Corners) I.answered self.old.number index.old self.old.output
            (λ number done start written.
            (fed : IsFed (grammar_of B.Corners) I.answered number done start written
            (self.old.line ++ bytes.now) self.new.line
            (W.contents writer.old.inner) (W.contents writer.new.inner) self.new.output index.new)
            × (self.new.number ≡ number + length (done ++ fed.more)))) }
        ensures unended { OnOk result (IsUnended self.old.line → IsUnended self.new.line) }
        ensures waits { OnOk result (self.new.output ≡ []) }
        ensures bound { OnOk result (self.new.number ≤ self.old.number + length bytes.now) }
        ensures cut { IfErr result (λ e. (e ≡ ScriptFault.Write)
            × (IsUnended self.old.line
            → Feeds (grammar_of B.Corners) I.answered self.old.number index.old self.old.output
            (λ number done start written.
            IsFedPart (grammar_of B.Corners) I.answered number done start written (self.old.line ++ bytes.now)
            (W.contents writer.old.inner) (W.contents writer.new.inner) index.new))) }
        ensures stuck { OnErr result (TakesNoMore writer.new) }
    {
        let mut rest = bytes;
        while let Some((line, more)) = next_line(rest) {
            self.line.keep(line);
            self.end_line(writer, index)?;
            rest = more;
        }
        self.line.keep(rest);
        self.output.flush(writer)
    }

    // Does the line that was begun, if it has a byte, and writes all that waits.
    fn finish<B: Corners, W: Write, I: Answers<B>>(
        &mut self,
        writer: &mut Noted<W>,
        index: &mut I,
    ) -> Result<(), ScriptFault>
        requires { self.old.number + 1 < 2 ^ 64 }
        ensures ok { OnOk result (IsUnended self.old.line
            → Feeds (grammar_of B.Corners) I.answered self.old.number index.old self.old.output
            (λ number done start written.
            IsEnded (grammar_of B.Corners) I.answered number done start written self.old.line
            (W.contents writer.old.inner) (W.contents writer.new.inner) index.new)) }
        ensures cut { IfErr result (λ e. (e ≡ ScriptFault.Write)
            × (IsUnended self.old.line
            → Feeds (grammar_of B.Corners) I.answered self.old.number index.old self.old.output
            (λ number done start written.
            IsEndedPart (grammar_of B.Corners) I.answered number done start written self.old.line
            (W.contents writer.old.inner) (W.contents writer.new.inner) index.new))) }
        ensures stuck { OnErr result (TakesNoMore writer.new) }
    {
        if self.line.is_empty() {
            return self.output.flush(writer);
        }
        self.end_line(writer, index)?;
        self.output.flush(writer)
    }

    // Does the line that was begun, and begins the next.
    fn end_line<B: Corners, W: Write, I: Answers<B>>(
        &mut self,
        writer: &mut Noted<W>,
        index: &mut I,
    ) -> Result<(), ScriptFault>
        requires { self.old.number + 1 < 2 ^ 64 }
        ensures ok { OnOk result (IsToldWhole (grammar_of B.Corners) I.answered self.old.number
            (line_of (grammar_of B.Corners) self.old.line) index.old index.new
            (W.contents writer.old.inner) (W.contents writer.new.inner) self.old.output self.new.output) }
        ensures line { OnOk result (self.new.line ≡ []) }
        ensures number { OnOk result (self.new.number ≡ self.old.number + 1) }
        ensures cut { IfErr result (λ e. (e ≡ ScriptFault.Write)
            × IsToldPart (grammar_of B.Corners) I.answered self.old.number
            (line_of (grammar_of B.Corners) self.old.line) index.old index.new
            (W.contents writer.old.inner) (W.contents writer.new.inner) self.old.output) }
        ensures stuck { OnErr result (TakesNoMore writer.new) }
    {
        let line = parse(self.line.as_slice());
        run_line(writer, index, &mut self.output, self.number, line)?;
        self.line.clear();
        self.number += 1;
        Ok(())
    }
}

// the first line that ends in these bytes, and what follows its line feed
fn next_line(bytes: &[u8]) -> Option<(&[u8], &[u8])>
    ensures { MatchOption result (IsUnended bytes.now) (λ p. IsUnended p.0.now
        × (bytes.now ≡ p.0.now ++ (10 ∷ p.1.now))) }
{
    let (line, rest) = bytes.split_at(line_end(bytes));
    match rest.split_first() {
        None => None,
        Some((_, more)) => Some((line, more)),
    }
}

// how many bytes come before the first line feed
fn line_end(bytes: &[u8]) -> usize
    ensures value { result ≡ position_or_len (λ b. b == 10) bytes.now }
    ensures bound { result ≤ length bytes.now }
{
    match first_feed(bytes) {
        Some(end) => end,
        None => bytes.len(),
    }
}

fn first_feed(bytes: &[u8]) -> Option<usize>
    ensures { result ≡ position (λ b. b == 10) bytes.now }
{
    bytes.iter().position(|b| *b == b'\n')
}

// Does one line.
fn run_line<B: Corners, W: Write, I: Answers<B>>(
    writer: &mut Noted<W>,
    index: &mut I,
    output: &mut Output,
    number: u64,
    line: Line<B>,
) -> Result<(), ScriptFault>
    ensures ok { OnOk result (IsToldWhole (grammar_of B.Corners) I.answered number line index.old index.new
        (W.contents writer.old.inner) (W.contents writer.new.inner) output.old output.new) }
    ensures cut { IfErr result (λ e. (e ≡ ScriptFault.Write)
        × IsToldPart (grammar_of B.Corners) I.answered number line index.old index.new
        (W.contents writer.old.inner) (W.contents writer.new.inner) output.old) }
    ensures stuck { OnErr result (TakesNoMore writer.new) }
{
    match line {
        Line::Blank => Ok(()),
        Line::Bad => {
            output.make_room(writer)?;
            output.put_bad(number);
            Ok(())
        }
        Line::Reversed(session) => {
            let refused: Reply<B> = Reply::Refused(Refusal::BadBox);
            put_reply(writer, output, session, &refused)
        }
        Line::Asks(session, call) => answer(writer, index, output, session, call),
    }
}

// Writes what waits, then asks the index.
fn answer<B: Corners, W: Write, I: Answers<B>>(
    writer: &mut Noted<W>,
    index: &mut I,
    output: &mut Output,
    session: u64,
    call: Call<B>,
) -> Result<(), ScriptFault>
    ensures ok { (number : ℕ) → OnOk result (IsToldWhole (grammar_of B.Corners) I.answered number
        (Line.Asks session call) index.old index.new
        (W.contents writer.old.inner) (W.contents writer.new.inner) output.old output.new) }
    ensures cut { IfErr result (λ e. (e ≡ ScriptFault.Write)
        × ((number : ℕ) → IsToldPart (grammar_of B.Corners) I.answered number
        (Line.Asks session call) index.old index.new
        (W.contents writer.old.inner) (W.contents writer.new.inner) output.old)) }
    ensures stuck { OnErr result (TakesNoMore writer.new) }
{
    output.flush(writer)?;
    let reply = index.call(index_session(session), call);
    put_reply(writer, output, session, &reply)
}

// the number under which the index is asked
fn index_session(session: u64) -> u8
    ensures { result ≡ asked_as session }
{
    if session < 256 { session as u8 } else { 0 }
}
