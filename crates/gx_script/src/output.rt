//! The text that waits to be written.
ghost use Rattle.std.specs.Prelude.{◌≡◌, ◌+◌, ◌<◌, ◌≤◌, ◌↔◌, [], ◌∷◌, ◌++◌, length};
ghost use Rattle.std.specs.Prelude.{decimal, codes, IsTrue, OnOk, IfErr, OnErr};
ghost use Rattle.std.specs.Fmt.{signed_decimal};
ghost use Rattle.std.specs.Io.KnownBytes.{Appends};
ghost use Rattle.gx_geom.specs.Refusals.{refusal_number, refusal_text};
ghost use Rattle.gx_script.specs.Corners.{grammar_of, spaced};
ghost use Rattle.gx_script.specs.Replies.{told_line, entry_line, bad_line};
ghost use Rattle.gx_script.specs.Writes.{IsPut, IsCut};
ghost use Rattle.gx_script.specs.Noting.{TakesNoMore};

use crate::{Corners, Noted, ScriptFault, Transfer};
use arrayvec::ArrayVec;
use gx_geom::Refusal;
use gx_machine::Entry;
use itoa::Buffer;
use std::io::Write;
use std::marker::Model;

/// How many bytes may wait.
pub(crate) const WAITING: usize = 8192;

/// More bytes than any line of a reply has.
pub(crate) const LONGEST: usize = 192;

/// How often a writer is asked to take a piece.
const WRITES: u64 = 1 << 32;

/// The text that waits to be written.
#[derive(Drop)]
pub(crate) struct Output {
    bytes: ArrayVec<u8, WAITING>,
}

impl Model for Output {
    ghost use Rattle.std.specs.Prelude.{ℕ, List};

    ghost Value = { List ℕ };

    ghost view = { λ o. o.bytes.items };
}

impl Output {
    /// An output of which nothing waits.
    pub(crate) fn new() -> Self
        ensures { result ≡ [] }
    {
        Output {
            bytes: ArrayVec::new(),
        }
    }

    /// Writes all that waits.
    pub(crate) fn flush<W: Write>(&mut self, writer: &mut Noted<W>) -> Result<(), ScriptFault>
        ensures ok { OnOk result ((self.new ≡ []) × Appends
            (W.contents writer.old.inner) (W.contents writer.new.inner) self.old) }
        ensures cut { IfErr result (λ e. (e ≡ ScriptFault.Write) × IsCut
            (W.contents writer.old.inner) (W.contents writer.new.inner) self.old) }
        ensures stuck { OnErr result (TakesNoMore writer.new) }
    {
        write_whole(writer, self.bytes.as_slice())?;
        self.bytes.clear();
        Ok(())
    }

    /// Makes room for a line: writes what waits if there is none.
    pub(crate) fn make_room<W: Write>(&mut self, writer: &mut Noted<W>) -> Result<(), ScriptFault>
        ensures ok { OnOk result ((length self.new + LONGEST ≤ WAITING)
            × IsPut (W.contents writer.old.inner) (W.contents writer.new.inner) self.old [] self.new) }
        ensures cut { IfErr result (λ e. (e ≡ ScriptFault.Write) × IsCut
            (W.contents writer.old.inner) (W.contents writer.new.inner) self.old) }
        ensures stuck { OnErr result (TakesNoMore writer.new) }
    {
        if self.bytes.len() + LONGEST > WAITING {
            self.flush(writer)?;
        }
        Ok(())
    }

    /// Adds a session's line with these words, at most 32 bytes.
    pub(crate) fn put_told(&mut self, session: u64, told: &[u8])
        requires room { length self.old + LONGEST ≤ WAITING }
        requires short { length told.now ≤ 32 }
        ensures { self.new ≡ self.old ++ told_line session told.now }
    {
        self.put_number(session);
        self.put_bytes(b" ");
        self.put_bytes(told);
        self.put_bytes(b"\n");
    }

    /// Adds a session's line with these words, at most 32 bytes, and a number.
    pub(crate) fn put_counted(&mut self, session: u64, told: &[u8], count: u64)
        requires room { length self.old + LONGEST ≤ WAITING }
        requires short { length told.now ≤ 32 }
        ensures { self.new ≡ self.old ++ told_line session (told.now ++ decimal count) }
    {
        self.put_number(session);
        self.put_bytes(b" ");
        self.put_bytes(told);
        self.put_number(count);
        self.put_bytes(b"\n");
    }

    /// Adds the line of a refusal.
    pub(crate) fn put_refusal(&mut self, session: u64, why: Refusal)
        requires { length self.old + LONGEST ≤ WAITING }
        ensures { self.new ≡ self.old ++ told_line session (codes "refused "
            ++ (decimal (refusal_number why) ++ (32 ∷ refusal_text why))) }
    {
        let text = why.text();
        self.put_number(session);
        self.put_bytes(b" refused ");
        self.put_number(u64::from(why.number()));
        self.put_bytes(b" ");
        self.put_bytes(text.as_str().as_bytes());
        self.put_bytes(b"\n");
    }

    /// Adds the line of an entry.
    pub(crate) fn put_entry<B: Corners>(&mut self, session: u64, entry: &Entry<B>)
        requires { length self.old + LONGEST ≤ WAITING }
        ensures { self.new ≡ self.old ++ entry_line (grammar_of B.Corners) session entry.now }
    {
        self.put_number(session);
        self.put_bytes(b" entry ");
        self.put_number(entry.row);
        self.put_corners(&entry.key);
        self.put_bytes(b"\n");
    }

    /// Adds the line for a bad line, by its number.
    pub(crate) fn put_bad(&mut self, number: u64)
        requires { length self.old + LONGEST ≤ WAITING }
        ensures { self.new ≡ self.old ++ bad_line number }
    {
        self.put_bytes(b"line ");
        self.put_number(number);
        self.put_bytes(b" bad\n");
    }

    // the corners of a key, each after a space
    fn put_corners<B: Corners>(&mut self, key: &B)
        requires { length self.old + 126 ≤ WAITING }
        ensures text { self.new ≡ self.old ++ spaced (B.corners key.now) }
        ensures len { length self.new ≤ length self.old + 126 }
    {
        for i in 0..B::COUNT {
            self.put_bytes(b" ");
            self.put_corner(key.corner(i));
        }
    }

    fn put_number(&mut self, number: u64)
        requires { length self.old + 20 ≤ WAITING }
        ensures text { self.new ≡ self.old ++ decimal number }
        ensures len { length self.new ≤ length self.old + 20 }
    {
        let mut digits = Buffer::new();
        self.put_bytes(digits.format(number).as_bytes());
    }

    fn put_corner(&mut self, corner: i64)
        requires { length self.old + 20 ≤ WAITING }
        ensures text { self.new ≡ self.old ++ signed_decimal corner }
        ensures len { length self.new ≤ length self.old + 20 }
    {
        let mut digits = Buffer::new();
        self.put_bytes(digits.format(corner).as_bytes());
    }

    fn put_bytes(&mut self, bytes: &[u8])
        requires { length self.old + length bytes.now ≤ WAITING }
        ensures text { self.new ≡ self.old ++ bytes.now }
        ensures len { length self.new ≡ length self.old + length bytes.now }
    {
        let _ = self.bytes.try_extend_from_slice(bytes);
    }
}

/// Writes all of the bytes, in as many writes as it takes. One that was interrupted is made again.
///
/// `Write` if the writer's last call failed or took nothing, or 2^32 calls of it were made; a beginning of the bytes is
/// written then.
pub fn write_whole<W: Write>(writer: &mut Noted<W>, bytes: &[u8]) -> Result<(), ScriptFault>
    ensures ok { OnOk result (Appends (W.contents writer.old.inner) (W.contents writer.new.inner) bytes.now) }
    ensures cut { IfErr result (λ e. (e ≡ ScriptFault.Write) × IsCut
        (W.contents writer.old.inner) (W.contents writer.new.inner) bytes.now) }
    ensures stuck { OnErr result (TakesNoMore writer.new) }
{
    let mut rest = bytes;
    for _turn in 0..WRITES {
        if rest.is_empty() {
            return Ok(());
        }
        match writer.write(rest) {
            Transfer::Interrupted => {}
            Transfer::Moved(count) => rest = rest.split_at(count).1,
            Transfer::Nothing | Transfer::Failed => return Err(ScriptFault::Write),
        }
    }
    if rest.is_empty() {
        Ok(())
    } else {
        Err(ScriptFault::Write)
    }
}
