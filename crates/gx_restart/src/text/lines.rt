//! Lines that wait to be written.
ghost use Rattle.std.specs.Prelude.{◌≡◌, ◌+◌, ◌≤◌, [], ◌++◌, length, decimal, OnOk, IfErr, OnErr};
ghost use Rattle.std.specs.Fmt.{signed_decimal};
ghost use Rattle.std.specs.Io.KnownBytes.{Appends};
ghost use Rattle.gx_node.specs.Seen.{child_seen, pair_seen};
ghost use Rattle.gx_script.specs.Corners.{grammar_of, spaced};
ghost use Rattle.gx_script.specs.Noting.{TakesNoMore};
ghost use Rattle.gx_script.specs.Writes.{IsPut, IsCut};
ghost use Rattle.gx_restart.specs.Text.{head_line, page_line, child_line, entry_line, mark_text};

use super::stop::Stop;
use arrayvec::ArrayVec;
use gx_machine::Entry;
use gx_script::{Corners, Noted, write_whole};
use itoa::Buffer;
use std::io::Write;
use std::marker::Model;

/// How many bytes may wait.
pub(crate) const WAITING: usize = 8192;

/// More bytes than any line has.
pub(crate) const LONGEST: usize = 160;

/// Lines that wait to be written. Contracts see their bytes.
#[derive(Drop)]
pub(crate) struct Lines {
    bytes: ArrayVec<u8, WAITING>,
}

impl Model for Lines {
    ghost use Rattle.std.specs.Prelude.{ℕ, List};

    ghost Value = { List ℕ };

    ghost view = { λ l. l.bytes.items };
}

impl Lines {
    /// Nothing waits.
    pub(crate) fn new() -> Self
        ensures { result ≡ [] }
    {
        Lines {
            bytes: ArrayVec::new(),
        }
    }

    /// Writes all that waits. `Write` as `write_whole` says; a beginning was written then.
    pub(crate) fn flush<W: Write>(&mut self, writer: &mut Noted<W>) -> Result<(), Stop>
        ensures ok { OnOk result ((self.new ≡ []) × Appends
            (W.contents writer.old.inner) (W.contents writer.new.inner) self.old) }
        ensures cut { IfErr result (λ e. (e ≡ Stop.Write) × IsCut
            (W.contents writer.old.inner) (W.contents writer.new.inner) self.old) }
        ensures stuck { OnErr result (TakesNoMore writer.new) }
    {
        match write_whole(writer, self.bytes.as_slice()) {
            Ok(()) => {
                self.bytes.clear();
                Ok(())
            }
            Err(_) => Err(Stop::Write),
        }
    }

    /// Makes room for a line: writes what waits if there is none.
    pub(crate) fn make_room<W: Write>(&mut self, writer: &mut Noted<W>) -> Result<(), Stop>
        ensures ok { OnOk result ((length self.new + LONGEST ≤ WAITING)
            × IsPut (W.contents writer.old.inner) (W.contents writer.new.inner) self.old [] self.new) }
        ensures cut { IfErr result (λ e. (e ≡ Stop.Write) × IsCut
            (W.contents writer.old.inner) (W.contents writer.new.inner) self.old) }
        ensures stuck { OnErr result (TakesNoMore writer.new) }
    {
        if self.bytes.len() + LONGEST > WAITING {
            self.flush(writer)?;
        }
        Ok(())
    }

    /// Adds the first line of a tree.
    pub(crate) fn add_head(&mut self, number: u64, used: u32, counter: u64)
        requires { length self.old + LONGEST ≤ WAITING }
        ensures { self.new ≡ self.old ++ head_line number used counter }
    {
        self.add(b"commits ");
        self.add_number(number);
        self.add(b" used ");
        self.add_number(u64::from(used));
        self.add(b" counter ");
        self.add_number(counter);
        self.add(b"\n");
    }

    /// Adds a page's line.
    pub(crate) fn add_page(&mut self, page: u32, level: u16, nsn: u64, right: u32, count: usize)
        requires { length self.old + LONGEST ≤ WAITING }
        ensures { self.new ≡ self.old ++ page_line page level nsn right count }
    {
        self.add(b"page ");
        self.add_number(u64::from(page));
        self.add(b" level ");
        self.add_number(u64::from(level));
        self.add(b" nsn ");
        self.add_number(nsn);
        self.add(b" right ");
        self.add_number(u64::from(right));
        self.add(b" count ");
        self.add_number(count as u64);
        self.add(b"\n");
    }

    /// Adds the line of an inner node's entry: a bound, and the child's page.
    pub(crate) fn add_child<B: Corners>(&mut self, key: &B, page: u32)
        requires { length self.old + LONGEST ≤ WAITING }
        ensures { self.new ≡ self.old ++ child_line (grammar_of B.Corners) (child_seen (key.now, page)) }
    {
        self.add(b"child ");
        self.add_number(u64::from(page));
        self.add_corners(key);
        self.add(b"\n");
    }

    /// Adds the line of a leaf's entry.
    pub(crate) fn add_entry<B: Corners>(&mut self, entry: &Entry<B>, marked: bool)
        requires { length self.old + LONGEST ≤ WAITING }
        ensures { self.new ≡ self.old ++ entry_line (grammar_of B.Corners) (pair_seen (entry.now, marked)) }
    {
        self.add(b"entry ");
        self.add_number(entry.row);
        self.add_corners(&entry.key);
        self.add_mark(marked);
        self.add(b"\n");
    }

    fn add_mark(&mut self, marked: bool)
        requires { length self.old + 7 ≤ WAITING }
        ensures text { self.new ≡ self.old ++ mark_text marked }
        ensures len { length self.new ≤ length self.old + 7 }
    {
        self.add(if marked { b" marked" } else { b" live" });
    }

    // the corners of a key, each after a space
    fn add_corners<B: Corners>(&mut self, key: &B)
        requires { length self.old + 126 ≤ WAITING }
        ensures text { self.new ≡ self.old ++ spaced (B.corners key.now) }
        ensures len { length self.new ≤ length self.old + 126 }
    {
        for i in 0..B::COUNT {
            self.add(b" ");
            self.add_corner(key.corner(i));
        }
    }

    fn add_number(&mut self, number: u64)
        requires { length self.old + 20 ≤ WAITING }
        ensures text { self.new ≡ self.old ++ decimal number }
        ensures len { length self.new ≤ length self.old + 20 }
    {
        let mut digits = Buffer::new();
        self.add(digits.format(number).as_bytes());
    }

    fn add_corner(&mut self, corner: i64)
        requires { length self.old + 20 ≤ WAITING }
        ensures text { self.new ≡ self.old ++ signed_decimal corner }
        ensures len { length self.new ≤ length self.old + 20 }
    {
        let mut digits = Buffer::new();
        self.add(digits.format(corner).as_bytes());
    }

    fn add(&mut self, bytes: &[u8])
        requires { length self.old + length bytes.now ≤ WAITING }
        ensures text { self.new ≡ self.old ++ bytes.now }
        ensures len { length self.new ≡ length self.old + length bytes.now }
    {
        let _ = self.bytes.try_extend_from_slice(bytes);
    }
}
