//! A record of the log, and its spelling.
ghost use Rattle.std.specs.Prelude.{◌≡◌, ◌↔◌, ℕ, ◌≤◌, ◌++◌, length, drop, IfSome, IfNone, IsSome, Some};
ghost use Rattle.gx_record.specs.Format.{BeginsWith, IsInRange, spelling};
ghost use Rattle.gx_record.specs.Rec.{Rec};
ghost use Rattle.gx_record.specs.Seen.{rec_of, seen};

use crate::mark::Mark;
use crate::pages::PageImages;
use crate::slots::Slots;
use crate::{decode, encode};

/// A record of the log. It borrows the bytes of its key and the images of its pages.
///
/// In range are images that a page has, each with its page's own number, and pages by rising number. Any number of a
/// field's width is in range, also a page's number 0; but not the page 0 of a small record, one that says what changes
/// on a page and not how it then is: `Bit`, `Add`, `Widen` and `Sweep`. A sweep has 1 to 100 slots, which rise.
#[derive(Clone, Copy, PartialEq, Eq)]
pub enum Record<'a> {
    /// Pages as a change leaves them, and the change counter and the number of pages in use after it.
    Pages {
        counter: u64,
        used: u32,
        pages: PageImages<'a>,
    },
    /// A transaction changes an entry's mark, or adds the entry (then `before` is `Marked`),
    /// in a leaf with this image after it.
    Write {
        tx: u64,
        row: u64,
        key: &'a [u8],
        before: Mark,
        after: Mark,
        leaf: u32,
        image: &'a [u8],
    },
    /// A transaction commits, as the commit of that number.
    Commit {
        tx: u64,
        n: u64,
    },
    /// A transaction's undo is done.
    End {
        tx: u64,
    },
    /// The last commit's number, the change counter, the number of pages in use, and the next transaction's number.
    Counters {
        n: u64,
        counter: u64,
        used: u32,
        next: u64,
    },
    /// An open transaction wrote an entry of a leaf, which had this mark before it.
    Note {
        tx: u64,
        row: u64,
        key: &'a [u8],
        before: Mark,
        leaf: u32,
    },
    /// A transaction changes the mark of an entry that a leaf has.
    Bit {
        tx: u64,
        row: u64,
        key: &'a [u8],
        before: Mark,
        after: Mark,
        leaf: u32,
    },
    /// A transaction adds an entry to a leaf, live.
    Add {
        tx: u64,
        row: u64,
        key: &'a [u8],
        leaf: u32,
    },
    /// The entry in a slot of an inner page gets this key.
    Widen {
        page: u32,
        slot: u16,
        key: &'a [u8],
    },
    /// The pairs in these slots leave a leaf.
    Sweep {
        page: u32,
        slots: Slots<'a>,
    },
}

impl<'a> Record<'a> {
    /// How many bytes the record's spelling has.
    #[tactic(auto, using(crate::proofs::Writes::in_range_sized, crate::proofs::Writes::spelling_size))]
    pub fn length(&self) -> usize
        requires { IsInRange (rec_of self.now) }
        ensures { result ≡ length (spelling (rec_of self.now)) }
    {
        encode::length_of(self)
    }

    /// Writes the record's spelling at the front, and returns how many bytes it has. None if there is no room for it,
    /// and nothing is then written.
    #[tactic(auto, using(crate::proofs::Writes::in_range_sized, crate::proofs::Writes::front_wrote))]
    pub fn encode_into(&self, out: &mut [u8]) -> Option<usize>
        requires { IsInRange (rec_of self.now) }
        ensures fits { IsSome result ↔ (length (spelling (rec_of self.now)) ≤ length out.old) }
        ensures size { IfSome result (λ n. n ≡ length (spelling (rec_of self.now))) }
        ensures written { IfSome result (λ n. out.new ≡ spelling (rec_of self.now) ++ drop n out.old) }
        ensures unchanged { IfNone result (out.new ≡ out.old) }
    {
        let size = self.length();
        if out.len() < size {
            return None;
        }
        Some(encode::write(self, out))
    }

    /// The record at the front of the bytes, and how many bytes its spelling has. A key has `key` bytes. None if no
    /// front is the spelling of a record in range.
    pub fn decode(bytes: &'a [u8], key: usize) -> Option<(Record<'a>, usize)>
        // What is returned is at the front.
        ensures found { IfSome result (λ answer. BeginsWith key bytes.now (rec_of answer.0) answer.1) }
        // What is at the front is returned.
        ensures only { (r : Rec) (n : ℕ) → BeginsWith key bytes.now r n → seen result ≡ Some (r, n) }
    {
        let (record, rest) = decode::record_at(bytes, key)?;
        Some((record, bytes.len() - rest.len()))
    }
}
