//! What reading a log asks of a class of keys.
ghost use Rattle.std.specs.Prelude.{◌≡◌, ◌≤◌, ℕ, List, length, is_some, IfSome};
ghost use Rattle.std.specs.Bool.{OnTrue};
ghost use Rattle.gx_node.specs.declared.items.TheConstants.{MAX_ENTRIES};
ghost use Rattle.gx_page.specs.Format.{image_of, IsWellFormed};
ghost use Rattle.gx_record.specs.Format.{IsImageOf};
ghost use Rattle.gx_recovery.specs.Known.{Limits, IsLawful};
ghost use Rattle.gx_found_log.specs.Small.{said};

use crate::Small;
use gx_durable::Spelled;
use gx_page::Page;

/// Entries and pages that can be read of bytes.
pub trait Readable: Spelled {
    /// How many bytes a key has.
    fn key_size() -> usize
        ensures { result ≡ Self.reading.key };

    /// The entry of a row and of a key's bytes. None if these are no key's of the class.
    fn entry(row: u64, key: &[u8]) -> Option<Self::Entry>
        requires { length key.now ≡ Self.reading.key }
        ensures entry { IfSome result (λ e. e ≡ Self.reading.entry row key.now) }
        ensures of_class { (d : Limits) → (Self.known d).is_entry (Self.reading.entry row key.now) ≡ is_some result };

    /// Makes a small change of a page, which may have so many entries, where it fits. False if it doesn't.
    fn change(page: &mut Page, most: usize, small: &Small<'_>) -> bool
        requires most { most ≤ MAX_ENTRIES }
        requires page { IsWellFormed page.old }
        ensures fits { result
            ≡ (Self.reading.change (said small.now)).fits most (Self.reading.content (image_of page.old)) }
        ensures made { OnTrue result (Self.reading.content (image_of page.new)
            ≡ (Self.reading.change (said small.now)).made (Self.reading.content (image_of page.old))) };

    /// What is known of entries is lawful.
    ghost lawful: { (d : Limits) → IsLawful (Self.known d) };

    /// An image has as its own number the one that its bytes have.
    ghost own: { (d : Limits) (page : ℕ) (image : List ℕ) → IsImageOf page image
        → (Self.known d).own (Self.reading.content image) ≡ page };
}
