//! Why bytes are no page.

use std::error::Error;
use std::fmt;

/// What is wrong with given bytes, the first that holds in this order; `Memory` is of the call and not of the bytes.
#[derive(Clone, Copy, Debug, PartialEq, Eq)]
pub enum PageFault {
    /// They are not 4,096.
    Size,
    /// A reserved byte of the header isn't zero.
    Reserved,
    /// The directory is none: it ends past the block, or a slot's length or place or the heap's start is wrong.
    Directory,
    /// A byte between the directory and the heap isn't zero.
    Free,
    /// There was no memory for the page.
    Memory,
}

impl fmt::Display for PageFault {
    ghost use Rattle.std.specs.Prelude.{Some};
    ghost use Rattle.gx_page.specs.Texts.{text_of};

    ghost output = { λ fault. Some (text_of fault) };

    fn fmt<W: fmt::Write>(&self, f: &mut fmt::Formatter<W>) -> fmt::Result {
        match self {
            PageFault::Size => f.write_str("not 4096 bytes"),
            PageFault::Reserved => f.write_str("a reserved byte is not zero"),
            PageFault::Directory => f.write_str("the directory is none"),
            PageFault::Free => f.write_str("a free byte is not zero"),
            PageFault::Memory => f.write_str("no memory for a page"),
        }
    }
}

impl Error for PageFault {}
