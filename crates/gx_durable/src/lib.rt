//! From bytes to the committed set: what a crash leaves on a device that has a log and a pool of pages, said of its
//! bytes and of the calls that write them.
//!
//! `gx_recovery` says of lists of records and of pages what a log stands for and why a crash leaves a kept set;
//! `gx_glog` and `gx_pool` speak of buffers and of sectors. Here they are tied.
//!
//! And here a class of keys is tied to them: how a key's bytes are read as an entry, and a page's as a node, and what
//! is known of the tree of such pages. So each law holds of boxes and of intervals.
#![tactic(auto)]

ghost use Rattle.gx_durable.specs.Spelled.{Reading};

use gx_recovery::Meaning;

pub mod calls;
pub mod class_laws;
mod class_pages;
pub mod laws;

pub use class_pages::{NodePage, OfClass};

/// Entries and pages that are spelled in bytes: how a key is read as an entry, and an image as a page's content.
pub trait Spelled: Meaning {
    ghost reading: { Reading Self.Entry Self.Page };
}
