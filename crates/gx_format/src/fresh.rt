//! Formats a device in three phases: clears the magic, writes everything else, and writes the magic last.
ghost use Rattle.std.specs.Prelude.{◌≡◌, ◌≤◌, ◌∷◌, ◌++◌, ◌↔◌, IsTrue, replicate, true, OnOk, []};
ghost use Rattle.gx_disk.specs.declared.layout.TheConstants.{MIN_SECTORS};
ghost use Rattle.gx_disk.specs.Device.{IsSettled};
ghost use Rattle.gx_disk.specs.Moments.{Leaves};
ghost use Rattle.gx_page.specs.Edits.{blank};
ghost use Rattle.gx_page.specs.Format.{image_of, IsWellFormed};
ghost use Rattle.gx_glog.specs.declared.extent.TheConstants.{BODY_SECTORS, PLACES};
ghost use Rattle.gx_glog.specs.First.{closed_gates_bytes, first_body_bytes, open_gate_bytes, selector_bytes};
ghost use Rattle.gx_glog.specs.Parameters.{parameters_bytes};
ghost use Rattle.gx_format.specs.Calls.{Runs, Write, Sync};
ghost use Rattle.gx_format.specs.Fresh.{fresh_root, IsFresh};
ghost use Rattle.gx_format.specs.Formatting.{AreInRange, Formats, IsOldOrFresh, clearing};
ghost use Rattle.gx_format.specs.Formatting.{formatting, laying, naming, sectors_of};

use crate::calls::{settle, write};
use crate::laws;
use crate::root::fresh_root;
use gx_class::KeyClass;
use gx_disk::{MAX_PAGES, MIN_PAGES, PAGE_SECTORS, PAGES_AT, SECTOR_SIZE, SectorDisk};
use gx_geom::Refusal;
use gx_glog::{
    BODIES_A, Extent, GATES_A, GATES_B, PARAMETERS, Parameters, SELECTOR, closed_gates, first_body,
    open_gate, selecting,
};
use gx_node::MAX_ENTRIES;
use gx_page::Page;
use std::alloc::Global;

/// The first eight bytes of a device that has an index.
pub const MAGIC: [u8; 8] = *b"GISTRT02";

/// The first eight bytes of a device that has an index of version 1 of the format.
pub const OLD_MAGIC: [u8; 8] = *b"GISTRT01";

/// The sector at which page 2 begins.
pub const PAGE_2: u64 = PAGES_AT + PAGE_SECTORS;

/// The least limit of entries in a node.
pub const MIN_FANOUT: u16 = 4;

/// How many sectors an index of so many pages takes: 16,648 for parameters and log, and eight for each page.
pub fn sectors_for(pages: u32) -> u64
    ensures { result ≡ sectors_of pages }
{
    PAGES_AT + PAGE_SECTORS * u64::from(pages)
}

/// Whether an index may have so many pages, 8 to 65,536, and so many entries in a node at most, 4 to 100.
pub fn is_in_range(pages: u32, most: u16) -> bool
    ensures { IsTrue result ↔ AreInRange pages most }
{
    (MIN_PAGES..=MAX_PAGES).contains(&(pages as usize))
        && (MIN_FANOUT..=MAX_ENTRIES as u16).contains(&most)
}

// The sector of the magic.
fn named() -> [u8; SECTOR_SIZE]
    ensures { result ≡ 0x47 ∷ 0x49 ∷ 0x53 ∷ 0x54 ∷ 0x52 ∷ 0x54 ∷ 0x30 ∷ 0x32 ∷ replicate 504 0 }
{
    let mut sector = [0; SECTOR_SIZE];
    sector[..8].copy_from_slice(&MAGIC);
    sector
}

/// Clears the magic: the first of the three phases.
pub fn clear<D: SectorDisk>(disk: &mut D) -> Result<(), Refusal>
    requires { MIN_SECTORS ≤ (D.state disk.old).sectors }
    ensures sectors { (D.state disk.new).sectors ≡ (D.state disk.old).sectors }
    ensures runs { Runs D.state clearing disk.old disk.new result }
{
    write(disk, 0, &[0; SECTOR_SIZE])?;
    settle(disk)
}

/// Writes the parameters, and the selector of extent A.
pub fn lay_parameters<D: SectorDisk>(disk: &mut D, parameters: &Parameters) -> Result<(), Refusal>
    requires { MIN_SECTORS ≤ (D.state disk.old).sectors }
    ensures sectors { (D.state disk.new).sectors ≡ (D.state disk.old).sectors }
    ensures runs { Runs D.state (Write PARAMETERS 1 (parameters_bytes parameters.now ++ replicate 504 0)
        ∷ Write SELECTOR 1 (selector_bytes Extent.A) ∷ []) disk.old disk.new result }
{
    write(disk, PARAMETERS, &parameters.encode())?;
    write(disk, SELECTOR, &selecting(Extent::A))
}

/// Closes all gates.
pub fn close_gates<D: SectorDisk>(disk: &mut D) -> Result<(), Refusal>
    requires { MIN_SECTORS ≤ (D.state disk.old).sectors }
    ensures sectors { (D.state disk.new).sectors ≡ (D.state disk.old).sectors }
    ensures runs { Runs D.state (Write GATES_A PLACES closed_gates_bytes
        ∷ Write GATES_B PLACES closed_gates_bytes ∷ []) disk.old disk.new result }
{
    let gates = closed_gates();
    write(disk, GATES_A, &gates)?;
    write(disk, GATES_B, &gates)
}

// Writes the two pages of a fresh tree, of which the first is given; the second is made in its place.
fn lay_pages<D: SectorDisk>(disk: &mut D, page: &mut Page) -> Result<(), Refusal>
    requires { MIN_SECTORS ≤ (D.state disk.old).sectors }
    ensures sectors { (D.state disk.new).sectors ≡ (D.state disk.old).sectors }
    ensures runs { Runs D.state (Write PAGES_AT PAGE_SECTORS (image_of page.old)
        ∷ Write PAGE_2 PAGE_SECTORS (image_of (blank 0 2)) ∷ []) disk.old disk.new result }
{
    write(disk, PAGES_AT, page.image())?;
    page.reset(0, 2);
    write(disk, PAGE_2, page.image())
}

// Writes the first body, and makes all writes so far durable.
fn lay_body<D: SectorDisk>(disk: &mut D) -> Result<(), Refusal>
    requires { MIN_SECTORS ≤ (D.state disk.old).sectors }
    ensures sectors { (D.state disk.new).sectors ≡ (D.state disk.old).sectors }
    ensures runs { Runs D.state (Write BODIES_A BODY_SECTORS first_body_bytes ∷ Sync ∷ []) disk.old disk.new result }
{
    write(disk, BODIES_A, &first_body())?;
    settle(disk)
}

/// Opens the first gate of extent A.
pub fn open_first_gate<D: SectorDisk>(disk: &mut D) -> Result<(), Refusal>
    requires { MIN_SECTORS ≤ (D.state disk.old).sectors }
    ensures sectors { (D.state disk.new).sectors ≡ (D.state disk.old).sectors }
    ensures runs { Runs D.state (Write GATES_A 1 open_gate_bytes ∷ Sync ∷ []) disk.old disk.new result }
{
    write(disk, GATES_A, &open_gate())?;
    settle(disk)
}

/// Writes the magic: the last of the three phases.
pub fn name<D: SectorDisk>(disk: &mut D) -> Result<(), Refusal>
    requires { MIN_SECTORS ≤ (D.state disk.old).sectors }
    ensures sectors { (D.state disk.new).sectors ≡ (D.state disk.old).sectors }
    ensures runs { Runs D.state naming disk.old disk.new result }
{
    write(disk, 0, &named())?;
    settle(disk)
}

// Writes everything but the magic.
fn lay<D: SectorDisk>(disk: &mut D, parameters: &Parameters, page: &mut Page) -> Result<(), Refusal>
    requires { MIN_SECTORS ≤ (D.state disk.old).sectors }
    ensures sectors { (D.state disk.new).sectors ≡ (D.state disk.old).sectors }
    ensures runs { Runs D.state (laying parameters.now page.old) disk.old disk.new result }
{
    lay_parameters(disk, parameters)?;
    close_gates(disk)?;
    lay_pages(disk, page)?;
    lay_body(disk)?;
    open_first_gate(disk)
}

// Makes all the calls of a format.
fn make<D: SectorDisk>(
    disk: &mut D,
    parameters: &Parameters,
    page: &mut Page,
) -> Result<(), Refusal>
    requires { MIN_SECTORS ≤ (D.state disk.old).sectors }
    ensures { Runs D.state (formatting parameters.now page.old) disk.old disk.new result }
{
    clear(disk)?;
    lay(disk, parameters, page)?;
    name(disk)
}

/// Writes a new, empty index of a class of keys to a device: for 8 to 65,536 pages, and at most 4 to 100 entries in a
/// node. What the device held before is lost.
///
/// It makes fourteen calls of the device, in the order of `formatting`. On an honest device, at each moment of them,
/// even if one fails, each image is one from before except for its first sector, or has no magic, or is the fresh one;
/// at `Ok` the device reads as the fresh one, and all of it is durable.
///
/// Refused, in this order: with `BadParameter` if a number is out of range; with `TooSmall` if the device has fewer
/// sectors than [`sectors_for`] says; with `Memory` if there is none for a page; until here no call was made. With
/// `Device` if a call fails.
pub fn format<D: SectorDisk, K: KeyClass>(
    alloc: Global,
    disk: &mut D,
    pages: u32,
    most: u16,
) -> Result<(), Refusal>
    ensures formats { Formats D.state (record { pages = pages; most = most; class = K.CLASS })
        (fresh_root K.spelling K.start_key) disk.old disk.new result }
    ensures moments { (D.state disk.old).honest ≡ true
        → Leaves (IsOldOrFresh (D.state disk.old) (record { pages = pages; most = most; class = K.CLASS })
        (fresh_root K.spelling K.start_key)) (D.state disk.old) (D.state disk.new) }
    ensures fresh { (D.state disk.old).honest ≡ true
        → OnOk result (IsFresh (record { pages = pages; most = most; class = K.CLASS })
        (fresh_root K.spelling K.start_key) (D.state disk.new).seen × IsSettled (D.state disk.new)) }
    ensures root { OnOk result (IsWellFormed (fresh_root K.spelling K.start_key)) }
{
    if !is_in_range(pages, most) {
        return Err(Refusal::BadParameter);
    }
    if disk.sectors() < sectors_for(pages) {
        return Err(Refusal::TooSmall);
    }
    let mut page = fresh_root::<K>(alloc)?;
    let parameters = Parameters {
        pages,
        most,
        class: K::CLASS,
    };
    laws::phases::<D>();
    make(disk, &parameters, &mut page)
}
