//! Reading an extent of the log.
ghost use Rattle.std.specs.Prelude.{◌≡◌, ◌==◌, ◌+◌, ◌≤◌, ◌<◌, ℕ, true, false, length};
ghost use Rattle.std.specs.Prelude.{OnOk, IfOk, IfErr, slice_index, if◌then◌else◌};
ghost use Rattle.gx_disk.specs.Device.{Counts};
ghost use Rattle.gx_disk.specs.Looks.{Looks};
ghost use Rattle.gx_disk.specs.Sectors.{span_of};
ghost use Rattle.gx_glog.specs.Layout.{gates_of, bodies_of, other_of, selected_of, is_open, body_of, size_in};
ghost use Rattle.gx_glog.specs.Reading.{ReadsBody, CountsReads};
ghost use Rattle.gx_glog.specs.Turning.{selector_of};

use gx_disk::{LOG_AT, PAGES_AT, SECTOR_SIZE, SectorDisk};
use gx_geom::Refusal;

/// How many batches an extent has places for: each has a gate, of one sector, and a body.
pub const PLACES: u8 = 128;

/// How many sectors a body has.
pub const BODY_SECTORS: u64 = 64;

/// How many bytes a body has.
pub const BODY_SIZE: usize = 32768;

/// How many bytes of a body's records there are at most. The body's first four bytes say how many there are.
pub const BODY_ROOM: usize = BODY_SIZE - 4;

/// How many sectors an extent has: the gates, and after them the bodies.
pub const EXTENT_SECTORS: u64 = PLACES as u64 * (1 + BODY_SECTORS);

/// The sector at which the gates of extent A begin.
pub const GATES_A: u64 = LOG_AT;

/// The sector at which the bodies of extent A begin.
pub const BODIES_A: u64 = GATES_A + PLACES as u64;

/// The sector at which the gates of extent B begin.
pub const GATES_B: u64 = GATES_A + EXTENT_SECTORS;

/// The sector at which the bodies of extent B begin.
pub const BODIES_B: u64 = GATES_B + PLACES as u64;

// The log ends where pages begin.
const _: () = prove!(BODIES_B + PLACES as u64 * BODY_SECTORS == PAGES_AT);

/// The sector of the selector.
pub const SELECTOR: u64 = 2;

const SELECTS_B: u8 = 0x5A;

pub(crate) const OPEN: u8 = 0xA7;

/// One of the log's two halves: 128 gates and 128 bodies.
#[derive(Clone, Copy, Debug, PartialEq, Eq)]
pub enum Extent {
    A,
    B,
}

// The first byte of a sector.
fn first_byte<D: SectorDisk>(disk: &mut D, sector: u64) -> Result<u8, Refusal>
    requires { sector < (D.state disk.old).sectors }
    ensures counts { Counts 0 (D.state disk.old) (D.state disk.new) result }
    ensures byte { (D.state disk.old).honest ≡ true
        → IfOk result (λ byte. byte ≡ slice_index (span_of (D.state disk.old).seen sector 512) 0) }
    ensures looks { (D.state disk.old).honest ≡ true → Looks (D.state disk.old) (D.state disk.new) }
    ensures refusal { IfErr result (λ refusal. refusal ≡ Refusal.Device) }
{
    let mut bytes = [0; SECTOR_SIZE];
    disk.read(sector, &mut bytes)?;
    Ok(bytes[0])
}

#[tactic(auto, unfolding(crate::specs::Layout::selected_of))]
/// The extent that the device selects. Refused if the read fails.
pub fn selected<D: SectorDisk>(disk: &mut D) -> Result<Extent, Refusal>
    requires { PAGES_AT ≤ (D.state disk.old).sectors }
    ensures counts { Counts 0 (D.state disk.old) (D.state disk.new) result }
    ensures extent { (D.state disk.old).honest ≡ true
        → IfOk result (λ extent. extent ≡ selected_of (D.state disk.old).seen) }
    ensures looks { (D.state disk.old).honest ≡ true → Looks (D.state disk.old) (D.state disk.new) }
    ensures refusal { IfErr result (λ refusal. refusal ≡ Refusal.Device) }
{
    let byte = first_byte(disk, SELECTOR)?;
    Ok(Extent::selected_by(byte))
}

impl Extent {
    /// The sector of its first gate; the others follow.
    pub fn gates(self) -> u64
        ensures { result ≡ gates_of self }
    {
        match self {
            Extent::A => GATES_A,
            Extent::B => GATES_B,
        }
    }

    /// The extent that a turn leads to.
    pub(crate) fn other(self) -> Extent
        ensures { result ≡ other_of self }
    {
        match self {
            Extent::A => Extent::B,
            Extent::B => Extent::A,
        }
    }

    /// The extent that a selector's first byte selects.
    fn selected_by(byte: u8) -> Extent
        ensures { result ≡ (if byte == 0x5A then Extent.B else Extent.A) }
    {
        if byte == SELECTS_B {
            Extent::B
        } else {
            Extent::A
        }
    }

    /// The first byte of the selector that selects it.
    pub(crate) fn selector(self) -> u8
        ensures { result ≡ selector_of self }
    {
        match self {
            Extent::A => 0,
            Extent::B => SELECTS_B,
        }
    }

    /// The first sector of its first body, which has 64; the others follow.
    pub fn bodies(self) -> u64
        ensures { result ≡ bodies_of self }
    {
        match self {
            Extent::A => BODIES_A,
            Extent::B => BODIES_B,
        }
    }
}

// How many bytes of records a body says it has.
#[tactic(auto, unfolding(crate::specs::Layout::size_in))]
fn size_of_records(body: &[u8]) -> u32
    requires { 4 ≤ length body.now }
    ensures { result ≡ size_in body.now }
{
    u32::from_be_bytes([body[0], body[1], body[2], body[3]])
}

// Whether a gate is open.
#[tactic(auto, unfolding(crate::specs::Layout::is_open))]
pub(crate) fn is_open_gate<D: SectorDisk>(
    disk: &mut D,
    extent: Extent,
    i: u8,
) -> Result<bool, Refusal>
    requires place { i < PLACES }
    requires device { PAGES_AT ≤ (D.state disk.old).sectors }
    ensures counts { Counts 0 (D.state disk.old) (D.state disk.new) result }
    ensures state { (D.state disk.old).honest ≡ true
        → IfOk result (λ is. is ≡ is_open (D.state disk.old).seen extent i) }
    ensures looks { (D.state disk.old).honest ≡ true → Looks (D.state disk.old) (D.state disk.new) }
    ensures refusal { IfErr result (λ refusal. refusal ≡ Refusal.Device) }
{
    let byte = first_byte(disk, extent.gates() + u64::from(i))?;
    Ok(byte == OPEN)
}

// Reads a body.
#[tactic(auto, unfolding(crate::specs::Layout::body_of))]
fn read_body<D: SectorDisk>(
    disk: &mut D,
    extent: Extent,
    i: u8,
    body: &mut [u8],
) -> Result<(), Refusal>
    requires place { i < PLACES }
    requires room { length body.old ≡ BODY_SIZE }
    requires device { PAGES_AT ≤ (D.state disk.old).sectors }
    ensures counts { Counts 0 (D.state disk.old) (D.state disk.new) result }
    ensures body { (D.state disk.old).honest ≡ true
        → OnOk result (body.new ≡ body_of (D.state disk.old).seen extent i) }
    ensures looks { (D.state disk.old).honest ≡ true → Looks (D.state disk.old) (D.state disk.new) }
    ensures refusal { IfErr result (λ refusal. refusal ≡ Refusal.Device) }
{
    disk.read(extent.bodies() + BODY_SECTORS * u64::from(i), body)?;
    Ok(())
}

/// Reads the body of place i of an extent, and returns how many bytes of records it has, from 1 to 32,764. None if the
/// gate is closed. Refused if a read fails (`Device`), and if the number is out of range (`Damaged`).
#[tactic(auto, using(gx_disk::proofs::Looking::looks_joined))]
pub fn read_extent<D: SectorDisk>(
    disk: &mut D,
    extent: Extent,
    i: u8,
    body: &mut [u8],
) -> Result<Option<usize>, Refusal>
    requires place { i < PLACES }
    requires room { length body.old ≡ BODY_SIZE }
    requires device { PAGES_AT ≤ (D.state disk.old).sectors }
    ensures counts { CountsReads (D.state disk.old) (D.state disk.new) result }
    ensures body { (D.state disk.old).honest ≡ true → ReadsBody (D.state disk.old).seen extent i body.new result }
    ensures looks { (D.state disk.old).honest ≡ true → Looks (D.state disk.old) (D.state disk.new) }
{
    if !is_open_gate(disk, extent, i)? {
        return Ok(None);
    }
    read_body(disk, extent, i, body)?;
    let size = size_of_records(body) as usize;
    if size == 0 || size > BODY_ROOM {
        return Err(Refusal::Damaged);
    }
    Ok(Some(size))
}
