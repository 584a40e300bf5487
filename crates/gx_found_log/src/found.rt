//! The log of a device, read back from the bodies behind its leading open gates.
ghost use Rattle.std.specs.Prelude.{◌≡◌, ◌≢◌, ◌+◌, ◌*◌, ◌<◌, ◌≤◌, ◌⊎◌, true, false};
ghost use Rattle.std.specs.Prelude.{length, take, drop, IfOk, IfErr, Err};
ghost use Rattle.gx_record.specs.declared.sizes.TheConstants.{END_RECORD};
ghost use Rattle.gx_disk.specs.declared.layout.TheConstants.{PAGES_AT};
ghost use Rattle.gx_disk.specs.Looks.{Looks};
ghost use Rattle.gx_node.specs.declared.items.TheConstants.{MAX_ENTRIES};
ghost use Rattle.gx_recovery.specs.Known.{Limits};
ghost use Rattle.gx_found_log.specs.Found.{IsUnread, HasLimits, PlaceRead, ExtentRead, LogRead, ReadsAlone};
ghost use Rattle.gx_found_log.specs.Found as found;
ghost use Rattle.gx_found_log.specs.declared.given.TheConstants.{MOST_IN_BODY};
ghost use Rattle.gx_found_log.specs.Faults.{refusal_of, refusing};
ghost use Rattle.gx_found_log.specs.Shown.{PlaceShows, ExtentShows, LogShows};

use crate::{Gathered, Given, LogDamage, LogFault, LogRoom, Part, Readable, on_body};
use gx_disk::SectorDisk;
use gx_geom::Refusal;
use gx_glog::{BODY_ROOM, BODY_SIZE, Extent, PLACES, read_extent, selected};
use gx_recovery::{Analysis, LogRule};

/// An undamaged log that was found on a device.
#[derive(Drop)]
pub struct FoundLog<E> {
    /// The extent that is selected.
    pub extent: Extent,
    /// How many of its gates are open in a row from the first on, 1 to 128.
    pub bodies: u8,
    /// What the records of their bodies say.
    pub analysis: Analysis<E>,
    /// The pages that they give.
    pub given: Given,
}

/// The part that the body of a place starts at.
fn part_at(i: u8) -> Part
    ensures { result ≡ found.part_at i }
{
    match i {
        0 => Part::Start,
        _ => Part::Later,
    }
}

/// The bytes of a body's records, of so many bytes; what a device that isn't honest says beyond the body's end is cut
/// off.
fn records(body: &[u8], size: usize) -> &[u8]
    requires { length body.now ≡ BODY_SIZE }
    ensures few { length result.now ≤ BODY_ROOM }
    ensures bytes { size ≤ BODY_ROOM → result.now ≡ take size (drop 4 body.now) }
{
    let behind = body.split_at(4).1;
    behind.split_at(size.min(BODY_ROOM)).0
}

/// Why a body wasn't read: the device failed, or its size is out of range.
fn body_fault(refusal: Refusal, extent: Extent, i: u8) -> LogFault
    requires { (refusal ≡ Refusal.Device) ⊎ (refusal ≡ Refusal.Damaged) }
    ensures refusal { refusal_of result ≡ refusal }
    ensures damage { refusal ≡ Refusal.Damaged
        → result ≡ LogFault.Damaged (record { extent = extent; body = i; at = 0; rule = LogRule.BodySize }) }
    ensures device { refusal ≡ Refusal.Device → result ≡ LogFault.Device }
{
    match refusal {
        Refusal::Damaged => LogFault::Damaged(LogDamage {
            extent,
            body: i,
            at: 0,
            rule: LogRule::BodySize,
        }),
        _ => LogFault::Device,
    }
}

/// Reads the body of a place and gathers it. Returns whether its gate is open.
fn on_place<M: Readable, D: SectorDisk>(
    disk: &mut D,
    extent: Extent,
    i: u8,
    gathered: &mut Gathered<M::Entry>,
    body: &mut [u8],
) -> Result<bool, LogFault>
where
    M::Entry: Copy + Ord,
    requires place { i < PLACES }
    requires room { length body.old ≡ BODY_SIZE }
    requires device { PAGES_AT ≤ (D.state disk.old).sectors }
    requires closed { END_RECORD * length gathered.old.analysis.closed ≤ BODY_ROOM * i }
    requires given { length gathered.old.given ≤ MOST_IN_BODY * i }
    ensures room { length body.new ≡ length body.old }
    ensures reads { ReadsAlone (D.state disk.old) (D.state disk.new) (refusing result) }
    ensures looks { (D.state disk.old).honest ≡ true → Looks (D.state disk.old) (D.state disk.new) }
    ensures closed { IfOk result (λ is. END_RECORD * length gathered.new.analysis.closed ≤ BODY_ROOM * (i + 1)) }
    ensures given { IfOk result (λ is. length gathered.new.given ≤ MOST_IN_BODY * (i + 1)) }
    ensures place { (D.state disk.old).honest ≡ true → (d : Limits) → (M.known d).cmp ≡ M.Entry.Ord.cmp
        → PlaceRead (M.known d) M.reading (D.state disk.old).seen extent i gathered.old (refusing result) gathered.new }
    ensures shows { (D.state disk.old).honest ≡ true → (d : Limits) → (M.known d).cmp ≡ M.Entry.Ord.cmp
        → IfErr result (λ fault. PlaceShows (M.known d) M.reading (D.state disk.old).seen extent i gathered.old fault) }
    ensures memory { IfErr result (λ fault. fault ≢ LogFault.Memory) }
{
    match read_extent(disk, extent, i, body) {
        Ok(Some(size)) => match on_body::<M>(part_at(i), gathered, records(body, size)) {
            Ok(()) => Ok(true),
            Err(misfit) => Err(LogFault::Damaged(LogDamage {
                extent,
                body: i,
                at: misfit.at,
                rule: misfit.rule,
            })),
        },
        Ok(None) => Ok(false),
        Err(refusal) => Err(body_fault(refusal, extent, i)),
    }
}

/// How many bodies a log has. Refused if it has none.
fn some_bodies(extent: Extent, i: u8) -> Result<u8, LogFault>
    ensures ok { IfOk result (λ n. (1 ≤ n) × (n ≡ i)) }
    ensures err { IfErr result
        (λ fault. (fault ≡ LogFault.Damaged (record {
          extent = extent;
          body = 0;
          at = 0;
          rule = LogRule.FirstGate;
        })) × (i ≡ 0)) }
{
    if i == 0 {
        Err(LogFault::Damaged(LogDamage {
            extent,
            body: 0,
            at: 0,
            rule: LogRule::FirstGate,
        }))
    } else {
        Ok(i)
    }
}

/// Reads the bodies behind an extent's leading open gates and gathers them. Returns how many there are.
fn on_extent<M: Readable, D: SectorDisk>(
    disk: &mut D,
    extent: Extent,
    gathered: &mut Gathered<M::Entry>,
    body: &mut [u8],
) -> Result<u8, LogFault>
where
    M::Entry: Copy + Ord,
    requires room { length body.old ≡ BODY_SIZE }
    requires device { PAGES_AT ≤ (D.state disk.old).sectors }
    requires closed { length gathered.old.analysis.closed ≡ 0 }
    requires given { length gathered.old.given ≡ 0 }
    ensures reads { ReadsAlone (D.state disk.old) (D.state disk.new) (refusing result) }
    ensures looks { (D.state disk.old).honest ≡ true → Looks (D.state disk.old) (D.state disk.new) }
    ensures extent { (D.state disk.old).honest ≡ true → (d : Limits) → (M.known d).cmp ≡ M.Entry.Ord.cmp
        → ExtentRead (M.known d) M.reading (D.state disk.old).seen extent gathered.old (refusing result) gathered.new }
    ensures shows { (D.state disk.old).honest ≡ true → (d : Limits) → (M.known d).cmp ≡ M.Entry.Ord.cmp
        → found.ReadSoFar (M.known d) M.reading (D.state disk.old).seen extent 0 gathered.old
        → IfErr result (λ fault. ExtentShows (M.known d) M.reading (D.state disk.old).seen extent fault) }
    ensures memory { IfErr result (λ fault. fault ≢ LogFault.Memory) }
{
    let mut i: u8 = 0;
    while i < PLACES {
        match on_place::<M, D>(disk, extent, i, gathered, body) {
            Ok(true) => i += 1,
            Ok(false) => return some_bodies(extent, i),
            Err(fault) => return Err(fault),
        }
    }
    Ok(i)
}

/// Reads the log of a device, with nothing gathered as yet.
fn read_selected<M: Readable, D: SectorDisk>(
    disk: &mut D,
    mut gathered: Gathered<M::Entry>,
    body: &mut [u8],
) -> Result<FoundLog<M::Entry>, LogFault>
where
    M::Entry: Copy + Ord,
    requires room { length body.old ≡ BODY_SIZE }
    requires device { PAGES_AT ≤ (D.state disk.old).sectors }
    requires unread { IsUnread gathered }
    ensures reads { ReadsAlone (D.state disk.old) (D.state disk.new) (refusing result) }
    ensures looks { (D.state disk.old).honest ≡ true → Looks (D.state disk.old) (D.state disk.new) }
    ensures log { (D.state disk.old).honest ≡ true → (d : Limits) → (M.known d).cmp ≡ M.Entry.Ord.cmp
        → HasLimits (M.known d) gathered
        → LogRead (M.known d) M.reading (D.state disk.old).seen (refusing result) }
    ensures shows { (D.state disk.old).honest ≡ true → (d : Limits) → (M.known d).cmp ≡ M.Entry.Ord.cmp
        → HasLimits (M.known d) gathered
        → IfErr result (λ fault. LogShows (M.known d) M.reading (D.state disk.old).seen fault) }
    ensures memory { IfErr result (λ fault. fault ≢ LogFault.Memory) }
{
    match selected(disk) {
        Ok(extent) => match on_extent::<M, D>(disk, extent, &mut gathered, body) {
            Ok(bodies) => Ok(FoundLog {
                extent,
                bodies,
                analysis: gathered.analysis,
                given: gathered.given,
            }),
            Err(fault) => Err(fault),
        },
        Err(_) => Err(LogFault::Device),
    }
}

/// Reads the log of a device of so many pages, and entries in a node, as [`read_log`] does. Of a log that is damaged it
/// returns where, and which rule is broken there; both are true of the device's bytes. It takes no memory.
pub fn examine_log<M: Readable, D: SectorDisk>(
    room: LogRoom<M::Entry>,
    disk: &mut D,
    pages: u32,
    most: u16,
) -> Result<FoundLog<M::Entry>, LogFault>
where
    M::Entry: Copy + Ord,
    requires device { PAGES_AT ≤ (D.state disk.old).sectors }
    requires most { most ≤ MAX_ENTRIES }
    ensures reads { ReadsAlone (D.state disk.old) (D.state disk.new) (refusing result) }
    ensures looks { (D.state disk.old).honest ≡ true → Looks (D.state disk.old) (D.state disk.new) }
    ensures log { (D.state disk.old).honest ≡ true → (d : Limits) → (M.known d).cmp ≡ M.Entry.Ord.cmp
        → (M.known d).pages ≡ pages → (M.known d).most ≡ most
        → LogRead (M.known d) M.reading (D.state disk.old).seen (refusing result) }
    ensures shows { (D.state disk.old).honest ≡ true → (d : Limits) → (M.known d).cmp ≡ M.Entry.Ord.cmp
        → (M.known d).pages ≡ pages → (M.known d).most ≡ most
        → IfErr result (λ fault. LogShows (M.known d) M.reading (D.state disk.old).seen fault) }
    ensures memory { IfErr result (λ fault. fault ≢ LogFault.Memory) }
{
    let (mut gathered, mut body) = room.parts();
    gathered.set_limits(pages, usize::from(most));
    read_selected::<M, D>(disk, gathered, &mut body)
}

/// Reads the log of a device of so many pages, and entries in a node: the bodies behind the leading open gates of the
/// selected extent; no gate behind the first closed one is read. `Damaged` exactly if these bodies aren't whole ones
/// whose records are an undamaged log, of entries of the class. Refused too by the device's fault (`Device`), and for
/// nothing else: all memory is in the room that it is given. It makes no write. Each body is read once, for what it
/// says and for the pages that it gives. [`examine_log`] says what is wrong with a damaged log.
pub fn read_log<M: Readable, D: SectorDisk>(
    room: LogRoom<M::Entry>,
    disk: &mut D,
    pages: u32,
    most: u16,
) -> Result<FoundLog<M::Entry>, Refusal>
where
    M::Entry: Copy + Ord,
    requires device { PAGES_AT ≤ (D.state disk.old).sectors }
    requires most { most ≤ MAX_ENTRIES }
    ensures reads { ReadsAlone (D.state disk.old) (D.state disk.new) result }
    ensures looks { (D.state disk.old).honest ≡ true → Looks (D.state disk.old) (D.state disk.new) }
    ensures log { (D.state disk.old).honest ≡ true → (d : Limits) → (M.known d).cmp ≡ M.Entry.Ord.cmp
        → (M.known d).pages ≡ pages → (M.known d).most ≡ most
        → LogRead (M.known d) M.reading (D.state disk.old).seen result }
    ensures memory { IfErr result (λ why. why ≢ Refusal.Memory) }
{
    match examine_log::<M, D>(room, disk, pages, most) {
        Ok(found) => Ok(found),
        Err(fault) => Err(fault.refusal()),
    }
}
