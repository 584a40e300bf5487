//! Lays a migrated index down, in the phases of a format: clears the magic, writes everything else, and writes the
//! magic last.
ghost use Rattle.std.specs.Prelude.{◌≡◌, ◌*◌, ◌≤◌, ◌∷◌, [], length, true, IfErr, OnOk};
ghost use Rattle.gx_disk.specs.declared.layout.TheConstants.{MAX_PAGES, MIN_PAGES, MIN_SECTORS};
ghost use Rattle.gx_disk.specs.Device.{IsSettled, SameDevice};
ghost use Rattle.gx_format.specs.Calls.{Runs, Sync, Write};
ghost use Rattle.gx_format.specs.Formatting.{sectors_of};
ghost use Rattle.gx_glog.specs.declared.extent.TheConstants.{BODIES_A, BODY_SECTORS, BODY_SIZE};
ghost use Rattle.gx_migrate.specs.Migrating.{IsNotLaid, log_writes, migrating};
ghost use Rattle.gx_migrate.specs.Setting.{HasMovedAs, MigratesAs, MovesInPhases};
ghost use Rattle.gx_older.specs.Reads.{FaultsAre};
ghost use Rattle.gx_opening.specs.Setting.{IndexStands};
ghost use Rattle.gx_opening.specs.Standing.{MayStart};

use crate::head::renewed_head;
use crate::pages::lay_pages;
use gx_class::ReadKeys;
use gx_disk::SectorDisk;
use gx_durable::class_laws::what_stands_is_legal;
use gx_format::{clear, close_gates, lay_parameters, name, open_first_gate, settle, write};
use gx_geom::Refusal;
use gx_glog::{BODIES_A, Parameters};
use gx_opening::Standing;
use gx_opening::laws::what_is_found_stands;
use std::alloc::Global;

// Writes the first body, and makes all writes so far durable.
fn lay_body<D: SectorDisk>(disk: &mut D, body: &[u8]) -> Result<(), Refusal>
    requires device { MIN_SECTORS ≤ (D.state disk.old).sectors }
    requires whole { length body.now ≡ BODY_SIZE }
    ensures sectors { (D.state disk.new).sectors ≡ (D.state disk.old).sectors }
    ensures runs { Runs D.state (Write BODIES_A BODY_SECTORS body.now ∷ Sync ∷ []) disk.old disk.new result }
{
    write(disk, BODIES_A, body)?;
    settle(disk)
}

// Writes the parameters, and the log with this one body.
fn lay_log<D: SectorDisk>(disk: &mut D, parameters: &Parameters, body: &[u8]) -> Result<(), Refusal>
    requires device { MIN_SECTORS ≤ (D.state disk.old).sectors }
    requires whole { length body.now ≡ BODY_SIZE }
    ensures sectors { (D.state disk.new).sectors ≡ (D.state disk.old).sectors }
    ensures runs { Runs D.state (log_writes parameters.now body.now) disk.old disk.new result }
{
    lay_parameters(disk, parameters)?;
    close_gates(disk)?;
    lay_body(disk, body)?;
    open_first_gate(disk)
}

// Makes all the calls of a migration.
fn lay_all<D: SectorDisk>(
    disk: &mut D,
    parameters: &Parameters,
    bytes: &[u8],
    used: u32,
    body: &[u8],
) -> Result<(), Refusal>
    requires device { MIN_SECTORS ≤ (D.state disk.old).sectors }
    requires inside { sectors_of used ≤ (D.state disk.old).sectors }
    requires bytes { 512 * sectors_of used ≤ length bytes.now }
    requires whole { length body.now ≡ BODY_SIZE }
    ensures { Runs D.state (migrating parameters.now bytes.now used body.now) disk.old disk.new result }
{
    clear(disk)?;
    lay_pages(disk, used, bytes)?;
    lay_log(disk, parameters, body)?;
    name(disk)
}

/// Lays an index down that was found on another device, which is in memory and reads as these bytes, with its log laid:
/// the pages in use, and a log of one batch that says the same. What the device held before is lost.
///
/// It makes the calls of `migrating`, in that order. On an honest device, at each moment of them, even if one fails: in
/// the first two calls each image is one from before except for its first sector; from then on none is an index of any
/// version; and from the last two calls on each is none of this version, or stands for the set that was found. At `Ok`
/// the device itself does, and all of it is durable.
///
/// Refused if there is no memory for the batch (`Memory`; no call was made then), and if a call fails (`Device`).
pub fn lay<D: SectorDisk, O: SectorDisk, K: ReadKeys>(
    alloc: Global,
    disk: &mut D,
    standing: &Standing<K::Key>,
    bytes: &[u8],
) -> Result<(), Refusal>
    requires least { MIN_PAGES ≤ standing.now.parameters.pages }
    requires most { standing.now.parameters.pages ≤ MAX_PAGES }
    requires starts { MayStart standing.now }
    requires inside { sectors_of standing.now.parameters.pages ≤ (D.state disk.old).sectors }
    requires bytes { 512 * sectors_of standing.now.parameters.pages ≤ length bytes.now }
    ensures migrates { MigratesAs K.ReadKeys D.state standing.now bytes.now disk.old disk.new result }
    ensures refusal { IfErr result (IsNotLaid standing.now.log.analysis.told) }
    ensures device { SameDevice (D.state disk.old) (D.state disk.new) }
    ensures faults { FaultsAre (D.state disk.old).faults (D.state disk.new).faults result }
    ensures moments { (d e : O) → (D.state disk.old).honest ≡ true
        → IndexStands K.Key.Shape K.ReadKeys (O.state d) (O.state e) standing.now → (O.state e).seen ≡ bytes.now
        → MovesInPhases K.Key.Shape K.ReadKeys D.state standing.now.parameters (O.state d).seen disk.old disk.new }
    ensures moved { (d e : O) → (D.state disk.old).honest ≡ true
        → IndexStands K.Key.Shape K.ReadKeys (O.state d) (O.state e) standing.now → (O.state e).seen ≡ bytes.now
        → OnOk result (HasMovedAs K.Key.Shape K.ReadKeys standing.now.parameters (O.state d).seen
        (D.state disk.new).seen × IsSettled (D.state disk.new)) }
{
    what_stands_is_legal::<K>();
    what_is_found_stands::<O, K>();
    let analysis = &standing.log.analysis;
    let head = renewed_head::<K>(alloc, analysis)?;
    lay_all(
        disk,
        &standing.parameters,
        bytes,
        analysis.used(),
        head.body(),
    )
}
