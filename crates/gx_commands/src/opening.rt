//! Opens a device, and writes for the user why an opening was refused.
ghost use Rattle.gx_commands.specs.Streams.{outputs_of, stream_of};
ghost use Rattle.gx_commands.specs.Openings.{Opens};
ghost use Rattle.gx_commands.specs.Refusing.{TellsFound, TellsOpening};

use crate::REFUSED;
use crate::damage::sentence_of;
use crate::person::tell_person;
use crate::refusals::{print_refusal, refuse, tell_refused};
use gx_class::{Probing, ReadKeys};
use gx_disk::SectorDisk;
use gx_engine::Engine;
use gx_geom::Refusal;
use gx_opening::{Damage, examine};
use gx_restart::{NotOpened, open};
use gx_script::Noted;
use std::alloc::Global;
use std::io::Write;

/// Opens a device.
pub(crate) fn opened<D: SectorDisk, K: ReadKeys + Probing>(
    alloc: Global,
    disk: D,
    frames: usize,
) -> Result<Engine<D, K>, NotOpened<D>>
    ensures { Opens K.Key.Shape K.ReadKeys D.state K.CLASS frames disk result }
{
    open(alloc, disk, frames)
}

/// Reports to the user where damage was found; if none was found, only that there is some.
pub(crate) fn tell_found<E: Write>(faults: &mut Noted<E>, found: Result<Option<Damage>, Refusal>)
    ensures { TellsFound found (stream_of E.contents faults.old) (stream_of E.contents faults.new) }
{
    match found {
        Ok(damage) => match damage {
            Some(damage) => tell_person(faults, sentence_of(damage).as_str()),
            None => tell_refused(faults, Refusal::Damaged),
        },
        Err(_) => tell_refused(faults, Refusal::Damaged),
    }
}

/// Writes the line of an opening that was refused, `refused N text`, reports to the user what it means, and returns the
/// device and the status, 1. If the device is damaged, the function examines it, and reports where: in its log or on
/// which page, and which rule is broken there, unless a call fails or memory is refused.
pub(crate) fn refuse_opening<D: SectorDisk + Drop, K: ReadKeys, W: Write, E: Write>(
    alloc: Global,
    refused: NotOpened<D>,
    writer: &mut Noted<W>,
    faults: &mut Noted<E>,
) -> (D, u8)
    ensures { TellsOpening K.Key.Shape K.ReadKeys D.state K.CLASS refused.why refused.disk result.0
        (outputs_of W.contents E.contents writer.old faults.old)
        (outputs_of W.contents E.contents writer.new faults.new) result.1 }
{
    let NotOpened { why, disk } = refused;
    match why {
        Refusal::Damaged => {
            let (disk, found) = examine::<D, K>(alloc, disk);
            tell_found(faults, found);
            print_refusal(writer, why);
            (disk, REFUSED)
        }
        _ => (disk, refuse(writer, faults, why)),
    }
}
