//! A script over a device, from its opening to the program's status.
ghost use Rattle.gx_commands.specs.Streams.{kind_of, outputs_of, stream_of};
ghost use Rattle.gx_script.specs.Corners.{grammar_of};
ghost use Rattle.gx_commands.specs.Scripts.{TellsFault};
ghost use Rattle.gx_commands.specs.Endings.{EndsBy, EndsSettling, RunsOver, RunsScript, TellsSettled};

use crate::opening::{opened, refuse_opening};
use crate::person::{tell_fault, tell_person};
use crate::refusals::refuse;
use crate::{DONE, REFUSED, Watched};
use gx_class::{KeyClass, Probing, ReadKeys};
use gx_disk::SectorDisk;
use gx_geom::Refusal;
use gx_restart::{Index, ScriptFault};
use gx_script::{Corners, Noted};
use std::alloc::Global;
use std::io::{Read, Write};

// Reports why a settling was refused, if it was, and returns the status.
fn tell_settled<W: Write, E: Write>(
    ended: Result<(), Refusal>,
    writer: &mut Noted<W>,
    faults: &mut Noted<E>,
) -> u8
    ensures { TellsSettled ended (outputs_of W.contents E.contents writer.old faults.old)
        (outputs_of W.contents E.contents writer.new faults.new) result }
{
    match ended {
        Ok(()) => DONE,
        Err(why) => refuse(writer, faults, why),
    }
}

// Settles an index, reports a refusal of that, and returns the device and the status.
fn settle_after<
    D: SectorDisk + Drop,
    B: Corners,
    K: ReadKeys + KeyClass<Key = B> + Probing,
    W: Write,
    E: Write,
>(index: Index<D, K>, writer: &mut Noted<W>, faults: &mut Noted<E>) -> (D, u8)
    ensures { EndsSettling B.Shape K.ReadKeys D.state index result.0
        (outputs_of W.contents E.contents writer.old faults.old)
        (outputs_of W.contents E.contents writer.new faults.new) result.1 }
{
    let mut index = index;
    let ended = index.settle();
    let status = tell_settled(ended, writer, faults);
    (index.into_engine().into_disk(), status)
}

// Ends a script that was read to its end: if a reply reported a fault, reports that to the user, else settles the
// index. Returns the device and the status.
fn end_script<
    D: SectorDisk + Drop,
    B: Corners,
    K: ReadKeys + KeyClass<Key = B> + Probing,
    W: Write,
    E: Write,
>(watched: Watched<Index<D, K>>, writer: &mut Noted<W>, faults: &mut Noted<E>) -> (D, u8)
    ensures { EndsBy B.Shape K.ReadKeys D.state watched.met watched.index result.0
        (outputs_of W.contents E.contents writer.old faults.old)
        (outputs_of W.contents E.contents writer.new faults.new) result.1 }
{
    let Watched { index, met } = watched;
    if met {
        tell_person(
            faults,
            "the device failed, or what it holds is damaged; what isn't committed is lost",
        );
        return (index.into_engine().into_disk(), REFUSED);
    }
    settle_after(index, writer, faults)
}

// Runs a script on an index, and ends it. Returns the device and the status; what isn't on the device is lost.
fn run_watched<
    D: SectorDisk + Drop,
    B: Corners,
    K: ReadKeys + KeyClass<Key = B> + Probing,
    R: Read,
    W: Write,
    E: Write,
>(
    watched: Watched<Index<D, K>>,
    reader: &mut Noted<R>,
    writer: &mut Noted<W>,
    faults: &mut Noted<E>,
) -> (D, u8)
    ensures { RunsScript (grammar_of B.Corners) B.Shape K.ReadKeys D.state watched result.0
        (stream_of R.remaining reader.old) (stream_of R.remaining reader.new)
        (outputs_of W.contents E.contents writer.old faults.old)
        (outputs_of W.contents E.contents writer.new faults.new) result.1 }
{
    let mut watched = watched;
    match gx_script::run(reader, writer, &mut watched) {
        Ok(()) => end_script(watched, writer, faults),
        Err(fault) => {
            tell_stopped(faults, fault, reader, writer);
            (watched.index.into_engine().into_disk(), REFUSED)
        }
    }
}

/// Reports to the user what stopped a script.
pub(crate) fn tell_stopped<R: Read, W: Write, E: Write>(
    faults: &mut Noted<E>,
    fault: ScriptFault,
    reader: &Noted<R>,
    writer: &Noted<W>,
)
    ensures { TellsFault fault (kind_of (stream_of R.remaining reader.now) (stream_of W.contents writer.now) fault)
        (stream_of E.contents faults.old) (stream_of E.contents faults.new) }
{
    let kind = match fault {
        ScriptFault::Read => reader.kind,
        ScriptFault::Write => writer.kind,
    };
    tell_fault(faults, fault, kind);
}

/// Opens a device with so many frames for pages, 16 to 4,096, runs a script on the index that it holds,
/// writes the replies, gates all that is logged, and returns the device and the status. Transactions that are open at
/// the script's end stay open, and the next opening undoes them.
///
/// The status is 0 if the device was opened, the script was read to its end, no reply was refused with `Device`,
/// `Failed` or `Damaged`, and all that was logged is gated. It is 1 in all other cases. If the opening is refused, the
/// function reads nothing, writes `refused N text`, and reports to the user what it means, and for damage where it is;
/// if the settling after the script is refused, that line follows the replies. If a read or a write of the script
/// failed, or a reply reported a fault, nothing is settled, and the function reports that to the user, unless the
/// reader of the replies has closed its end. The opening, the script's calls and the settling make all calls of the
/// device.
pub fn run_over<
    D: SectorDisk + Drop,
    B: Corners,
    K: ReadKeys + KeyClass<Key = B> + Probing,
    R: Read,
    W: Write,
    E: Write,
>(
    alloc: Global,
    disk: D,
    frames: usize,
    reader: &mut Noted<R>,
    writer: &mut Noted<W>,
    faults: &mut Noted<E>,
) -> (D, u8)
    ensures { RunsOver (grammar_of B.Corners) B.Shape K.ReadKeys D.state K.CLASS frames disk result.0
        (stream_of R.remaining reader.old) (stream_of R.remaining reader.new)
        (outputs_of W.contents E.contents writer.old faults.old)
        (outputs_of W.contents E.contents writer.new faults.new) result.1 }
{
    match opened::<D, K>(alloc, disk, frames) {
        Ok(engine) => {
            let index = Index::new(engine);
            let watched = Watched::new(index);
            run_watched(watched, reader, writer, faults)
        }
        Err(refused) => refuse_opening::<D, K, W, E>(alloc, refused, writer, faults),
    }
}
