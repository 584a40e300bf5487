//! Writes the tree of an index on a device as text.
ghost use Rattle.std.specs.Prelude.{◌≡◌, IfErr};
ghost use Rattle.gx_script.specs.Corners.{grammar_of};
ghost use Rattle.gx_commands.specs.Streams.{TakesNoMore, outputs_of, stream_of};
ghost use Rattle.gx_commands.specs.Dumping.{DumpsIndex, DumpsOver, TellsDump};

use crate::opening::{opened, refuse_opening};
use crate::person::tell_fault;
use crate::refusals::refuse;
use crate::{DONE, REFUSED};
use gx_class::{KeyClass, Probing, ReadKeys};
use gx_disk::SectorDisk;
use gx_restart::{DumpFault, Index, ScriptFault};
use gx_script::{Corners, Noted};
use std::alloc::Global;
use std::io::Write;

// Reports what ended a dump, and returns the status.
fn tell_dump<W: Write, E: Write>(
    ends: Result<(), DumpFault>,
    writer: &mut Noted<W>,
    faults: &mut Noted<E>,
) -> u8
    requires { IfErr ends (λ fault. fault ≡ DumpFault.Write → TakesNoMore (stream_of W.contents writer.old)) }
    ensures { TellsDump ends (outputs_of W.contents E.contents writer.old faults.old)
        (outputs_of W.contents E.contents writer.new faults.new) result }
{
    match ends {
        Ok(()) => DONE,
        Err(DumpFault::Write) => {
            tell_fault(faults, ScriptFault::Write, writer.kind);
            REFUSED
        }
        Err(DumpFault::Refused(why)) => refuse(writer, faults, why),
    }
}

// Writes the text of an index's tree, reports what ended that, and returns the device and the status.
fn dump_index<
    D: SectorDisk + Drop,
    B: Corners,
    K: ReadKeys + KeyClass<Key = B>,
    W: Write,
    E: Write,
>(index: Index<D, K>, writer: &mut Noted<W>, faults: &mut Noted<E>) -> (D, u8)
    ensures { DumpsIndex (grammar_of B.Corners) B.Shape K.ReadKeys D.state index result.0
        (outputs_of W.contents E.contents writer.old faults.old)
        (outputs_of W.contents E.contents writer.new faults.new) result.1 }
{
    let mut index = index;
    let ends = index.dump(writer);
    let status = tell_dump(ends, writer, faults);
    (index.into_engine().into_disk(), status)
}

/// Opens a device with so many frames for pages, 16 to 4,096, writes the text of the tree of the index that it holds,
/// as `gx_restart::Index::dump` does, and returns the device and the status.
///
/// The status is 0 if the device was opened and the whole text was written. It is 1 in all other cases. If the opening
/// is refused, the function writes `refused N text`, and reports to the user what it means, and for damage where it is;
/// if a page is refused while the text is written, that line follows the text written so far. If the text couldn't be
/// written, the function reports that to the user, unless the reader of the text has closed its end.
pub fn dump_over<
    D: SectorDisk + Drop,
    B: Corners,
    K: ReadKeys + KeyClass<Key = B> + Probing,
    W: Write,
    E: Write,
>(alloc: Global, disk: D, frames: usize, writer: &mut Noted<W>, faults: &mut Noted<E>) -> (D, u8)
    ensures { DumpsOver (grammar_of B.Corners) B.Shape K.ReadKeys D.state K.CLASS frames disk result.0
        (outputs_of W.contents E.contents writer.old faults.old)
        (outputs_of W.contents E.contents writer.new faults.new) result.1 }
{
    match opened::<D, K>(alloc, disk, frames) {
        Ok(engine) => {
            let index = Index::new(engine);
            dump_index(index, writer, faults)
        }
        Err(refused) => refuse_opening::<D, K, W, E>(alloc, refused, writer, faults),
    }
}
