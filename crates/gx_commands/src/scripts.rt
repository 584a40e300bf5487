//! A script on a fresh index, from its first byte to the program's status.
ghost use Rattle.gx_machine.specs.Keys.{keys_of};
ghost use Rattle.gx_script.specs.Corners.{grammar_of};
ghost use Rattle.gx_commands.specs.Scripts.{TellsMemory, EndsScript};
ghost use Rattle.gx_commands.specs.Streams.{outputs_of, stream_of};

use crate::person::print;
use crate::running::tell_stopped;
use crate::{DONE, REFUSED};
use gx_plain::{PlainIndex, run_plain};
use gx_script::{Corners, Noted};
use std::alloc::Global;
use std::io::{Read, Write};

/// Reports that memory was refused, and returns the status.
pub fn refuse_memory<W: Write>(writer: &mut Noted<W>) -> u8
    ensures { TellsMemory (stream_of W.contents writer.old) (stream_of W.contents writer.new) result }
{
    print(writer, b"refused 10 memory\n");
    REFUSED
}

/// Runs a script on a fresh index in memory, writes the index's replies, and returns the status.
///
/// The status is 0 if the script was read to its end. It is 1 if a read or a write failed: then the function reports
/// that to the user, unless the reader of the replies has closed its end. It is also 1 if memory is refused before the
/// script begins: then the function writes `refused 10 memory`.
pub fn run_script<B: Corners, R: Read, W: Write, E: Write>(
    alloc: Global,
    reader: &mut Noted<R>,
    writer: &mut Noted<W>,
    faults: &mut Noted<E>,
) -> u8
    ensures { EndsScript (grammar_of B.Corners) (keys_of B.Shape)
        (stream_of R.remaining reader.old) (stream_of R.remaining reader.new)
        (outputs_of W.contents E.contents writer.old faults.old)
        (outputs_of W.contents E.contents writer.new faults.new) result }
{
    let Ok(mut index) = PlainIndex::<B>::new(alloc) else {
        return refuse_memory(writer);
    };
    match run_plain(reader, writer, &mut index) {
        Ok(()) => DONE,
        Err(fault) => {
            tell_stopped(faults, fault, reader, writer);
            REFUSED
        }
    }
}
