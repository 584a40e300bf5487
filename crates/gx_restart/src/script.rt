//! Scripts for an index over a device.
ghost use Rattle.std.specs.Prelude.{◌≡◌, Some, OnOk, IfErr};
ghost use Rattle.gx_script.specs.Corners.{grammar_of};
ghost use Rattle.gx_script.specs.Scripts.{IsDone, IsStopped};
ghost use Rattle.gx_script.specs.Noting.{IsFaultOf};
ghost use Rattle.gx_restart.specs.Called.{CallsIndex};
ghost use Rattle.gx_engine.specs.Made.{Makes};

use crate::Index;
use gx_class::{KeyClass, Probing, ReadKeys};
use gx_disk::SectorDisk;
use gx_machine::{Call, Reply};
use gx_script::{Answers, Corners, Noted, ScriptFault, Transfer};
use std::io::{Read, Write};

impl<D: SectorDisk, B: Corners, K: ReadKeys + KeyClass<Key = B> + Probing> Answers<B>
    for Index<D, K> {
    ghost answered = { CallsIndex (Makes B.Shape K.ReadKeys D.state) };

    fn call(&mut self, session: u8, call: Call<B>) -> Reply<B>
        ensures { CallsIndex (Makes B.Shape K.ReadKeys D.state) self.old session call result self.new }
    {
        self.call(session, call)
    }
}

/// Reads a script to its end, asks the index for the calls of its lines, and writes the replies, as
/// `gx_plain::run_plain` does.
///
/// All lines of a reply are written before the next line's call is asked. The reply to a line that isn't a script's
/// names its number, and the script goes on. It ends well when the reader's last call gave nothing. Faults: `Read` if
/// that call failed, or 2^32 calls of the reader were made; `Write` if the writer's last call failed or took nothing,
/// or 2^32 calls of the writer were made. What was written by then is a beginning of the text, and earlier replies
/// remain valid.
pub fn run_script<
    R: Read,
    W: Write,
    D: SectorDisk,
    B: Corners,
    K: ReadKeys + KeyClass<Key = B> + Probing,
>(reader: &mut Noted<R>, writer: &mut Noted<W>, index: &mut Index<D, K>) -> Result<(), ScriptFault>
    ensures done { OnOk result (IsDone (grammar_of B.Corners)
        (CallsIndex (Makes B.Shape K.ReadKeys D.state)) (R.remaining reader.old.inner) (R.remaining reader.new.inner)
        (W.contents writer.old.inner) (W.contents writer.new.inner) index.old index.new) }
    ensures stopped { IfErr result
        (IsStopped (grammar_of B.Corners) (CallsIndex (Makes B.Shape K.ReadKeys D.state))
        (R.remaining reader.old.inner) (R.remaining reader.new.inner)
        (W.contents writer.old.inner) (W.contents writer.new.inner) index.old index.new) }
    ensures ended { OnOk result (reader.new.last ≡ Some Transfer.Nothing) }
    ensures fault { IfErr result (IsFaultOf reader.new writer.new) }
{
    gx_script::run(reader, writer, index)
}
