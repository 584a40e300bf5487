//! Scripts for the plain index.
ghost use Rattle.std.specs.Prelude.{◌≡◌, Some, OnOk, IfErr};
ghost use Rattle.gx_machine.specs.Keys.{keys_of};
ghost use Rattle.gx_script.specs.Corners.{grammar_of};
ghost use Rattle.gx_script.specs.Scripts.{IsDone, IsStopped};
ghost use Rattle.gx_script.specs.Noting.{IsFaultOf};
ghost use Rattle.gx_plain.specs.Index.{CallsIndex};

use crate::PlainIndex;
use gx_geom::Shape;
use gx_machine::{Call, Reply};
use gx_script::{Answers, Corners, Noted, ScriptFault, Transfer};
use std::io::{Read, Write};

impl<B: Shape> Answers<B> for PlainIndex<B> {
    ghost answered = { CallsIndex (keys_of B.Shape) };

    fn call(&mut self, session: u8, call: Call<B>) -> Reply<B>
        ensures { CallsIndex (keys_of B.Shape) self.old session call result self.new }
    {
        self.call(session, call)
    }
}

/// Reads a script to its end, asks the index for the calls of its lines, and writes the replies.
///
/// All lines of a reply are written before the next line's call is asked. The reply to a line that isn't a script's
/// names its number, and the script goes on. It ends well when the reader's last call gave nothing. Faults: `Read` if
/// that call failed, or 2^32 calls of the reader were made; `Write` if the writer's last call failed or took nothing,
/// or 2^32 calls of the writer were made. What was written by then is a beginning of the text; earlier replies remain
/// valid. An interrupted read or write is made again.
pub fn run_plain<B: Corners, R: Read, W: Write>(
    reader: &mut Noted<R>,
    writer: &mut Noted<W>,
    index: &mut PlainIndex<B>,
) -> Result<(), ScriptFault>
    ensures done { OnOk result (IsDone (grammar_of B.Corners) (CallsIndex (keys_of B.Shape))
        (R.remaining reader.old.inner) (R.remaining reader.new.inner)
        (W.contents writer.old.inner) (W.contents writer.new.inner) index.old index.new) }
    ensures stopped { IfErr result (IsStopped (grammar_of B.Corners) (CallsIndex (keys_of B.Shape))
        (R.remaining reader.old.inner) (R.remaining reader.new.inner)
        (W.contents writer.old.inner) (W.contents writer.new.inner) index.old index.new) }
    ensures ended { OnOk result (reader.new.last ≡ Some Transfer.Nothing) }
    ensures fault { IfErr result (IsFaultOf reader.new writer.new) }
{
    gx_script::run(reader, writer, index)
}
