//! The text of a reply.
ghost use Rattle.std.specs.Prelude.{◌≡◌, ◌+◌, ◌≤◌, ◌++◌, length, decimal, codes, OnOk, IfErr, OnErr};
ghost use Rattle.std.specs.List.{flat_map};
ghost use Rattle.gx_script.specs.Corners.{grammar_of};
ghost use Rattle.gx_script.specs.Replies.{reply_text, told_line, entry_line};
ghost use Rattle.gx_script.specs.Writes.{IsPut, IsCut};
ghost use Rattle.gx_script.specs.Noting.{TakesNoMore};

use crate::output::{LONGEST, Output, WAITING};
use crate::{Corners, Noted, ScriptFault};
use gx_machine::{Entry, Reply};
use std::io::Write;

/// Adds the lines of a reply, and writes what waits if there is no room.
pub(crate) fn put_reply<B: Corners, W: Write>(
    writer: &mut Noted<W>,
    output: &mut Output,
    session: u64,
    reply: &Reply<B>,
) -> Result<(), ScriptFault>
    ensures ok { OnOk result (IsPut
        (W.contents writer.old.inner) (W.contents writer.new.inner) output.old
        (reply_text (grammar_of B.Corners) session reply.now) output.new) }
    ensures cut { IfErr result (λ e. (e ≡ ScriptFault.Write)
        × IsCut
        (W.contents writer.old.inner) (W.contents writer.new.inner)
        (output.old ++ reply_text (grammar_of B.Corners) session reply.now)) }
    ensures stuck { OnErr result (TakesNoMore writer.new) }
{
    output.make_room(writer)?;
    match reply {
        Reply::Found(entries) => {
            let found = entries.as_slice();
            output.put_counted(session, b"found ", found.len() as u64);
            return put_entries(writer, output, session, found);
        }
        Reply::Ok => output.put_told(session, b"ok"),
        Reply::Inserted => output.put_told(session, b"inserted"),
        Reply::Deleted => output.put_told(session, b"deleted"),
        Reply::Aborted => output.put_told(session, b"aborted"),
        Reply::Committed(number) => output.put_counted(session, b"committed ", *number),
        Reply::Refused(why) => output.put_refusal(session, *why),
    }
    Ok(())
}

fn put_entries<B: Corners, W: Write>(
    writer: &mut Noted<W>,
    output: &mut Output,
    session: u64,
    entries: &[Entry<B>],
) -> Result<(), ScriptFault>
    ensures ok { OnOk result (IsPut (W.contents writer.old.inner) (W.contents writer.new.inner) output.old
        (flat_map (entry_line (grammar_of B.Corners) session) entries.now) output.new) }
    ensures cut { IfErr result (λ e. (e ≡ ScriptFault.Write)
        × IsCut
        (W.contents writer.old.inner) (W.contents writer.new.inner)
        (output.old ++ flat_map (entry_line (grammar_of B.Corners) session) entries.now)) }
    ensures stuck { OnErr result (TakesNoMore writer.new) }
{
    for entry in entries {
        output.make_room(writer)?;
        output.put_entry(session, entry);
    }
    Ok(())
}
