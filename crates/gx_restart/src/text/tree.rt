//! The text of an index's tree.
ghost use Rattle.std.specs.Prelude.{◌≡◌, ◌≤◌, ◌++◌, OnOk, IfErr};
ghost use Rattle.std.specs.Io.KnownBytes.{Appends};
ghost use Rattle.gx_script.specs.Corners.{grammar_of};
ghost use Rattle.gx_script.specs.Noting.{TakesNoMore};
ghost use Rattle.gx_script.specs.Writes.{IsPut, IsCut};
ghost use Rattle.gx_engine.specs.Resting.{KeepsSessions};
ghost use Rattle.gx_restart.specs.Bringing.{Brings, Helps, IsRead, IsTold};
ghost use Rattle.gx_restart.specs.Reading.{IsNotGivenUp};
ghost use Rattle.gx_restart.specs.Counted.{OfEachTree};
ghost use Rattle.gx_restart.specs.Setting.{ReadsAs, RunsOnAs, WhereHeldAs};
ghost use Rattle.gx_restart.specs.Text.{dump_text, node_text};

use super::bring::bring;
use super::lines::Lines;
use super::pages::{put_head, put_page};
use super::stop::Stop;
use gx_class::{KeyClass, ReadKeys};
use gx_disk::SectorDisk;
use gx_engine::Engine;
use gx_engine::laws::progress::a_page_that_waits_names_work;
use gx_script::{Corners, Noted};
use gx_storage::laws::a_volume_shows_the_logs_tree;
use std::io::Write;

// Brings a page, and adds its lines.
fn dump_page<W: Write, D: SectorDisk, B: Corners, K: ReadKeys + KeyClass<Key = B>>(
    engine: &mut Engine<D, K>,
    writer: &mut Noted<W>,
    lines: &mut Lines,
    page: u32,
) -> Result<(), Stop>
    requires from { 1 ≤ page }
    requires to { page ≤ engine.old.volume.shelf.used }
    ensures told { IsTold (Brings B.Shape K.ReadKeys D.state)
        (Helps B.Shape K.ReadKeys D.state) page engine.old result engine.new }
    ensures text { OnOk result (OfEachTree B.Shape K.ReadKeys D.state engine.old
        (λ t. IsPut (W.contents writer.old.inner) (W.contents writer.new.inner) lines.old
        (node_text (grammar_of B.Corners) page (t.node page)) lines.new)) }
    ensures cut { IfErr result (λ _. OfEachTree B.Shape K.ReadKeys D.state engine.old
        (λ t. IsCut (W.contents writer.old.inner) (W.contents writer.new.inner)
        (lines.old ++ node_text (grammar_of B.Corners) page (t.node page)))) }
    ensures stuck { IfErr result (λ e. e ≡ Stop.Write → TakesNoMore writer.new) }
{
    a_volume_shows_the_logs_tree::<D, K>();
    bring(engine, page)?;
    put_page::<W, B, K>(writer, lines, page, engine.held_page(page))
}

/// Writes the text of the tree of an index: a line with the number of the last commit, the greatest page in use and the
/// counter of splits; and for each page from 1 on its line, and one for each of its entries, by slot. Pages are brought
/// one after another, with the events that free frames for them. It changes no node, no set, claim, predicate or open
/// call.
///
/// Faults: `Write` if the writer's last call failed or took nothing, or 2^32 calls of it were made; `Refused` as an
/// event was, with `Device`, `Failed` or `Damaged`; and `GivenUp` if a page isn't brought within `gx_engine::EVENTS`
/// turns of one or two events, which never happens if the engine holds an index over an honest device. What was written
/// then is a beginning of the text. It takes no memory.
pub fn dump<W: Write, D: SectorDisk, B: Corners, K: ReadKeys + KeyClass<Key = B>>(
    engine: &mut Engine<D, K>,
    writer: &mut Noted<W>,
) -> Result<(), Stop>
    ensures read { IsRead (Brings B.Shape K.ReadKeys D.state)
        (Helps B.Shape K.ReadKeys D.state) engine.old result engine.new }
    ensures text { OnOk result (OfEachTree B.Shape K.ReadKeys D.state engine.old
        (λ t. Appends (W.contents writer.old.inner) (W.contents writer.new.inner)
        (dump_text (grammar_of B.Corners) engine.old.sessions.latest t))) }
    ensures cut { IfErr result (λ _. OfEachTree B.Shape K.ReadKeys D.state engine.old
        (λ t. IsCut (W.contents writer.old.inner) (W.contents writer.new.inner)
        (dump_text (grammar_of B.Corners) engine.old.sessions.latest t))) }
    ensures stuck { IfErr result (λ e. e ≡ Stop.Write → TakesNoMore writer.new) }
    ensures reads { OnOk result (ReadsAs B.Shape K.ReadKeys D.state engine.old engine.new) }
    ensures runs { RunsOnAs B.Shape K.ReadKeys D.state engine.old engine.new }
    ensures keeps { KeepsSessions engine.old engine.new }
    ensures ends { WhereHeldAs B.Shape K.ReadKeys D.state engine.old (IsNotGivenUp result) }
{
    a_page_that_waits_names_work::<D, K>();
    let mut lines = Lines::new();
    let used = engine.used();
    put_head(writer, &mut lines, engine.commits(), used, engine.counter())?;
    for last in 0..used {
        dump_page(engine, writer, &mut lines, last + 1)?;
    }
    lines.flush(writer)
}
