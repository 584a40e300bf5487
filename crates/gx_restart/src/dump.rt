//! The text of the tree.
ghost use Rattle.std.specs.Prelude.{◌≡◌, OnOk, IfErr, true};
ghost use Rattle.std.specs.Io.KnownBytes.{Appends};
ghost use Rattle.gx_recovery.specs.Known.{Limits};
ghost use Rattle.gx_script.specs.Corners.{grammar_of};
ghost use Rattle.gx_script.specs.Noting.{TakesNoMore};
ghost use Rattle.gx_script.specs.Writes.{IsCut};
ghost use Rattle.gx_engine.specs.Resting.{KeepsSessions};
ghost use Rattle.gx_restart.specs.Bringing.{Brings, Helps};
ghost use Rattle.gx_restart.specs.Counted.{OfEachTree};
ghost use Rattle.gx_restart.specs.Setting.{ReadsAs, RunsOnAs};
ghost use Rattle.gx_restart.specs.Text.{dump_text};
ghost use Rattle.gx_restart.specs.Called.{EndsWhereHeld};
ghost use Rattle.gx_restart.specs.Dumped.{Dumps};

use crate::text::{self, Stop};
use crate::{DumpFault, Index};
use gx_class::{KeyClass, ReadKeys};
use gx_disk::SectorDisk;
use gx_geom::Refusal;
use gx_script::{Corners, Noted};
use std::io::Write;

impl<D: SectorDisk, B: Corners, K: ReadKeys + KeyClass<Key = B>> Index<D, K> {
    /// Writes the text of the tree: a line with the number of the last commit, the greatest page in use and the counter
    /// of splits; and for each page from 1 on its line, and one for each of its entries, by slot. Pages are brought one
    /// after another, with the events that free frames for them. It changes no node, no set, claim, predicate or open
    /// call, and takes no memory.
    ///
    /// Faults: `Write` if the writer's last call failed or took nothing, or 2^32 calls of it were made; `Refused` with
    /// `Device`, `Failed` or `Damaged` if an event was refused so. If a page isn't brought within `EVENTS` turns of one
    /// or two events, the dump is given up with `Damaged`; from then on the index only refuses, with `Failed`, and
    /// writes nothing. Over an honest device no dump is given up. What was written before a fault is a beginning of the
    /// text.
    pub fn dump<W: Write>(&mut self, writer: &mut Noted<W>) -> Result<(), DumpFault>
        ensures dumps { Dumps (Brings B.Shape K.ReadKeys D.state)
            (Helps B.Shape K.ReadKeys D.state) self.old result self.new }
        ensures text { OnOk result (OfEachTree B.Shape K.ReadKeys D.state self.old.engine
            (λ t. Appends (W.contents writer.old.inner) (W.contents writer.new.inner)
            (dump_text (grammar_of B.Corners) self.old.engine.sessions.latest t))) }
        ensures cut { IfErr result (λ _. OfEachTree B.Shape K.ReadKeys D.state self.old.engine
            (λ t. IsCut (W.contents writer.old.inner) (W.contents writer.new.inner)
            (dump_text (grammar_of B.Corners) self.old.engine.sessions.latest t))) }
        ensures stuck { IfErr result (λ e. e ≡ DumpFault.Write → TakesNoMore writer.new) }
        ensures ended { self.old.ended ≡ true → writer.new ≡ writer.old }
        ensures reads { OnOk result (ReadsAs B.Shape K.ReadKeys D.state self.old.engine self.new.engine) }
        ensures runs { RunsOnAs B.Shape K.ReadKeys D.state self.old.engine self.new.engine }
        ensures keeps { KeepsSessions self.old.engine self.new.engine }
        ensures ends { (l : Limits) → EndsWhereHeld B.Shape K.ReadKeys D.state l self.old self.new }
    {
        if self.ended {
            return Err(DumpFault::Refused(Refusal::Failed));
        }
        match text::dump(&mut self.engine, writer) {
            Ok(()) => Ok(()),
            Err(Stop::Write) => Err(DumpFault::Write),
            Err(Stop::Refused(why)) => Err(DumpFault::Refused(why)),
            Err(Stop::GivenUp) => {
                self.ended = true;
                Err(DumpFault::Refused(Refusal::Damaged))
            }
        }
    }
}
