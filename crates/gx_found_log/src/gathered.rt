//! What is gathered of a log while its records are read: an analysis and the table of images take each record.
ghost use Rattle.std.specs.Prelude.{◌≡◌, ◌+◌, ◌≤◌, length, IfOk, IfErr};
ghost use Rattle.gx_record.specs.Format.{IsRecord};
ghost use Rattle.gx_record.specs.Seen.{rec_of};
ghost use Rattle.gx_recovery.specs.Known.{Limits};
ghost use Rattle.gx_recovery.specs.Broken.{refused};
ghost use Rattle.gx_recovery.specs.declared.closed.TheConstants.{CLOSINGS};
ghost use Rattle.gx_found_log.specs.declared.given.TheConstants.{MOST_GIVEN};
ghost use Rattle.gx_found_log.specs.Broken.{RecordIsBroken};
ghost use Rattle.gx_found_log.specs.Found.{IsUnread};
ghost use Rattle.gx_found_log.specs.Given.{images_of};
ghost use Rattle.gx_found_log.specs.Small.{small_of as small_in};
ghost use Rattle.gx_found_log.specs.Told.{closings, KeepsSaid, RecordGathered};
ghost use Rattle.gx_node.specs.declared.items.TheConstants.{MAX_ENTRIES};

use crate::images::keep_images;
use crate::record::on_record;
use crate::small::small_of;
use crate::{Given, Part, Readable, Scratch};
use gx_geom::Refusal;
use gx_record::Record;
use gx_recovery::{Analysis, LogRule};
use std::alloc::Global;

/// What the records of a log say so far, and the pages that they give.
#[derive(Drop)]
pub struct Gathered<E> {
    pub(crate) analysis: Analysis<E>,
    pub(crate) given: Given,
    pub(crate) scratch: Scratch,
}

impl<E: Copy + Ord> Gathered<E> {
    /// Of no record as yet. Refused if memory is (`Memory`).
    pub(crate) fn new(alloc: Global) -> Result<Self, Refusal>
        ensures unread { IfOk result IsUnread }
        ensures refusal { IfErr result (λ refusal. refusal ≡ Refusal.Memory) }
    {
        let analysis = Analysis::new(alloc, 0)?;
        let given = Given::new(alloc)?;
        let scratch = Scratch::new(alloc, 0)?;
        Ok(Gathered {
            analysis,
            given,
            scratch,
        })
    }

    /// The same for a device of so many pages, and entries in a node.
    pub(crate) fn set_limits(&mut self, pages: u32, most: usize)
        requires { most ≤ MAX_ENTRIES }
        ensures analysis { self.new.analysis ≡ record self.old.analysis { pages = pages } }
        ensures given { self.new.given ≡ self.old.given }
        ensures most { self.new.scratch.0 ≡ most }
    {
        self.analysis.set_pages(pages);
        self.scratch.set_most(most);
    }
}

/// Keeps what a record says of pages: its images, or a small change of one.
fn keep<M: Readable>(gathered: &mut Gathered<M::Entry>, logged: &Record<'_>) -> Result<(), LogRule>
where
    M::Entry: Copy + Ord,
    requires is_record { IsRecord M.reading.key (rec_of logged.now) }
    requires places { length gathered.old.given + length (images_of (rec_of logged.now)) ≤ MOST_GIVEN }
    ensures analysis { gathered.new.analysis ≡ gathered.old.analysis }
    ensures most { gathered.new.scratch.0 ≡ gathered.old.scratch.0 }
    ensures given { length gathered.new.given ≤ length gathered.old.given + length (images_of (rec_of logged.now)) }
    ensures keeps { KeepsSaid M.reading (rec_of logged.now) (small_in (rec_of logged.now)) gathered.old.scratch.0
        gathered.old.given result gathered.new.given }
{
    match small_of(logged) {
        Some((page, small)) => {
            gathered
                .given
                .change::<M>(&mut gathered.scratch, page, &small)
        }
        None => {
            keep_images(&mut gathered.given, logged);
            Ok(())
        }
    }
}

/// Gathers a record of this part of a log.
pub(crate) fn gather<M: Readable>(
    part: Part,
    gathered: &mut Gathered<M::Entry>,
    logged: &Record<'_>,
) -> Result<(), LogRule>
where
    M::Entry: Copy + Ord,
    requires is_record { IsRecord M.reading.key (rec_of logged.now) }
    requires room { length gathered.old.analysis.closed + closings (rec_of logged.now) ≤ CLOSINGS }
    requires places { length gathered.old.given + length (images_of (rec_of logged.now)) ≤ MOST_GIVEN }
    ensures closed { length gathered.new.analysis.closed
        ≤ length gathered.old.analysis.closed + closings (rec_of logged.now) }
    ensures given { length gathered.new.given ≤ length gathered.old.given + length (images_of (rec_of logged.now)) }
    ensures told { (d : Limits) → (M.known d).cmp ≡ M.Entry.Ord.cmp
        → RecordGathered part (M.known d) M.reading (rec_of logged.now) gathered.old (refused result) gathered.new }
    ensures broken { (d : Limits) → (M.known d).cmp ≡ M.Entry.Ord.cmp
        → IfErr result (λ rule. RecordIsBroken part (M.known d) M.reading (rec_of logged.now) gathered.old rule) }
{
    on_record::<M>(part, &mut gathered.analysis, logged)?;
    keep::<M>(gathered, logged)
}
