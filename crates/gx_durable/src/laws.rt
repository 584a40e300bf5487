//! Laws of bytes and records. Each function is its contract alone.
ghost use Rattle.gx_recovery.specs.Known.{Limits};
ghost use Rattle.gx_durable.specs.Beginning.{FirstIsUp, HeadsFit};
ghost use Rattle.gx_durable.specs.Opening.{FoundIsUpToTurn, ACrashBeforeTheTurn, UpMayTurn};
ghost use Rattle.gx_durable.specs.GoingOn.{FoundIsUp, FoundRuns, SameLogStands, ClosingKeepsFound};
ghost use Rattle.gx_durable.specs.Joining.{CallsJoin, EachMomentStands};
ghost use Rattle.gx_durable.specs.PoolLaws.{LaterStampsStay, CleanIsStamped, NoneWritableIsClean, BringingIsClean};
ghost use Rattle.gx_durable.specs.PoolLaws.{CreatingIsLater, ChangeIsLater, RecordSays, ReadsStayUp};
ghost use Rattle.gx_durable.specs.Legal.{WhatStandsIsLegal};
ghost use Rattle.gx_durable.specs.Stored.{NothingDirtyIsWritten, BringingStoresTheSame, ChangingStoresOne};
ghost use Rattle.gx_durable.specs.Stored.{CreatingStoresOne, RecordingStaysStored, WriteStaysStored, PagesStayStored};
ghost use Rattle.gx_durable.specs.Laws.{OneWay, PartsJoin, SpellingAdds, NoneAreNone, OnlyNoneAreNone};
ghost use Rattle.gx_durable.specs.Laws.{BodiesOneWay, BodyAdds, BodiesJoin, ACrashLeavesAKeptSet, StandsOfBefore};

use crate::Spelled;
use gx_disk::SectorDisk;

/// Bytes are records in one way only. Parts join, a spelling behind bytes adds its record, and no bytes are no records.
pub fn bytes_are_records<M: Spelled>()
    ensures one_way { OneWay M.reading }
    ensures parts { PartsJoin M.reading }
    ensures adds { SpellingAdds M.reading }
    ensures none { NoneAreNone M.reading }
    ensures only_none { OnlyNoneAreNone M.reading }
{}

/// Bodies are read one by one, in one way only, and their records in a row are those of their bytes in a row: so, of an
/// image's open bodies, those of its log.
pub fn bodies_are_told<M: Spelled>()
    ensures one_way { BodiesOneWay M.reading }
    ensures adds { BodyAdds M.reading }
    ensures records { BodiesJoin M.reading }
{}

/// Of a device that a log is up on, whatever a crash leaves is an undamaged log over a page area that is good for it,
/// and stands for the kept set of its own last commit, which isn't before the durable one. So it does for a state
/// before that one which had the same sets. Where trees are read of the pages in use, that image is legal for the log
/// that it has: the device has its pages, its tree is sound, and what is live in that, except for what open
/// transactions wrote, is the set.
pub fn a_crash_leaves_a_kept_set<M: Spelled>()
    ensures kept { (d : Limits) → ACrashLeavesAKeptSet (M.known d) M.reading }
    ensures before { (d : Limits) → StandsOfBefore (M.known d) M.reading }
    ensures legal { (d : Limits) → WhatStandsIsLegal (M.known d) M.reading }
{}

/// A pool's stamps remain places of batches if each dirty page was dirty before, or was changed as of the batch that
/// fills. Pages that are brought, made and changed keep this. Once the record that gives the changed pages is appended,
/// each dirty page is given. Once each batch that began is gated and nothing fills, each dirty page may be written.
pub fn stamps_stay<M: Spelled>()
    ensures later { LaterStampsStay M.Entry M.Page }
    ensures clean { CleanIsStamped M.Entry M.Page }
    ensures writable { NoneWritableIsClean M.Entry M.Page }
    ensures brought { BringingIsClean }
    ensures created { CreatingIsLater }
    ensures changed { ChangeIsLater }
    ensures said { RecordSays M.Entry M.Page }
{}

/// A log that is up on a device is up after reads, and within them too what a crash may leave stands for a kept set.
pub fn reads_stay_up<M: Spelled, D: SectorDisk>()
    ensures { (l : Limits) (a b : D) → ReadsStayUp (M.known l) M.reading (D.state a) (D.state b) }
{}

/// A log that starts on a freshly formatted device is up there, if its two pages are a sound tree.
pub fn a_new_device_is_up<M: Spelled>()
    ensures { (l : Limits) → FirstIsUp (M.known l) M.reading }
{}

/// A renewed log fits one body, if keys have up to 41 bytes: 29 bytes for its numbers, and up to 63 for each of 512
/// notes.
pub fn heads_fit_a_body<M: Spelled>()
    ensures { (l : Limits) → HeadsFit (M.known l) M.reading }
{}

/// Pages are *stored* as all records leave them: in a frame, or else on the device. What is brought changes nothing of
/// that. Where nothing is dirty, in flight or filling, each page is written: so a turn may begin, once they are
/// settled. A page that is changed or made is stored so, and each other as before; where a record gives what was
/// changed, in that order, and is appended, each page is stored as all records leave it again.
pub fn pages_are_stored<M: Spelled>()
    ensures written { NothingDirtyIsWritten M.reading }
    ensures brought { BringingStoresTheSame M.reading }
    ensures changed { ChangingStoresOne M.reading }
    ensures created { CreatingStoresOne M.reading }
    ensures recorded { RecordingStaysStored M.reading }
    ensures write { WriteStaysStored M.reading }
    ensures pages { PagesStayStored M.reading }
{}

/// A log that starts behind an image's open bodies, if these are undamaged and the page area is good for them, is up to
/// its turn, whatever the later gates are; so is a log that is up with nothing in flight. Whatever a crash leaves of
/// its device stands for the kept set too. Its turn is `turn_step`, and after that it is up.
pub fn a_found_log_is_up_to_its_turn<M: Spelled>()
    ensures found { (l : Limits) → FoundIsUpToTurn (M.known l) M.reading }
    ensures up { (l : Limits) → UpMayTurn (M.known l) M.reading }
    ensures kept { (l : Limits) → ACrashBeforeTheTurn (M.known l) M.reading }
{}

/// A log that starts behind an image's open bodies, where these are undamaged and the page area is good for them, goes
/// on there once no later gate is open: it is up, and with a pool that has kept nothing as yet, and knows of the last
/// body, it runs; each page is stored as the records leave it where all are written. Closing the later gates leaves the
/// log and the pages as they were found: at each moment what a crash may leave stands for the kept set that was found,
/// as does each image with those bodies and pages.
pub fn a_found_log_goes_on<M: Spelled, D: SectorDisk>()
    ensures up { (l : Limits) → FoundIsUp (M.known l) M.reading }
    ensures runs { (l : Limits) (d : D) → FoundRuns (M.known l) M.reading (D.state d) }
    ensures same { (l : Limits) → SameLogStands (M.known l) M.reading }
    ensures closing { (l : Limits) (d e : D) → ClosingKeepsFound (M.known l) M.reading (D.state d) (D.state e) }
{}

/// Calls in a row are one: no set changes, and at each moment what a crash may leave stands for a kept set of the state
/// before the first. So whatever a crash may have left at a moment from before them on does,
/// of a device that a log was up on.
pub fn calls_in_a_row<M: Spelled, D: SectorDisk>()
    ensures join { (l : Limits) (a b c : D) → CallsJoin (M.known l) M.reading (D.state a) (D.state b) (D.state c) }
    ensures moments { (l : Limits) (a b : D) → EachMomentStands (M.known l) M.reading (D.state a) (D.state b) }
{}
