//! Laws of a log on a device, and of the sector of parameters. Each function is its contract alone.
ghost use Rattle.std.specs.Prelude.{◌≡◌};
ghost use Rattle.gx_glog.specs.declared.extent.TheConstants.{SELECTOR};
ghost use Rattle.gx_glog.specs.declared.parameters.TheConstants.{PARAMETERS};
ghost use Rattle.gx_glog.specs.Parameters.{BytesTellParameters};
ghost use Rattle.gx_glog.specs.First.{FirstIsSpelled};
ghost use Rattle.gx_glog.specs.Laws.{FirstLogIs, FirstLogIsOn, ImagesHaveTheFirstLog, ImagesHaveTheLog};
ghost use Rattle.gx_glog.specs.Laws.{SelectorDecides, StartIsOn, AppendStaysOn, PutFirstStaysOn, ElsewhereStaysOn};
ghost use Rattle.gx_glog.specs.Laws.{ElsewhereKeepsBatches, StartMayTurn, OnMayTurn, ImagesOfTurn, ElsewhereMayTurn};
ghost use Rattle.gx_glog.specs.Laws.{ElsewhereKeepsRun, ImagesHaveTheBodies, LogIsItsBodies, ElsewhereKeepsBodies};
ghost use Rattle.gx_glog.specs.Laws.{ElsewhereKeepsRunsBodies, BodiesOfTurn, FirstLogHasOneBody};

/// Of a device that a log is on, the log of each image is what is gated, with what is in flight or without: without as
/// long as its gate isn't written. From a turn's write of the selector on it is what is gated or the head, as the
/// image's selector says. The same holds body by body: two cuts of the same bytes are two logs.
pub fn images()
    ensures log { ImagesHaveTheLog }
    ensures selector { SelectorDecides }
    ensures bodies { ImagesHaveTheBodies }
    ensures joined { LogIsItsBodies }
{}

/// A log is on a device from its start on, if the device has its batches, and an append or a record put first keeps it
/// there as long as no turn is under way.
pub fn appends()
    ensures start { StartIsOn }
    ensures append { AppendStaysOn }
    ensures put_first { PutFirstStaysOn }
{}

/// A log stays on a device, with the same batches, if a call changes no sector of the log: a read, a sync, a page's
/// write.
pub fn calls_elsewhere()
    ensures on { ElsewhereStaysOn }
    ensures batches { ElsewhereKeepsBatches }
    ensures bodies { ElsewhereKeepsBodies }
{}

/// A log begins over an image whose later gates may be open, and may turn there: so may any log that is on a device
/// with nothing in flight. Each image has what is gated, or from the selector's write on that or the head, and a call
/// elsewhere changes nothing of it.
pub fn turns()
    ensures start { StartMayTurn }
    ensures on { OnMayTurn }
    ensures images { ImagesOfTurn }
    ensures elsewhere { ElsewhereMayTurn }
    ensures batches { ElsewhereKeepsRun }
    ensures bodies { ElsewhereKeepsRunsBodies }
    ensures images_bodies { BodiesOfTurn }
{}

/// The first log of a freshly formatted device: its one record, spelled; a running log with one place taken is on that
/// device; and each image of it holds the same.
pub fn first_log()
    ensures spelled { FirstIsSpelled }
    ensures selector { SELECTOR ≡ 2 }
    ensures log { FirstLogIs }
    ensures body { FirstLogHasOneBody }
    ensures on { FirstLogIsOn }
    ensures images { ImagesHaveTheFirstLog }
{}

/// The bytes of a device's parameters determine them, and are in sector 1.
pub fn parameters()
    ensures told { BytesTellParameters }
    ensures sector { PARAMETERS ≡ 1 }
{}
