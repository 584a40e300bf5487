//! What is put into a log's buffers, with its effect on the state that the device carries.
ghost use Rattle.std.specs.Prelude.{◌≡◌, ◌<◌};
ghost use Rattle.gx_record.specs.Format.{IsInRange, spelling};
ghost use Rattle.gx_record.specs.Seen.{rec_of};
ghost use Rattle.gx_glog.specs.declared.extent.TheConstants.{PLACES};
ghost use Rattle.gx_glog.specs.Appending.{Appends};
ghost use Rattle.gx_glog.specs.Turning.{PutsFirst};
ghost use Rattle.gx_recovery.specs.Known.{Limits};
ghost use Rattle.gx_durable.specs.Calls.{AppendPlaces, AppendStaysUp, AppendStaysStamped};
ghost use Rattle.gx_durable.specs.Opening.{HeadStaysFound};
ghost use Rattle.gx_durable.specs.Turns.{HeadGrows, HeadStaysUp};

use crate::Spelled;
use gx_glog::{Appended, Glog, Stage};
use gx_record::Record;

/// Puts a record that the log may have next into its filling buffer, and returns the place of its batch. Nothing is
/// written to the device. `NoRoom` if the log has no room for it; nothing changes then.
pub fn append<M: Spelled>(log: &mut Glog, logged: &Record<'_>) -> Appended
    requires in_range { IsInRange (rec_of logged.now) }
    requires place { log.old.used < PLACES }
    ensures appends { Appends (spelling (rec_of logged.now)) log.old log.new result }
    ensures up { (d : Limits) → AppendStaysUp (M.known d) M.reading (rec_of logged.now) log.old log.new result }
    ensures stamped { AppendStaysStamped M.reading (rec_of logged.now) log.old log.new result }
    ensures placed { AppendPlaces log.old log.new result }
{
    log.append(logged)
}

/// Appends a record to the head, which a turn makes the other extent's first batch: the counters first, and then a note
/// for each entry that an open transaction wrote, in the order of the log that is renewed. `NoRoom` if the body has no
/// room for it; nothing changes then. The start of a batch drops the head.
pub fn put_first<M: Spelled>(log: &mut Glog, logged: &Record<'_>) -> Appended
    requires in_range { IsInRange (rec_of logged.now) }
    requires idle { log.old.stage ≡ Stage.Idle }
    ensures puts { PutsFirst (spelling (rec_of logged.now)) log.old log.new result }
    ensures head { HeadGrows M.reading (rec_of logged.now) log.old log.new result }
    ensures up { (l : Limits) → HeadStaysUp (M.known l) M.reading log.old log.new }
    ensures found { (l : Limits) → HeadStaysFound (M.known l) M.reading log.old log.new }
{
    log.put_first(logged)
}
