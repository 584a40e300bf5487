//! What a crash leaves of the device of an engine in a book.
ghost use Rattle.std.specs.Prelude.{◌≡◌, true};
ghost use Rattle.gx_engine_events.specs.Setting.{OutlivesAs};

use crate::EngineEvents;
use crate::laws::a_crash_leaves_a_set_of_the_machine;
use gx_class::{Probing, ReadKeys};
use gx_disk::SectorDisk;
use gx_shared::{Book, Run};

/// Law: at every moment, if devices of this kind keep what they acknowledge, replaying a book's record from the machine
/// that the run names gives a machine that its engine is seen as. Whatever a crash may leave of the engine's device
/// then stands for a set that this machine keeps, from the last durable commit's to the last one's; and each commit
/// that the record acknowledges is durable.
pub fn outlives_a_crash<D: SectorDisk, K: ReadKeys + Probing, R: Run<K::Key>>(
    book: &Book<K::Key, EngineEvents<D, K>, R>,
)
    ensures { ((d : D) → (D.state d).honest ≡ true)
        → OutlivesAs K.Key.Shape K.ReadKeys D.state R.starts book.now.0 book.now.1 }
{
    a_crash_leaves_a_set_of_the_machine::<D, K>();
    book.stands();
}
