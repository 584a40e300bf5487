//! An engine that was opened, before its first call.
ghost use Rattle.gx_engine.specs.States.{Parts};
ghost use Rattle.gx_restart.specs.Setting.{IsOpenedAs, IsSeenIdleAs};

use gx_class::ReadKeys;
use gx_disk::SectorDisk;
use gx_engine::laws::a_class_is_lawful;

/// An engine that was opened over an honest device is seen as a machine with one set, under the number of the log that
/// was found, and eight sessions of which none has a transaction.
pub fn an_opened_engine_is_idle<D: SectorDisk, K: ReadKeys>()
    ensures { (disk : D) (engine : Parts K.Key D)
        → IsOpenedAs K.Key.Shape K.ReadKeys (D.state disk) (D.state engine.volume.shelf.disk) engine
        → IsSeenIdleAs K.Key.Shape K.ReadKeys (D.state engine.volume.shelf.disk) engine }
{
    a_class_is_lawful::<K>();
}
