//! Laws of what is found on a device. Each function is its contract alone.
ghost use Rattle.gx_glog.specs.declared.parameters.Parameters.{Parameters};
ghost use Rattle.gx_opening.specs.Setting.{FoundStandsAs, SoundIsGoodAs};

use gx_class::ReadKeys;
use gx_disk::SectorDisk;
use gx_durable::class_laws::what_stands_is_legal;

/// Pages that are found sound are good for the log that was laid on them. So at each moment of the laying, whatever a
/// crash may leave that it couldn't leave before stands for what the log keeps, as it was found.
pub fn what_is_found_stands<D: SectorDisk, K: ReadKeys>()
    ensures stands { (p : Parameters) → FoundStandsAs K.Key.Shape K.ReadKeys p }
    ensures good { (p : Parameters) → SoundIsGoodAs K.Key.Shape K.ReadKeys D.state p }
{
    what_stands_is_legal::<K>();
}
