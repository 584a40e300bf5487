//! Laws of pages with their log. Each function is its contract alone.
ghost use Rattle.gx_recovery.specs.Known.{Limits};
ghost use Rattle.gx_store.specs.State.{Shelf};
ghost use Rattle.gx_storage.specs.State.{Volume};
ghost use Rattle.gx_storage.specs.Setting.{ReadsKeepAs, ShowsKeysAs, ShowsTheLogsAs};

use gx_class::ReadKeys;
use gx_disk::SectorDisk;
use gx_durable::class_laws::what_stands_is_legal;
use gx_node::laws::{inners, leaves};

/// The tree that frames and device show is the one after all of the log's records, on the pages in use: so what the
/// tree's laws say of the one they say of the other.
pub fn a_volume_shows_the_logs_tree<D: SectorDisk, K: ReadKeys>()
    ensures { (l : Limits) (v : Volume D) → ShowsTheLogsAs K.Key.Shape K.ReadKeys D.state l v }
{
    what_stands_is_legal::<K>();
}

/// If a volume keeps a state and its store is in order, each key of the tree that frames and device show is a key of
/// the class.
pub fn a_volume_shows_keys<D: SectorDisk, K: ReadKeys>()
    ensures { (l : Limits) (v : Volume D) → ShowsKeysAs K.Key.Shape K.ReadKeys D.state l v }
{
    leaves::<K>();
    inners::<K>();
}

/// A store that has only gone on, with each page unchanged, leaves the state that its volume keeps: the log is
/// untouched, and nothing was taken or counted. This holds of what a look or a seek reads.
pub fn reads_keep<D: SectorDisk, K: ReadKeys>()
    ensures { (l : Limits) (v : Volume D) (t : Shelf D) → ReadsKeepAs K.Key.Shape K.ReadKeys D.state l v t }
{}
