//! Laws of what a shared engine leaves. Each function is its contract alone.
ghost use Rattle.std.specs.Prelude.{ℕ, List};
ghost use Rattle.gx_machine.specs.declared.item.Item.{Item};
ghost use Rattle.gx_machine.specs.Machine.{Machine};
ghost use Rattle.gx_disk.specs.Device.{MayLeave};
ghost use Rattle.gx_node.specs.Reading.{format_of};
ghost use Rattle.gx_durable.specs.Classes.{reading_of};
ghost use Rattle.gx_events.specs.declared.event.Event as event;
ghost use Rattle.gx_events.specs.declared.outcome.Outcome as outcome;
ghost use Rattle.gx_machine.specs.Keys.{keys_of};
ghost use Rattle.gx_shared.specs.Books.{IsMade, Stands};
ghost use Rattle.gx_engine.specs.Made.{Makes};
ghost use Rattle.gx_engine.specs.States.{Parts};
ghost use Rattle.gx_engine_events.specs.Crashes.{StandsForSet};
ghost use Rattle.gx_engine_events.specs.Seen.{class_in};
ghost use Rattle.gx_engine_events.specs.Setting.{LeavesSetsAs, SeesAs};

use crate::EngineEvents;
use gx_class::{Probing, ReadKeys};
use gx_disk::{MemDisk, RamDisk, SectorDisk};
use gx_engine::laws::a_class_is_lawful;
use gx_events::Events;
use gx_shared::{Book, Run};

/// Whatever a crash may leave of the device of an engine that is seen as a machine stands for a set that this machine
/// keeps: an undamaged log and its pages, for one set from the last durable commit's to the last one's. This holds
/// between any two events.
pub fn a_crash_leaves_a_set_of_the_machine<D: SectorDisk, K: ReadKeys>()
    ensures { (e : Parts K.Key D) (m : Machine K.Key)
        → SeesAs K.Key.Shape K.ReadKeys D.state e m → (image : List ℕ)
        → MayLeave (D.state e.volume.shelf.disk) image
        → StandsForSet (class_in K.Key.Shape K.is_proper D.state e) (reading_of K.said (format_of K.KeyClass)) m image }
{
    a_class_is_lawful::<K>();
}

/// Within an event, whatever it is, and within a hold of a session's event: at each moment of it, whatever a crash
/// may leave of the device of an engine that was seen as a machine stands for a set that this machine keeps, one from
/// the last durable commit's to the last one's.
pub fn a_hold_leaves_sets_of_the_machine<D: SectorDisk, K: ReadKeys>()
    ensures event { (old new : Parts K.Key D) (e : event.Event K.Key) (o : outcome.Outcome K.Key) (m : Machine K.Key)
        → SeesAs K.Key.Shape K.ReadKeys D.state old m
        → Makes K.Key.Shape K.ReadKeys D.state old e o new
        → LeavesSetsAs K.Key.Shape K.ReadKeys D.state m old new }
    ensures hold { (old new : Parts K.Key D × List (Item K.Key)) (e : event.Event K.Key) (o : outcome.Outcome K.Key)
        (m : Machine K.Key) → SeesAs K.Key.Shape K.ReadKeys D.state old.0 m
        → IsMade (Makes K.Key.Shape K.ReadKeys D.state) old e o new
        → LeavesSetsAs K.Key.Shape K.ReadKeys D.state m old.0 new.0 }
{
    a_class_is_lawful::<K>();
}

/// Over a device in memory nothing is assumed: that such devices keep what they acknowledge is proved.
pub fn in_memory_all_is_granted<K: ReadKeys + Probing>()
    ensures recorded { ⟦<EngineEvents<MemDisk, K> as Events<K::Key>>⟧.granted }
    ensures plain { ⟦<EngineEvents<RamDisk, K> as Events<K::Key>>⟧.granted }
{}

/// So a book's invariant over such a device has no premise.
pub fn in_memory_a_book_stands<K: ReadKeys + Probing, R: Run<K::Key>>(
    book: &Book<K::Key, EngineEvents<MemDisk, K>, R>,
)
    ensures { Stands (keys_of K.Key.Shape) ⟦<EngineEvents<MemDisk, K> as Events<K::Key>>⟧.sees R.starts book.now.0
        book.now.1 }
{
    in_memory_all_is_granted::<K>();
    book.stands();
}
