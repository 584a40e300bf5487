//! Laws: commands over a device are a life of its index. Each function is its contract alone.
ghost use Rattle.std.specs.Prelude.{◌≡◌, List, true};
ghost use Rattle.gx_commands.specs.Endings.{FormatsOver};
ghost use Rattle.gx_commands.specs.Streams.{Outputs};
ghost use Rattle.gx_format.specs.Fresh.{fresh_root};
ghost use Rattle.gx_glog.specs.declared.parameters.Parameters.{Parameters};
ghost use Rattle.gx_machine.specs.Machine.{Machine};
ghost use Rattle.gx_opening.specs.Formatted.{IsAllowed};
ghost use Rattle.gx_script.specs.Corners.{grammar_of};
ghost use Rattle.gx_lives.specs.Bearing.{Bears};
ghost use Rattle.gx_lives.specs.Commands.{AreGiven, AreOf, AreOfAll, Command, IsGiven, LivesSo};
ghost use Rattle.gx_lives.specs.Lives.{Lies};
ghost use Rattle.gx_lives.specs.OneRun.{IsNew, IsOneRun};

use crate::laws::{an_index_lives_as_one_run, an_opening_finds_no_damage};
use gx_class::{KeyClass, ReadKeys};
use gx_disk::SectorDisk;
use gx_script::Corners;

/// A command over a device that has an index is a life. A script (`gx_commands::run_over`) is an opening; the events of
/// its lines' calls, one after another, each up to exactly the reply in the text; those of a settling, whose result
/// decides the status, unless a reply reported a fault; and the end of the engine, which leaves the device that is
/// returned. If its reader or its writer failed, it is the lines that were done, whose text was written in whole or in
/// part, and no settling. A dump (`gx_commands::dump_over`) is an opening, readings, and the end of the engine;
/// verifying (`gx_commands::verify_over`) is a reading of the device. After a refused opening nothing follows; with
/// frames in range it is refused only because a call of the device failed or memory was refused: so no device of a life
/// is examined for damage.
pub fn commands_are_lives<D: SectorDisk, B: Corners, K: ReadKeys + KeyClass<Key = B>>()
    ensures { (p : Parameters) → IsAllowed K.CLASS p → (m : Machine B) (disk after : D) (command : Command)
        → Bears B.Shape K.ReadKeys D.state p m (Lies disk)
        → IsGiven (grammar_of B.Corners) B.Shape K.ReadKeys D.state disk command after
        → LivesSo B.Shape K.ReadKeys D.state (AreOf (grammar_of B.Corners) command) disk after }
{
    an_opening_finds_no_damage::<D, K>();
}

/// If a format of an honest device (`gx_commands::format_over`) ended with status 0, the device is new: a life begins.
pub fn a_format_begins_a_life<D: SectorDisk, K: ReadKeys>()
    ensures { (p : Parameters) (disk after : D) (from to : Outputs) → (D.state disk).honest ≡ true
        → FormatsOver D.state p (fresh_root K.spelling K.start_key) disk after from to 0
        → IsNew K.KeyClass K.start_key D.state p after }
{}

/// Commands over a device that was formatted, one after another, each over what the one before it left, are one life,
/// and so one run of the set machine, whatever each of them returned, even if it was refused or cut off.
pub fn commands_are_one_life<D: SectorDisk, B: Corners, K: ReadKeys + KeyClass<Key = B>>()
    ensures { (p : Parameters) → p.class ≡ K.CLASS → (disk after : D) (commands : List Command)
        → IsNew K.KeyClass K.start_key D.state p disk
        → AreGiven (grammar_of B.Corners) B.Shape K.ReadKeys D.state disk commands after
        → (all : LivesSo B.Shape K.ReadKeys D.state (AreOfAll (grammar_of B.Corners) commands) disk after)
        × IsOneRun B.Shape K.ReadKeys D.state p all.turns (Lies after) }
{
    an_index_lives_as_one_run::<D, K>();
    commands_are_lives::<D, B, K>();
}
