//! Laws of engines that are shared. Each function is its contract alone.
ghost use Rattle.std.specs.Prelude.{◌≡◌, length};
ghost use Rattle.gx_machine.specs.declared.limits.TheConstants.{SESSIONS};
ghost use Rattle.gx_machine.specs.Machine.{Machine};
ghost use Rattle.gx_shared.specs.Books.{MayBeShared};
ghost use Rattle.gx_shared.specs.Calls.{open_calls};
ghost use Rattle.gx_shared.specs.declared.record.TheConstants.{RECORD};

use gx_events::Events;
use gx_geom::Shape;

/// An engine that is seen as a machine with eight sessions and no open call may be shared by a run that starts at the
/// machine that the engine is seen as: there is only one.
pub fn an_idle_engine_may_be_shared<B: Shape, E: Events<B>>()
    ensures { (engine : E) (m : Machine B) → E.sees engine m → length m.sessions ≡ SESSIONS → open_calls m.sessions ≡ 0
        → MayBeShared E.sees (E.sees engine) engine }
{}

/// A record has 65,536 items at most.
pub fn limits()
    ensures { RECORD ≡ 65536 }
{}
