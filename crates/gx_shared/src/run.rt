//! The name of a run of sessions.
ghost use Rattle.std.specs.Prelude.{◌≡◌};
ghost use Rattle.gx_machine.specs.Machine.{Machine, fresh_machine};

use std::marker::Brand;
use std::sync::ledger::Ledger;

/// Names the ledger of finished calls, and the machine that the engine was seen as when its sessions were made.
pub trait Run<B>: Ledger {
    /// Whether this is the machine at the start.
    ghost starts: { Machine B → Type 0 };
}

impl<B> Run<B> for Brand {
    ghost starts = { λ m. m ≡ fresh_machine };
}
