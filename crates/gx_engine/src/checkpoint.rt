//! The stages of a checkpoint, and what waits for it.
ghost use Rattle.std.specs.Prelude.{◌≡◌, true};
ghost use Rattle.gx_engine.specs.States.{is_due, runs};

use crate::Engine;
use gx_class::ReadKeys;
use gx_disk::SectorDisk;
use gx_index_laws::CHECKPOINT_AT;

/// The stages of a checkpoint.
#[derive(Clone, Copy, Debug, PartialEq, Eq, Drop)]
pub enum Checkpoint {
    /// No checkpoint runs.
    Off,
    /// A checkpoint runs: it gates what is logged, and writes the dirty pages.
    Running,
    /// All pages are written and synced, and the log turns to the other extent.
    Turning,
}

impl<D: SectorDisk, K: ReadKeys> Engine<D, K> {
    // Whether a checkpoint runs.
    pub(crate) fn is_checkpointing(&self) -> bool
        ensures { result ≡ runs self.now.checkpoint }
    {
        match self.checkpoint {
            Checkpoint::Off => false,
            Checkpoint::Running | Checkpoint::Turning => true,
        }
    }

    // Whether an event that would append a record has to wait for a checkpoint: one runs, or `CHECKPOINT_AT` places of
    // the extent are taken.
    pub(crate) fn is_due(&self) -> bool
        ensures { result ≡ is_due self.now }
    {
        self.is_checkpointing() || self.storage.places() >= CHECKPOINT_AT
    }
}
