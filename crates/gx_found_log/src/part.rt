//! The parts of a log.
ghost use Rattle.std.specs.Prelude.{◌≡◌, IfErr};
ghost use Rattle.gx_recovery.specs.Broken.{refused};
ghost use Rattle.gx_found_log.specs.Parts.{part_behind, ended};

use crate::Misfit;
use gx_recovery::LogRule;

/// The part of a log where a record is, by what may be there.
#[derive(Clone, Copy)]
pub enum Part {
    /// At the start of the first body: the counters.
    Start,
    /// Behind them in the first body: a note.
    Head,
    /// In a later body: any other record.
    Later,
}

impl Part {
    /// The part of the record behind it, in the same body.
    pub(crate) fn behind(self) -> Part
        ensures { result ≡ part_behind self }
    {
        match self {
            Part::Start | Part::Head => Part::Head,
            Part::Later => Part::Later,
        }
    }

    /// The outcome of a body that ends here, behind so many bytes. Refused if it has no counters yet.
    pub(crate) fn end_body(self, at: usize) -> Result<(), Misfit>
        ensures refusal { refused result ≡ ended self }
        ensures broken { IfErr result (λ misfit. (misfit.at ≡ at) × (misfit.rule ≡ LogRule.NoCounters)
            × (self ≡ Part.Start)) }
    {
        match self {
            Part::Start => Err(Misfit::new(at, LogRule::NoCounters)),
            Part::Head | Part::Later => Ok(()),
        }
    }
}
