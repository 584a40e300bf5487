//! A count that only proofs read. It takes no bytes, so it may rise without bound.
ghost use Rattle.std.specs.Prelude.{◌≡◌, ◌+◌, ℕ, MatchResult};
ghost use base.Fml.{ftrue};

use crate::device::DiskFault;
use std::marker::Model;

/// How often something was done.
#[derive(Drop)]
pub(crate) struct Tally {
    pub(crate) ghost count: { ℕ },
}

impl Model for Tally {
    ghost also_owns = { λ _. ftrue };
}

// It owns nothing.
unsafe impl Send for Tally {}

impl Tally {
    /// Nothing was done.
    pub(crate) fn zero() -> Tally
        ensures { result.count ≡ 0 }
    {
        Tally {}
    }

    /// The count after one time more.
    pub(crate) fn next(&self) -> Tally
        ensures { result.count ≡ self.now.count + 1 }
    {
        Tally {}
    }
}

/// Returns a call's outcome. A refusal counts as one fault.
pub(crate) fn counted(faults: &mut Tally, outcome: Result<(), DiskFault>) -> Result<(), DiskFault>
    ensures outcome { result ≡ outcome }
    ensures faults { MatchResult outcome (λ _. faults.new.count ≡ faults.old.count)
        (λ _. faults.new.count ≡ faults.old.count + 1) }
{
    if let Err(fault) = outcome {
        *faults = faults.next();
        return Err(fault);
    }
    Ok(())
}
