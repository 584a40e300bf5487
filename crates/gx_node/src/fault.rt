//! Why a step wasn't made.
use std::alloc::AllocError;

/// Why a step of the tree wasn't made that takes neither memory nor pages.
#[derive(Clone, Copy, Debug, PartialEq, Eq)]
pub enum StepFault<F> {
    /// The pages aren't a tree: one names a page that isn't in use, or that has another level. This never happens in a
    /// legal tree.
    Damaged,
    /// A page could not be brought, or what a change needs could not be had.
    Pages(F),
}

/// A page was refused.
impl<F> From<F> for StepFault<F> {
    ghost use Rattle.std.specs.Prelude.{◌≡◌};
    ghost use Rattle.gx_node.specs.declared.fault.StepFault.TheVariants.{Pages};

    ghost from_gives = { λ fault whole. whole ≡ Pages fault };

    fn from(fault: F) -> StepFault<F> {
        StepFault::Pages(fault)
    }
}

/// Why a look wasn't made, or not to its end: it takes memory.
#[derive(Clone, Copy, Debug, PartialEq, Eq)]
pub enum LookFault<F> {
    /// Memory was refused.
    Memory,
    /// What any step is refused for.
    Step(StepFault<F>),
}

/// A step of the look was refused.
impl<F> From<StepFault<F>> for LookFault<F> {
    ghost use Rattle.std.specs.Prelude.{◌≡◌};
    ghost use Rattle.gx_node.specs.declared.fault.LookFault.TheVariants.{Step};

    ghost from_gives = { λ fault whole. whole ≡ Step fault };

    fn from(fault: StepFault<F>) -> LookFault<F> {
        LookFault::Step(fault)
    }
}

/// Memory was refused.
impl<F> From<AllocError> for LookFault<F> {
    ghost use Rattle.std.specs.Prelude.{◌≡◌};
    ghost use Rattle.gx_node.specs.declared.fault.LookFault.TheVariants.{Memory};

    ghost from_gives = { λ _ whole. whole ≡ Memory };

    fn from(_refused: AllocError) -> LookFault<F> {
        LookFault::Memory
    }
}

/// Why a node wasn't split: it takes pages.
#[derive(Clone, Copy, Debug, PartialEq, Eq)]
pub enum SplitFault<F> {
    /// A split needs more pages than are unused.
    PagesFull,
    /// What any step is refused for.
    Step(StepFault<F>),
}

/// A step of the split was refused.
impl<F> From<StepFault<F>> for SplitFault<F> {
    ghost use Rattle.std.specs.Prelude.{◌≡◌};
    ghost use Rattle.gx_node.specs.declared.fault.SplitFault.TheVariants.{Step};

    ghost from_gives = { λ fault whole. whole ≡ Step fault };

    fn from(fault: StepFault<F>) -> SplitFault<F> {
        SplitFault::Step(fault)
    }
}

/// A page was refused to the split.
impl<F> From<F> for SplitFault<F> {
    ghost use Rattle.std.specs.Prelude.{◌≡◌};
    ghost use Rattle.gx_node.specs.declared.fault.SplitFault.TheVariants.{Step};
    ghost use Rattle.gx_node.specs.declared.fault.StepFault.TheVariants.{Pages};

    ghost from_gives = { λ fault whole. whole ≡ Step (Pages fault) };

    fn from(fault: F) -> SplitFault<F> {
        SplitFault::Step(StepFault::Pages(fault))
    }
}
