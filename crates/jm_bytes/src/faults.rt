use crate::texts::NoMemory;
use std::alloc::AllocError;

/// Why a step gives nothing: a fault of what it was given, or want of memory, of which no rule
/// speaks.
#[derive(Clone, Copy, Debug, PartialEq, Eq)]
pub enum Or<F> {
    /// By this fault.
    Fault(F),
    /// No memory was found.
    Memory,
}

impl<F> From<NoMemory> for Or<F> {
    ghost use Rattle.jm_bytes.specs.declared.faults.Or.TheVariants.{Memory};
    ghost use Rattle.std.specs.Prelude.{◌≡◌};

    ghost from_gives = { λ _ e. e ≡ Memory };

    fn from(_none: NoMemory) -> Or<F> {
        Or::Memory
    }
}

impl<F> From<AllocError> for Or<F> {
    ghost use Rattle.jm_bytes.specs.declared.faults.Or.TheVariants.{Memory};
    ghost use Rattle.std.specs.Prelude.{◌≡◌};

    ghost from_gives = { λ _ e. e ≡ Memory };

    fn from(_none: AllocError) -> Or<F> {
        Or::Memory
    }
}
