ghost use Rattle.std.specs.Prelude.{◌≡◌, ◌≤◌, ◌<◌, ◌++◌, ℕ, List, [], Option, IfOk, OnOk, OnErr};
ghost use Rattle.std.specs.Prelude.{IsOk, IsErr, IsErrOf, length, take, drop, option_map};
ghost use Rattle.jm_outside.specs.Outcome.{Shows, Told, PutsFront, CountsFaults};

use jm_bytes::NoMemory;
use std::alloc::Global;
use thiserror::Error;

/// The outside failed. The object's count of faults rose in the call.
#[derive(Debug, Drop, Error)]
#[error("the outside failed")]
pub struct Failed;

/// Why a call of a sink gave up.
#[derive(Debug, Drop, Error)]
pub enum SinkError {
    /// The outside failed. The sink's count of faults rose in the call.
    #[error("the outside failed")]
    Failed,

    /// No memory was found.
    #[error("out of memory")]
    Memory,
}

impl From<NoMemory> for SinkError {
    ghost use Rattle.jm_outside.specs.declared.streams.SinkError.TheVariants.{Memory};

    ghost from_gives = { λ _ e. e ≡ Memory };

    fn from(_: NoMemory) -> SinkError {
        SinkError::Memory
    }
}

/// A source of bytes. It may tell the rest that is still to come, and counts its faults.
pub trait Source {
    // The bytes still to come, or None where the source tells nothing.
    ghost rest: { Self → Option (List ℕ) };

    // How many calls the outside failed, as far as the counter goes.
    ghost faults: { Self → ℕ };

    /// Moves so many bytes of the rest, in order, to the front of `into`, and answers their number.
    /// 0 for a slice that isn't empty is the end of the input.
    fn take(&mut self, into: &mut [u8]) -> Result<usize, Failed>
        // Told or not.
        ensures within { IfOk result (λ n. n ≤ length into.old) }

        ensures moved { IfOk result (λ n. Told (rest self.old) (rest self.new)
            (λ old new. old ≡ take n into.new ++ new)) }
        ensures behind { IfOk result (λ n. Shows (rest self.old)
            (λ _. drop n into.new ≡ drop n into.old)) }
        ensures end { IfOk result (λ n. n ≡ 0 → 0 < length into.old →
            Shows (rest self.old) (λ rest. rest ≡ [])) }
        ensures err { OnErr result (rest self.new ≡ rest self.old) }
        ensures faults { CountsFaults (faults self.old) (faults self.new) (IsOk result)
            (IsErr result) };
}

/// A sink of bytes. It may tell what was put into it, and counts its faults.
pub trait Sink {
    // The bytes that were put, or None where the sink tells nothing.
    ghost content: { Self → Option (List ℕ) };

    // How many calls the outside failed, as far as the counter goes.
    ghost faults: { Self → ℕ };

    /// Adds bytes. After `Failed` a prefix of them was added.
    fn put(&mut self, alloc: Global, bytes: &[u8]) -> Result<(), SinkError>
        ensures ok { OnOk result
            (content self.new ≡ option_map (λ old. old ++ bytes.now) (content self.old)) }
        ensures err { OnErr result (Told (content self.old) (content self.new)
            (λ old new. PutsFront old new bytes.now)) }
        ensures memory { IsErrOf result SinkError.Memory → content self.new ≡ content self.old }
        ensures faults { CountsFaults (faults self.old) (faults self.new) (IsOk result)
            (IsErrOf result SinkError.Failed) };
}
