ghost use Rattle.std.specs.Prelude.{◌≡◌};
ghost use Rattle.jm_inspect.specs.Stops.{stop_of_extract, stop_of_open, stop_of_shelf};
ghost use Rattle.jm_inspect.specs.Stops.{stop_of_sink, stop_of_words};

use crate::complaint::Complaint;
use jm_bytes::{NoMemory, Or};
use jm_extract::ExtractStop;
use jm_outside::{ShelfError, SinkError};
use jm_valid::OpenError;
use jm_words::WordsFault;
use std::alloc::AllocError;

/// Why a command has not put its whole output.
#[derive(Drop)]
pub enum Stop {
    /// It ends with this complaint.
    Complaint(Complaint),
    /// A call of the outside failed.
    Outside,
    /// No memory was found.
    Memory,
}

impl From<ShelfError> for Stop {
    ghost from_gives = { λ error stop. stop ≡ stop_of_shelf error };

    fn from(error: ShelfError) -> Stop {
        match error {
            ShelfError::Failed => Stop::Outside,
            ShelfError::Memory => Stop::Memory,
        }
    }
}

impl From<SinkError> for Stop {
    ghost from_gives = { λ error stop. stop ≡ stop_of_sink error };

    fn from(error: SinkError) -> Stop {
        match error {
            SinkError::Failed => Stop::Outside,
            SinkError::Memory => Stop::Memory,
        }
    }
}

impl From<ExtractStop> for Stop {
    ghost from_gives = { λ error stop. stop ≡ stop_of_extract error };

    fn from(error: ExtractStop) -> Stop {
        match error {
            ExtractStop::Refused(refusal) => Stop::Complaint(Complaint::Refused(refusal)),
            ExtractStop::Outside => Stop::Outside,
            ExtractStop::Memory => Stop::Memory,
        }
    }
}

impl From<OpenError> for Stop {
    ghost from_gives = { λ error stop. stop ≡ stop_of_open error };

    fn from(error: OpenError) -> Stop {
        match error {
            OpenError::Damaged(damage) => Stop::Complaint(Complaint::Damaged(damage)),
            OpenError::Memory => Stop::Memory,
        }
    }
}

impl From<Or<WordsFault>> for Stop {
    ghost from_gives = { λ error stop. stop ≡ stop_of_words error };

    fn from(error: Or<WordsFault>) -> Stop {
        match error {
            Or::Fault(fault) => Stop::Complaint(Complaint::Words(fault)),
            Or::Memory => Stop::Memory,
        }
    }
}

impl From<NoMemory> for Stop {
    ghost use Rattle.jm_inspect.specs.declared.stop.Stop.TheVariants as stop;

    ghost from_gives = { λ _ is. is ≡ stop.Memory };

    fn from(_: NoMemory) -> Stop {
        Stop::Memory
    }
}

impl From<AllocError> for Stop {
    ghost use Rattle.jm_inspect.specs.declared.stop.Stop.TheVariants as stop;

    ghost from_gives = { λ _ is. is ≡ stop.Memory };

    fn from(_: AllocError) -> Stop {
        Stop::Memory
    }
}
