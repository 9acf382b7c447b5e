//! What ends the search for modules, from what ends a call.
ghost use Rattle.std.specs.Prelude.{◌≡◌};

use crate::refusal::PathStop;
use jm_bytes::NoMemory;
use jm_outside::ShelfError;

impl From<NoMemory> for PathStop {
    ghost use Rattle.jm_modpath.specs.declared.refusal.PathStop.TheVariants.{Memory};

    ghost from_gives = { λ _ e. e ≡ Memory };

    fn from(_none: NoMemory) -> PathStop {
        PathStop::Memory
    }
}

impl From<ShelfError> for PathStop {
    ghost use Rattle.jm_modpath.specs.Finding.{stop_of};

    ghost from_gives = { λ error e. e ≡ stop_of error };

    fn from(error: ShelfError) -> PathStop {
        match error {
            ShelfError::Failed => PathStop::Outside,
            ShelfError::Memory => PathStop::Memory,
        }
    }
}
