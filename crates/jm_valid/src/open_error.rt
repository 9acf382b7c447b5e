use jm_bytes::NoMemory;
use jm_form::Damage;

/// Why bytes are not opened as an image.
#[derive(Clone, Copy, Debug, PartialEq, Eq)]
pub enum OpenError {
    /// This is the first damage of the bytes.
    Damaged(Damage),
    /// No memory was found for the entries' places.
    Memory,
}

impl From<NoMemory> for OpenError {
    ghost use Rattle.std.specs.Prelude.{◌≡◌};
    ghost use Rattle.jm_valid.specs.declared.open_error.OpenError.TheVariants.{Memory};

    ghost from_gives = { λ _ error. error ≡ Memory };

    fn from(_: NoMemory) -> OpenError {
        OpenError::Memory
    }
}
