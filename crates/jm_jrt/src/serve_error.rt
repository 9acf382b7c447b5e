use jm_bytes::NoMemory;

/// Why a session ended before its input did.
#[derive(Clone, Copy, Debug, PartialEq, Eq)]
pub enum ServeError {
    /// The source failed. Its count of faults rose in the call.
    ReadFault,
    /// The sink failed. Its count of faults rose in the call.
    WriteFault,
    /// The line of this number, counted from 1, has more than 8,192 bytes.
    LongLine(u64),
    /// A line behind the 1,000,000th begins.
    TooManyLines,
    /// No memory was found.
    Memory,
}

impl From<NoMemory> for ServeError {
    ghost use Rattle.jm_jrt.specs.declared.serve_error.ServeError.TheVariants.{Memory};
    ghost use Rattle.std.specs.Prelude.{◌≡◌};

    ghost from_gives = { λ _ e. e ≡ Memory };

    fn from(_: NoMemory) -> ServeError {
        ServeError::Memory
    }
}
