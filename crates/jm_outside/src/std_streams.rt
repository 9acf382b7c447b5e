ghost use Rattle.std.specs.Prelude.{◌≡◌, ◌≤◌, None, OnOk, IfOk, IsOk, IsErr, IsErrOf, length};
ghost use Rattle.std.specs.Io.KnownBytes.{Appends, ReadConsumes};
ghost use Rattle.jm_outside.specs.Outcome.{CountsFaults};

use crate::streams::{Failed, Sink, SinkError, Source};
use crate::system_error::SystemError;
use std::alloc::Global;
use std::io;
use std::io::{ErrorKind, Read, Write};

/// The source of the bytes that a stream of the system gives, as the standard input: it tells no
/// rest. A read that a signal interrupts is tried again.
#[derive(Drop)]
pub struct StdSource<R: Read + Drop> {
    input: R,
    faults: u64,
    last_failure: Option<io::Error>,
}

/// The sink of a stream of the system, as the standard output or error: it tells no content. It
/// goes on after a write that took only a part, and flushes what it has put. It answers `Memory`
/// where the system found none.
#[derive(Drop)]
pub struct StdSink<W: Write + Drop> {
    output: W,
    faults: u64,
    last_failure: Option<io::Error>,
}

impl<R: Read + Drop> StdSource<R> {
    /// The source of this stream.
    pub fn new(input: R) -> StdSource<R>
        ensures { ⟦<StdSource<R> as Source>⟧.faults result ≡ 0 }
    {
        StdSource {
            input,
            faults: 0,
            last_failure: None,
        }
    }

    /// For a user: what the system said in the last call that answered `Failed`.
    pub fn last_failure(&self) -> Option<SystemError> {
        self.last_failure.map(|error| SystemError(error))
    }
}

impl<R: Read + Drop> Source for StdSource<R> {
    ghost rest = { λ _. None };

    ghost faults = { λ source. source.faults };

    /// What it gives is the front of what the stream has to give, and 0 is the stream's end, as far
    /// as the stream's own contract tells.
    fn take(&mut self, into: &mut [u8]) -> Result<usize, Failed>
        ensures within { IfOk result (λ n. n ≤ length into.old) }
        ensures bytes { ReadConsumes (R.remaining self.old.input) (R.remaining self.new.input)
            result into.new }
        ensures faults { CountsFaults self.old.faults self.new.faults (IsOk result) (IsErr result) }
    {
        for _ in 0..u64::MAX {
            match self.input.read(into) {
                Ok(count) => return Ok(count),
                Err(e) if e.kind() == ErrorKind::Interrupted => {}
                Err(e) => {
                    self.last_failure = Some(e);
                    break;
                }
            }
        }
        self.faults = self.faults.saturating_add(1);
        Err(Failed)
    }
}

impl<W: Write + Drop> StdSink<W> {
    /// The sink of this stream.
    pub fn new(output: W) -> StdSink<W>
        ensures { ⟦<StdSink<W> as Sink>⟧.faults result ≡ 0 }
    {
        StdSink {
            output,
            faults: 0,
            last_failure: None,
        }
    }

    /// For a user: what the system said in the last call that answered `Failed`.
    pub fn last_failure(&self) -> Option<SystemError> {
        self.last_failure.map(|error| SystemError(error))
    }
}

impl<W: Write + Drop> Sink for StdSink<W> {
    ghost content = { λ _. None };

    ghost faults = { λ sink. sink.faults };

    /// All bytes are added to what the stream has, as far as the stream's own contract tells.
    fn put(&mut self, _alloc: Global, bytes: &[u8]) -> Result<(), SinkError>
        ensures bytes { OnOk result
            (Appends (W.contents self.old.output) (W.contents self.new.output) bytes.now) }
        ensures faults { CountsFaults self.old.faults self.new.faults (IsOk result)
            (IsErrOf result SinkError.Failed) }
    {
        let answer = match self.output.write_all(bytes) {
            Ok(()) => self.output.flush(),
            Err(e) => Err(e),
        };
        match answer {
            Ok(()) => Ok(()),
            Err(e) if e.kind() == ErrorKind::OutOfMemory => Err(SinkError::Memory),
            Err(e) => {
                self.faults = self.faults.saturating_add(1);
                self.last_failure = Some(e);
                Err(SinkError::Failed)
            }
        }
    }
}
