//! A sink that keeps the line which it passes on.
use jm_bytes::copy_of;
use jm_outside::{Sink, SinkError};
use std::alloc::Global;

/// A sink that passes bytes on to another one, and keeps those that were put last.
#[derive(Drop)]
pub struct KeptLine<S: Sink + Drop> {
    sink: S,
    line: Option<Vec<u8>>,
}

impl<S: Sink + Drop> KeptLine<S> {
    /// Passes bytes on to this sink.
    pub fn new(sink: S) -> KeptLine<S> {
        KeptLine { sink, line: None }
    }

    /// What was put last, where memory was found for it.
    pub fn line(&self) -> Option<&[u8]> {
        match &self.line {
            Some(line) => Some(line.as_slice()),
            None => None,
        }
    }
}

impl<S: Sink + Drop> Sink for KeptLine<S> {
    ghost content = { λ kept. S.content kept.sink };

    ghost faults = { λ kept. S.faults kept.sink };

    fn put(&mut self, alloc: Global, bytes: &[u8]) -> Result<(), SinkError> {
        self.line = copy_of(alloc, bytes).ok();
        self.sink.put(alloc, bytes)
    }
}
