//! Streams in memory: a source in pieces, and a sink for which memory runs out.

use crate::texts::given;
use jm_bytes::{List, Text};
use jm_outside::{MemSink, MemSource, Sink, SinkError, Source};
use std::alloc::{AllocError, Global};

/// A source of some bytes, which gives at most so many at each call, or all that fit where that is
/// 0; the calls of these numbers fail.
pub fn source_of(
    alloc: Global,
    bytes: &[u8],
    piece: usize,
    failing: Vec<u64>,
) -> Result<MemSource, AllocError> {
    let cuts = if piece == 0 {
        Vec::new(alloc)
    } else {
        Vec::from_elem(alloc, piece, bytes.len())?
    };
    let bytes = given(Text::copy_of(alloc, bytes))?;
    let mut source = MemSource::new(bytes, List::from_vec(cuts));
    source.fail_on(List::from_vec(failing));
    Ok(source)
}

/// How many bytes a source still gives in so many calls, or None where one of them fails.
pub fn left_in(
    alloc: Global,
    source: &mut MemSource,
    calls: usize,
) -> Result<Option<usize>, AllocError> {
    let mut into = Vec::from_elem(alloc, 0, 65_536)?;
    let mut left = 0usize;
    for _ in 0..calls {
        match source.take(into.as_mut_slice()) {
            Ok(count) => left = left.wrapping_add(count),
            Err(_) => return Ok(None),
        }
    }
    Ok(Some(left))
}

/// A sink that finds no memory once it took so many puts.
#[derive(Drop)]
pub struct TightSink {
    pub sink: MemSink,
    pub room: u64,
}

impl Sink for TightSink {
    ghost use Rattle.jm_outside.specs.Views.{bytes_in, sink_calls};
    ghost use Rattle.std.specs.Prelude.{Some};

    ghost content = { λ tight. Some (bytes_in tight.sink) };

    ghost faults = { λ tight. (sink_calls tight.sink).faults };

    fn put(&mut self, alloc: Global, bytes: &[u8]) -> Result<(), SinkError> {
        if self.room == 0 {
            return Err(SinkError::Memory);
        }
        self.room -= 1;
        self.sink.put(alloc, bytes)
    }
}
