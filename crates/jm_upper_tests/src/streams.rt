//! Sources and sinks in memory, and streams that halt.

use crate::calls::{sink_of, source_of};
use crate::told::text_of;
use jm_bytes::extend;
use jm_outside::{Sink, SinkError, Source, StdSink, StdSource, SystemError};
use std::alloc::{AllocError, Global};
use std::io;
use std::io::{ErrorKind, Read, Write};
use std::test::Fail;

/// What so many calls of a source give, each with room for two bytes, with a bar behind the bytes
/// of each call; `!` is a fault.
pub fn given_by<I: Source>(alloc: Global, source: &mut I, calls: u32) -> Result<String, Fail> {
    let mut out = Vec::new(alloc);
    for _ in 0..calls {
        let mut into = [b'_'; 2];
        match source.take(&mut into) {
            Ok(count) => extend(&mut out, &into[..count])?,
            Err(_) => extend(&mut out, b"!")?,
        }
        extend(&mut out, b"|")?;
    }
    Ok(String::from_utf8(out)?)
}

/// What a sink answers to three texts: a point, or `!` for a fault.
pub fn put_marks<O: Sink>(alloc: Global, sink: &mut O) -> Result<String, AllocError> {
    let mut marks = String::new(alloc);
    for text in [b"abc".as_slice(), b"12345", b"z"] {
        marks.push(match sink.put(alloc, text) {
            Ok(()) => '.',
            Err(SinkError::Failed) => '!',
            Err(SinkError::Memory) => '?',
        })?;
    }
    Ok(marks)
}

#[test]
fn streams_in_memory_fail_the_listed_calls(rt: HostRuntime) -> Result<(), Fail> {
    let mut source = source_of(rt.alloc(), b"hello", &[0, 3], &[1])?;
    let given = given_by(rt.alloc(), &mut source, 5)?;
    assert_eq!(rt; given.as_str(), "h|!|el|lo||", "the second take fails");
    let mut sink = sink_of(rt.alloc(), &[1])?;
    let marks = put_marks(rt.alloc(), &mut sink)?;
    assert_eq!(rt; marks.as_str(), ".!.", "the second put fails");
    let put = text_of(rt.alloc(), sink.bytes())?;
    assert_eq!(rt; put.as_str(), "abc12z", "half of the second put");
    Ok(())
}

/// A stream that a signal interrupts at first, then takes or gives one byte, and soon halts.
#[derive(Drop)]
struct Halting {
    turn: u32,
}

impl Halting {
    fn next_turn(&mut self) -> u32 {
        self.turn = self.turn.saturating_add(1);
        self.turn
    }
}

impl Read for Halting {
    fn read(&mut self, buf: &mut [u8]) -> io::Result<usize> {
        match self.next_turn() {
            1 => Err(io::Error::from(ErrorKind::Interrupted)),
            2 if !buf.is_empty() => {
                buf[0] = b'x';
                Ok(1)
            }
            _ => Err(io::Error::from(ErrorKind::PermissionDenied)),
        }
    }
}

impl Write for Halting {
    fn write(&mut self, buf: &[u8]) -> io::Result<usize> {
        match self.next_turn() {
            1 => Err(io::Error::from(ErrorKind::Interrupted)),
            2 => Ok(buf.len().min(1)),
            3 => Ok(buf.len()),
            _ => Ok(0),
        }
    }

    fn flush(&mut self) -> io::Result<()> {
        Ok(())
    }
}

#[test]
fn streams_that_halt_are_faults(rt: HostRuntime) -> Result<(), Fail> {
    let mut source = StdSource::new(Halting { turn: 0 });
    let given = given_by(rt.alloc(), &mut source, 2)?;
    assert_eq!(rt;
        given.as_str(),
        "x|!|",
        "an interrupted take goes on, and then fails"
    );
    let mut sink = StdSink::new(Halting { turn: 0 });
    let marks = put_marks(rt.alloc(), &mut sink)?;
    assert_eq!(rt;
        marks.as_str(),
        ".!!",
        "an interrupted put goes on, and the next take nothing"
    );
    let kinds = (source.last_failure(), sink.last_failure());
    let (Some(SystemError(taken)), Some(SystemError(put))) = kinds else {
        return Err(Fail::new("both streams have failed"));
    };
    assert_eq!(rt; taken.kind(), ErrorKind::PermissionDenied);
    assert_eq!(rt; put.kind(), ErrorKind::WriteZero);
    Ok(())
}
